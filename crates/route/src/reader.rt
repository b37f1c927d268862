// The lines after line 1: all of them are read, then the lent buffer is filled, then it is measured.
ghost use Rattle.std.specs.Prelude.{◌≡◌, ◌++◌, ◌+◌, ◌*◌, ◌≤◌, length, take, drop};
ghost use Rattle.std.proofs.lemmas.List.Edits.{sets};
ghost use Rattle.points.specs.Points.{numbers, most_points};
ghost use Rattle.globe.specs.Paper.{length_paper};
ghost use Rattle.numbers.specs.Pieces.{LF, split};
ghost use Rattle.route.specs.Line.{fresh};
ghost use Rattle.route.specs.LineLaws.{numbers_of};
ghost use Rattle.route.specs.Route.{most_bytes, walk_from, answer_of, left_by};
ghost use Rattle.route.specs.WalkLaws.{end_of, came, few_in};

use crate::lines::{Before, Line, State, after, fresh, read_line, third};
use crate::{Refused, Route};
use globe::measure;
use numbers::Mark;
use numbers::pieces::{LF, find};
use points::{NUMBERS, put};
use refusals::Refusal;

// What stands after the last LF is a line without LF; a last `g` names its own line; then the points must have room.
fn ending(rest: &[u8], line: u32, st: State, room: usize) -> Result<State, Refused>
    requires le_line { 1 ≤ line }
    requires points_le_most_points { st.points ≤ most_points }
    ensures { result ≡ end_of room line rest.now st }
{
    if rest.len() != 0 {
        return Err(Refused {
            refusal: Refusal::Line,
            line,
        });
    }
    if matches!(st.before, Before::Gap) {
        return Err(Refused {
            refusal: Refusal::Order,
            line: line - 1,
        });
    }
    if room < NUMBERS * (st.points as usize) {
        return Err(Refused {
            refusal: Refusal::Room,
            line: 0,
        });
    }
    Ok(st)
}

// The numbers of a line into our own buffer, behind those of the points so far.
#[tactic(auto, using(points::proofs::PointLaws::put_in))]
fn put_line(own: &mut [i32], st: State, line: Line)
    requires { numbers * st.points + length (numbers_of st line) ≤ length own.old }
    ensures { own.new ≡ sets own.old (numbers * st.points) (numbers_of st line) }
{
    let i = st.points as usize;
    let third = third(st.before);
    if let Line::Point(latitude, longitude) = line {
        put(own, i, latitude, longitude, third);
    }
}

// Each line is read once: it is judged, and its numbers go into a buffer of our own. The points are to have room for so many numbers.
#[tactic(auto, using(numbers::proofs::PieceLaws::onward_less, crate::proofs::LineLaws::seen_line, crate::proofs::LineLaws::seen_after, crate::proofs::LineLaws::line_few, crate::proofs::LineLaws::line_counted, crate::proofs::WalkLaws::end_came, crate::proofs::WalkLaws::end_few, crate::proofs::WalkLaws::walk_last, crate::proofs::WalkLaws::walk_step, crate::proofs::WalkLaws::walk_refused))]
fn read_lines(text: &[u8], mark: Mark, room: usize, own: &mut [i32]) -> Result<State, Refused>
    requires text_len_bound { length text.now ≤ most_bytes }
    requires most_points_in_bounds { numbers * most_points ≤ length own.old }
    ensures walked { came result own.new ≡ walk_from mark room 2 fresh (split LF text.now) }
    ensures few { few_in result }
{
    let mut rest = text;
    let mut line: u32 = 2;
    let mut st = fresh();
    // Kept: what stands behind the last LF is judged otherwise than a line, so an iterator over pieces would ask of each whether it is the last.
    loop {
        let e = find(rest, LF);
        if e == rest.len() {
            return ending(rest, line, st, room);
        }
        let l = match read_line(&rest[..e], mark, st) {
            Ok(l) => l,
            Err(refusal) => return Err(Refused { refusal, line }),
        };
        put_line(own, st, l);
        st = after(st, l);
        line += 1;
        rest = &rest[e + 1..];
    }
}

// The first `n` numbers of our own buffer into the lent one.
fn copy(own: &[i32], n: usize, buffer: &mut [i32])
    requires n_in_bounds { n ≤ length own.now }
    requires n_in_bounds_2 { n ≤ length buffer.old }
    ensures { buffer.new ≡ take n own.now ++ drop n buffer.old }
{
    buffer[..n].copy_from_slice(&own[..n]);
}

// 0 beside a refusal; the points of a text that was accepted have none.
fn millimetres(length: Result<u64, Refusal>) -> u64
    ensures { result ≡ (length_paper length).millimetres }
{
    length.unwrap_or(0)
}

// Nothing is written to the lent buffer before all lines are accepted and there is room for their points.
#[tactic(auto, using(crate::specs::Route::accepted, crate::proofs::LineLaws::seen_count, crate::proofs::RouteLaws::walked, crate::proofs::RouteLaws::measured))]
pub(crate) fn read_body(
    text: &[u8],
    mark: Mark,
    own: &mut [i32],
    buffer: &mut [i32],
) -> Result<Route, Refused>
    requires text_len_bound { length text.now ≤ most_bytes }
    requires most_points_in_bounds { numbers * most_points ≤ length own.old }
    ensures answer { result ≡ answer_of (walk_from mark (length buffer.old) 2 fresh (split LF text.now)) }
    ensures left { buffer.new ≡ left_by buffer.old (walk_from mark (length buffer.old) 2 fresh (split LF text.now)) }
{
    let st = read_lines(text, mark, buffer.len(), own)?;
    let numbers = NUMBERS * (st.points as usize);
    copy(own, numbers, buffer);
    Ok(Route {
        points: st.points,
        length: millimetres(measure(&buffer[..numbers])),
        target: st.target,
    })
}
