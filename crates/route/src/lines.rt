// One line after line 1, judged by the lines before it.
ghost use Rattle.std.specs.Prelude.{◌≡◌, ◌≤◌};
ghost use Rattle.points.specs.Points.{most_points};
ghost use Rattle.numbers.specs.Pieces.{TAB, split};
ghost use Rattle.route.specs.Line.{gap_of, target_of, point_of, fields_of, third_of};
ghost use Rattle.route.specs.LineLaws.{start, state_after};

use crate::METRE;
use numbers::pieces::{TAB, find, has, is_byte};
use numbers::{Kind, Mark, read};
use points::MOST_POINTS;
use refusals::Refusal;
use signed::size64;

// What the line before is, by which the next one is judged.
#[derive(Clone, Copy)]
pub(crate) enum Before {
    Header,
    Target,
    Point,
    Gap,
}

// What a line is read as.
#[derive(Clone, Copy)]
pub(crate) enum Line {
    Target(u64),
    Point(i32, i32),
    Gap,
}

// What the lines so far leave for the next one.
#[derive(Clone, Copy)]
pub(crate) struct State {
    pub before: Before,
    pub points: u32,
    pub target: Option<u64>,
}

#[tactic(auto, unfolding(crate::specs::Line::gap_of))]
fn gap(kind: &[u8], before: Before) -> Result<Line, Refusal>
    ensures { result ≡ gap_of before kind.now }
{
    if !is_byte(kind, b'g') {
        return Err(Refusal::Line);
    }
    if !matches!(before, Before::Point) {
        return Err(Refusal::Order);
    }
    Ok(Line::Gap)
}

#[tactic(auto, using(signed::specs::Machine::kept, numbers::proofs::NumberLaws::number_size), unfolding(crate::specs::Line::target_of))]
fn target(kind: &[u8], field: &[u8], mark: Mark, before: Before) -> Result<Line, Refusal>
    ensures { result ≡ target_of mark before kind.now field.now }
{
    if !is_byte(kind, b't') {
        return Err(Refusal::Line);
    }
    if !matches!(before, Before::Header) {
        return Err(Refusal::Order);
    }
    let metres = read(field, Kind::Target, mark)?;
    // no minus, so its size is the number itself
    Ok(Line::Target(METRE * size64(metres)))
}

#[tactic(auto, using(signed::specs::Machine::kept, signed::specs::Machine::at32, ticks::proofs::TickLaws::latitude_fits, ticks::proofs::TickLaws::longitude_fits, numbers::proofs::NumberLaws::number_in, numbers::proofs::NumberLaws::latitude_in, numbers::proofs::NumberLaws::longitude_in), unfolding(crate::specs::Line::point_of))]
fn point(kind: &[u8], first: &[u8], second: &[u8], mark: Mark, points: u32) -> Result<Line, Refusal>
    ensures { result ≡ point_of mark points kind.now first.now second.now }
{
    if !is_byte(kind, b'p') {
        return Err(Refusal::Line);
    }
    if MOST_POINTS <= points as usize {
        return Err(Refusal::Points);
    }
    let y = read(first, Kind::Latitude, mark)?;
    let x = read(second, Kind::Longitude, mark)?;
    Ok(Line::Point(y as i32, x as i32))
}

// The number of fields decides which kind the line can be.
#[tactic(auto, using(numbers::proofs::PieceLaws::held_within, numbers::proofs::PieceLaws::none_held, crate::proofs::LineLaws::last_says, crate::proofs::LineLaws::one_field, crate::proofs::LineLaws::two_fields, crate::proofs::LineLaws::three_fields, crate::proofs::LineLaws::more_fields))]
pub(crate) fn read_line(s: &[u8], mark: Mark, st: State) -> Result<Line, Refusal>
    ensures { result ≡ fields_of mark st.before st.points (split TAB s.now) }
{
    let before = st.before;
    let i = find(s, TAB);
    if i == s.len() {
        return gap(s, before);
    }
    let kind = &s[..i];
    let fields = &s[i + 1..];
    let j = find(fields, TAB);
    if j == fields.len() {
        return target(kind, fields, mark, before);
    }
    let last = &fields[j + 1..];
    match point(kind, &fields[..j], last, mark, st.points) {
        // a longitude holds no tab, so another is looked for only in a line that is refused
        Err(_) if has(last, TAB) => Err(Refusal::Line),
        line => line,
    }
}

// Before line 2.
pub(crate) fn fresh() -> State
    ensures { result ≡ start }
{
    State {
        before: Before::Header,
        points: 0,
        target: None,
    }
}

// Kept: the bound on the points is asked for, since which line may follow is judged by `read_line` and not by the state.
pub(crate) fn after(st: State, line: Line) -> State
    requires { st.points ≤ most_points }
    ensures { result ≡ state_after st line }
{
    match line {
        Line::Target(millimetres) => State {
            before: Before::Target,
            points: st.points,
            target: Some(millimetres),
        },
        Line::Point(_, _) => State {
            before: Before::Point,
            points: st.points + 1,
            target: st.target,
        },
        Line::Gap => State {
            before: Before::Gap,
            points: st.points,
            target: st.target,
        },
    }
}

// 1 for the first point and after `g`, else 0.
pub(crate) fn third(before: Before) -> i32
    ensures { result ≡ third_of before }
{
    match before {
        Before::Point => 0,
        _ => 1,
    }
}
