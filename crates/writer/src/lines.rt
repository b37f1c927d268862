// The lines of a route's text into the output, each from a place on; what follows goes to the place that is answered.
// Kept: an output and a place, since a struct of both would be lent anew for each line, and its contracts would say the same of both.
ghost use Rattle.std.specs.Prelude.{◌≡◌, [], ◌∷◌, ◌++◌, ◌+◌, ◌≤◌, length};
ghost use Rattle.std.proofs.lemmas.List.Edits.{sets};
ghost use Rattle.points.specs.Points.{count};
ghost use Rattle.numbers.specs.Pieces.{LF};
ghost use Rattle.route.specs.Words.{header_text};
ghost use Rattle.writer.specs.RouteText.{field_of, target_lines, point_line, point_lines, ended, route_text};
ghost use Rattle.writer.specs.TextSteps.{has_gap, point_text};

use crate::Text;
use crate::target::Target;
use numbers::pieces::{LF, TAB};
use numbers::{Kind, Mark};
use numerals::write;
use points::Points;

// A value, and the tab before it.
fn put_field(out: &mut [u8], at: usize, value: i32, kind: Kind, mark: Mark) -> usize
    requires { at + length (field_of kind mark value) ≤ length out.old }
    ensures next { result ≡ at + length (field_of kind mark value) }
    ensures left { out.new ≡ sets out.old at (field_of kind mark value) }
{
    out[at] = TAB;
    let from = at + 1;
    // where there is room, a number is not refused
    from + write(value, kind, mark, &mut out[from..]).unwrap_or(0)
}

fn put_bytes(out: &mut [u8], at: usize, s: &[u8]) -> usize
    requires { at + length s.now ≤ length out.old }
    ensures next { result ≡ at + length s.now }
    ensures left { out.new ≡ sets out.old at s.now }
{
    let end = at + s.len();
    out[at..end].copy_from_slice(s);
    end
}

#[tactic(auto, using(crate::proofs::RouteTextLaws::header_length))]
fn put_header(out: &mut [u8], at: usize, mark: Mark) -> usize
    requires { at + length (ended (header_text mark ∷ [])) ≤ length out.old }
    ensures next { result ≡ at + length (ended (header_text mark ∷ [])) }
    ensures left { out.new ≡ sets out.old at (ended (header_text mark ∷ [])) }
{
    match mark {
        Mark::Point => put_bytes(out, at, b"route\tpoint\n"),
        Mark::Comma => put_bytes(out, at, b"route\tcomma\n"),
    }
}

#[tactic(auto, using(numerals::proofs::Stands::stands_none, numerals::proofs::Stands::stands_byte, numerals::proofs::Stands::stands_more, numerals::proofs::Stands::stands_length, numerals::proofs::Stands::stands_as, numerals::proofs::Stands::stands_all))]
fn put_target(out: &mut [u8], at: usize, target: &Target, mark: Mark) -> usize
    requires { at + length (ended (target_lines mark target.now)) ≤ length out.old }
    ensures next { result ≡ at + length (ended (target_lines mark target.now)) }
    ensures left { out.new ≡ sets out.old at (ended (target_lines mark target.now)) }
{
    let Some(metres) = target.metres() else {
        return at;
    };
    out[at] = b't';
    let end = put_field(out, at + 1, metres, Kind::Target, mark);
    out[end] = LF;
    end + 1
}

#[tactic(auto, using(numerals::proofs::Stands::stands_none, numerals::proofs::Stands::stands_byte, numerals::proofs::Stands::stands_more, numerals::proofs::Stands::stands_length, numerals::proofs::Stands::stands_all, crate::proofs::RouteTextLaws::point_length))]
fn put_line(out: &mut [u8], at: usize, latitude: i32, longitude: i32, mark: Mark) -> usize
    requires { at + length (point_line mark latitude longitude ++ LF ∷ []) ≤ length out.old }
    ensures next { result ≡ at + length (point_line mark latitude longitude ++ LF ∷ []) }
    ensures left { out.new ≡ sets out.old at (point_line mark latitude longitude ++ LF ∷ []) }
{
    out[at] = b'p';
    let middle = put_field(out, at + 1, latitude, Kind::Latitude, mark);
    let end = put_field(out, middle, longitude, Kind::Longitude, mark);
    out[end] = LF;
    end + 1
}

// A `g` line stands before the point.
pub(crate) fn has_gap(points: &Points, i: usize) -> bool
    ensures { result ≡ has_gap points.now i }
{
    (1 <= i) & (points.third(i) == 1)
}

// With the gap before it.
fn put_point(out: &mut [u8], at: usize, points: &Points, i: usize, mark: Mark) -> usize
    requires { at + length (point_text mark points.now i) ≤ length out.old }
    ensures next { result ≡ at + length (point_text mark points.now i) }
    ensures left { out.new ≡ sets out.old at (point_text mark points.now i) }
{
    let y = points.latitude(i);
    let x = points.longitude(i);
    if has_gap(points, i) {
        out[at] = b'g';
        out[at + 1] = LF;
        return put_line(out, at + 2, y, x, mark);
    }
    put_line(out, at, y, x, mark)
}

fn put_points(out: &mut [u8], at: usize, points: &Points, mark: Mark)
    requires { at + length (ended (point_lines mark points.now (count points.now))) ≤ length out.old }
    ensures { out.new ≡ sets out.old at (ended (point_lines mark points.now (count points.now))) }
{
    let mut next = at;
    for i in 0..points.count() {
        next = put_point(out, next, points, i, mark);
    }
}

impl<'a> Text<'a> {
    pub(crate) fn put(&self, out: &mut [u8], at: usize, mark: Mark)
        requires { at + length (route_text mark self.now.target self.now.points) ≤ length out.old }
        ensures { out.new ≡ sets out.old at (route_text mark self.now.target self.now.points) }
    {
        let second = put_header(out, at, mark);
        let third = put_target(out, second, &self.target, mark);
        put_points(out, third, &self.points, mark);
    }
}
