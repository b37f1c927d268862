// How many bytes a route's text has. They are counted before any is written, and are as many under either mark.
ghost use Rattle.std.specs.Prelude.{◌≡◌, ◌≤◌, length};
ghost use Rattle.points.specs.Points.{count};
ghost use Rattle.numbers.specs.declared.Mark.TheVariants as M;
ghost use Rattle.writer.specs.RouteText.{target_lines, point_lines, ended, route_text};
ghost use Rattle.writer.specs.TextSteps.{point_text};

use crate::Text;
use crate::lines::has_gap;
use crate::target::Target;
use numbers::Kind;
use numerals::size;
use points::Points;

// Line 1 with its LF.
const HEADER: usize = 12;

#[tactic(auto, using(signed::specs::Machine::kept, crate::proofs::TextSteps::target_size, crate::proofs::TextSteps::target_short))]
fn target_size(target: &Target) -> usize
    ensures size { result ≡ length (ended (target_lines M.Point target.now)) }
    ensures most { result ≤ 10 }
{
    let Some(metres) = target.metres() else {
        return 0;
    };
    // `t`, tab, LF
    3 + size(metres, Kind::Target)
}

// With the gap before it.
#[tactic(auto, using(signed::specs::Machine::kept, numerals::proofs::OneWayLaws::numeral_most, crate::proofs::TextSteps::size_with, crate::proofs::TextSteps::size_without))]
fn point_size(points: &Points, i: usize) -> usize
    ensures { result ≡ length (point_text M.Point points.now i) }
{
    // `p`, two tabs, LF
    let line = 4
        + size(points.latitude(i), Kind::Latitude)
        + size(points.longitude(i), Kind::Longitude);
    if has_gap(points, i) {
        return 2 + line;
    }
    line
}

#[tactic(auto, using(points::proofs::PointLaws::accepted, crate::proofs::RouteTextLaws::points_most, crate::proofs::TextSteps::points_size))]
fn points_size(points: &Points) -> usize
    ensures size { result ≡ length (ended (point_lines M.Point points.now (count points.now))) }
    ensures most { result ≤ 29_000 }
{
    let mut sum = 0;
    for i in 0..points.count() {
        sum += point_size(points, i);
    }
    sum
}

impl<'a> Text<'a> {
    // How many bytes it has.
    #[tactic(auto, using(crate::proofs::RouteTextLaws::text_length))]
    pub(crate) fn size(&self) -> usize
        ensures { result ≡ length (route_text M.Point self.now.target self.now.points) }
    {
        HEADER + target_size(&self.target) + points_size(&self.points)
    }
}
