// A route's text: its length, and its writing into a lent output from a given place onward, or what refuses it.
#![tactic(auto)]

ghost use Rattle.std.specs.Prelude.{◌≡◌, ◌-◌};
ghost use Rattle.refusals.specs.Choice.{answered};
ghost use Rattle.numerals.specs.Output.{writing_of, output_of};
ghost use Rattle.writer.specs.RouteText.{route_text, text_refusal};
ghost use Rattle.writer.specs.Room.{size_of};

mod lines;
mod sizes;
mod target;

use crate::target::Target;
use numbers::Mark;
use points::Points;
use refusals::Refusal;

// The most bytes that the text of 1,000 points has: room for every route.
pub const MOST_WRITTEN: usize = 29_020;

// What a text is written from, where nothing refuses it.
#[derive(Drop)]
pub(crate) struct Text<'a> {
    points: Points<'a>,
    target: Target,
}

impl<'a> Text<'a> {
    #[tactic(auto, unfolding(crate::specs::RouteText::text_refusal))]
    fn new(points: &'a [i32], target: Option<u64>) -> Result<Text<'a>, Refusal>
        ensures { result ≡ answered (text_refusal target points.now) (record { points = points.now; target = target }) }
    {
        Ok(Text {
            points: Points::new(points)?,
            target: Target::new(target)?,
        })
    }
}

// How many bytes the text of a route has, by the pass that `write` begins with. They are as many under either mark.
#[tactic(auto, using(crate::proofs::TextSteps::text_either), unfolding(crate::specs::Room::size_of))]
pub fn size(points: &[i32], target: Option<u64>, mark: Mark) -> Result<usize, Refusal>
    ensures { result ≡ size_of mark target points.now }
{
    Ok(Text::new(points, target)?.size())
}

// The text of a route into the output from the place on. Nothing else in the output changes, and nothing at all where the text is refused.
#[tactic(auto, using(numerals::proofs::OutputLaws::room_refused, numerals::proofs::OutputLaws::text_written, numerals::proofs::OutputLaws::output_sets, crate::proofs::RouteTextLaws::text_length, crate::proofs::TextSteps::text_either))]
pub fn write(
    points: &[i32],
    target: Option<u64>,
    mark: Mark,
    out: &mut [u8],
    place: usize,
) -> Result<usize, Refusal>
    ensures answer { result ≡ writing_of (text_refusal target points.now) (route_text mark target points.now) place out.old }
    ensures left { out.new ≡ output_of (text_refusal target points.now) (route_text mark target points.now) place out.old }
{
    let text = Text::new(points, target)?;
    let n = text.size();
    if out.len().saturating_sub(place) < n {
        return Err(Refusal::Output);
    }
    text.put(out, place, mark);
    Ok(n)
}
