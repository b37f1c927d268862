// A number in a text: the decimal marks, the kinds of field, and one field read exactly or refused.
#![tactic(auto)]

ghost use Rattle.std.specs.Prelude.{◌≡◌};
ghost use Rattle.numbers.specs.Number.{named_byte, other_byte, places, takes_minus, number_of};
ghost use Rattle.numbers.specs.NumberLaws.{range_refusal, fault_of};

mod digits;
pub mod pieces;

use digits::{plain, with_sign};
use pieces::{has, starts};
use refusals::Refusal;
use ticks::{is_latitude, is_longitude};

// The decimal mark that line 1 names.
#[derive(Clone, Copy)]
pub enum Mark {
    Point,
    Comma,
}

// What a field says, in degrees or in kilometres.
#[derive(Clone, Copy)]
pub enum Kind {
    Latitude,
    Longitude,
    Target,
}

impl Mark {
    // Its byte.
    pub fn named(self) -> u8
        ensures { result ≡ named_byte self }
    {
        match self {
            Mark::Point => b'.',
            Mark::Comma => b',',
        }
    }

    fn other(self) -> u8
        ensures { result ≡ other_byte self }
    {
        match self {
            Mark::Point => b',',
            Mark::Comma => b'.',
        }
    }
}

impl Kind {
    // The most digits after the mark.
    fn places(self) -> usize
        ensures { result ≡ places self }
    {
        match self {
            Kind::Latitude | Kind::Longitude => 7,
            Kind::Target => 3,
        }
    }

    fn takes_minus(self) -> bool
        ensures { result ≡ takes_minus self }
    {
        matches!(self, Kind::Latitude | Kind::Longitude)
    }

    // Whether the value is in range.
    fn check(self, value: i64) -> Result<(), Refusal>
        ensures { result ≡ range_refusal self value }
    {
        match self {
            Kind::Latitude if !is_latitude(value) => Err(Refusal::Latitude),
            Kind::Longitude if !is_longitude(value) => Err(Refusal::Longitude),
            _ => Ok(()),
        }
    }
}

// What is refused of a field that is not a number.
fn fault(text: &[u8], mark: Mark) -> Refusal
    ensures { result ≡ fault_of mark text.now }
{
    if has(text, mark.other()) {
        Refusal::Mark
    } else {
        Refusal::Number
    }
}

// The number that a field says, in units of the last decimal that its kind allows: ticks, or a target's metres.
// A number holds no other mark, so that is looked for only in a field that is none.
#[tactic(auto, using(signed::specs::Machine::kept, crate::proofs::NumberLaws::ranged_is, crate::proofs::NumberLaws::plain_small, crate::proofs::NumberLaws::number_value, crate::proofs::NumberLaws::number_fault))]
pub fn read(text: &[u8], kind: Kind, mark: Mark) -> Result<i64, Refusal>
    ensures { result ≡ number_of kind mark text.now }
{
    let minus = kind.takes_minus() && starts(text, b'-');
    let from = usize::from(minus);
    let Some(n) = plain(&text[from..], kind, mark) else {
        return Err(fault(text, mark));
    };
    let value = with_sign(minus, n);
    kind.check(value)?;
    Ok(value)
}
