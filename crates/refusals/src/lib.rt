// What is refused, in the order of the document's table, and the number that is sent back for each. 0 is sent where nothing is refused.
#![tactic(auto)]

ghost use Rattle.std.specs.Prelude.{◌≡◌, Some, decimal};
ghost use Rattle.refusals.specs.Refusal.{number};
ghost use Rattle.refusals.specs.Choice.{first_of};

use std::fmt;

#[derive(Clone, Copy, Debug, PartialEq, Eq)]
pub enum Refusal {
    Text,
    Header,
    Line,
    Number,
    Mark,
    Latitude,
    Longitude,
    Order,
    Points,
    Room,
    Place,
    Window,
    Divisor,
    Meridian,
    Output,
    Target,
    Buffer,
    Course,
}

impl Refusal {
    // The number that is sent back.
    pub fn number(self) -> u32
        ensures { result ≡ number self }
    {
        match self {
            Refusal::Text => 1,
            Refusal::Header => 2,
            Refusal::Line => 3,
            Refusal::Number => 4,
            Refusal::Mark => 5,
            Refusal::Latitude => 6,
            Refusal::Longitude => 7,
            Refusal::Order => 8,
            Refusal::Points => 9,
            Refusal::Room => 10,
            Refusal::Place => 11,
            Refusal::Window => 12,
            Refusal::Divisor => 13,
            Refusal::Meridian => 14,
            Refusal::Output => 15,
            Refusal::Target => 16,
            Refusal::Buffer => 17,
            Refusal::Course => 18,
        }
    }
}

impl fmt::Display for Refusal {
    ghost output = { λ r. Some (decimal (number r)) };

    fn fmt<W: fmt::Write>(&self, f: &mut fmt::Formatter<W>) -> fmt::Result {
        write!(f, "{}", self.number())
    }
}

// The first of two refusals, which `?` is where both are asked for in one function.
pub fn first_of(a: Result<(), Refusal>, b: Result<(), Refusal>) -> Result<(), Refusal>
    ensures { result ≡ first_of a b }
{
    if a.is_ok() { b } else { a }
}
