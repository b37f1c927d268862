// A route's text: read exactly, or refused with a number and a line.
#![tactic(auto)]

ghost use Rattle.std.specs.Prelude.{◌≡◌, ◌*◌, ◌≤◌, length};
ghost use Rattle.points.specs.Points.{numbers, most_points};
ghost use Rattle.route.specs.Route.{reading_of, buffer_of};
ghost use Rattle.route.specs.Paper.{reading_paper};
ghost use Rattle.route.specs.WalkLaws.{header_of};

mod lines;
mod reader;

use numbers::Mark;
use numbers::pieces::{LF, equal, find};
use points::MOST_NUMBERS;
use refusals::Refusal;

// A route that was read: how many points it has, its length in millimetres, and its target, if it has one, in millimetres too.
#[derive(Clone, Copy)]
pub struct Route {
    pub points: u32,
    pub length: u64,
    pub target: Option<u64>,
}

// What is refused of a text, and the line: 0 where it is no line's fault.
#[derive(Clone, Copy)]
pub struct Refused {
    pub refusal: Refusal,
    pub line: u32,
}

// A reading in the paper's own numbers, as it goes out to C: 0 in every value beside a refusal, has_target 1 or 0.
#[repr(C)]
#[derive(Clone, Copy)]
pub struct ReadingOut {
    pub refusal: u32,
    pub line: u32,
    pub points: u32,
    pub has_target: u32,
    pub length: u64,
    pub target: u64,
}

impl From<Result<Route, Refused>> for ReadingOut {
    ghost from_gives = { λ reading out. out ≡ reading_paper reading };

    fn from(reading: Result<Route, Refused>) -> ReadingOut {
        match reading {
            Ok(route) => ReadingOut {
                refusal: 0,
                line: 0,
                points: route.points,
                has_target: u32::from(route.target.is_some()),
                length: route.length,
                target: route.target.unwrap_or(0),
            },
            Err(refused) => ReadingOut {
                refusal: refused.refusal.number(),
                line: refused.line,
                points: 0,
                has_target: 0,
                length: 0,
                target: 0,
            },
        }
    }
}

pub const MOST_BYTES: usize = 60_000;

// Millimetres in a metre: a target is in kilometres, its third decimal a metre.
pub const METRE: u64 = 1_000;

#[tactic(auto, unfolding(crate::specs::WalkLaws::header_of))]
fn read_header(line: &[u8]) -> Option<Mark>
    ensures { result ≡ header_of line.now }
{
    if equal(line, b"route\tpoint") {
        return Some(Mark::Point);
    }
    if equal(line, b"route\tcomma") {
        return Some(Mark::Comma);
    }
    None
}

// Kept: our own buffer is a slice like the lent one, so that a wrong program can hand one over for the other.
#[tactic(auto, using(crate::proofs::WalkLaws::too_long, crate::proofs::WalkLaws::no_line, crate::proofs::WalkLaws::unknown, crate::proofs::WalkLaws::named), unfolding(crate::specs::Route::reading_of, crate::specs::Route::buffer_of))]
fn read_text(text: &[u8], own: &mut [i32], lent: &mut [i32]) -> Result<Route, Refused>
    requires { numbers * most_points ≤ length own.old }
    ensures answer { result ≡ reading_of text.now (length lent.old) }
    ensures left { lent.new ≡ buffer_of text.now lent.old }
{
    if MOST_BYTES < text.len() {
        return Err(Refused {
            refusal: Refusal::Text,
            line: 0,
        });
    }
    // Kept, here and where a line and its fields are cut: `find` answers the length for none, which is a place to cut at too.
    let e = find(text, LF);
    if e == text.len() {
        return Err(Refused {
            refusal: Refusal::Header,
            line: 1,
        });
    }
    let Some(mark) = read_header(&text[..e]) else {
        return Err(Refused {
            refusal: Refusal::Header,
            line: 1,
        });
    };
    reader::read_body(&text[e + 1..], mark, own, lent)
}

// The route that a text says. Of an accepted one, the buffer has the points from its start on. Nothing else in the buffer changes, and nothing
// at all where the text is refused.
pub fn read(text: &[u8], buffer: &mut [i32]) -> Result<Route, Refused>
    ensures answer { result ≡ reading_of text.now (length buffer.old) }
    ensures left { buffer.new ≡ buffer_of text.now buffer.old }
{
    // the numbers of the most points, made before anything is judged: docs/DECISIONS.md, "A large local is made first"
    let mut own = [0i32; MOST_NUMBERS];
    read_text(text, &mut own, buffer)
}
