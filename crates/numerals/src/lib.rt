// A number's text: how long it is, and its writing into the start of a lent output, one way for each value.
#![tactic(auto)]

ghost use Rattle.std.specs.Prelude.{◌≡◌, length};
ghost use Rattle.numbers.specs.declared.Mark.TheVariants as M;
ghost use Rattle.numerals.specs.Numeral.{numeral_of};
ghost use Rattle.refusals.specs.Choice.{fine};
ghost use Rattle.numerals.specs.Output.{writing_of, output_of};
ghost use Rattle.numerals.specs.Paper.{writing_paper};

mod digits;

use digits::Parts;
use numbers::{Kind, Mark};
use refusals::Refusal;

// A writing in the paper's own numbers, as it goes out to C: 0 beside a refusal.
#[repr(C)]
#[derive(Clone, Copy)]
pub struct WritingOut {
    pub refusal: u32,
    pub bytes: u64,
}

impl From<Result<usize, Refusal>> for WritingOut {
    ghost from_gives = { λ writing out. out ≡ writing_paper writing };

    fn from(writing: Result<usize, Refusal>) -> WritingOut {
        match writing {
            Ok(n) => WritingOut {
                refusal: 0,
                bytes: n as u64,
            },
            Err(refusal) => WritingOut {
                refusal: refusal.number(),
                bytes: 0,
            },
        }
    }
}

// How many bytes the text of a value has, under either mark.
#[tactic(auto, using(crate::proofs::NumeralSteps::any_mark))]
pub fn size(value: i32, kind: Kind) -> usize
    ensures { result ≡ length (numeral_of kind M.Point value) }
{
    Parts::cut(value, kind).bytes()
}

// The text of a value into the start of the output, which has to have room for all of it.
#[tactic(auto, using(crate::proofs::NumeralSteps::any_mark, crate::proofs::OutputLaws::room_refused, crate::proofs::OutputLaws::text_written, crate::proofs::OutputLaws::output_sets))]
pub fn write(value: i32, kind: Kind, mark: Mark, out: &mut [u8]) -> Result<usize, Refusal>
    ensures answer { result ≡ writing_of fine (numeral_of kind mark value) 0 out.old }
    ensures left { out.new ≡ output_of fine (numeral_of kind mark value) 0 out.old }
{
    let parts = Parts::cut(value, kind);
    let n = parts.bytes();
    if out.len() < n {
        return Err(Refusal::Output);
    }
    parts.put(out, mark.named());
    Ok(n)
}
