// Input and output for the programs: a route that is read, and the pieces of what is printed. Of standard input and output no contract
// can say what is read or printed, but of a reader and a writer whose bytes are known each says it.
#![tactic(auto)]

ghost use Rattle.std.specs.Prelude.{◌≡◌, ◌+◌, ◌<◌, ◌≤◌, ◌++◌, length, take, drop, decimal, codes, IfSome, IfOk, OnOk};
ghost use Rattle.std.specs.Io.KnownBytes.{Appends, Consumes, IsAtEnd};
ghost use Rattle.streams.specs.Input.{Came, CameOf};

use route::{MOST_BYTES, Refused, Route};
use std::fmt::InlineText;
use std::io;
use std::io::{Read, Write};

// One read, behind the `at` bytes that have come.
fn read_at<R: Read>(input: &mut R, bytes: &mut [u8], at: usize) -> io::Result<usize>
    requires { at < length bytes.old }
    ensures front { take at bytes.new ≡ take at bytes.old }
    ensures bound { IfOk result (λ n. at + n ≤ length bytes.new) }
    ensures came { IfOk result (λ n. Consumes (R.remaining input.old) (R.remaining input.new) (take n (drop at bytes.new))) }
    ensures end { IfOk result (λ n. n ≡ 0 → IsAtEnd (R.remaining input.new)) }
{
    input.read(&mut bytes[at..])
}

// Reads until the input ends or `bytes` is full, and answers how many bytes came.
// Kept: each step goes on by what was read, which no `for` does, and the library's `read_to_end` needs a heap.
fn read_all<R: Read>(input: &mut R, bytes: &mut [u8]) -> io::Result<usize>
    ensures bound { IfOk result (λ n. n ≤ length bytes.new) }
    ensures came { IfOk result (λ n. Consumes (R.remaining input.old) (R.remaining input.new) (take n bytes.new)) }
    ensures end { IfOk result (λ n. n < length bytes.new → IsAtEnd (R.remaining input.new)) }
{
    let mut done = 0;
    while done < bytes.len() {
        let more = read_at(input, bytes, done)?;
        if more == 0 {
            return Ok(done);
        }
        done += more;
    }
    Ok(done)
}

// Reads a route; its points go into the buffer. What is refused of the text stands within, beside an input that cannot be read.
pub fn read_route<R: Read>(input: &mut R, buffer: &mut [i32]) -> io::Result<Result<Route, Refused>>
    ensures came { Came result buffer.old buffer.new }
    ensures known { IfSome (R.remaining input.old) (λ text. CameOf text result buffer.old buffer.new) }
{
    // one byte more than a route may have, so that a longer one is refused
    let mut bytes = [0u8; MOST_BYTES + 1];
    let n = read_all(input, &mut bytes)?;
    Ok(route::read(&bytes[..n], buffer))
}

// Each answers whether it could be printed; after an error some of it may have been.
pub fn text<W: Write>(out: &mut W, s: &[u8]) -> io::Result<()>
    ensures { OnOk result (Appends (W.contents out.old) (W.contents out.new) s.now) }
{
    out.write_all(s)
}

pub fn number<W: Write>(out: &mut W, n: u64) -> io::Result<()>
    ensures { OnOk result (Appends (W.contents out.old) (W.contents out.new) (decimal n)) }
{
    write!(out, "{n}")
}

pub fn field<W: Write>(out: &mut W, n: u64) -> io::Result<()>
    ensures { OnOk result (Appends (W.contents out.old) (W.contents out.new) (codes "\t" ++ decimal n)) }
{
    write!(out, "\t{n}")
}

// The line of a refusal: its number and its line.
// Kept: it takes numbers and no `Refused`, since a caller may print any two.
pub fn refused<W: Write>(out: &mut W, refusal: u32, line: u32) -> io::Result<()>
    ensures { OnOk result (Appends (W.contents out.old) (W.contents out.new)
        (codes "refused\t" ++ (decimal refusal ++ (codes "\t" ++ (decimal line ++ codes "\n"))))) }
{
    writeln!(out, "refused\t{refusal}\t{line}")
}

// A line on standard error: what failed and the system's reason. std prints the reason's number behind it, which is cut off.
pub fn fail(rt: &impl Eprint, what: &str, error: io::Error)
    ensures { Unit {0} }
{
    let said = InlineText::<128>::of(error);
    let all = said.as_str();
    let reason = all
        .split_once(" (os error ")
        .map_or(all, |(words, _)| words);
    let _ = eprintln!(rt; "{what}: {reason}");
}
