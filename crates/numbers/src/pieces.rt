// Bytes of a text: finding one, and telling what a piece is.
ghost use Rattle.std.specs.Prelude.{◌≡◌, not, ◌≤◌, length, take};
ghost use Rattle.numbers.specs.Pieces.{index_of, holds, is_byte, same};
ghost use Rattle.numbers.specs.PieceLaws.{NoneBefore};

pub const LF: u8 = b'\n';

pub const TAB: u8 = b'\t';

// So many bytes are looked at together: the compiler then compares them at once.
// Kept: `position` alone takes half as long again over the lines and the fields of a route.
const STRIDE: usize = 8;

// No `b` stands in the stride. All of it is looked at, since the compiler compares no bytes at once where the loop may end early.
#[tactic(auto, using(crate::proofs::PieceLaws::holds_more))]
fn lacks(stride: &[u8; STRIDE], b: u8) -> bool
    ensures { result ≡ not (holds b stride.now) }
{
    let mut none = true;
    for x in stride {
        none &= *x != b;
    }
    none
}

// A place that no `b` stands before, less than a stride from the first `b` or the end.
fn skip(s: &[u8], b: u8) -> usize
    ensures { NoneBefore b s.now result }
{
    let (strides, _) = s.as_chunks::<STRIDE>();
    strides
        .iter()
        .position(|stride| !lacks(stride, b))
        .unwrap_or(strides.len())
        * STRIDE
}

// The place of the first `b`, or the length where there is none.
pub fn find(s: &[u8], b: u8) -> usize
    ensures place { result ≡ index_of b s.now }
    ensures within { result ≤ length s.now }
{
    let from = skip(s, b);
    let rest = &s[from..];
    from + rest.iter().position(|x| *x == b).unwrap_or(rest.len())
}

// `b` stands anywhere.
#[tactic(auto, using(crate::proofs::PieceLaws::holds_any))]
pub fn has(s: &[u8], b: u8) -> bool
    ensures { result ≡ holds b s.now }
{
    s.contains(&b)
}

// The first byte is `b`.
pub(crate) fn starts(s: &[u8], b: u8) -> bool
    ensures { result ≡ is_byte b (take 1 s.now) }
{
    s.first() == Some(&b)
}

// The one byte is `b`.
#[tactic(auto, using(crate::proofs::PieceLaws::byte_other))]
pub fn is_byte(s: &[u8], b: u8) -> bool
    ensures { result ≡ is_byte b s.now }
{
    matches!(s, [x] if *x == b)
}

// Byte by byte. The last two laws tell a body that goes over the pairs.
#[tactic(auto, using(crate::proofs::PieceLaws::same_pointwise, crate::proofs::PieceLaws::same_or_differ, crate::proofs::PieceLaws::same_long))]
pub fn equal(a: &[u8], b: &[u8]) -> bool
    ensures { result ≡ same a.now b.now }
{
    a == b
}
