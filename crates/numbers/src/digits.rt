// Digits: read from the left, with a mark among them, and with a sign.
ghost use Rattle.std.specs.Prelude.{◌≡◌, ◌+◌, ◌*◌, ◌^◌, ◌≤◌, ◌<◌, pos, length};
ghost use Rattle.numbers.specs.Number.{named_byte};
ghost use Rattle.numbers.specs.DigitLaws.{most_digits, is_digit, value_from, leading};
ghost use Rattle.numbers.specs.NumberLaws.{signed, amount_of};

use crate::{Kind, Mark};

// The most digits before the mark.
const WHOLES: usize = 3;

// How many digits were read, and what they make.
#[derive(Clone, Copy)]
pub(crate) struct Digits {
    pub count: usize,
    pub value: u64,
}

fn is_digit(b: u8) -> bool
    ensures { result ≡ is_digit b }
{
    b.is_ascii_digit()
}

// The digits that stand first, at most `most`, read on from those that make `n`.
fn leading(s: &[u8], most: usize, n: u64) -> Digits
    requires { (n + 1) * 10 ^ most ≤ 10 ^ most_digits }
    ensures many { result.count ≡ length (leading most s.now) }
    ensures read { result.value ≡ value_from n (leading most s.now) }
{
    let first = &s[..most.min(s.len())];
    let mut value = n;
    for (i, b) in first.iter().enumerate() {
        if !is_digit(*b) {
            return Digits { count: i, value };
        }
        value = value * 10 + u64::from(*b - b'0');
    }
    Digits {
        count: first.len(),
        value,
    }
}

// Digits, then nothing, or the mark and digits.
#[tactic(auto, using(crate::proofs::DigitLaws::leading_most, crate::proofs::NumberLaws::no_digit, crate::proofs::NumberLaws::plain_none, crate::proofs::NumberLaws::plain_other, crate::proofs::NumberLaws::plain_whole, crate::proofs::NumberLaws::plain_bare, crate::proofs::NumberLaws::plain_bad))]
pub(crate) fn plain(s: &[u8], kind: Kind, mark: Mark) -> Option<u64>
    ensures { result ≡ amount_of kind (named_byte mark) s.now }
{
    let places = kind.places();
    let whole = leading(s, WHOLES, 0);
    let m = whole.count;
    if m == 0 {
        return None;
    }
    if m == s.len() {
        return Some(whole.value * 10u64.pow(places as u32));
    }
    if s[m] != mark.named() {
        return None;
    }
    let decimals = &s[m + 1..];
    let both = leading(decimals, places, whole.value);
    let d = both.count;
    if d == 0 || d != decimals.len() {
        return None;
    }
    Some(both.value * 10u64.pow((places - d) as u32))
}

// So few digits fit 64 bits with either sign.
pub(crate) fn with_sign(minus: bool, n: u64) -> i64
    requires { n < 10 ^ most_digits }
    ensures { result ≡ signed minus (pos n) }
{
    let z = n as i64;
    if minus { -z } else { z }
}
