// The text of a value by its parts: how many digits stand before and after the mark, and the bytes of them all.
ghost use Rattle.std.specs.Prelude.{◌≡◌, true, ◌+◌, ◌-◌, ◌*◌, ◌/◌, ◌%◌, ◌^◌, ◌≤◌, ◌<◌, length};
ghost use Rattle.std.proofs.lemmas.List.Edits.{sets};
ghost use Rattle.numbers.specs.declared.Mark.{Mark};
ghost use Rattle.numbers.specs.Number.{places, named_byte};
ghost use Rattle.numerals.specs.Numeral.{digits, width, numeral_of};
ghost use Rattle.numerals.specs.NumeralSteps.{most, topmost, sign_text};

use numbers::Kind;
use signed::size32;

// With three decimals or more, a value of 32 bits has no more digits on either side of the mark.
const MOST: usize = 7;
// What the first of so many is worth.
const FIRST: u64 = 1_000_000;
// The least number that has more.
const MORE: u64 = 10_000_000;

// How many digits are written, the first ones of `MOST` that make the value.
// Kept: `numbers::digits::Digits` has these fields too, but its value is what the digits make, and making that type public for this is no plainer.
#[derive(Clone, Copy)]
pub(crate) struct Digits {
    pub count: usize,
    pub value: u64,
    ghost few: { count ≤ most },
    ghost below: { value < 10 ^ most },
}

// What stands before the mark and after it.
#[derive(Clone, Copy)]
pub(crate) struct Parts {
    pub minus: bool,
    pub whole: Digits,
    pub decimals: Digits,
}

impl Digits {
    ghost use Rattle.numerals.specs.PartsText.{marked_text};

    // All digits of `n`, and no zero before them but a lone one.
    // Kept: `checked_ilog10` and `pow` take twice as long.
    fn whole(n: u64) -> Self
        requires { n < 10 ^ most }
        ensures many { result.count ≡ width most n }
        ensures lifted { result.value ≡ n * 10 ^ (most - result.count) }
    {
        let mut value = n * FIRST;
        let mut count = 1;
        while MORE <= value {
            value /= 10;
            count += 1;
        }
        Digits { count, value }
    }

    // The digits of `n`, up to the last that is not 0.
    // Kept: std counts no digits at the end, and no index runs here: the loop ends by the number.
    #[tactic(auto, using(crate::proofs::NumeralSteps::shorn_on, crate::proofs::NumeralSteps::shorn_off))]
    fn shorn(n: u64) -> Self
        requires { n < 10 ^ most }
        ensures many { result.count ≡ length (digits true most n) }
        ensures same { result.value ≡ n }
    {
        let mut rest = n;
        let mut count = MOST;
        while 0 < count && rest % 10 == 0 {
            rest /= 10;
            count -= 1;
        }
        Digits { count, value: n }
    }

    // From the left, onto the place `at` and those after it.
    fn put(self, out: &mut [u8], at: usize)
        requires { at + self.count ≤ length out.old }
        ensures { out.new ≡ sets out.old at (topmost self.count self.value) }
    {
        let mut rest = self.value;
        for byte in &mut out[at..at + self.count] {
            *byte = b'0' + ((rest / FIRST) as u8);
            rest = rest % FIRST * 10;
        }
    }

    // Behind the mark; no decimals have no mark.
    fn put_marked(self, out: &mut [u8], at: usize, mark: u8)
        requires { at + length (marked_text self mark) ≤ length out.old }
        ensures { out.new ≡ sets out.old at (marked_text self mark) }
    {
        if self.count == 0 {
            return;
        }
        out[at] = mark;
        self.put(out, at + 1);
    }
}

// Of a value without its sign, what stands before the mark.
fn before_mark(n: u64, kind: Kind) -> u64
    ensures { result ≡ n / 10 ^ places kind }
{
    match kind {
        Kind::Latitude | Kind::Longitude => n / 10_000_000,
        Kind::Target => n / 1_000,
    }
}

// What stands after it, in units of the last of `MOST` decimals.
fn after_mark(n: u64, kind: Kind) -> u64
    ensures { result ≡ n % 10 ^ places kind * 10 ^ (most - places kind) }
{
    match kind {
        Kind::Latitude | Kind::Longitude => n % 10_000_000,
        Kind::Target => n % 1_000 * 10_000,
    }
}

// How many bytes the sign has.
fn put_sign(out: &mut [u8], minus: bool) -> usize
    requires { length (sign_text minus) ≤ length out.old }
    ensures many { result ≡ length (sign_text minus) }
    ensures left { out.new ≡ sets out.old 0 (sign_text minus) }
{
    if minus {
        out[0] = b'-';
        return 1;
    }
    0
}

impl Parts {
    ghost use Rattle.numerals.specs.PartsText.{parts_text};

    // What the text of a value is made of, under either mark.
    pub(crate) fn cut(value: i32, kind: Kind) -> Self
        ensures { (mark : Mark) → parts_text result (named_byte mark) ≡ numeral_of kind mark value }
    {
        let n = u64::from(size32(value));
        Parts {
            minus: value < 0,
            whole: Digits::whole(before_mark(n, kind)),
            decimals: Digits::shorn(after_mark(n, kind)),
        }
    }

    // How many bytes they are.
    #[tactic(auto, using(crate::proofs::NumeralSteps::parts_added))]
    pub(crate) fn bytes(self) -> usize
        ensures { result ≡ length (parts_text self 0) }
    {
        let sign = usize::from(self.minus);
        let decimals = self.decimals.count;
        let marked = if decimals == 0 { 0 } else { 1 + decimals };
        sign + self.whole.count + marked
    }

    #[tactic(auto, using(crate::proofs::NumeralSteps::parts_length, crate::proofs::NumeralSteps::after_all))]
    pub(crate) fn put(self, out: &mut [u8], mark: u8)
        requires { length (parts_text self mark) ≤ length out.old }
        ensures { out.new ≡ sets out.old 0 (parts_text self mark) }
    {
        let whole = self.whole;
        let at = put_sign(out, self.minus);
        whole.put(out, at);
        self.decimals.put_marked(out, at + whole.count, mark);
    }
}
