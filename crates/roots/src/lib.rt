// The whole-number square root by the school method: two decimal digits of a number for each digit of its root, from the left.
#![tactic(auto)]

ghost use Rattle.std.specs.Prelude.{ℕ, suc, ◌+◌, ◌*◌, ◌/◌, ◌%◌, ◌≤◌, slice_index, ◌≡◌, ◌^◌, ◌<◌};
ghost use Rattle.roots.specs.Root.{root_of};
ghost use Rattle.roots.specs.School.{behind_first, taken, digit_of, school_of};

// Of the digits of a number of 64 bits: it has at most 20.
pub const MOST_PAIRS: usize = 10;

// A pair of digits, the digit of the root that is found for it, and what is left of all digits brought down so far.
#[repr(C)]
#[derive(Clone, Copy, Default)]
pub struct Step {
    pub pair: u64,
    pub digit: u64,
    pub rest: u64,
}

// A root and the steps that lead to it; behind the last there are zeros.
#[repr(C)]
#[derive(Clone, Copy)]
pub struct Working {
    pub root: u64,
    pub count: u64,
    pub steps: [Step; MOST_PAIRS],
}

// The greatest digit d with (20 × root + d) × d at most the rest. As (t + d) × d + 25 is (t + 10) × d + (5 - d)², the one that is tried first
// is never too small, and once there is a root it is too great by one at the most.
fn digit(root: u64, rest: u64) -> u64
    requires root_bound { root < 2 ^ 32 }
    requires rest_bound { rest < taken root 10 }
    ensures { result ≡ digit_of root rest }
{
    let t = 20 * root;
    // Kept: a search downward that ends after three turns at the most; as `rev` and `find` on a range it would answer an `Option`.
    let mut d = (rest + 25) / (t + 10);
    while rest < (t + d) * d {
        d -= 1;
    }
    d
}

// How many pairs of digits stand behind the first; 0 has one pair, as 1 has.
fn behind_first(h: u64) -> u32
    ensures { result ≡ behind_first h }
{
    h.max(1).ilog(100)
}

// The `count` pairs of digits of a number, the first one left; they are parted from the right.
// Kept: `iter_mut` and `rev` give the places without their numbers, which the invariant speaks of.
fn parted(h: u64, count: usize) -> [u64; MOST_PAIRS]
    requires { count ≤ 10 }
    ensures { (k j : ℕ) → k + suc j ≡ count → slice_index result k ≡ h / 100 ^ j % 100 }
{
    let mut pairs = [0; MOST_PAIRS];
    let mut left = h;
    for at in (0..count).rev() {
        pairs[at] = left % 100;
        left /= 100;
    }
    pairs
}

// The root of a number and the steps that lead to it, as they are taught.
pub fn steps(h: u64) -> Working
    ensures { result ≡ school_of h }
{
    let count = behind_first(h) as usize + 1;
    let pairs = parted(h, count);
    let mut steps = [Step::default(); MOST_PAIRS];
    let mut root: u64 = 0;
    let mut rest: u64 = 0;
    for (at, &pair) in pairs[..count].iter().enumerate() {
        // bring down two digits
        let brought = rest * 100 + pair;
        // find the digit
        let d = digit(root, brought);
        // subtract
        rest = brought - (20 * root + d) * d;
        // append
        root = 10 * root + d;
        steps[at] = Step {
            pair,
            digit: d,
            rest,
        };
    }
    Working {
        root,
        count: count as u64,
        steps,
    }
}

// The greatest number whose square is at most `h`.
pub fn root(h: u64) -> u64
    ensures { result ≡ root_of h }
{
    steps(h).root
}
