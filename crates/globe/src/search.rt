// A search by halving, over any test; and by it the ways back, by a search of the table of sines for the last row at or below a number.
ghost use Rattle.std.specs.Prelude.{◌≡◌, Bool, ℕ, true, false, ◌+◌, ◌≤◌, ◌<◌};
ghost use Rattle.sines.specs.Sine.{step, step_halves};
ghost use Rattle.sines.specs.BackLaws.{LastRow, LastAngle};

use crate::lookup::{QUARTER_HALVES, ROWS, STEP_HALVES};
use sines::entry;

// The last number below `count` at which `test` holds, 0 where it holds at none. What has failed at a number fails at every later one, so each
// turn halves what is left: it is among the `left` from `low` on. A turn goes on alike from either half, so that over the rows of the table
// it compiles to no branch, since none could be foretold.
// Kept: std's `partition_point` searches a slice, and the angles of a row are none.
pub(crate) fn last<F: Fn(usize) -> bool>(count: usize, test: F) -> usize
    requires some { 0 < count }
    requires callable { (k : ℕ) → k < count → F.pre test k }
    requires falls { (a b : ℕ) (r : Bool) → a ≤ b → b < count → F.post test a false → F.post test b r → r ≡ false }
    ensures inside { result < count }
    ensures holds { 0 < result → F.post test result true }
    ensures fails { result + 1 < count → F.post test (result + 1) false }
{
    let mut low: usize = 0;
    let mut left = count;
    while 1 < left {
        let half = left / 2;
        if test(low + half) {
            low += half;
        }
        left -= half;
    }
    low
}

// The last row whose entry is at most `y`.
#[tactic(auto, using(sines::proofs::Rules::first))]
fn last_row(y: u64) -> usize
    ensures { LastRow y result }
{
    last(ROWS + 1, |k| entry(k) <= y)
}

// The last angle up to 90 degrees, in half ticks, whose long sine is at most `y`. Off the last row `y` is below the next entry, which is at most
// 10^13, so that the product fits.
#[tactic(auto, using(sines::proofs::Rules::last, sines::proofs::Rules::entry_top, sines::proofs::SineLaws::some_halves, sines::proofs::BackLaws::last_angle_top, sines::proofs::BackLaws::gap_some, sines::proofs::BackLaws::units, sines::proofs::BackLaws::last_angle))]
pub(crate) fn last_half(y: u64) -> u32
    ensures { LastAngle step_halves y result }
{
    let k = last_row(y);
    if k == ROWS {
        return QUARTER_HALVES;
    }
    let low = entry(k);
    let gap = entry(k + 1) - low;
    let f = ((y - low + 1) * STEP_HALVES - 1) / gap;
    (k as u64 * STEP_HALVES + f) as u32
}

// The same in ticks.
#[tactic(auto, using(sines::proofs::BackLaws::whole_ticks))]
pub(crate) fn last_angle(y: u64) -> u32
    ensures { LastAngle step y result }
{
    last_half(y) / 2
}
