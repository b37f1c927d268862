// Sines by the table: the long and the short sine of a size, of an angle all the way round, and the cosine of a latitude. They are looked up
// in half ticks, of which two are a tick.
ghost use Rattle.std.specs.Prelude.{◌≡◌, true, ◌≤◌, ◌-◌, nat_abs};
ghost use Rattle.sines.specs.Sine.{quarter, long_sine, quarter_halves, long_sine_half};
ghost use Rattle.ticks.specs.Ticks.{is_latitude, is_angle, folded};
ghost use Rattle.globe.specs.Angle.{signed_long_sine, short_cosine, long_around, short_around};

use signed::{size32, with_sign_of};
use sines::entry;
use ticks::{NORTH, fold};

pub(crate) const ROWS: usize = 4_500;

pub(crate) const STEP: u64 = 200_000;

pub(crate) const QUARTER: u32 = NORTH as u32;

// The same in half ticks.
pub(crate) const STEP_HALVES: u64 = 2 * STEP;

pub(crate) const QUARTER_HALVES: u32 = 2 * QUARTER;

pub(crate) const SHORTENING: u64 = 10_000;

// f × (entry k+1 - entry k) is below 400,000 × 10^13, which fits.
#[tactic(auto, using(sines::proofs::Rules::growth, sines::proofs::Rules::last, sines::proofs::Rules::entry_top, sines::proofs::SineLaws::long_sine_half_quarter), unfolding(sines::specs::Sine::sine_by, sines::specs::SineLaws::between))]
pub(crate) fn long_sine_half_of(a: u32) -> u64
    requires a_le_quarter_halves { a ≤ quarter_halves }
    ensures { result ≡ long_sine_half a }
{
    let a = a as u64;
    let k = (a / STEP_HALVES) as usize;
    let low = entry(k);
    if k == ROWS {
        return low;
    }
    let gap = entry(k + 1) - low;
    low + a % STEP_HALVES * gap / STEP_HALVES
}

#[tactic(auto, using(sines::proofs::SineLaws::halves))]
pub(crate) fn long_sine_of(a: u32) -> u64
    requires a_le_quarter { a ≤ quarter }
    ensures { result ≡ long_sine a }
{
    long_sine_half_of(2 * a)
}

// From -90 to 90 degrees.
#[derive(Clone, Copy)]
pub(crate) struct Latitude {
    pub(crate) ticks: i32,
    ghost in_range: { is_latitude ticks ≡ true },
}

// From -180 to 180 degrees.
#[derive(Clone, Copy)]
pub(crate) struct Angle {
    pub(crate) ticks: i64,
    ghost in_range: { is_angle ticks ≡ true },
}

impl Latitude {
    #[tactic(auto, using(signed::specs::Machine::at64, signed::specs::SignLaws::as_fits, signed::specs::SignLaws::nearest_self, sines::proofs::SineLaws::long_sine_top, ticks::proofs::TickLaws::latitude_fits, ticks::proofs::TickLaws::latitude_size))]
    pub(crate) fn long_sine(self) -> i64
        ensures { result ≡ signed_long_sine self.ticks }
    {
        with_sign_of(self.ticks as i64, long_sine_of(size32(self.ticks)))
    }

    #[tactic(auto, using(ticks::proofs::TickLaws::latitude_fits, ticks::proofs::TickLaws::latitude_size))]
    pub(crate) fn long_cosine(self) -> u64
        ensures { result ≡ long_sine (quarter - nat_abs self.ticks) }
    {
        long_sine_of(QUARTER - size32(self.ticks))
    }

    #[tactic(auto, unfolding(crate::specs::Angle::short_cosine))]
    pub(crate) fn short_cosine(self) -> u64
        ensures { result ≡ short_cosine self.ticks }
    {
        self.long_cosine() / SHORTENING
    }
}

impl Angle {
    // The latitude that has its sine.
    #[tactic(auto, using(signed::specs::Machine::kept, ticks::proofs::TickLaws::latitude_fits, ticks::proofs::TickLaws::folded_latitude))]
    fn folded(self) -> Latitude
        ensures { result.ticks ≡ folded self.ticks }
    {
        Latitude {
            ticks: fold(self.ticks) as i32,
        }
    }

    // × 10^13.
    pub(crate) fn long_sine(self) -> i64
        ensures { result ≡ long_around self.ticks }
    {
        self.folded().long_sine()
    }

    // × 10^9. Division drops toward zero, so that south mirrors north.
    pub(crate) fn short_sine(self) -> i64
        ensures { result ≡ short_around self.ticks }
    {
        self.long_sine() / (SHORTENING as i64)
    }
}
