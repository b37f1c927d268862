// The length of a leg.
ghost use Rattle.std.specs.Prelude.{◌≡◌, true, ◌*◌, ◌/◌, ◌≤◌};
ghost use Rattle.sines.specs.Sine.{quarter_halves, leg_unit, leg_sine};
ghost use Rattle.sines.specs.Back.{greatest_angle};
ghost use Rattle.ticks.specs.Ticks.{is_latitude, is_longitude};
ghost use Rattle.globe.specs.Leg.{half_north, half_east, leg_cosine, chord, length_of, leg_length, ends_refusal};

use crate::accepted::{Accepted, Leg};
use crate::lookup::{QUARTER_HALVES, long_sine_half_of};
use crate::search::last_half;
use crate::{DEGREE, DEGREE_LENGTH};
use roots::root;
use signed::size64;
use ticks::TURN;

// In the length rule alone a short sine is the long one over 5,000, so that 2 × 10^9 is a sine of 1.
const LEG_SHORTENING: u64 = 5_000;

const LEG_UNIT: u64 = 2_000_000_000;

// Kept: half ticks of a quarter at the most are asked of three functions; a type for them would be made from a number in each call, and be no plainer.
fn leg_sine(a: u32) -> u64
    requires a_le_quarter_halves { a ≤ quarter_halves }
    ensures { result ≡ leg_sine a }
{
    long_sine_half_of(a) / LEG_SHORTENING
}

impl Accepted {
    #[tactic(auto, unfolding(crate::specs::Leg::leg_cosine))]
    fn leg_cosine(self) -> u64
        ensures { result ≡ leg_cosine self.latitude.ticks }
    {
        self.latitude.long_cosine() / LEG_SHORTENING
    }
}

// m × s / (2 × 10^9) with the product exact: it reaches 8 × 10^27, so s is split at 2 × 10^9 and each part fits.
#[tactic(auto, using(crate::proofs::LegLaws::split, crate::proofs::LegLaws::high, crate::proofs::LegLaws::low))]
fn scaled(m: u64, s: u64) -> u64
    requires m_le_leg_unit { m ≤ leg_unit }
    requires s_bound { s ≤ leg_unit * leg_unit }
    ensures { result ≡ m * s / leg_unit }
{
    m * (s / LEG_UNIT) + m * (s % LEG_UNIT) / LEG_UNIT
}

// H, from m and the two half angles: at most 8 × 10^18.
#[tactic(auto, using(crate::proofs::LegLaws::square_top, crate::proofs::LegLaws::chord_top))]
fn chord_of(m: u64, p: u32, q: u32) -> u64
    requires m_le_leg_unit { m ≤ leg_unit }
    requires p_le_quarter_halves { p ≤ quarter_halves }
    requires q_le_quarter_halves { q ≤ quarter_halves }
    ensures { result ≡ chord m p q }
{
    let a = leg_sine(p);
    let b = leg_sine(q);
    a * a + scaled(m, b * b)
}

// The greatest angle up to 90 degrees, in half ticks, whose short sine is at most `r`: its long sine is below (r + 1) × 5,000.
#[tactic(auto, using(sines::proofs::SineLaws::some_halves, sines::proofs::BackLaws::last_angle_top, sines::proofs::BackLaws::greatest_angle_lem))]
fn greatest_angle(r: u64) -> u32
    ensures { result ≡ greatest_angle r }
{
    if LEG_UNIT <= r {
        return QUARTER_HALVES;
    }
    last_half(r * LEG_SHORTENING + (LEG_SHORTENING - 1))
}

// From H to millimetres. The arc is twice u half ticks, which are u ticks: at most 1.8 × 10^9, so that the product is about 2 × 10^17.
fn length_of(h: u64) -> u64
    ensures { result ≡ length_of h }
{
    greatest_angle(root(h)) as u64 * DEGREE_LENGTH / DEGREE
}

impl Leg {
    // Half a difference has as many half ticks as the whole has ticks.
    fn half_north(self) -> u32
        ensures { result ≡ half_north self.start.latitude.ticks self.end.latitude.ticks }
    {
        size64((self.start.latitude.ticks as i64) - (self.end.latitude.ticks as i64)) as u32
    }

    // The difference reaches 3,599,999,999; the smaller way round is at most half a turn.
    #[tactic(auto, using(crate::proofs::LegLaws::east_apart, crate::proofs::LegLaws::read_apart, ticks::proofs::TickLaws::longitude_fits))]
    fn half_east(self) -> u32
        ensures { result ≡ half_east self.start.longitude self.end.longitude }
    {
        let d = size64((self.start.longitude as i64) - (self.end.longitude as i64));
        let other = TURN as u64 - d;
        if d <= other { d as u32 } else { other as u32 }
    }

    #[tactic(auto, using(crate::proofs::LegLaws::north_top, crate::proofs::LegLaws::east_top, crate::proofs::LegLaws::product_top), unfolding(crate::specs::Leg::leg_length))]
    pub(crate) fn length(self) -> u64
        ensures { result ≡ leg_length self.start.latitude.ticks self.start.longitude self.end.latitude.ticks self.end.longitude }
    {
        let m = self.start.leg_cosine() * self.end.leg_cosine() / LEG_UNIT;
        length_of(chord_of(m, self.half_north(), self.half_east()))
    }
}
