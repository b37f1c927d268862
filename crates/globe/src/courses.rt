// Which way to set off on a leg.
ghost use Rattle.std.specs.Prelude.{◌≡◌, true, ◌≤◌, pos, nat_abs, ◌*ℤ◌};
ghost use Rattle.std.specs.Int.Signed.{lt_z};
ghost use Rattle.sines.specs.Sine.{quarter, short_unit};
ghost use Rattle.sines.specs.SlopeLaws.{most_size};
ghost use Rattle.ticks.specs.Ticks.{is_angle, offset_of};
ghost use Rattle.globe.specs.Angle.{short_cosine, short_around};
ghost use Rattle.globe.specs.Course.{over, offset_cosine, eastward, northward, in_quarter, set_off};

use crate::SHORT_UNIT;
use crate::accepted::Leg;
use crate::lookup::{Angle, Latitude, QUARTER};
use crate::slope::Sizes;
use refusals::Refusal;
use signed::size64;
use ticks::offset;

const TURN: u32 = ticks::TURN as u32;

const HALF: u32 = TURN / 2;

impl Angle {
    // Beyond 90 degrees it is negative.
    #[tactic(auto, unfolding(crate::specs::Course::offset_cosine))]
    fn cosine(self) -> i64
        ensures { result ≡ offset_cosine self.ticks }
    {
        let other = Angle {
            ticks: (QUARTER as i64) - (size64(self.ticks) as i64),
        };
        other.short_sine()
    }
}

// The product is at most 10^18 in size.
fn scaled(a: i64, b: i64) -> i64
    requires a_bound { nat_abs a ≤ short_unit }
    requires b_bound { nat_abs b ≤ short_unit }
    ensures { result ≡ over (a *ℤ b) }
{
    a * b / (SHORT_UNIT as i64)
}

impl Latitude {
    #[tactic(auto, using(signed::specs::Machine::at64, signed::specs::Machine::kept, ticks::proofs::TickLaws::latitude_angle, ticks::proofs::TickLaws::latitude_fits))]
    fn angle(self) -> Angle
        ensures { result.ticks ≡ self.ticks }
    {
        Angle {
            ticks: self.ticks as i64,
        }
    }

    #[tactic(auto, using(crate::proofs::CourseLaws::offset_cosine_latitude))]
    fn cosine(self) -> i64
        ensures { result ≡ pos (short_cosine self.ticks) }
    {
        self.angle().cosine()
    }

    fn sine(self) -> i64
        ensures { result ≡ short_around self.ticks }
    {
        self.angle().short_sine()
    }
}

impl Leg {
    // Of the end from the start.
    #[tactic(auto, using(signed::specs::Machine::kept, crate::proofs::CourseLaws::offset_angle, ticks::proofs::TickLaws::longitude_fits))]
    fn offset(self) -> Angle
        ensures { result.ticks ≡ offset_of self.end.longitude self.start.longitude }
    {
        Angle {
            ticks: offset(self.end.longitude, self.start.longitude),
        }
    }

    // N.
    #[tactic(auto, using(signed::specs::Machine::kept, crate::proofs::AngleLaws::cosine_top, crate::proofs::CourseLaws::around_top), unfolding(crate::specs::Course::eastward))]
    pub(crate) fn eastward(self) -> i64
        ensures { result ≡ eastward self.end.latitude.ticks (offset_of self.end.longitude self.start.longitude) }
    {
        scaled(self.end.latitude.cosine(), self.offset().short_sine())
    }

    // D.
    #[tactic(auto, using(signed::specs::Machine::kept, ticks::proofs::TickLaws::latitude_angle, crate::proofs::AngleLaws::cosine_top, crate::proofs::CourseLaws::around_top, crate::proofs::CourseLaws::offset_cosine_top, crate::proofs::CourseLaws::back_top, crate::proofs::CourseLaws::north_fits), unfolding(crate::specs::Course::northward))]
    pub(crate) fn northward(self) -> i64
        ensures { result ≡ northward self.start.latitude.ticks self.end.latitude.ticks (offset_of self.end.longitude self.start.longitude) }
    {
        let rise = scaled(self.start.latitude.cosine(), self.end.latitude.sine());
        let back = scaled(self.start.latitude.sine(), self.end.latitude.cosine());
        rise - scaled(back, self.offset().cosine())
    }
}

fn in_quarter(n: i64, d: i64, a: u32) -> u32
    requires { a ≤ quarter }
    ensures { result ≡ in_quarter (lt_z n (pos 0)) (lt_z d (pos 0)) a }
{
    if n < 0 {
        if d < 0 { HALF + a } else { (TURN - a) % TURN }
    } else {
        if d < 0 { HALF - a } else { a }
    }
}

#[tactic(auto, using(signed::specs::Tests::size_test, sines::proofs::SlopeLaws::slope_inside), unfolding(crate::specs::Course::set_off, crate::specs::Course::course_by))]
pub(crate) fn set_off(n: i64, d: i64) -> Result<u32, Refusal>
    requires n_bound { nat_abs n ≤ most_size }
    requires d_bound { nat_abs d ≤ most_size }
    ensures { result ≡ set_off n d }
{
    let east = size64(n);
    let north = size64(d);
    if (east == 0) & (north == 0) {
        return Err(Refusal::Course);
    }
    let sizes = Sizes { d: north, n: east };
    Ok(in_quarter(n, d, sizes.slope()))
}
