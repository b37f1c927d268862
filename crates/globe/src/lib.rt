// The globe: sines of an angle, two sheets there and back, lengths, courses and whether a target is met. Every answer is a value or what is refused.
#![tactic(auto)]

ghost use Rattle.std.specs.Prelude.{◌≡◌};
ghost use Rattle.globe.specs.Angle.{long_sine_of, short_sine_of, long_sine_half_of};
ghost use Rattle.globe.specs.Sheet.{cylindrical_of, sinusoidal_of, cylindrical_back_of, sinusoidal_back_of};
ghost use Rattle.globe.specs.Leg.{leg_of};
ghost use Rattle.globe.specs.Measure.{measure_of};
ghost use Rattle.globe.specs.Course.{course_of};
ghost use Rattle.globe.specs.Met.{met_of};

mod accepted;
mod buffer;
mod courses;
mod legs;
mod lookup;
mod out;
mod search;
mod sheet;
mod slope;

use accepted::Leg;
use buffer::{length_of, walk};
use courses::set_off;
use lookup::{Angle, Latitude, QUARTER_HALVES, long_sine_half_of, long_sine_of};
use points::Points;
use refusals::Refusal;
use search::last_angle;
use sheet::point_at;
use signed::{size32, size64, with_sign_of};
use ticks::{check_sheet, is_angle, is_latitude, is_longitude, offset};

// 10^9 times a sine or a cosine of 1.
pub const SHORT_UNIT: u64 = 1_000_000_000;

// A degree in ticks, and its length in millimetres.
pub const DEGREE: u64 = 10_000_000;

pub const DEGREE_LENGTH: u64 = 111_194_927;

// The greatest target, in millimetres.
pub const MOST_TARGET: u64 = 999_999_000;

// Where a point goes on a sheet.
#[derive(Clone, Copy)]
pub struct Place {
    pub x: i64,
    pub y: i64,
}

#[derive(Clone, Copy)]
pub struct Point {
    pub latitude: i32,
    pub longitude: i32,
}

// Whether a target is met, with the number of points that were looked at.
#[derive(Clone, Copy)]
pub enum Met {
    Yes(u32),
    No(u32),
}

// Each answer in the paper's own numbers: the refusal, 0 where there is none, and the values, 0 beside a refusal. This is what goes out to C.
#[repr(C)]
#[derive(Clone, Copy)]
pub struct SineOut {
    pub refusal: u32,
    pub value: i64,
}

#[repr(C)]
#[derive(Clone, Copy)]
pub struct PlaceOut {
    pub refusal: u32,
    pub x: i64,
    pub y: i64,
}

#[repr(C)]
#[derive(Clone, Copy)]
pub struct PointOut {
    pub refusal: u32,
    pub latitude: i32,
    pub longitude: i32,
}

#[repr(C)]
#[derive(Clone, Copy)]
pub struct LengthOut {
    pub refusal: u32,
    pub millimetres: u64,
}

#[repr(C)]
#[derive(Clone, Copy)]
pub struct DirectionOut {
    pub refusal: u32,
    pub ticks: u32,
}

// met: 1 yes, 0 no.
#[repr(C)]
#[derive(Clone, Copy)]
pub struct MetOut {
    pub refusal: u32,
    pub met: u32,
    pub points: u32,
}

// 10^13 times the sine of an angle from -180 to 180 degrees.
#[tactic(auto, unfolding(crate::specs::Angle::long_sine_of))]
pub fn long_sine(angle: i32) -> Result<i64, Refusal>
    ensures { result ≡ long_sine_of angle }
{
    let ticks = angle as i64;
    if !is_angle(ticks) {
        return Err(Refusal::Latitude);
    }
    let angle = Angle { ticks };
    Ok(angle.long_sine())
}

// 10^13 times the sine of an angle from 0 to 90 degrees, in half ticks.
#[tactic(auto, using(refusals::specs::Tests::passed, refusals::specs::Tests::failed, sines::proofs::SineLaws::some_halves, sines::proofs::SineLaws::sine_by_top, crate::proofs::AngleLaws::halves_size), unfolding(crate::specs::Angle::long_sine_half_of))]
pub fn long_sine_half(halves: i32) -> Result<i64, Refusal>
    ensures { result ≡ long_sine_half_of halves }
{
    if !((0 <= halves) & (halves <= QUARTER_HALVES as i32)) {
        return Err(Refusal::Latitude);
    }
    Ok(long_sine_half_of(size32(halves)) as i64)
}

// 10^9 times the sine of an angle from -180 to 180 degrees.
#[tactic(auto, unfolding(crate::specs::Angle::short_sine_of))]
pub fn short_sine(angle: i32) -> Result<i64, Refusal>
    ensures { result ≡ short_sine_of angle }
{
    let ticks = angle as i64;
    if !is_angle(ticks) {
        return Err(Refusal::Latitude);
    }
    let angle = Angle { ticks };
    Ok(angle.short_sine())
}

// The place of a point on the cylindrical equal-area sheet: x is the offset, y the long sine of the latitude.
#[tactic(auto, using(signed::specs::Machine::kept, ticks::proofs::TickLaws::sheet_accepted, refusals::specs::Tests::refuses, crate::proofs::SheetLaws::times_one), unfolding(crate::specs::Sheet::place_of))]
pub fn cylindrical(point: Point, meridian: i32) -> Result<Place, Refusal>
    ensures { result ≡ cylindrical_of point.latitude point.longitude meridian }
{
    check_sheet(point.latitude, point.longitude, meridian)?;
    let parallel = Latitude {
        ticks: point.latitude,
    };
    Ok(Place {
        x: offset(point.longitude, meridian),
        y: parallel.long_sine(),
    })
}

// The place of a point on the sinusoidal sheet: x is the offset × the short cosine of the latitude, at most 1.8 × 10^18; y is the latitude.
#[tactic(auto, using(signed::specs::Machine::at64, signed::specs::Machine::kept, ticks::proofs::TickLaws::sheet_accepted, ticks::proofs::TickLaws::offset_longitude, ticks::proofs::TickLaws::product_fits, refusals::specs::Tests::refuses, crate::proofs::AngleLaws::cosine_top), unfolding(crate::specs::Sheet::place_of))]
pub fn sinusoidal(point: Point, meridian: i32) -> Result<Place, Refusal>
    ensures { result ≡ sinusoidal_of point.latitude point.longitude meridian }
{
    check_sheet(point.latitude, point.longitude, meridian)?;
    let parallel = Latitude {
        ticks: point.latitude,
    };
    Ok(Place {
        x: offset(point.longitude, meridian) * (parallel.short_cosine() as i64),
        y: point.latitude as i64,
    })
}

// The point at a place of the cylindrical equal-area sheet. The latitude has the sign of y, and its size is the angle whose long sine is the size of y.
#[tactic(auto, using(signed::specs::Machine::at64, signed::specs::Machine::kept, signed::specs::SignLaws::as_size, signed::specs::SignLaws::as_fits, signed::specs::SignLaws::nearest_self, refusals::specs::Tests::passed, refusals::specs::Tests::failed, ticks::proofs::TickLaws::size_latitude, ticks::proofs::TickLaws::latitude_fits, crate::proofs::SheetLaws::back_nobody, crate::proofs::SheetLaws::back_at, crate::proofs::SheetLaws::latitude_is, crate::proofs::SheetLaws::height_is, crate::proofs::SheetLaws::sine_is), unfolding(crate::specs::Sheet::back_of))]
pub fn cylindrical_back(place: Place, meridian: i32) -> Result<Point, Refusal>
    ensures { result ≡ cylindrical_back_of place.x place.y meridian }
{
    if !is_longitude(meridian as i64) {
        return Err(Refusal::Meridian);
    }
    let size = size64(place.y);
    let a = last_angle(size);
    if long_sine_of(a) != size {
        return Err(Refusal::Place);
    }
    point_at(with_sign_of(place.y, a as u64) as i32, 1, place.x, meridian)
}

// The point at a place of the sinusoidal sheet.
#[tactic(auto, using(signed::specs::Machine::at32, signed::specs::Machine::at64, refusals::specs::Tests::passed, refusals::specs::Tests::failed, ticks::proofs::TickLaws::latitude_fits, crate::proofs::AngleLaws::cosine_top, crate::proofs::SheetLaws::back_nobody, crate::proofs::SheetLaws::back_at), unfolding(crate::specs::Sheet::back_of))]
pub fn sinusoidal_back(place: Place, meridian: i32) -> Result<Point, Refusal>
    ensures { result ≡ sinusoidal_back_of place.x place.y meridian }
{
    if !is_longitude(meridian as i64) {
        return Err(Refusal::Meridian);
    }
    if !is_latitude(place.y) {
        return Err(Refusal::Place);
    }
    let latitude = place.y as i32;
    let parallel = Latitude { ticks: latitude };
    point_at(latitude, parallel.short_cosine(), place.x, meridian)
}

// The length of a leg in millimetres, the shorter way round.
#[tactic(auto, using(crate::proofs::LegLaws::ends_accepted, refusals::specs::Tests::refuses), unfolding(crate::specs::Leg::leg_of))]
pub fn leg(start: Point, end: Point) -> Result<u64, Refusal>
    ensures { result ≡ leg_of start.latitude start.longitude end.latitude end.longitude }
{
    let leg = Leg::between(start, end)?;
    Ok(leg.length())
}

// The course at which a leg starts, in ticks east of north: from 0 up to but not including a full turn, which 32 bits hold only without a sign.
#[tactic(auto, using(signed::specs::Machine::kept, crate::proofs::LegLaws::ends_accepted, refusals::specs::Tests::refuses_too, crate::proofs::CourseLaws::east_top, crate::proofs::CourseLaws::north_top, crate::proofs::CourseLaws::offset_angle), unfolding(crate::specs::Course::course_of))]
pub fn course(start: Point, end: Point) -> Result<u32, Refusal>
    ensures { result ≡ course_of start.latitude start.longitude end.latitude end.longitude }
{
    let leg = Leg::between(start, end)?;
    set_off(leg.eastward(), leg.northward())
}

// The length of a whole point buffer in millimetres, the leg into a point whose third number is 1 not counted.
#[tactic(auto, unfolding(crate::specs::Measure::measure_of))]
pub fn measure(points: &[i32]) -> Result<u64, Refusal>
    ensures { result ≡ measure_of points.now }
{
    let points = Points::new(points)?;
    Ok(length_of(&points))
}

// Whether a point buffer is at least as long as a target in millimetres, and how many points are looked at: until it is, or all.
// Everything that is refused is found before any leg is measured.
#[tactic(auto, unfolding(crate::specs::Met::met_of))]
pub fn target_met(points: &[i32], target: u64) -> Result<Met, Refusal>
    ensures { result ≡ met_of points.now target }
{
    let points = Points::new(points)?;
    if MOST_TARGET < target {
        return Err(Refusal::Target);
    }
    Ok(walk(&points, target))
}
