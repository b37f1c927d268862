// The doors for C and for what can call C: numbers and slices in, a struct by value out. In `refusal` 0 means accepted; beside a refusal every
// field is 0, but for the line of a text and the pen of a step, which is the one that came in. The steps of a root are never refused.
// include/senruhobi.h declares the same for C.
#![tactic(auto)]

ghost use Rattle.std.specs.Prelude.{◌≡◌, length};
ghost use Rattle.roots.specs.School.{school_of};
ghost use Rattle.globe.specs.Paper.{sine_paper, place_paper, point_paper, length_paper, direction_paper, met_paper};
ghost use Rattle.globe.specs.Angle.{long_sine_of, short_sine_of, long_sine_half_of};
ghost use Rattle.globe.specs.Sheet.{cylindrical_of, sinusoidal_of, cylindrical_back_of, sinusoidal_back_of, point};
ghost use Rattle.globe.specs.Leg.{leg_of};
ghost use Rattle.globe.specs.Measure.{measure_of};
ghost use Rattle.globe.specs.Course.{course_of};
ghost use Rattle.globe.specs.Met.{met_of};
ghost use Rattle.route.specs.Paper.{reading_paper};
ghost use Rattle.route.specs.Route.{reading_of, buffer_of};
ghost use Rattle.writer.specs.Paper.{sized, answer, left, target_of, mark_of};
ghost use Rattle.pen.specs.Paper.{stepped};

mod out;

use globe::{DirectionOut, LengthOut, MetOut, Place, PlaceOut, Point, PointOut, SineOut};
use numbers::Mark;
use numerals::WritingOut;
use pen::{Pen, StepOut, Window};
use roots::Working;
use route::ReadingOut;

#[unsafe(no_mangle)]
pub extern "C" fn senruhobi_long_sine(angle: i32) -> SineOut
    ensures { result ≡ sine_paper (long_sine_of angle) }
{
    globe::long_sine(angle).into()
}

#[unsafe(no_mangle)]
pub extern "C" fn senruhobi_long_sine_half(halves: i32) -> SineOut
    ensures { result ≡ sine_paper (long_sine_half_of halves) }
{
    globe::long_sine_half(halves).into()
}

#[unsafe(no_mangle)]
pub extern "C" fn senruhobi_short_sine(angle: i32) -> SineOut
    ensures { result ≡ sine_paper (short_sine_of angle) }
{
    globe::short_sine(angle).into()
}

fn point(latitude: i32, longitude: i32) -> Point
    ensures { result ≡ point latitude longitude }
{
    Point {
        latitude,
        longitude,
    }
}

#[unsafe(no_mangle)]
pub extern "C" fn senruhobi_cylindrical(latitude: i32, longitude: i32, meridian: i32) -> PlaceOut
    ensures { result ≡ place_paper (cylindrical_of latitude longitude meridian) }
{
    globe::cylindrical(point(latitude, longitude), meridian).into()
}

#[unsafe(no_mangle)]
pub extern "C" fn senruhobi_sinusoidal(latitude: i32, longitude: i32, meridian: i32) -> PlaceOut
    ensures { result ≡ place_paper (sinusoidal_of latitude longitude meridian) }
{
    globe::sinusoidal(point(latitude, longitude), meridian).into()
}

#[unsafe(no_mangle)]
pub extern "C" fn senruhobi_cylindrical_back(x: i64, y: i64, meridian: i32) -> PointOut
    ensures { result ≡ point_paper (cylindrical_back_of x y meridian) }
{
    globe::cylindrical_back(Place { x, y }, meridian).into()
}

#[unsafe(no_mangle)]
pub extern "C" fn senruhobi_sinusoidal_back(x: i64, y: i64, meridian: i32) -> PointOut
    ensures { result ≡ point_paper (sinusoidal_back_of x y meridian) }
{
    globe::sinusoidal_back(Place { x, y }, meridian).into()
}

#[unsafe(no_mangle)]
pub extern "C" fn senruhobi_leg(
    latitude1: i32,
    longitude1: i32,
    latitude2: i32,
    longitude2: i32,
) -> LengthOut
    ensures { result ≡ length_paper (leg_of latitude1 longitude1 latitude2 longitude2) }
{
    globe::leg(point(latitude1, longitude1), point(latitude2, longitude2)).into()
}

#[unsafe(no_mangle)]
pub extern "C" fn senruhobi_course(
    latitude1: i32,
    longitude1: i32,
    latitude2: i32,
    longitude2: i32,
) -> DirectionOut
    ensures { result ≡ direction_paper (course_of latitude1 longitude1 latitude2 longitude2) }
{
    globe::course(point(latitude1, longitude1), point(latitude2, longitude2)).into()
}

#[unsafe(no_mangle)]
pub extern "C" fn senruhobi_root_steps(number: u64) -> Working
    ensures { result ≡ school_of number }
{
    roots::steps(number)
}

// A slice is a pointer and a count for C.
#[unsafe(no_mangle)]
pub extern "C" fn senruhobi_measure(points: &[i32]) -> LengthOut
    ensures { result ≡ length_paper (measure_of points.now) }
{
    globe::measure(points).into()
}

#[unsafe(no_mangle)]
pub extern "C" fn senruhobi_target_met(points: &[i32], target: u64) -> MetOut
    ensures { result ≡ met_paper (met_of points.now target) }
{
    globe::target_met(points, target).into()
}

#[unsafe(no_mangle)]
pub extern "C" fn senruhobi_read_route(text: &[u8], buffer: &mut [i32]) -> ReadingOut
    ensures value { result ≡ reading_paper (reading_of text.now (length buffer.old)) }
    ensures buffer_after { buffer.new ≡ buffer_of text.now buffer.old }
{
    route::read(text, buffer).into()
}

// targeted: 0 without a target, any other number with it.
fn target(targeted: u32, millimetres: u64) -> Option<u64>
    ensures { result ≡ target_of targeted millimetres }
{
    if targeted == 0 {
        return None;
    }
    Some(millimetres)
}

// comma: 0 the point, any other number the comma.
fn mark(comma: u32) -> Mark
    ensures { result ≡ mark_of comma }
{
    if comma == 0 {
        return Mark::Point;
    }
    Mark::Comma
}

#[unsafe(no_mangle)]
pub extern "C" fn senruhobi_route_size(
    points: &[i32],
    targeted: u32,
    millimetres: u64,
    comma: u32,
) -> WritingOut
    ensures { result ≡ sized (mark_of comma) (target_of targeted millimetres) points.now }
{
    writer::size(points, target(targeted, millimetres), mark(comma)).into()
}

#[unsafe(no_mangle)]
pub extern "C" fn senruhobi_write_route(
    points: &[i32],
    targeted: u32,
    millimetres: u64,
    comma: u32,
    out: &mut [u8],
    place: usize,
) -> WritingOut
    ensures value { result ≡ answer (mark_of comma) (target_of targeted millimetres) points.now place out.old }
    ensures out_after { out.new ≡ left (mark_of comma) (target_of targeted millimetres) points.now place out.old }
{
    writer::write(
        points,
        target(targeted, millimetres),
        mark(comma),
        out,
        place,
    )
    .into()
}

// pen: 0 up, any other number down.
#[unsafe(no_mangle)]
pub extern "C" fn senruhobi_pen_step(
    pen: u32,
    left: f64,
    right: f64,
    bottom: f64,
    top: f64,
    divisor: u32,
    meridian: i32,
    latitude: i32,
    longitude: i32,
    third: i32,
) -> StepOut
    ensures { result ≡ stepped pen (record { left = left; right = right; bottom = bottom; top = top }) divisor meridian latitude longitude third }
{
    let before = Pen { down: pen != 0 };
    let window = Window {
        left,
        right,
        bottom,
        top,
    };
    out::step(
        pen,
        before.step(window, divisor, meridian, latitude, longitude, third),
    )
}
