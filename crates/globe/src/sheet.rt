// The way back from either sheet.
ghost use Rattle.std.specs.Prelude.{◌≡◌, true, ◌≤◌};
ghost use Rattle.sines.specs.Sine.{short_unit};
ghost use Rattle.ticks.specs.Ticks.{is_longitude};
ghost use Rattle.globe.specs.SheetLaws.{at_pole, point_at};

use crate::Point;
use refusals::Refusal;
use ticks::{into_turn, is_longitude};

// The point at a latitude whose offset × `width` is `x`.
#[tactic(auto, using(signed::specs::Tests::eq_eq_z, signed::specs::Tests::ne_eq_z, signed::specs::Machine::at64, signed::specs::Machine::kept, signed::specs::Machine::quot_fits, signed::specs::Machine::exact_fits, signed::specs::Machine::same_bits, refusals::specs::Tests::passed, refusals::specs::Tests::failed, ticks::proofs::TickLaws::is_longitude_lem, ticks::proofs::TickLaws::longitude_fits, ticks::proofs::TickLaws::sum_fits, ticks::proofs::TickLaws::sum_longitude))]
pub(crate) fn point_at(latitude: i32, width: u64, x: i64, meridian: i32) -> Result<Point, Refusal>
    requires width_le_short_unit { width ≤ short_unit }
    requires meridian_value { is_longitude meridian ≡ true }
    ensures { result ≡ point_at latitude width x meridian }
{
    if width == 0 {
        return at_pole(latitude, x, meridian);
    }
    let w = width as i64;
    let offset = x / w;
    if offset * w != x {
        return Err(Refusal::Place);
    }
    if !is_longitude(offset) {
        return Err(Refusal::Place);
    }
    let longitude = into_turn((meridian as i64) + offset);
    Ok(Point {
        latitude,
        longitude: longitude as i32,
    })
}

// Where no offset moves x: only x = 0 is a place, and the meridian's own longitude answers it.
fn at_pole(latitude: i32, x: i64, meridian: i32) -> Result<Point, Refusal>
    ensures { result ≡ at_pole latitude x meridian }
{
    if x == 0 {
        Ok(Point {
            latitude,
            longitude: meridian,
        })
    } else {
        Err(Refusal::Place)
    }
}
