// Angles in ticks: their ranges, the turn that brings a longitude into its own, the angle that has another's sine, and what refuses a point.
#![tactic(auto)]

ghost use Rattle.std.specs.Prelude.{◌≡◌};
ghost use Rattle.ticks.specs.Ticks.{is_latitude, is_longitude, is_angle, turned, offset_of, folded, point_refusal, sheet_refusal};

use refusals::Refusal;

pub const NORTH: i64 = 900_000_000;

const SOUTH: i64 = -NORTH;

const EAST: i64 = 1_800_000_000;

const WEST: i64 = -EAST;

// A full turn.
pub const TURN: i64 = 3_600_000_000;

// Kept: three ranges of one line each, since one function over both ends would have each caller say them.
pub fn is_latitude(z: i64) -> bool
    ensures { result ≡ is_latitude z }
{
    (SOUTH..=NORTH).contains(&z)
}

pub fn is_longitude(z: i64) -> bool
    ensures { result ≡ is_longitude z }
{
    (WEST..EAST).contains(&z)
}

// Whether an angle has a sine.
pub fn is_angle(z: i64) -> bool
    ensures { result ≡ is_angle z }
{
    (WEST..=EAST).contains(&z)
}

pub fn into_turn(d: i64) -> i64
    ensures { result ≡ turned d }
{
    if d < WEST {
        d + TURN
    } else if EAST <= d {
        d - TURN
    } else {
        d
    }
}

// The difference does not fit 32 bits before it is turned.
#[tactic(auto, unfolding(crate::specs::Ticks::offset_of))]
pub fn offset(longitude: i32, meridian: i32) -> i64
    ensures { result ≡ offset_of longitude meridian }
{
    into_turn((longitude as i64) - (meridian as i64))
}

// The angle from -90 to 90 degrees that has the sine of an angle from -180 to 180: beyond 90, 180 less the angle.
#[tactic(auto, unfolding(crate::specs::Ticks::folded))]
pub fn fold(angle: i64) -> i64
    ensures { result ≡ folded angle }
{
    if NORTH < angle {
        EAST - angle
    } else if angle < SOUTH {
        WEST - angle
    } else {
        angle
    }
}

// Whether a point is accepted.
#[tactic(auto, unfolding(crate::specs::Ticks::point_refusal))]
pub fn check_point(latitude: i32, longitude: i32) -> Result<(), Refusal>
    ensures { result ≡ point_refusal latitude longitude }
{
    if !is_latitude(latitude as i64) {
        return Err(Refusal::Latitude);
    }
    if !is_longitude(longitude as i64) {
        return Err(Refusal::Longitude);
    }
    Ok(())
}

// Whether a point has a place on a sheet with this central meridian.
#[tactic(auto, unfolding(crate::specs::Ticks::sheet_refusal))]
pub fn check_sheet(latitude: i32, longitude: i32, meridian: i32) -> Result<(), Refusal>
    ensures { result ≡ sheet_refusal latitude longitude meridian }
{
    if !is_longitude(meridian as i64) {
        return Err(Refusal::Meridian);
    }
    check_point(latitude, longitude)
}
