// The length of a point buffer, and whether it meets a target.
ghost use Rattle.std.specs.Prelude.{◌≡◌, ◌<◌};
ghost use Rattle.points.specs.Points.{count, latitude_at, longitude_at};
ghost use Rattle.globe.specs.Measure.{leg_into, length_up_to};
ghost use Rattle.globe.specs.Met.{walked};

use crate::Met;
use crate::accepted::{Accepted, Leg};
use crate::lookup::Latitude;
use points::Points;

fn point(points: &Points, i: usize) -> Accepted
    ensures latitude { result.latitude.ticks ≡ latitude_at points.now i }
    ensures longitude { result.longitude ≡ longitude_at points.now i }
{
    Accepted {
        latitude: Latitude {
            ticks: points.latitude(i),
        },
        longitude: points.longitude(i),
    }
}

// The leg into point `i`, 0 where it is not counted.
#[tactic(auto, using(signed::specs::Machine::bits_test, points::proofs::PointLaws::point_of_lem, points::proofs::PointLaws::leg_before), unfolding(crate::specs::Measure::leg_into))]
fn leg_into(points: &Points, i: usize) -> u64
    requires { i < count points.now }
    ensures { result ≡ leg_into points.now i }
{
    if points.third(i) == 1 {
        return 0;
    }
    let from = i - 1;
    let leg = Leg {
        start: point(points, from),
        end: point(points, i),
    };
    leg.length()
}

// At most 1,000 legs, none longer than half a turn.
#[tactic(auto, unfolding(crate::specs::Measure::length_up_to))]
pub(crate) fn length_of(points: &Points) -> u64
    ensures { result ≡ length_up_to points.now (count points.now) }
{
    let mut sum: u64 = 0;
    for i in 0..points.count() {
        sum += leg_into(points, i);
    }
    sum
}

// From point to point until the sum of the legs reaches the target.
#[tactic(auto, unfolding(crate::specs::Measure::length_up_to, crate::specs::Met::walked))]
pub(crate) fn walk(points: &Points, target: u64) -> Met
    ensures { result ≡ walked points.now target }
{
    let n = points.count();
    let mut sum: u64 = 0;
    let mut i = 0;
    // Kept: the count is the answer, and a `for` would ask twice whether the target is reached.
    while (sum < target) & (i < n) {
        sum += leg_into(points, i);
        i += 1;
    }
    let looked_at = i as u32;
    if target <= sum {
        return Met::Yes(looked_at);
    }
    Met::No(looked_at)
}
