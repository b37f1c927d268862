// An accepted point, and the leg between two.
ghost use Rattle.std.specs.Prelude.{◌≡◌, true, IfOk, IfErr, Err};
ghost use Rattle.ticks.specs.Ticks.{is_longitude, point_refusal};
ghost use Rattle.globe.specs.Leg.{ends_refusal};

use crate::Point;
use crate::lookup::Latitude;
use refusals::Refusal;
use ticks::check_point;

#[derive(Clone, Copy)]
pub(crate) struct Accepted {
    pub(crate) latitude: Latitude,
    pub(crate) longitude: i32,
    ghost in_range: { is_longitude longitude ≡ true },
}

impl Accepted {
    #[tactic(auto, using(ticks::proofs::TickLaws::point_accepted))]
    pub(crate) fn new(point: Point) -> Result<Accepted, Refusal>
        ensures latitude { IfOk result (λ accepted. accepted.latitude.ticks ≡ point.latitude) }
        ensures longitude { IfOk result (λ accepted. accepted.longitude ≡ point.longitude) }
        ensures refusal { IfErr result (λ refusal. point_refusal point.latitude point.longitude ≡ Err refusal) }
    {
        check_point(point.latitude, point.longitude)?;
        Ok(Accepted {
            latitude: Latitude {
                ticks: point.latitude,
            },
            longitude: point.longitude,
        })
    }
}

#[derive(Clone, Copy)]
pub(crate) struct Leg {
    pub(crate) start: Accepted,
    pub(crate) end: Accepted,
}

impl Leg {
    // What refuses the start comes before what refuses the end.
    #[tactic(auto, using(crate::proofs::LegLaws::end_judged))]
    pub(crate) fn between(start: Point, end: Point) -> Result<Leg, Refusal>
        ensures start { IfOk result (λ leg. (leg.start.latitude.ticks ≡ start.latitude) × (leg.start.longitude ≡ start.longitude)) }
        ensures end { IfOk result (λ leg. (leg.end.latitude.ticks ≡ end.latitude) × (leg.end.longitude ≡ end.longitude)) }
        ensures refusal { IfErr result (λ refusal. ends_refusal start.latitude start.longitude end.latitude end.longitude ≡ Err refusal) }
    {
        let start = Accepted::new(start)?;
        let end = Accepted::new(end)?;
        Ok(Leg { start, end })
    }
}
