// Each answer as the struct that goes out to C: its refusal's number and its values, zeros beside a refusal.
ghost use Rattle.std.specs.Prelude.{◌≡◌};
ghost use Rattle.globe.specs.Paper.{sine_paper, place_paper, point_paper, length_paper, direction_paper, met_paper};

use crate::{DirectionOut, LengthOut, Met, MetOut, Place, PlaceOut, Point, PointOut, SineOut};
use refusals::Refusal;

impl From<Result<i64, Refusal>> for SineOut {
    ghost from_gives = { λ answer out. out ≡ sine_paper answer };

    fn from(answer: Result<i64, Refusal>) -> SineOut {
        match answer {
            Ok(value) => SineOut { refusal: 0, value },
            Err(refusal) => SineOut {
                refusal: refusal.number(),
                value: 0,
            },
        }
    }
}

impl From<Result<Place, Refusal>> for PlaceOut {
    ghost from_gives = { λ answer out. out ≡ place_paper answer };

    fn from(answer: Result<Place, Refusal>) -> PlaceOut {
        match answer {
            Ok(place) => PlaceOut {
                refusal: 0,
                x: place.x,
                y: place.y,
            },
            Err(refusal) => PlaceOut {
                refusal: refusal.number(),
                x: 0,
                y: 0,
            },
        }
    }
}

impl From<Result<Point, Refusal>> for PointOut {
    ghost from_gives = { λ answer out. out ≡ point_paper answer };

    fn from(answer: Result<Point, Refusal>) -> PointOut {
        match answer {
            Ok(point) => PointOut {
                refusal: 0,
                latitude: point.latitude,
                longitude: point.longitude,
            },
            Err(refusal) => PointOut {
                refusal: refusal.number(),
                latitude: 0,
                longitude: 0,
            },
        }
    }
}

impl From<Result<u64, Refusal>> for LengthOut {
    ghost from_gives = { λ answer out. out ≡ length_paper answer };

    fn from(answer: Result<u64, Refusal>) -> LengthOut {
        match answer {
            Ok(millimetres) => LengthOut {
                refusal: 0,
                millimetres,
            },
            Err(refusal) => LengthOut {
                refusal: refusal.number(),
                millimetres: 0,
            },
        }
    }
}

impl From<Result<u32, Refusal>> for DirectionOut {
    ghost from_gives = { λ answer out. out ≡ direction_paper answer };

    fn from(answer: Result<u32, Refusal>) -> DirectionOut {
        match answer {
            Ok(ticks) => DirectionOut { refusal: 0, ticks },
            Err(refusal) => DirectionOut {
                refusal: refusal.number(),
                ticks: 0,
            },
        }
    }
}

impl From<Result<Met, Refusal>> for MetOut {
    ghost from_gives = { λ answer out. out ≡ met_paper answer };

    fn from(answer: Result<Met, Refusal>) -> MetOut {
        match answer {
            Ok(Met::Yes(points)) => MetOut {
                refusal: 0,
                met: 1,
                points,
            },
            Ok(Met::No(points)) => MetOut {
                refusal: 0,
                met: 0,
                points,
            },
            Err(refusal) => MetOut {
                refusal: refusal.number(),
                met: 0,
                points: 0,
            },
        }
    }
}
