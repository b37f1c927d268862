// Where a place of the sinusoidal sheet lies in millimetres, as floats. Dropping is toward zero.
ghost use Rattle.std.specs.Prelude.{◌≡◌, ◌*◌, ◌≤◌, nat_abs};
ghost use Rattle.sines.specs.Sine.{short_unit};
ghost use Rattle.pen.specs.Position.{millimetres, across, float};
ghost use Rattle.pen.specs.Reach.{furthest};

const SHORT_UNIT: i64 = globe::SHORT_UNIT as i64;

const DEGREE: i64 = globe::DEGREE as i64;

const DEGREE_LENGTH: i64 = globe::DEGREE_LENGTH as i64;

// At most half a turn is asked for: some 2 × 10^10 millimetres, which a float holds exactly.
pub(crate) fn along(ticks: i64) -> f64
    requires { nat_abs ticks ≤ furthest }
    ensures { result ≡ float (millimetres ticks) }
{
    (ticks * DEGREE_LENGTH / DEGREE) as f64
}

// A sheet's x is ticks times a cosine.
pub(crate) fn across(x: i64) -> f64
    requires { nat_abs x ≤ furthest * short_unit }
    ensures { result ≡ float (across x) }
{
    along(x / SHORT_UNIT)
}
