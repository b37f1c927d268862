// A step of the pen as the struct that goes out: the paper's numbers, zeros beside a refusal. The other answers go out by `From`, which stands
// beside their structs.
// Kept: functions, since a step is told the number of the pen that came in, which no answer holds.
ghost use Rattle.std.specs.Prelude.{◌≡◌};
ghost use Rattle.pen.specs.Paper.{pen_paper, drawn_paper, step_paper};

use pen::{Pen, Step, StepOut, Stroke};

fn pen(p: Pen) -> u32
    ensures { result ≡ pen_paper p }
{
    u32::from(p.down)
}

fn drawn(stroke: Stroke, next: u32) -> StepOut
    ensures { result ≡ drawn_paper stroke next }
{
    match stroke {
        Stroke::Outside => StepOut {
            refusal: 0,
            stroke: 0,
            x: 0.0,
            y: 0.0,
            pen: next,
        },
        Stroke::Move(x, y) => StepOut {
            refusal: 0,
            stroke: 1,
            x,
            y,
            pen: next,
        },
        Stroke::Line(x, y) => StepOut {
            refusal: 0,
            stroke: 2,
            x,
            y,
            pen: next,
        },
    }
}

// `got` is the number of the pen that came in.
pub(crate) fn step(got: u32, s: Step) -> StepOut
    ensures { result ≡ step_paper got s }
{
    let next = pen(s.next);
    match s.answer {
        Ok(stroke) => drawn(stroke, next),
        Err(refusal) => StepOut {
            refusal: refusal.number(),
            stroke: 0,
            x: 0.0,
            y: 0.0,
            pen: got,
        },
    }
}
