// The pen's figures: a stroke with the bits of its floats, or the refusal, then the next pen.
use crate::{Answer, EAST};
use pen::{Pen, Step, Stroke, Window};
use std::io;

const SIXTY: i32 = 600_000_000;

const TEN: i32 = 100_000_000;

// A NaN has no bits of its own: one pattern stands for all.
fn pattern(x: f64) -> u64 {
    if x.is_nan() {
        0x7ff8_0000_0000_0000
    } else {
        x.to_bits()
    }
}

impl Answer for Stroke {
    fn print<P: Print>(self, rt: &P) -> io::Result<()> {
        match self {
            Stroke::Outside => print!(rt; "\toutside"),
            Stroke::Move(x, y) => print!(rt; "\tmove\t{:016x}\t{:016x}", pattern(x), pattern(y)),
            Stroke::Line(x, y) => print!(rt; "\tline\t{:016x}\t{:016x}", pattern(x), pattern(y)),
        }
    }
}

fn step(rt: &impl Print, name: &str, s: Step) -> io::Result<()> {
    print!(rt; "{name}")?;
    s.answer.print(rt)?;
    println!(rt; "\t{}", if s.next.down { "down" } else { "up" })
}

fn infinite() -> Window {
    let far = f64::INFINITY;
    Window {
        left: -far,
        right: far,
        bottom: -far,
        top: far,
    }
}

// One millimetre high, its lower edge at 60 degrees north.
fn framed(left: f64, right: f64) -> Window {
    Window {
        left,
        right,
        bottom: 6671695620.0,
        top: 6671695621.0,
    }
}

fn strokes(rt: &impl Print) -> io::Result<()> {
    let w = infinite();
    let s = Pen::new().step(w, 1_000, 0, SIXTY, TEN, 0);
    step(rt, "a new pen at 60 N 10 E", s)?;
    let p = s.next;
    step(rt, "then at 60 N 10 W", p.step(w, 1_000, 0, SIXTY, -TEN, 0))?;
    step(
        rt,
        "with third number 1",
        p.step(w, 1_000, 0, SIXTY, -TEN, 1),
    )?;
    step(
        rt,
        "with third number 2",
        p.step(w, 1_000, 0, SIXTY, -TEN, 2),
    )?;
    step(
        rt,
        "with third number -1",
        p.step(w, 1_000, 0, SIXTY, -TEN, -1),
    )
}

fn drops(rt: &impl Print) -> io::Result<()> {
    let w = infinite();
    let p = Pen { down: true };
    step(rt, "60 N, 1 tick east", p.step(w, 1, 0, SIXTY, 1, 0))?;
    step(rt, "50 N, 1 tick west", p.step(w, 1, 0, 500_000_000, -1, 0))?;
    step(rt, "1 tick south, 2 ticks west", p.step(w, 1, 0, -1, -2, 0))?;
    step(
        rt,
        "90 S, meridian 5 E",
        p.step(w, 1_000_000, 50_000_000, -900_000_000, TEN, 0),
    )
}

fn edges(rt: &impl Print) -> io::Result<()> {
    let p = Pen { down: true };
    let on = framed(555974635.0, 555974636.0);
    let beside = framed(555974635.5, 555974636.0);
    step(rt, "on two edges", p.step(on, 1_000, 0, SIXTY, TEN, 0))?;
    let s = p.step(beside, 1_000, 0, SIXTY, TEN, 0);
    step(rt, "half a millimetre outside", s)?;
    step(rt, "then inside", s.next.step(on, 1_000, 0, SIXTY, TEN, 0))?;
    step(
        rt,
        "inside only after the division",
        p.step(framed(555974.0, 555975.0), 1_000, 0, SIXTY, TEN, 0),
    )
}

fn window_refusals(rt: &impl Print) -> io::Result<()> {
    let p = Pen { down: true };
    let far = f64::INFINITY;
    let nan = f64::NAN;
    step(rt, "left NaN", p.step(framed(nan, 1.0), 0, 0, 0, 0, 0))?;
    step(rt, "right NaN", p.step(framed(0.0, nan), 1, 0, 0, 0, 0))?;
    step(rt, "from 0 to -0", p.step(framed(0.0, -0.0), 1, 0, 0, 0, 0))?;
    step(rt, "both infinite", p.step(framed(far, far), 1, 0, 0, 0, 0))
}

fn refusals(rt: &impl Print) -> io::Result<()> {
    let w = infinite();
    let p = Pen { down: true };
    step(rt, "divisor 0", p.step(w, 0, EAST, EAST, EAST, 0))?;
    step(rt, "divisor 1,000,001", p.step(w, 1_000_001, 0, 0, 0, 0))?;
    step(rt, "meridian 180", p.step(w, 1, EAST, EAST, EAST, 0))?;
    step(
        rt,
        "latitude 90.0000001",
        p.step(w, 1, 0, 900_000_001, EAST, 0),
    )?;
    step(rt, "longitude 180", Pen::new().step(w, 1, 0, 0, EAST, 0))
}

pub fn all(rt: &impl Print) -> io::Result<()> {
    strokes(rt)?;
    drops(rt)?;
    edges(rt)?;
    window_refusals(rt)?;
    refusals(rt)
}
