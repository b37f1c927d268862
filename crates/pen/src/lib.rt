// The pen: what it draws at a point of a route, in a window on the sinusoidal sheet. Every step answers a stroke or what is refused,
// and the next pen.
#![tactic(auto)]

ghost use Rattle.std.specs.Prelude.{◌≡◌};
ghost use Rattle.pen.specs.Pen.{is_window, is_divisor, inside, new_pen, drawn, place_in, step_of};

mod position;

use crate::position::{across, along};
use globe::{Place, Point};
use refusals::Refusal;

const MOST_A_PIXEL: u32 = 1_000_000;

// The edges, in millimetres on the sheet. Infinite ones are allowed.
#[derive(Clone, Copy)]
pub struct Window {
    pub left: f64,
    pub right: f64,
    pub bottom: f64,
    pub top: f64,
}

#[derive(Clone, Copy)]
pub enum Stroke {
    Outside,
    Move(f64, f64),
    Line(f64, f64),
}

#[derive(Clone, Copy)]
pub struct Pen {
    pub down: bool,
}

#[derive(Clone, Copy)]
pub struct Step {
    pub answer: Result<Stroke, Refusal>,
    pub next: Pen,
}

// A step in the paper's numbers, as it goes out at the door for C. stroke: 0 outside, 1 move, 2 line. pen: 0 up, 1 down; beside a refusal
// the number that came in.
#[repr(C)]
#[derive(Clone, Copy)]
pub struct StepOut {
    pub refusal: u32,
    pub stroke: u32,
    pub x: f64,
    pub y: f64,
    pub pen: u32,
}

impl Window {
    // A comparison with a NaN is false, so no edge is one.
    fn is_window(self) -> bool
        ensures { result ≡ is_window self }
    {
        self.left < self.right && self.bottom < self.top
    }

    // The edges are counted in.
    #[tactic(auto, using(crate::proofs::FloatLaws::partial_le_is))]
    fn holds(self, x: f64, y: f64) -> bool
        ensures { result ≡ inside self x y }
    {
        (self.left..=self.right).contains(&x) && (self.bottom..=self.top).contains(&y)
    }
}

fn is_divisor(divisor: u32) -> bool
    ensures { result ≡ is_divisor divisor }
{
    (1..=MOST_A_PIXEL).contains(&divisor)
}

// The place of a point that a step may draw.
#[tactic(auto, unfolding(crate::specs::Pen::place_in))]
fn place(
    window: Window,
    divisor: u32,
    meridian: i32,
    latitude: i32,
    longitude: i32,
) -> Result<Place, Refusal>
    ensures { result ≡ place_in window divisor meridian latitude longitude }
{
    if !window.is_window() {
        return Err(Refusal::Window);
    }
    if !is_divisor(divisor) {
        return Err(Refusal::Divisor);
    }
    let point = Point {
        latitude,
        longitude,
    };
    globe::sinusoidal(point, meridian)
}

impl Pen {
    // A new pen is up.
    pub fn new() -> Self
        ensures { result ≡ new_pen }
    {
        Pen { down: false }
    }

    // The step at X and Y, which are millimetres on the sheet; a position is each divided once.
    #[tactic(auto, using(crate::proofs::PenLaws::drawn_outside, crate::proofs::PenLaws::drawn_inside))]
    fn draw(self, window: Window, divisor: u32, x: f64, y: f64, third: i32) -> Step
        ensures { result ≡ drawn self window divisor third x y }
    {
        if !window.holds(x, y) {
            return Step {
                answer: Ok(Stroke::Outside),
                next: Pen { down: false },
            };
        }
        let a = x / (divisor as f64);
        let b = y / (divisor as f64);
        let stroke = if self.down && third == 0 {
            Stroke::Line(a, b)
        } else {
            Stroke::Move(a, b)
        };
        Step {
            answer: Ok(stroke),
            next: Pen { down: true },
        }
    }

    // The step at a point whose third number is 0 where the leg into it is drawn. A refusal hands back the pen it got.
    // Kept: six arguments, since a struct of divisor, meridian and point would be filled anew for each call.
    #[tactic(auto, using(crate::proofs::Reach::across_asked, crate::proofs::Reach::along_asked), unfolding(crate::specs::Pen::step_of))]
    pub fn step(
        self,
        window: Window,
        divisor: u32,
        meridian: i32,
        latitude: i32,
        longitude: i32,
        third: i32,
    ) -> Step
        ensures { result ≡ step_of self window divisor meridian latitude longitude third }
    {
        match place(window, divisor, meridian, latitude, longitude) {
            Ok(p) => self.draw(window, divisor, across(p.x), along(p.y), third),
            Err(refusal) => Step {
                answer: Err(refusal),
                next: self,
            },
        }
    }
}
