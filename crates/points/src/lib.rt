// The point buffer: how many numbers a point has and which is which, how many points there are, and what refuses a buffer. Nothing else
// knows how a point's numbers lie.
#![tactic(auto)]

ghost use Rattle.std.specs.Prelude.{◌≡◌, ◌<◌, true, List, ℤ};
ghost use Rattle.refusals.specs.Choice.{fine, answered};
ghost use Rattle.ticks.specs.Ticks.{is_latitude, is_longitude};
ghost use Rattle.points.specs.Points.{numbers, count, part_at, latitude_at, longitude_at, third_at, put_at, fits_after, thirds_fit, points_refusal, buffer_refusal};

use refusals::Refusal;
use std::marker::Model;
use ticks::check_point;

// Latitude, longitude, and 1 where the pen was up before the point, else 0.
pub const NUMBERS: usize = 3;

pub const MOST_POINTS: usize = 1_000;

pub const MOST_NUMBERS: usize = NUMBERS * MOST_POINTS;

pub fn count(points: &[i32]) -> usize
    ensures { result ≡ count points.now }
{
    points.len() / NUMBERS
}

// A point's number `k`, 0 where the buffer does not have it. Nothing is multiplied behind the last point, so that the product fits.
fn part(points: &[i32], i: usize, k: usize) -> i32
    requires { k < numbers }
    ensures { result ≡ part_at points.now i k }
{
    if count(points) < i {
        return 0;
    }
    let at = NUMBERS * i + k;
    if points.len() <= at {
        return 0;
    }
    points[at]
}

pub fn latitude(points: &[i32], i: usize) -> i32
    ensures { result ≡ latitude_at points.now i }
{
    part(points, i, 0)
}

pub fn longitude(points: &[i32], i: usize) -> i32
    ensures { result ≡ longitude_at points.now i }
{
    part(points, i, 1)
}

pub fn third(points: &[i32], i: usize) -> i32
    ensures { result ≡ third_at points.now i }
{
    part(points, i, 2)
}

// The numbers of point `i` into a buffer that has room for them; no other buffer changes.
pub fn put(points: &mut [i32], i: usize, latitude: i32, longitude: i32, third: i32)
    ensures { points.new ≡ put_at points.old i latitude longitude third }
{
    if points.len() / NUMBERS <= i {
        return;
    }
    let at = NUMBERS * i;
    points[at] = latitude;
    points[at + 1] = longitude;
    points[at + 2] = third;
}

fn third_fits(points: &[i32], i: usize) -> bool
    ensures { result ≡ fits_after i (third_at points.now i) }
{
    let pen = third(points, i);
    (pen == 1) | ((1 <= i) & (pen == 0))
}

#[tactic(auto, using(crate::proofs::PointLaws::unfit_at), unfolding(crate::specs::Points::thirds_fit))]
fn thirds_fit(points: &[i32], n: usize) -> bool
    ensures { result ≡ thirds_fit points.now n }
{
    for i in 0..n {
        if !third_fits(points, i) {
            return false;
        }
    }
    true
}

#[tactic(auto, using(signed::specs::Machine::kept, crate::proofs::PointLaws::refused_at), unfolding(crate::specs::Points::points_refusal))]
fn check_points(points: &[i32], n: usize) -> Result<(), Refusal>
    ensures { result ≡ points_refusal points.now n }
{
    for i in 0..n {
        check_point(latitude(points, i), longitude(points, i))?;
    }
    Ok(())
}

// Whether a buffer is accepted.
#[tactic(auto, using(crate::proofs::PointLaws::not_whole, crate::proofs::PointLaws::not_fit, crate::proofs::PointLaws::too_many, crate::proofs::PointLaws::well_formed))]
pub fn check_buffer(points: &[i32]) -> Result<(), Refusal>
    ensures { result ≡ buffer_refusal points.now }
{
    if points.len() % NUMBERS != 0 {
        return Err(Refusal::Buffer);
    }
    let n = count(points);
    if !thirds_fit(points, n) {
        return Err(Refusal::Buffer);
    }
    if MOST_POINTS < n {
        return Err(Refusal::Points);
    }
    check_points(points, n)
}

// A buffer that is accepted. A clause sees its numbers.
#[derive(Drop)]
pub struct Points<'a> {
    numbers: &'a [i32],
}

impl<'a> Model for Points<'a> {
    ghost Value = { List ℤ };

    ghost view = { λ p. p.numbers.now };

    ghost invariant = { λ p. buffer_refusal p.numbers.now ≡ fine };
}

impl<'a> Points<'a> {
    #[tactic(auto, using(refusals::specs::Tests::refuses))]
    pub fn new(numbers: &'a [i32]) -> Result<Points<'a>, Refusal>
        ensures { result ≡ answered (buffer_refusal numbers.now) numbers.now }
    {
        check_buffer(numbers)?;
        Ok(Points { numbers })
    }

    pub fn count(&self) -> usize
        ensures number { result ≡ count self.now }
        ensures accepted { buffer_refusal self.now ≡ fine }
    {
        count(self.numbers)
    }

    #[tactic(auto, using(signed::specs::Machine::kept, crate::proofs::PointLaws::in_latitude))]
    pub fn latitude(&self, i: usize) -> i32
        ensures number { result ≡ latitude_at self.now i }
        ensures range { is_latitude result ≡ true }
    {
        latitude(self.numbers, i)
    }

    #[tactic(auto, using(signed::specs::Machine::kept, crate::proofs::PointLaws::in_longitude))]
    pub fn longitude(&self, i: usize) -> i32
        ensures number { result ≡ longitude_at self.now i }
        ensures range { is_longitude result ≡ true }
    {
        longitude(self.numbers, i)
    }

    pub fn third(&self, i: usize) -> i32
        ensures number { result ≡ third_at self.now i }
        ensures accepted { buffer_refusal self.now ≡ fine }
    {
        third(self.numbers, i)
    }
}
