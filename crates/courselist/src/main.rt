// Reads a route from standard input and prints a line for each counted leg, its course and its length, or the refusal and its line.
// Where it cannot read or print, it says so on standard error, in a line that begins with its name.
#![tactic(auto)]

use globe::Point;
use points::{MOST_NUMBERS, latitude, longitude, third};
use std::io;
use std::io::Write;
use streams::{fail, field, number, read_route, refused, text};

fn point(points: &[i32], i: usize) -> Point {
    Point {
        latitude: latitude(points, i),
        longitude: longitude(points, i),
    }
}

// The line of a leg. A route's points are accepted, so that 18 alone refuses a course, and nothing a length.
fn leg<W: Write>(out: &mut W, start: Point, end: Point) -> io::Result<()> {
    match globe::course(start, end) {
        Ok(ticks) => number(out, ticks as u64)?,
        Err(_) => text(out, b"none")?,
    }
    field(out, globe::leg(start, end).unwrap_or(0))?;
    text(out, b"\n")
}

// "the leg into the next point not counted": its third number is then 1
fn list<W: Write>(out: &mut W, points: &[i32], n: usize) -> io::Result<()> {
    for i in 1..n {
        if third(points, i) == 0 {
            leg(out, point(points, i - 1), point(points, i))?;
        }
    }
    Ok(())
}

fn main(rt: HostRuntime) {
    // room for every route
    let mut buffer = [0i32; MOST_NUMBERS];
    let reading = match read_route(&mut rt.reader(), &mut buffer) {
        Ok(reading) => reading,
        Err(error) => return fail(&rt, "courselist: standard input", error),
    };
    let mut out = io::writer(&rt);
    let printed = match reading {
        Ok(route) => list(&mut out, &buffer, route.points as usize),
        Err(r) => refused(&mut out, r.refusal.number(), r.line),
    };
    if let Err(error) = printed {
        fail(&rt, "courselist: standard output", error);
    }
}
