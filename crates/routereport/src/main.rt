// Reads a route from standard input and prints its points, length and target, or the refusal and its line. Where
// it cannot read or print, it says so on standard error, in a line that begins with its name.
#![tactic(auto)]

use points::MOST_NUMBERS;
use route::Route;
use std::io;
use std::io::Write;
use streams::{fail, field, read_route, refused, text};

fn goal<W: Write>(out: &mut W, target: Option<u64>) -> io::Result<()> {
    match target {
        Some(n) => field(out, n),
        None => text(out, b"\tnone"),
    }
}

fn report<W: Write>(out: &mut W, route: Route) -> io::Result<()> {
    text(out, b"points")?;
    field(out, route.points as u64)?;
    text(out, b"\nlength")?;
    field(out, route.length)?;
    text(out, b"\ntarget")?;
    goal(out, route.target)?;
    text(out, b"\n")
}

fn main(rt: HostRuntime) {
    // room for every route
    let mut buffer = [0i32; MOST_NUMBERS];
    let reading = match read_route(&mut rt.reader(), &mut buffer) {
        Ok(reading) => reading,
        Err(error) => return fail(&rt, "routereport: standard input", error),
    };
    let mut out = io::writer(&rt);
    let printed = match reading {
        Ok(route) => report(&mut out, route),
        Err(r) => refused(&mut out, r.refusal.number(), r.line),
    };
    if let Err(error) = printed {
        fail(&rt, "routereport: standard output", error);
    }
}
