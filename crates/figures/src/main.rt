// Runs the figures that the documents give, and prints one answer a line; the file stdout has what the documents say.
// A refusal prints its number behind `refused`. Angles are in ticks.
#![tactic(auto)]

mod pens;

use globe::{Place, Point};
use points::{MOST_NUMBERS, NUMBERS, put};
use refusals::Refusal;
use route::{Refused, Route, read};
use std::io;

const NORTH: i32 = 900_000_000;

const EAST: i32 = 1_800_000_000;

const WEST: i32 = -EAST;

// The numbers of two points.
const TWO: usize = 2 * NUMBERS;

// What is printed of an answer, each number behind a tab.
pub(crate) trait Answer: Copy {
    fn print<P: Print>(self, rt: &P) -> io::Result<()>;
}

impl Answer for i64 {
    fn print<P: Print>(self, rt: &P) -> io::Result<()> {
        print!(rt; "\t{self}")
    }
}

impl Answer for u64 {
    fn print<P: Print>(self, rt: &P) -> io::Result<()> {
        print!(rt; "\t{self}")
    }
}

impl Answer for Place {
    fn print<P: Print>(self, rt: &P) -> io::Result<()> {
        print!(rt; "\t{}\t{}", self.x, self.y)
    }
}

impl Answer for Point {
    fn print<P: Print>(self, rt: &P) -> io::Result<()> {
        print!(rt; "\t{}\t{}", self.latitude, self.longitude)
    }
}

impl Answer for Route {
    fn print<P: Print>(self, rt: &P) -> io::Result<()> {
        print!(rt; "\t{}\t{}", self.points, self.length)?;
        match self.target {
            Some(target) => print!(rt; "\t{target}"),
            None => print!(rt; "\tnone"),
        }
    }
}

impl Answer for Refusal {
    fn print<P: Print>(self, rt: &P) -> io::Result<()> {
        print!(rt; "\trefused\t{self}")
    }
}

impl Answer for Refused {
    fn print<P: Print>(self, rt: &P) -> io::Result<()> {
        self.refusal.print(rt)?;
        print!(rt; "\t{}", self.line)
    }
}

impl<T: Answer, E: Answer> Answer for Result<T, E> {
    fn print<P: Print>(self, rt: &P) -> io::Result<()> {
        match self {
            Ok(value) => value.print(rt),
            Err(refused) => refused.print(rt),
        }
    }
}

fn at(latitude: i32, longitude: i32) -> Point {
    Point {
        latitude,
        longitude,
    }
}

fn place(x: i64, y: i64) -> Place {
    Place { x, y }
}

fn line<A: Answer>(rt: &impl Print, name: &str, answer: A) -> io::Result<()> {
    print!(rt; "{name}")?;
    answer.print(rt)?;
    println!(rt)
}

fn long_sines(rt: &impl Print) -> io::Result<()> {
    line(rt, "long sine of 1 tick", globe::long_sine(1))?;
    line(rt, "long sine of -1 tick", globe::long_sine(-1))?;
    line(rt, "long sine of 30 degrees", globe::long_sine(300_000_000))?;
    line(rt, "long sine of -90 degrees", globe::long_sine(-NORTH))?;
    line(
        rt,
        "long sine of 90.0000001 degrees",
        globe::long_sine(NORTH + 1),
    )
}

fn long_sines_half(rt: &impl Print) -> io::Result<()> {
    line(rt, "long sine of 1 half tick", globe::long_sine_half(1))?;
    line(rt, "long sine of 2 half ticks", globe::long_sine_half(2))?;
    line(
        rt,
        "long sine of 90 degrees in half ticks",
        globe::long_sine_half(1_800_000_000),
    )?;
    line(
        rt,
        "long sine of 90 degrees and a half tick",
        globe::long_sine_half(1_800_000_001),
    )?;
    line(rt, "long sine of -1 half tick", globe::long_sine_half(-1))
}

fn long_sines_around(rt: &impl Print) -> io::Result<()> {
    line(
        rt,
        "long sine of 150 degrees",
        globe::long_sine(1_500_000_000),
    )?;
    line(
        rt,
        "long sine of -150 degrees",
        globe::long_sine(-1_500_000_000),
    )?;
    line(
        rt,
        "long sine of 179.9999999 degrees",
        globe::long_sine(EAST - 1),
    )?;
    line(rt, "long sine of 180 degrees", globe::long_sine(EAST))?;
    line(rt, "long sine of -180 degrees", globe::long_sine(WEST))?;
    line(
        rt,
        "long sine of 180.0000001 degrees",
        globe::long_sine(EAST + 1),
    )?;
    line(
        rt,
        "long sine of the least number",
        globe::long_sine(i32::MIN),
    )
}

fn short_sines(rt: &impl Print) -> io::Result<()> {
    line(rt, "short sine of 1 tick", globe::short_sine(1))?;
    line(rt, "short sine of -1 tick", globe::short_sine(-1))?;
    line(
        rt,
        "short sine of -179.9999999 degrees",
        globe::short_sine(WEST + 1),
    )
}

fn cylindrical(rt: &impl Print) -> io::Result<()> {
    line(
        rt,
        "cylindrical 30 N 10 E",
        globe::cylindrical(at(300_000_000, 100_000_000), 0),
    )?;
    line(
        rt,
        "cylindrical, longitude 179.9999999, meridian -180",
        globe::cylindrical(at(0, EAST - 1), WEST),
    )?;
    line(
        rt,
        "cylindrical, longitude 0, meridian -180",
        globe::cylindrical(at(0, 0), WEST),
    )?;
    line(
        rt,
        "cylindrical, longitude -180",
        globe::cylindrical(at(0, WEST), 0),
    )
}

fn cylindrical_refusals(rt: &impl Print) -> io::Result<()> {
    line(
        rt,
        "cylindrical, longitude 180",
        globe::cylindrical(at(0, EAST), 0),
    )?;
    line(
        rt,
        "cylindrical, all out of range",
        globe::cylindrical(at(NORTH + 1, EAST), EAST),
    )?;
    line(
        rt,
        "cylindrical, latitude and longitude out of range",
        globe::cylindrical(at(NORTH + 1, EAST), 0),
    )
}

fn cylindrical_back(rt: &impl Print) -> io::Result<()> {
    line(
        rt,
        "cylindrical back (0, 17453)",
        globe::cylindrical_back(place(0, 17_453), 0),
    )?;
    line(
        rt,
        "cylindrical back (-1, 0), meridian -180",
        globe::cylindrical_back(place(-1, 0), WEST),
    )
}

fn cylindrical_back_refusals(rt: &impl Print) -> io::Result<()> {
    line(
        rt,
        "cylindrical back (0, 17454)",
        globe::cylindrical_back(place(0, 17_454), 0),
    )?;
    line(
        rt,
        "cylindrical back, offset 180",
        globe::cylindrical_back(place(1_800_000_000, 0), 0),
    )?;
    line(
        rt,
        "cylindrical back, the least numbers",
        globe::cylindrical_back(place(i64::MIN, i64::MIN), 0),
    )?;
    line(
        rt,
        "cylindrical back, meridian 180",
        globe::cylindrical_back(place(0, 17_454), EAST),
    )
}

fn sinusoidal(rt: &impl Print) -> io::Result<()> {
    line(
        rt,
        "sinusoidal 60 N 10 E",
        globe::sinusoidal(at(600_000_000, 100_000_000), 0),
    )?;
    line(
        rt,
        "sinusoidal 90 N 10 E",
        globe::sinusoidal(at(NORTH, 100_000_000), 0),
    )
}

fn sinusoidal_back(rt: &impl Print) -> io::Result<()> {
    line(
        rt,
        "sinusoidal 60 N 10 E back",
        globe::sinusoidal_back(place(50_000_000_000_000_000, 600_000_000), 0),
    )?;
    line(
        rt,
        "sinusoidal back (0, 90 N), meridian 5 E",
        globe::sinusoidal_back(place(0, 900_000_000), 50_000_000),
    )
}

fn sinusoidal_back_refusals(rt: &impl Print) -> io::Result<()> {
    line(
        rt,
        "sinusoidal 60 N 10 E back, x one more",
        globe::sinusoidal_back(place(50_000_000_000_000_001, 600_000_000), 0),
    )?;
    line(
        rt,
        "sinusoidal 60 N back, offset 180",
        globe::sinusoidal_back(place(900_000_000_000_000_000, 600_000_000), 0),
    )?;
    line(
        rt,
        "sinusoidal back (1, 90 N), meridian 5 E",
        globe::sinusoidal_back(place(1, 900_000_000), 50_000_000),
    )?;
    line(
        rt,
        "sinusoidal back, the least numbers",
        globe::sinusoidal_back(place(i64::MIN, i64::MIN), 0),
    )
}

fn short_cosines(rt: &impl Print) -> io::Result<()> {
    near_pole(rt, NORTH - 1)?;
    near_pole(rt, NORTH - 2)?;
    near_pole(rt, NORTH - 3)?;
    near_pole(rt, NORTH - 4)?;
    near_pole(rt, NORTH - 5)
}

// With an offset of 1 tick x is the short cosine.
fn near_pole(rt: &impl Print, latitude: i32) -> io::Result<()> {
    line(
        rt,
        "sinusoidal near the pole",
        globe::sinusoidal(at(latitude, 1), 0),
    )
}

fn short_legs(rt: &impl Print) -> io::Result<()> {
    line(rt, "leg to the same point", globe::leg(at(0, 0), at(0, 0)))?;
    line(rt, "leg of 1 tick north", globe::leg(at(0, 0), at(1, 0)))?;
    line(rt, "leg of 2 ticks north", globe::leg(at(0, 0), at(2, 0)))?;
    line(rt, "leg of 3 ticks north", globe::leg(at(0, 0), at(3, 0)))?;
    line(rt, "leg of 1 tick east", globe::leg(at(0, 0), at(0, 1)))?;
    line(
        rt,
        "leg of 1 tick east at 60 N",
        globe::leg(at(600_000_000, 0), at(600_000_000, 1)),
    )
}

fn long_legs(rt: &impl Print) -> io::Result<()> {
    line(
        rt,
        "leg from 179.9 E to 179.9 W",
        globe::leg(at(0, 1_799_000_000), at(0, -1_799_000_000)),
    )?;
    line(
        rt,
        "leg from pole to pole",
        globe::leg(at(NORTH, 0), at(-NORTH, 0)),
    )?;
    line(
        rt,
        "leg along a quarter of the equator",
        globe::leg(at(0, 0), at(0, NORTH)),
    )?;
    line(
        rt,
        "leg on which m is floored first",
        globe::leg(
            at(-388_974_850, 745_373_330),
            at(268_723_365, -1_239_838_359),
        ),
    )?;
    line(
        rt,
        "leg near the antipode",
        globe::leg(at(0, 0), at(0, 1_799_990_000)),
    )?;
    line(
        rt,
        "leg, both points out of range",
        globe::leg(at(0, EAST), at(NORTH + 1, 0)),
    )
}

// A point at 0, 0 and one two ticks north of it at a longitude, with their third numbers.
fn two_points(
    rt: &impl Print,
    name: &str,
    first: i32,
    longitude: i32,
    second: i32,
) -> io::Result<()> {
    let mut two = [0; TWO];
    put(&mut two, 0, 0, 0, first);
    put(&mut two, 1, 2, longitude, second);
    line(rt, name, globe::measure(&two))
}

fn buffers(rt: &impl Print) -> io::Result<()> {
    line(rt, "no points", globe::measure(&[]))?;
    two_points(rt, "two points", 1, 0, 0)?;
    two_points(rt, "two points, the pen up between", 1, 0, 1)
}

fn buffer_refusals(rt: &impl Print) -> io::Result<()> {
    let mut more = [0; TWO + 1];
    put(&mut more, 0, 0, 0, 1);
    line(rt, "two points and a number more", globe::measure(&more))?;
    two_points(rt, "a third number of 2", 1, 0, 2)?;
    two_points(rt, "a first third number of 0", 0, 0, 0)?;
    two_points(rt, "a second point out of range", 1, EAST, 0)
}

fn long_buffers(rt: &impl Print) -> io::Result<()> {
    let mut most = [0; MOST_NUMBERS];
    put(&mut most, 0, 0, 0, 1);
    line(rt, "1,000 points", globe::measure(&most))?;
    let mut more = [0; MOST_NUMBERS + NUMBERS];
    put(&mut more, 0, 0, 0, 1);
    line(rt, "1,001 points", globe::measure(&more))
}

// The answer, then every number of the buffer.
fn reading(
    rt: &impl Print,
    name: &str,
    answer: Result<Route, Refused>,
    buffer: &[i32],
) -> io::Result<()> {
    print!(rt; "{name}")?;
    answer.print(rt)?;
    for n in buffer {
        print!(rt; "\t{n}")?;
    }
    println!(rt)
}

fn routes(rt: &impl Print) -> io::Result<()> {
    let mut a = [9; TWO + 2];
    let r = read(b"route\tpoint\np\t0\t0\np\t0.0000002\t0\n", &mut a);
    reading(rt, "two points, and room for two numbers more", r, &a)?;
    let mut b = [9; TWO];
    let s = read(
        b"route\tcomma\nt\t2,5\np\t0\t0\ng\np\t0\t0,0000002\n",
        &mut b,
    );
    reading(rt, "a target, and the pen up between two points", s, &b)?;
    let t = read(b"route\tpoint\n", &mut []);
    reading(rt, "no points into no numbers", t, &[])
}

fn marked(rt: &impl Print, name: &str, text: &[u8]) -> io::Result<()> {
    reading(rt, name, read(text, &mut []), &[])
}

// Whether a comma or a point is the decimal mark is said by line 1, and nothing is guessed.
fn marks(rt: &impl Print) -> io::Result<()> {
    marked(rt, "2,500 under comma", b"route\tcomma\nt\t2,500\n")?;
    marked(rt, "2,500 under point", b"route\tpoint\nt\t2,500\n")?;
    marked(rt, "5, under comma", b"route\tcomma\nt\t5,\n")?;
    marked(rt, "1.234,5 under comma", b"route\tcomma\nt\t1.234,5\n")?;
    marked(rt, "1.234,5 under point", b"route\tpoint\nt\t1.234,5\n")
}

fn route_refusals(rt: &impl Print) -> io::Result<()> {
    let mut a = [9; TWO - 1];
    let r = read(b"route\tpoint\np\t0\t0\np\t0.0000002\t0\n", &mut a);
    reading(rt, "two points, and room for a number less", r, &a)?;
    let mut b = [9; TWO];
    let s = read(b"route\tpoint\np\t1\t2\np\t3\t4.\n", &mut b);
    reading(rt, "a good line, then a bad one", s, &b)?;
    let mut c = [9; NUMBERS - 1];
    let t = read(b"route\tpoint\np\t1\t2\ng\n", &mut c);
    reading(rt, "a last g, and too few numbers", t, &c)
}

fn main(rt: HostRuntime) -> io::Result<()> {
    long_sines(&rt)?;
    long_sines_half(&rt)?;
    long_sines_around(&rt)?;
    short_sines(&rt)?;
    cylindrical(&rt)?;
    cylindrical_refusals(&rt)?;
    cylindrical_back(&rt)?;
    cylindrical_back_refusals(&rt)?;
    sinusoidal(&rt)?;
    sinusoidal_back(&rt)?;
    sinusoidal_back_refusals(&rt)?;
    short_cosines(&rt)?;
    short_legs(&rt)?;
    long_legs(&rt)?;
    buffers(&rt)?;
    buffer_refusals(&rt)?;
    long_buffers(&rt)?;
    routes(&rt)?;
    marks(&rt)?;
    route_refusals(&rt)?;
    pens::all(&rt)
}
