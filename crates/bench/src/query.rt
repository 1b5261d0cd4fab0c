// Comparisons, and how long they take.
ghost use Rattle.std.specs.Prelude.{◌≡◌};

use super::stop::Stop;
use book::{Comparison, Refusal};
use hull::Hull;
use register::Register;
use std::fmt;
use std::num::nearest_u64_to_f64;
use std::rt::Clock;
use std::time::{Duration, Instant};

// The places that a list has: where one number of them does not suffice, the next may.
const ROOMS: [usize; 4] = [1_000_000, 4_000_000, 10_000_000, 20_000_000];

// A measured comparison is made at least and at most so often.
const LEAST_TURNS: u32 = 5;

const MOST_TURNS: u32 = 1000;

// In between it is made until all its turns together took so many milliseconds.
const ENOUGH_MILLIS: u64 = 200;

// What a comparison found.
#[derive(Clone, Copy)]
pub struct Found {
    pairs: usize,
    tests: u64,
}

impl fmt::Display for Found {
    fn fmt<W: fmt::Write>(&self, f: &mut fmt::Formatter<W>) -> fmt::Result {
        let pairs = self.pairs;
        let tests = self.tests;
        write!(f, "{pairs} pairs, {tests} tests")
    }
}

// How often a comparison of so many tests was made, and how long it took.
#[derive(Clone, Copy)]
pub struct Timing {
    tests: u64,
    turns: u32,
    best: Duration,
    total: Duration,
}

impl Timing {
    // No turn was made.
    fn new() -> Timing
        ensures { (result.turns ≡ 0) × (result.tests ≡ 0) }
    {
        Timing {
            tests: 0,
            turns: 0,
            best: Duration::MAX,
            total: Duration::ZERO,
        }
    }

    // One more turn.
    fn add(&mut self, found: Found, span: Duration)
        ensures { self.new.tests ≡ found.tests }
    {
        self.tests = found.tests;
        self.turns = self.turns.saturating_add(1);
        self.best = self.best.min(span);
        self.total = self.total.saturating_add(span);
    }

    // Whether no more turns are needed.
    fn is_enough(&self) -> bool {
        self.turns >= LEAST_TURNS && self.total >= Duration::from_millis(ENOUGH_MILLIS)
    }
}

impl fmt::Display for Timing {
    fn fmt<W: fmt::Write>(&self, f: &mut fmt::Formatter<W>) -> fmt::Result {
        let best = self.best.as_secs_f64() * 1e6;
        let mean = self.total.as_secs_f64() * 1e6 / self.turns as f64;
        let each = best * 1e3 / nearest_u64_to_f64(self.tests);
        write!(
            f,
            "best {best:.1} us, mean {mean:.1} us, {each:.1} ns a test"
        )
    }
}

// Makes a comparison.
fn compare<H: Hull>(
    register: &Register<'_, H>,
    order: Comparison,
    list: &mut [(u32, u32)],
) -> Result<Found, Refusal> {
    let (pairs, tests) = register.compare(order.moved, order.standing, order.placement, list)?;
    Ok(Found { pairs, tests })
}

// Makes a comparison with a list that is lengthened until there is a place for each pair.
pub(crate) fn find<H: Hull>(
    register: &Register<'_, H>,
    order: Comparison,
    list: &mut Vec<(u32, u32)>,
) -> Result<Found, Stop> {
    for room in ROOMS {
        if list.len() < room {
            list.resize(room, (0, 0))?;
        }
        match compare(register, order, list.as_mut_slice()) {
            Err(Refusal::ListFull) => {}
            found => return found.map_err(Stop::from),
        }
    }
    Err(Stop::from(Refusal::ListFull))
}

// Makes a comparison again and again.
pub(crate) fn measure<H: Hull>(
    clock: &impl Clock,
    register: &Register<'_, H>,
    order: Comparison,
    list: &mut [(u32, u32)],
) -> anyhow::Result<Timing> {
    let mut timing = Timing::new();
    for _ in 0..MOST_TURNS {
        let start = Instant::now(clock)?;
        let found = compare(register, order, list).map_err(Stop::from)?;
        timing.add(found, start.elapsed(clock)?);
        if timing.is_enough() {
            break;
        }
    }
    Ok(timing)
}
