// Compares the two objects of a file at each placement, with every kind of hull, and says how many pairs and tests there were.
//
// The file has a job's words, but none of a job's limits: there may be 65,536 items and 20,000,000 pairs. Where the second object has
// neither facets nor ties, the first is compared with itself. With the word `time` after the file's name, each comparison is repeated
// and its time printed.
#![tactic(auto)]

mod entry;
mod job;
mod query;
mod stop;
mod words;

use anyhow::{Context, bail};
use ball::BallHull;
use book::{Comparison, Item};
use entry::enter_both;
use faced::{BoxHull, ManyHull};
use hull::{Corner, Hull};
use job::Job;
use query::{find, measure};
use register::{Place, Register};
use std::{env, fs};
use stop::Stop;

// The places of a register's table.
const PLACES: usize = 65_536;

// What the program is told to do.
#[derive(Drop)]
struct Order {
    path: String,
    is_timed: bool,
}

fn read_order(rt: &HostRuntime) -> anyhow::Result<Order> {
    let mut args = env::args(rt)?.skip(1);
    let path = args.next().context("name a file")?;
    let is_timed = match args.next().as_deref() {
        None => false,
        Some("time") => true,
        Some(_) => bail!("only the word time may follow the file"),
    };
    Ok(Order { path, is_timed })
}

// A place with a hull of the kind. A library that makes one for all programs would have to promise what it holds.
fn some_place<H: Hull>() -> Place<H> {
    let corner = Corner::new(0, 0, 0).unwrap();
    Place {
        item: Item::Tie(0, 0),
        height: 0,
        tied: false,
        hull: H::first(corner),
    }
}

// Enters the objects and compares them at each placement.
fn run_kind<H: Hull + Clone>(rt: &HostRuntime, job: &Job, is_timed: bool) -> anyhow::Result<()> {
    let mut table = vec![in rt.alloc(); some_place::<H>(); PLACES]?;
    let mut list = Vec::new(rt.alloc());
    let mut register = Register::open(0, table.as_mut_slice());
    let (moved, standing) = enter_both(&mut register, job).map_err(Stop::from)?;
    for (number, placement) in job.placements.iter().enumerate() {
        let order = Comparison {
            moved,
            standing,
            placement: *placement,
        };
        let kind = H::WORD;
        let found = find(&register, order, &mut list)?;
        print!(rt; "{kind}, placement {number}: {found}")?;
        if is_timed {
            let timing = measure(rt, &register, order, list.as_mut_slice())?;
            print!(rt; ", {timing}")?;
        }
        println!(rt; "")?;
    }
    Ok(())
}

fn run(rt: &HostRuntime) -> anyhow::Result<()> {
    let order = read_order(rt)?;
    let text = fs::read_to_string(rt, order.path.as_str())?;
    let job = Job::read(rt.alloc(), text.as_str())?;
    // Each kind has a type of hulls of its own, so there is no list of them to go over.
    run_kind::<BoxHull>(rt, &job, order.is_timed)?;
    run_kind::<ManyHull>(rt, &job, order.is_timed)?;
    run_kind::<BallHull>(rt, &job, order.is_timed)?;
    Ok(())
}

fn main(rt: HostRuntime) -> anyhow::Result<()> {
    run(&rt)
}
