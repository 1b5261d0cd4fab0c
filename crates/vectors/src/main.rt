// Holds the proved crates to test vectors.
#![tactic(auto)]

mod fault;
mod line;
mod pieces;
mod sort;
mod tally;

use fault::Fault;
use line::judge;
use std::io::{BufRead, BufReader};
use tally::Tally;

fn run(rt: &HostRuntime) -> anyhow::Result<()> {
    let heap = rt.alloc();
    let mut tally = Tally::default();
    for (number, line) in (1..=u64::MAX).zip(BufReader::new(heap, rt.stdin())?.lines(heap)) {
        let line = line?;
        match judge(heap, line.as_str()) {
            Ok(sort) => tally.add(sort),
            Err(Fault::NoMemory(e)) => return Err(e.into()),
            Err(fault) => println!(rt; "line {number} {fault}: {line}")?,
        }
    }
    println!(rt; "{tally}")?;
    Ok(())
}

fn main(rt: HostRuntime) -> anyhow::Result<()> {
    run(&rt)
}
