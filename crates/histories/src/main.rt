// Holds the register to histories of calls with the answers that are due.
#![tactic(auto)]

mod history;
mod line;
mod words;

use history::History;
use line::{Line, read_line};
use std::io::{BufRead, BufReader};

fn run(rt: &HostRuntime) -> anyhow::Result<()> {
    let heap = rt.alloc();
    // Calls before the first opening are made over no places.
    let mut history = History::new(heap, 0, 0);
    let mut histories: u64 = 0;
    let mut calls: usize = 0;
    for (line, number) in BufReader::new(heap, rt.stdin())?.lines(heap).zip(1u64..) {
        let line = line?;
        match read_line(line.as_str()) {
            Some(Line::Open(mark, places)) => {
                calls = calls.saturating_add(history.agreeing(heap)?);
                history = History::new(heap, mark, places);
                histories = histories.saturating_add(1);
            }
            Some(Line::Expect(call, due)) => history.add(call, due)?,
            None => println!(rt; "line {number} is malformed: {line}")?,
        }
    }
    calls = calls.saturating_add(history.agreeing(heap)?);
    println!(rt; "{calls} answers in {histories} histories agree")?;
    Ok(())
}

fn main(rt: HostRuntime) -> anyhow::Result<()> {
    run(&rt)
}
