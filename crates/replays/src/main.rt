// Holds the register to histories of calls with the answers and lists that are due.
#![tactic(auto)]

mod history;
mod line;
mod tally;
mod words;

use history::History;
use line::{Line, read_line};
use std::io::{BufRead, BufReader};
use tally::Tally;

// Reads the histories, prints the lines that are malformed, and judges each history at its end.
fn judge_all(rt: &HostRuntime, tally: &mut Tally) -> anyhow::Result<()> {
    let heap = rt.alloc();
    let mut history: Option<History> = None;
    for (line, number) in BufReader::new(heap, rt.stdin())?.lines(heap).zip(1u64..) {
        let line = line?;
        match (read_line(heap, line.as_str())?, &mut history) {
            (Some(Line::Open(opening)), history) => {
                if let Some(last) = history.replace(History::new(heap, number, opening)) {
                    last.judge(heap, tally)?;
                }
            }
            (Some(Line::Expect(request, due)), Some(history)) => history.add(number, request, due)?,
            _ => println!(rt; "line {number} is malformed: {line}")?,
        }
    }
    if let Some(last) = &history {
        last.judge(heap, tally)?;
    }
    Ok(())
}

fn run(rt: &HostRuntime) -> anyhow::Result<()> {
    let mut tally = Tally::new(rt.alloc());
    judge_all(rt, &mut tally)?;
    for disagreement in tally.disagreements.iter() {
        println!(rt; "{disagreement}")?;
    }
    println!(rt; "{tally}")?;
    Ok(())
}

fn main(rt: HostRuntime) -> anyhow::Result<()> {
    run(&rt)
}
