// Reads a job and reports the facet pairs that may touch.
#![tactic(auto)]

mod job;
mod refusal;
mod rows;
mod stop;
#[cfg(test)]
mod tests;

use input::read_input;
use job::answer;

fn run(rt: &HostRuntime) -> anyhow::Result<()> {
    let bytes = read_input(rt)?;
    let report = answer(rt.alloc(), bytes.as_slice())?;
    rt.print(report.as_str())?;
    Ok(())
}

fn main(rt: HostRuntime) -> anyhow::Result<()> {
    run(&rt)
}
