// Reads a job and prints its report: the facet pairs that may touch.
#![tactic(auto)]

use input::read_input;
use job::report;

fn run(rt: &HostRuntime) -> anyhow::Result<()> {
    let bytes = read_input(rt)?;
    let text = report(rt.alloc(), bytes.as_slice())?;
    rt.print(text.as_str())?;
    Ok(())
}

fn main(rt: HostRuntime) -> anyhow::Result<()> {
    run(&rt)
}
