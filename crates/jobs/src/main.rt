// Holds the reports of jobs to those that are due.
#![tactic(auto)]

mod case;

use case::{Case, Cases};
use job::report;
use std::alloc::{AllocError, Global};
use std::io::Read;

// There are no more cases than this.
const MOST_CASES: usize = 1_000_000;

// Whether the job gets its report.
fn agrees(heap: Global, case: &Case<'_>) -> Result<bool, AllocError> {
    let text = report(heap, case.job)?;
    Ok(text.as_bytes() == case.report)
}

fn run(rt: &HostRuntime) -> anyhow::Result<()> {
    let heap = rt.alloc();
    let mut bytes = Vec::new(heap);
    rt.stdin().read_to_end(&mut bytes)?;
    let mut agreeing: u64 = 0;
    for case in Cases::new(bytes.as_slice()).take(MOST_CASES) {
        let Ok(case) = case else {
            println!(rt; "the test data are malformed")?;
            break;
        };
        if agrees(heap, &case)? {
            agreeing = agreeing.saturating_add(1);
        } else {
            let name = case.name;
            println!(rt; "the report of {name} differs")?;
        }
    }
    println!(rt; "{agreeing} reports agree")?;
    Ok(())
}

fn main(rt: HostRuntime) -> anyhow::Result<()> {
    run(&rt)
}
