// From the bytes of a job to its report.
ghost use Rattle.std.specs.Prelude.{IfOk, string_bytes};
ghost use Rattle.job.specs.Reports.{Reports};

use super::run::run;
use ball::BallHull;
use faced::{BoxHull, ManyHull};
use jobtext::Kind;
use report::{Lists, render};
use script::read;
use std::alloc::{AllocError, Global};

// The report on the job with these bytes. It fails only for want of memory.
#[tactic(auto, using(crate::proofs::Telling::reports), unfolding(report::specs::Reports::report_from))]
pub fn report(heap: Global, bytes: &[u8]) -> Result<String, AllocError>
    ensures { IfOk result (λ s. Reports bytes.now (string_bytes s)) }
{
    let script = read(heap, bytes)?;
    // Each kind has a type of hulls of its own, and a table of functions would be no plainer than these arms.
    match script.kind {
        Some(Kind::Box) => run::<BoxHull>(heap, &script.entries, script.fault),
        Some(Kind::Many) => run::<ManyHull>(heap, &script.entries, script.fault),
        Some(Kind::Ball) => run::<BallHull>(heap, &script.entries, script.fault),
        None => {
            let lists = Lists {
                pairs: &[],
                places: 0,
            };
            render(heap, &[], &script.entries, script.fault, &lists)
        }
    }
}
