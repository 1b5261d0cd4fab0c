// The lines of a report.
ghost use Rattle.std.specs.Prelude.{◌≡◌, ◌++◌, string_bytes, OnOk};
ghost use Rattle.std.specs.List.{flat_map};
ghost use Rattle.report.specs.Reports.{refusal_line, fault_line, placement_line, pair_line};

use jobtext::{Blame, Fault};
use std::alloc::AllocError;

// The last line of a report on a job with a fault. The number is that of a refusal or of a flaw, which have nothing else in common.
pub(crate) fn push_refusal(text: &mut String, number: u8, blame: Blame) -> Result<(), AllocError>
    ensures { OnOk result (string_bytes text.new ≡ string_bytes text.old ++ refusal_line number blame) }
{
    let section = blame.section;
    let word = blame.word;
    writeln!(text, "refused {number} in {section}, word {word}")
}

// The line of the fault, where the text has one.
pub(crate) fn push_fault(text: &mut String, fault: Option<Fault>) -> Result<(), AllocError>
    ensures { OnOk result (string_bytes text.new ≡ string_bytes text.old ++ fault_line fault) }
{
    match fault {
        Some(fault) => push_refusal(text, fault.flaw.number(), fault.blame),
        None => Ok(()),
    }
}

// The line of a comparison, and one for each of its pairs.
pub(crate) fn push_comparison(
    text: &mut String,
    index: usize,
    count: usize,
    tests: u64,
    pairs: &[(u32, u32)],
) -> Result<(), AllocError>
    ensures { OnOk result (string_bytes text.new ≡ string_bytes text.old ++ (placement_line index count tests ++ flat_map pair_line pairs.now)) }
{
    writeln!(text, "placement {index}: {count} pairs, {tests} tests")?;
    for (moved, standing) in pairs {
        writeln!(text, "{moved} {standing}")?;
    }
    Ok(())
}
