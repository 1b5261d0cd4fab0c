// Reads a job and compares its objects.
ghost use Rattle.std.specs.Prelude.{◌≡◌, ◌<◌, ◌++◌, length, IfOk, Err, string_bytes, MatchResult, OnOk};
ghost use Rattle.book.specs.declared.item.Facet.{Facet as FacetOf};
ghost use Rattle.book.specs.declared.refusal.Refusal.TheVariants.{OutOfRange, PlacementOutOfRange};
ghost use Rattle.jobtext.specs.Due.{AllNumbered};
ghost use Rattle.jobtext.specs.Words.{job_limit};
ghost use Rattle.placement.specs.Twelve.{InRange as PlacementInRange, entries as placement_entries};
ghost use Rattle.touch.specs.declared.refusal.Fault.TheVariants.{Call};
ghost use Rattle.touch.specs.Due.{NotRead};
ghost use Rattle.touch.specs.Facets.{InRange, corners, entries};
ghost use Rattle.touch.specs.Reports.{lines_of_placement, stop_line, too_long};

use super::refusal::{Fault, Refusal};
use super::rows::read_row;
use super::stop::Stop;
use axes::Axes;
use ball::BallHull;
use book::Facet;
use faced::{BoxHull, ManyHull};
use hull::Hull;
use jobtext::{Kind, Section};
use overlap::parted;
use placement::Placement;
use std::alloc::{AllocError, Global};
use words::Words;

// The hull of a facet's three corners.
fn facet_hull<H: Hull>(facet: &Facet) -> H
    ensures { H.fits result (corners facet.now) }
{
    H::first(facet.a).more(facet.b).more(facet.c)
}

// The hull of the facet that is due.
fn read_facet<H: Hull>(input: &mut Words) -> Result<H, Refusal>
    ensures { MatchResult result (λ h. (f : FacetOf) × AllNumbered input.old.left (entries f) input.new.left × H.fits h (corners f)) (λ e. NotRead 9 InRange (Call OutOfRange) input.old.left input.old.section input.old.taken e) }
{
    let facet = read_row::<Facet, 9>(input, Fault::Call(book::Refusal::OutOfRange))?;
    Ok(facet_hull(&facet))
}

// The hull of the object that is due.
fn read_object<H: Hull>(input: &mut Words, facets: Section, ties: Section) -> Result<H, Stop>
    ensures { IfOk result (λ h. (f : FacetOf) × H.fits h (corners f)) }
{
    if input.count(facets)? != 1 {
        return Err(Stop::LargerObject);
    }
    let hull = read_facet(input)?;
    if input.count(ties)? != 0 {
        return Err(Stop::LargerObject);
    }
    Ok(hull)
}

// The placement that is due.
fn read_placement(input: &mut Words) -> Result<Placement, Refusal>
    ensures { MatchResult result (λ p. AllNumbered input.old.left (placement_entries p) input.new.left) (λ e. NotRead 12 PlacementInRange (Call PlacementOutOfRange) input.old.left input.old.section input.old.taken e) }
{
    read_row::<Placement, 12>(input, Fault::Call(book::Refusal::PlacementOutOfRange))
}

// The lines of a placement.
fn push_placement(report: &mut String, index: u64, is_parted: bool) -> Result<(), AllocError>
    ensures { OnOk result (string_bytes report.new ≡ string_bytes report.old ++ lines_of_placement index is_parted) }
{
    if is_parted {
        writeln!(report, "placement {index}: 0 pairs, 1 tests")
    } else {
        writeln!(report, "placement {index}: 1 pairs, 1 tests\n0 0")
    }
}

// Reads the objects and compares them at each placement.
fn compare<H: Hull>(input: &mut Words, report: &mut String) -> Result<(), Stop> {
    let moved: H = read_object(input, Section::Facets, Section::Ties)?;
    let standing: H = read_object(input, Section::Facets2, Section::Ties2)?;
    let count = input.count(Section::Placements)?;
    for index in 0..count {
        let axes = Axes::new(read_placement(input)?);
        push_placement(report, index, parted(&axes, &moved, &standing))?;
    }
    input.end()?;
    Ok(())
}

// Reads a job and reports as far as it goes.
fn follow(job: &[u8], report: &mut String) -> Result<(), Stop>
    ensures stops { job_limit < length job.now → result ≡ Err too_long }
    ensures same { job_limit < length job.now → string_bytes report.new ≡ string_bytes report.old }
{
    let mut input = Words::new(job)?;
    // Each kind has a type of hulls of its own, and a table of functions would be no plainer than these arms.
    match input.kind()? {
        Kind::Box => compare::<BoxHull>(&mut input, report),
        Kind::Many => compare::<ManyHull>(&mut input, report),
        Kind::Ball => compare::<BallHull>(&mut input, report),
    }
}

// The last line of a report that ends before the job does.
fn push_stop(report: &mut String, stop: Stop) -> Result<(), AllocError>
    ensures { OnOk result (string_bytes report.new ≡ string_bytes report.old ++ stop_line stop) }
{
    match stop {
        Stop::Refused(refusal) => writeln!(report, "{refusal}"),
        Stop::LargerObject => {
            writeln!(
                report,
                "this version compares single facets without ties only"
            )
        }
        Stop::OutOfMemory(error) => Err(error),
    }
}

// The report on a job.
pub(crate) fn answer(heap: Global, job: &[u8]) -> Result<String, AllocError>
    ensures { job_limit < length job.now → IfOk result (λ s. string_bytes s ≡ stop_line too_long) }
{
    let mut report = String::new(heap);
    if let Err(stop) = follow(job, &mut report) {
        push_stop(&mut report, stop)?;
    }
    Ok(report)
}
