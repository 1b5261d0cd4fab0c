// Makes the requests of a job.
ghost use Rattle.std.specs.Prelude.{◌≡◌, ◌*◌, IfOk, string_bytes};
ghost use Rattle.book.specs.Books.{opened};
ghost use Rattle.jobtext.specs.Forms.{mark};
ghost use Rattle.jobtext.specs.Readings.{requests_of, blames_of};
ghost use Rattle.job.specs.Prints.{comparisons_in, job_items, pair_places, Prints};

use book::{Answer, Item, Request};
use hull::{Corner, Hull};
use jobtext::{Entry, Fault};
use register::{Place, replay_requests};
use report::{Lists, render};
use script::MARK;
use std::alloc::{AllocError, Global};

// A job has so many items.
const ITEMS: usize = 1024;

// Its comparisons have so many places for pairs.
const PAIRS: usize = 4096;

// How many comparisons there are.
fn count_comparisons(entries: &[Entry]) -> usize
    ensures { result ≡ comparisons_in (requests_of entries.now) }
{
    entries
        .iter()
        .filter(|entry| matches!(entry.request, Request::Compare(_)))
        .count()
}

// A place that nothing was entered into. A library that makes one for all programs would have to promise what it holds.
fn blank<H: Hull>() -> Place<H> {
    let corner = Corner::new(0, 0, 0).unwrap();
    Place {
        item: Item::Tie(0, 0),
        height: 0,
        tied: false,
        hull: H::first(corner),
    }
}

// Makes the requests in turn over hulls of one kind, and reports on the answers.
pub(crate) fn run<H: Hull + Clone>(
    heap: Global,
    entries: &[Entry],
    fault: Option<Fault>,
) -> Result<String, AllocError>
    ensures { IfOk result (λ s. Prints H.begun H.grown H.reaches H.faced H.unrounded fault 0 (opened mark job_items) (requests_of entries.now) (blames_of entries.now) (string_bytes s)) }
{
    let mut table = vec![in heap; blank::<H>(); ITEMS]?;
    let mut answers = vec![in heap; Answer::Started; entries.len()]?;
    let mut lists = vec![in heap; [(0, 0); PAIRS]; count_comparisons(entries)]?;
    let answers = answers.as_mut_slice();
    let pairs = lists.as_flattened_mut();
    replay_requests(MARK, &mut table, entries, answers, PAIRS, pairs);
    let lists = Lists {
        pairs,
        places: PAIRS,
    };
    render(heap, answers, entries, fault, &lists)
}
