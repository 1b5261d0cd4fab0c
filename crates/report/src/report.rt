// A whole report.
ghost use Rattle.std.specs.Prelude.{◌≡◌, ◌+◌, ◌*◌, ◌^◌, ◌<◌, map, take, drop, IfOk, string_bytes};
ghost use Rattle.report.specs.Reports.{report_of};
ghost use Rattle.report.specs.Endings.{Ends};
ghost use Rattle.report.specs.Turns.{Turned};

use super::lines::{push_comparison, push_fault, push_refusal};
use book::Answer;
use jobtext::{Blame, Blamed, Fault};
use std::alloc::{AllocError, Global};

// The lists of the comparisons, one after another, with so many places for each.
#[derive(Clone, Copy)]
pub struct Lists<'a> {
    pub pairs: &'a [(u32, u32)],
    pub places: usize,
}

impl<'a> Lists<'a> {
    // The first pairs in the list of the comparison with this number.
    fn first(&self, index: usize, count: usize) -> &'a [(u32, u32)]
        ensures { result.now ≡ take count (drop (index * self.now.places) self.now.pairs.now) }
    {
        let from = index.saturating_mul(self.places);
        let list = self.pairs.get(from..).unwrap_or_default();
        list.get(..count).unwrap_or(list)
    }
}

// The lines of one answer, where earlier comparisons are so many. It answers with the number of the next comparison, or with nothing
// where the answer ends the report.
#[tactic(auto, using(crate::proofs::Turns::listed), unfolding(crate::specs::Reports::report_from))]
fn push_answer(
    text: &mut String,
    index: usize,
    answer: Answer,
    blame: Blame,
    lists: &Lists,
) -> Result<Option<usize>, AllocError>
    requires { index + 1 < 2 ^ 64 }
    ensures { IfOk result (λ t. Turned lists.now.pairs.now lists.now.places index answer blame (string_bytes text.old) (string_bytes text.new) t) }
{
    match answer {
        Answer::Listed(count, tests) => {
            push_comparison(text, index, count, tests, lists.first(index, count))?;
            Ok(Some(index + 1))
        }
        Answer::Refused(why) => {
            push_refusal(text, why.number(), blame)?;
            Ok(None)
        }
        Answer::Started | Answer::Entered(_) | Answer::Filed(_) | Answer::Removed(_) => {
            Ok(Some(index))
        }
    }
}

// The report on a job whose requests were answered so. Each request has its blame, and this fault ends the text.
#[tactic(auto, using(crate::proofs::Endings::ends))]
pub fn render<B: Blamed>(
    heap: Global,
    answers: &[Answer],
    entries: &[B],
    fault: Option<Fault>,
    lists: &Lists,
) -> Result<String, AllocError>
    ensures renders { IfOk result (λ s. string_bytes s ≡ report_of lists.now.pairs.now lists.now.places fault answers.now (map B.blamed entries.now)) }
    ensures ends { IfOk result (λ s. Ends lists.now.pairs.now lists.now.places fault answers.now (map B.blamed entries.now) (string_bytes s)) }
{
    let mut text = String::new(heap);
    let mut index = 0;
    for (answer, entry) in answers.iter().zip(entries) {
        match push_answer(&mut text, index, *answer, entry.blame(), lists)? {
            Some(next) => index = next,
            None => return Ok(text),
        }
    }
    push_fault(&mut text, fault)?;
    Ok(text)
}
