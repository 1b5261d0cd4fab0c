// A history of calls with all that is due to them.
ghost use Rattle.std.specs.Prelude.{◌≡◌, ℕ, ◌-◌, ◌^◌, List, ◌++◌, All, Decides};

use super::line::{Due, Opening};
use super::tally::{Finding, Tally};
use ball::BallHull;
use book::{Answer, Asked, Item, Request};
use faced::{BoxHull, ManyHull};
use hull::{Corner, Hull};
use jobtext::Kind;
use register::{Place, replay_requests};
use std::alloc::{AllocError, Global};

// What the lent list holds at first. No history has such a pair.
const UNTOUCHED: (u32, u32) = (u32::MAX, u32::MAX);

// What the list of answers holds at first. No history has such an answer.
const UNANSWERED: Answer = Answer::Removed(u32::MAX);

// What a replay left in the two lists that were lent to it.
#[derive(Drop)]
struct Outcome {
    answers: Vec<Answer>,
    lists: Vec<(u32, u32)>,
}

// A request, the number of its line, and what is due to it.
#[derive(Drop)]
struct Expected {
    line: u64,
    request: Request,
    due: Due,
}

impl Asked for Expected {
    ghost asked = { λ expected. expected.request };

    fn request(&self) -> Request {
        self.request
    }
}

#[derive(Drop)]
pub struct History {
    line: u64,
    opening: Opening,
    expected: Vec<Expected>,
}

// A place that holds anything. A library that makes one for all programs would have to promise what it holds.
fn some_place<H: Hull>() -> Place<H> {
    let corner = Corner::new(1, 2, 3).unwrap();
    Place {
        item: Item::Tie(7, 7),
        height: 200,
        tied: true,
        hull: H::first(corner),
    }
}

// Whether a list is as it was at first.
fn is_untouched(list: &[(u32, u32)]) -> bool
    ensures { Decides result (All (λ pair. pair ≡ (2 ^ 32 - 1, 2 ^ 32 - 1)) list.now) }
{
    list.iter().all(|pair| *pair == UNTOUCHED)
}

// Whether a list has these pairs first, and is untouched behind them.
fn holds(list: &[(u32, u32)], pairs: &[(u32, u32)]) -> bool
    ensures { Decides result ((behind : List (ℕ × ℕ)) × (list.now ≡ pairs.now ++ behind) × All (λ pair. pair ≡ (2 ^ 32 - 1, 2 ^ 32 - 1)) behind) }
{
    list.strip_prefix(pairs).is_some_and(is_untouched)
}

impl History {
    // A history with no calls, which the line opens.
    pub(crate) fn new(heap: Global, line: u64, opening: Opening) -> History {
        History {
            line,
            opening,
            expected: Vec::new(heap),
        }
    }

    // One more call, with what is due to it.
    pub(crate) fn add(&mut self, line: u64, request: Request, due: Due) -> Result<(), AllocError> {
        self.expected.push(Expected { line, request, due })?;
        Ok(())
    }

    // Replays the calls with hulls of one kind, over a table that holds anything.
    fn replayed_with<H: Hull + Clone>(&self, heap: Global) -> Result<Outcome, AllocError> {
        let mut table = vec![in heap; some_place::<H>(); self.opening.places]?;
        let mut answers = vec![in heap; UNANSWERED; self.expected.len()]?;
        let mut lists = vec![in heap; UNTOUCHED; self.opening.lent]?;
        replay_requests(
            self.opening.mark,
            table.as_mut_slice(),
            self.expected.as_slice(),
            answers.as_mut_slice(),
            self.opening.stretch,
            lists.as_mut_slice(),
        );
        Ok(Outcome { answers, lists })
    }

    // Replays the calls with hulls of the history's kind.
    fn replayed(&self, heap: Global) -> Result<Outcome, AllocError> {
        // Each kind has a type of hulls of its own, and a table of functions would be no plainer than these arms.
        match self.opening.kind {
            Kind::Box => self.replayed_with::<BoxHull>(heap),
            Kind::Many => self.replayed_with::<ManyHull>(heap),
            Kind::Ball => self.replayed_with::<BallHull>(heap),
        }
    }

    // Notes of each answer whether it is the one that is due.
    fn judge_answers(&self, answers: &[Answer], tally: &mut Tally) -> Result<(), AllocError> {
        for (expected, answer) in self.expected.iter().zip(answers) {
            let agrees = expected.due.answer == Some(*answer);
            tally.note(Finding::Answer(expected.line, *answer), agrees)?;
        }
        Ok(())
    }

    // Notes of the stretch of each comparison, and then of the places behind them all, whether they hold what they should.
    fn judge_lists(&self, lists: &[(u32, u32)], tally: &mut Tally) -> Result<(), AllocError> {
        let mut left = lists;
        for expected in self.expected.iter() {
            if let Some(pairs) = &expected.due.pairs {
                let (list, behind) = left.split_at(self.opening.stretch.min(left.len()));
                tally.note(Finding::List(expected.line), holds(list, pairs.as_slice()))?;
                left = behind;
            }
        }
        tally.note(Finding::Behind(self.line), is_untouched(left))
    }

    // Makes all calls, and notes what agrees and what does not.
    pub(crate) fn judge(&self, heap: Global, tally: &mut Tally) -> Result<(), AllocError> {
        let outcome = self.replayed(heap)?;
        self.judge_answers(outcome.answers.as_slice(), tally)?;
        self.judge_lists(outcome.lists.as_slice(), tally)
    }
}
