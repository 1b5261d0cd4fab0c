// Whole histories of calls.
ghost use Rattle.std.specs.Prelude.{◌≡◌, ◌≤◌, length};
ghost use Rattle.book.specs.Books.{Said, opened};
ghost use Rattle.register.specs.Registers.{book_of};
ghost use Rattle.register.specs.Runs.{Replayed};

use super::draft::{Draft, Unclosed};
use super::place::Place;
use super::register::Register;
use super::requests::replay_requests;
use book::{Answer, Call};
use hull::Hull;

// Makes one call, with a draft of the mark that it names.
pub(crate) fn make<H: Hull>(register: &mut Register<'_, H>, call: Call) -> Answer
    ensures { Said (book_of register.old) call result (book_of register.new) }
{
    match call {
        Call::Start => register
            .start()
            .map_or_else(Answer::Refused, |Draft { mark: _ }| Answer::Started),
        Call::Facet(mark, numbers) => {
            let (Draft { mark: _ }, answer) = Draft { mark }.facet(register, numbers);
            answer.map_or_else(Answer::Refused, Answer::Entered)
        }
        Call::Tie(mark, x, y) => {
            let (Draft { mark: _ }, answer) = Draft { mark }.tie(register, x, y);
            answer.map_or_else(Answer::Refused, Answer::Entered)
        }
        Call::Close(mark) => (Draft { mark })
            .close(register)
            .map_err(Unclosed::refusal)
            .map_or_else(Answer::Refused, Answer::Filed),
        Call::Drop(mark) => (Draft { mark })
            .drop(register)
            .map_err(|(Draft { mark: _ }, why)| why)
            .map_or_else(Answer::Refused, Answer::Removed),
    }
}

// Opens a register over the table and makes the calls in turn, as many as there are places for answers.
pub fn replay<H: Hull>(mark: u16, table: &mut [Place<H>], calls: &[Call], answers: &mut [Answer])
    ensures ran { Replayed mark (length table.old) calls.now answers.old answers.new }
{
    // No call is a comparison, so no pair is listed.
    replay_requests(mark, table, calls, answers, 0, &mut []);
}
