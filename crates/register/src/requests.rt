// Whole histories of requests: the calls that write, and comparisons among them.
ghost use Rattle.std.specs.Prelude.{◌≡◌, ◌+◌, ◌≤◌, min, map, length, take, drop};
ghost use Rattle.register.specs.Registers.{book_of};
ghost use Rattle.register.specs.Comparing.{compared};
ghost use Rattle.walks.specs.Runs.{Compared, Replayed};

use super::history::make;
use super::place::Place;
use super::register::Register;
use book::{Answer, Asked, Comparison, Refusal, Request};
use hull::Hull;

// What a comparison answers.
fn answer_of(res: Result<(usize, u64), Refusal>) -> Answer
    ensures { result ≡ compared res }
{
    res.map_or_else(
        Answer::Refused,
        |(pairs, tests)| Answer::Listed(pairs, tests),
    )
}

// Makes a comparison whose list is the stretch of so many places from one on, cut to what there is. The answer comes with the place
// where the next stretch begins.
fn compare_at<H: Hull>(
    register: &Register<'_, H>,
    comparison: Comparison,
    lists: &mut [(u32, u32)],
    from: usize,
    places: usize,
) -> (Answer, usize)
    requires { from ≤ length lists.old }
    ensures answer { Compared H.begun H.grown H.reaches H.faced H.unrounded (book_of register.now) comparison (take places (drop from lists.old)) (take places (drop from lists.new)) result.0 }
    ensures front { take from lists.new ≡ take from lists.old }
    ensures back { drop result.1 lists.new ≡ drop result.1 lists.old }
    ensures next { result.1 ≡ min (from + places) (length lists.old) }
{
    let to = from + places.min(lists.len() - from);
    let Comparison {
        moved,
        standing,
        placement,
    } = comparison;
    let result = register.compare(moved, standing, placement, &mut lists[from..to]);
    (answer_of(result), to)
}

// Opens a register over the table and makes what is asked in turn, as much as there are places for answers. Comparison k lists its pairs in
// the k-th stretch of so many places.
//
// The number of places and the list stay two arguments: a struct that borrows the list to write would be built at each call and taken
// apart at once.
pub fn replay_requests<H: Hull, R: Asked>(
    mark: u16,
    table: &mut [Place<H>],
    requests: &[R],
    answers: &mut [Answer],
    places: usize,
    lists: &mut [(u32, u32)],
)
    ensures ran { Replayed H.begun H.grown H.reaches H.faced H.unrounded mark (length table.old) (map R.asked requests.now) answers.old answers.new places lists.old lists.new }
{
    let mut register = Register::open(mark, table);
    let count = requests.len().min(answers.len());
    let mut from = 0;
    // An answer is written by its number: of what a zip with iter_mut writes, the proof learns nothing.
    for (i, asked) in requests[..count].iter().enumerate() {
        let answer = match asked.request() {
            Request::Write(call) => make(&mut register, call),
            Request::Compare(comparison) => {
                let (answer, next) = compare_at(&register, comparison, lists, from, places);
                from = next;
                answer
            }
        };
        answers[i] = answer;
    }
}
