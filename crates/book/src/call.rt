// The calls of a register, and what they answer.
ghost use Rattle.std.specs.Prelude.{Some};
ghost use Rattle.book.specs.Answers.{told};

use super::refusal::Refusal;
use std::fmt;

// A call that writes. All but the first are made with a draft, and carry its mark.
#[derive(Clone, Copy)]
pub enum Call {
    Start,
    Facet(u16, [i64; 9]),
    Tie(u16, i64, i64),
    Close(u16),
    Drop(u16),
}

// A comparison of two objects under a placement, the matrix row by row and then the shift.
#[derive(Clone, Copy)]
pub struct Comparison {
    pub moved: i64,
    pub standing: i64,
    pub placement: [i64; 12],
}

// Any call: one that writes, or one that only asks.
#[derive(Clone, Copy)]
pub enum Request {
    Write(Call),
    Compare(Comparison),
}

// What a call answers. A comparison lists so many pairs after so many tests.
//
// A refusal is one answer among the others: a history is a list of them, in which each is told in one match.
#[derive(Clone, Copy, Debug, PartialEq, Eq)]
pub enum Answer {
    Started,
    Entered(u32),
    Filed(u32),
    Removed(u32),
    Listed(usize, u64),
    Refused(Refusal),
}

// An answer in words, a refusal by its number.
impl fmt::Display for Answer {
    ghost output = { λ a. Some (told a) };

    fn fmt<W: fmt::Write>(&self, f: &mut fmt::Formatter<W>) -> fmt::Result {
        match self {
            Answer::Started => f.write_str("started"),
            Answer::Entered(item) => write!(f, "entered {item}"),
            Answer::Filed(object) => write!(f, "filed {object}"),
            Answer::Removed(items) => write!(f, "removed {items}"),
            Answer::Listed(pairs, tests) => write!(f, "listed {pairs} {tests}"),
            Answer::Refused(why) => write!(f, "refused {why}"),
        }
    }
}
