// What agrees, counted, and what does not.
ghost use Rattle.std.specs.Prelude.{◌≡◌, vec_len};

use book::Answer;
use std::alloc::{AllocError, Global};
use std::fmt;

// What is compared with what is due: the answer of the call of a line, its list, or the places behind the last list of the history that
// the line opens.
#[derive(Clone, Copy)]
pub enum Finding {
    Answer(u64, Answer),
    List(u64),
    Behind(u64),
}

// What the finding says where it does not agree.
impl fmt::Display for Finding {
    fn fmt<W: fmt::Write>(&self, f: &mut fmt::Formatter<W>) -> fmt::Result {
        match self {
            Finding::Answer(line, found) => write!(f, "line {line} is answered {found}"),
            Finding::List(line) => write!(f, "line {line} has another list"),
            Finding::Behind(line) => {
                write!(f, "the history of line {line} writes behind its last list")
            }
        }
    }
}

#[derive(Drop)]
pub struct Tally {
    histories: u64,
    answers: u64,
    lists: u64,
    pub disagreements: Vec<Finding>,
}

impl Tally {
    // Nothing is compared yet.
    pub(crate) fn new(heap: Global) -> Tally
        ensures { (result.histories ≡ 0) × (result.answers ≡ 0) × (result.lists ≡ 0) × (vec_len result.disagreements ≡ 0) }
    {
        Tally {
            histories: 0,
            answers: 0,
            lists: 0,
            disagreements: Vec::new(heap),
        }
    }

    // One more finding, and whether it agrees. A history agrees where the places behind its last list are as they were.
    pub(crate) fn note(&mut self, finding: Finding, agrees: bool) -> Result<(), AllocError> {
        if !agrees {
            self.disagreements.push(finding)?;
            return Ok(());
        }
        let count = match finding {
            Finding::Answer(_, _) => &mut self.answers,
            Finding::List(_) => &mut self.lists,
            Finding::Behind(_) => &mut self.histories,
        };
        *count = count.saturating_add(1);
        Ok(())
    }
}

impl fmt::Display for Tally {
    fn fmt<W: fmt::Write>(&self, f: &mut fmt::Formatter<W>) -> fmt::Result {
        let answers = self.answers;
        let lists = self.lists;
        let histories = self.histories;
        write!(
            f,
            "{answers} answers and {lists} lists in {histories} histories agree"
        )
    }
}
