// Why a run ends early.
use book::Refusal;
use std::alloc::{AllocError, AllocFailed};
use std::error::Error;
use std::fmt;

#[derive(Clone, Copy, Debug)]
pub enum Stop {
    // a word of the file, counted from 1, is missing or not the one that is due
    Malformed(u64),
    // the register refuses
    Refused(Refusal),
    OutOfMemory,
}

impl fmt::Display for Stop {
    fn fmt<W: fmt::Write>(&self, f: &mut fmt::Formatter<W>) -> fmt::Result {
        match self {
            Stop::Malformed(word) => write!(
                f,
                "word {word} of the file is not the one that is due"
            ),
            Stop::Refused(why) => write!(f, "the register refuses with {why}"),
            Stop::OutOfMemory => f.write_str("there is not enough memory"),
        }
    }
}

impl Error for Stop {}

impl From<Refusal> for Stop {
    fn from(why: Refusal) -> Stop {
        Stop::Refused(why)
    }
}

impl From<AllocError> for Stop {
    fn from(_error: AllocError) -> Stop {
        Stop::OutOfMemory
    }
}

impl<T: Drop> From<AllocFailed<T>> for Stop {
    fn from(_refused: AllocFailed<T>) -> Stop {
        Stop::OutOfMemory
    }
}
