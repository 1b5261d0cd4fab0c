// Why a line is no vector that agrees.
use std::alloc::AllocError;
use std::fmt;

#[derive(Drop)]
pub enum Fault {
    Differs,
    Malformed,
    NoMemory(AllocError),
}

impl From<AllocError> for Fault {
    fn from(e: AllocError) -> Fault {
        Fault::NoMemory(e)
    }
}

impl fmt::Display for Fault {
    fn fmt<W: fmt::Write>(&self, f: &mut fmt::Formatter<W>) -> fmt::Result {
        match self {
            Fault::Differs => write!(f, "disagrees"),
            Fault::Malformed => write!(f, "is malformed"),
            Fault::NoMemory(e) => write!(f, "is not judged: {e}"),
        }
    }
}
