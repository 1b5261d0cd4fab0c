// Why a job is refused, and where.
ghost use Rattle.std.specs.Prelude.{◌≡◌, Some};
ghost use Rattle.touch.specs.Faults.{fault_number, of_text, refusal_line};

use jobtext::{Blame, Flaw};
use std::fmt;

// What is wrong with a job: a call that its numbers make, or its text.
#[derive(Clone, Copy)]
pub enum Fault {
    Call(book::Refusal),
    Text(Flaw),
}

impl Fault {
    // The number of the fault in a report.
    fn number(self) -> u8
        ensures { result ≡ fault_number self }
    {
        match self {
            Fault::Call(refusal) => refusal.number(),
            Fault::Text(flaw) => flaw.number(),
        }
    }
}

// A fault, and the word of a section at which it was found. `report` writes its line too, from a number: a type of both would be made
// only to be printed.
#[derive(Clone, Copy)]
pub struct Refusal {
    pub fault: Fault,
    pub blame: Blame,
}

impl From<jobtext::Fault> for Refusal {
    ghost from_gives = { λ fault r. r ≡ of_text fault };

    fn from(fault: jobtext::Fault) -> Refusal {
        Refusal {
            fault: Fault::Text(fault.flaw),
            blame: fault.blame,
        }
    }
}

impl fmt::Display for Refusal {
    ghost output = { λ r. Some (refusal_line r) };

    fn fmt<W: fmt::Write>(&self, f: &mut fmt::Formatter<W>) -> fmt::Result {
        let number = self.fault.number();
        let section = self.blame.section;
        let word = self.blame.word;
        write!(f, "refused {number} in {section}, word {word}")
    }
}
