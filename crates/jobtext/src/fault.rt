// What can be wrong with the words of a job, and where.
ghost use Rattle.std.specs.Prelude.{◌≡◌};
ghost use Rattle.jobtext.specs.Faults.{flaw_number};

use super::section::Section;

// A word of a section. The section's name is word 1.
#[derive(Clone, Copy)]
pub struct Blame {
    pub section: Section,
    pub word: usize,
}

// A word that is not the one that is due, or too few or too many words or bytes. A report gives the number.
#[derive(Clone, Copy)]
pub enum Flaw {
    WrongWord = 12,
    WrongLength = 13,
}

// A flaw, and the word at which it is found.
#[derive(Clone, Copy)]
pub struct Fault {
    pub flaw: Flaw,
    pub blame: Blame,
}

impl Flaw {
    // The number of the flaw in a report.
    pub fn number(self) -> u8
        ensures { result ≡ flaw_number self }
    {
        self as u8
    }
}
