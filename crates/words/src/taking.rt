// The words of a job, taken one by one.
ghost use Rattle.std.specs.Prelude.{◌≡◌, ◌+◌, ◌<◌, ◌≤◌, [], ◌∷◌, ◌++◌, length, Ok, Err, MatchOption, MatchResult, OnOk, Option, ◌≢◌};
ghost use Rattle.std.specs.Fn.{FnReturnsAt};
ghost use Rattle.jobtext.specs.declared.fault.Flaw.TheVariants.{WrongLength};
ghost use Rattle.jobtext.specs.declared.section.Section.TheVariants.{Kind as KindSection};
ghost use Rattle.jobtext.specs.Due.{Misfit, Counted, Numbered, AllNumbered, BrokenOff};
ghost use Rattle.jobtext.specs.Numbers.{Count, count_of, Number, number_of};
ghost use Rattle.jobtext.specs.Readings.{Reads, found, due, headed, numbers, finished, still};
ghost use Rattle.jobtext.specs.Sections.{opens, opening, kind_of};
ghost use Rattle.jobtext.specs.Words.{Word, job_limit, separator, ended, words};
ghost use Rattle.words.specs.Progress.{untaken};

use super::number::{read_count, read_number};
use jobtext::{Blame, Fault, Flaw, Kind, Section, is_text};
use std::marker::Model;

// A job has at most so many bytes.
pub const MOST_BYTES: usize = 65536;

// What is left of a job, and how many words of a section are taken. Clauses on the section and on the words taken say what becomes of
// them from before to after, which no type can hold.
#[derive(Drop)]
pub struct Words<'a> {
    rest: &'a [u8],
    section: Section,
    taken: usize,
}

impl<'a> Model for Words<'a> {
    ghost use Rattle.std.specs.Prelude.{◌+◌, ◌≤◌, length};
    ghost use Rattle.jobtext.specs.Words.{job_limit, words};
    ghost use Rattle.words.specs.Progress.{Progress};

    ghost Value = { Progress };

    ghost view = { λ w. record { section = w.section; taken = w.taken; left = words w.rest.now } };

    ghost invariant = { λ w. w.taken + length w.rest.now ≤ job_limit };
}

fn is_separator(byte: u8) -> bool
    ensures { result ≡ separator byte }
{
    byte == b' ' || byte == b'\n'
}

// The first word and what follows it, where a word is left; else nothing.
fn split_word(bytes: &[u8]) -> (&[u8], &[u8])
    ensures words { words bytes.now ≡ ended result.0.now ++ words result.1.now }
    ensures none { length result.0.now ≡ 0 → words bytes.now ≡ [] }
    ensures lengths { length result.0.now + length result.1.now ≤ length bytes.now }
{
    let separators = bytes.iter().take_while(|byte| is_separator(**byte)).count();
    let (_, front) = bytes.split_at(separators);
    let letters = front
        .iter()
        .take_while(|byte| !is_separator(**byte))
        .count();
    front.split_at(letters)
}

impl<'a> Words<'a> {
    // The words of a job, where it has not too many bytes.
    pub fn new(job: &'a [u8]) -> Result<Words<'a>, Fault>
        ensures { MatchResult result (λ w. (length job.now ≤ job_limit) × (w ≡ untaken job.now)) (λ e. (job_limit < length job.now) × (e ≡ found WrongLength KindSection 0)) }
    {
        if job.len() > MOST_BYTES {
            return Err(Fault {
                flaw: Flaw::WrongLength,
                blame: Blame {
                    section: Section::Kind,
                    word: 0,
                },
            });
        }
        Ok(Words {
            rest: job,
            section: Section::Kind,
            taken: 0,
        })
    }

    // The next word, where one is left.
    fn take(&mut self) -> Option<&'a [u8]>
        ensures section { self.new.section ≡ self.old.section }
        ensures words { MatchOption result (self.old.left ≡ []) (λ w. self.old.left ≡ w.now ∷ self.new.left) }
        ensures taken { MatchOption result (self.new.taken ≡ self.old.taken) (λ _. self.new.taken ≡ self.old.taken + 1) }
    {
        let (word, rest) = split_word(self.rest);
        self.rest = rest;
        if word.is_empty() {
            return None;
        }
        self.taken += 1;
        Some(word)
    }

    // The word that was taken last.
    pub fn place(&self) -> Blame
        ensures { result ≡ record { section = self.now.section; word = self.now.taken } }
    {
        Blame {
            section: self.section,
            word: self.taken,
        }
    }

    // A flaw at the word that was taken last.
    fn flawed(&self, flaw: Flaw) -> Fault
        ensures { result ≡ found flaw self.now.section self.now.taken }
    {
        Fault {
            flaw,
            blame: self.place(),
        }
    }

    // The word that is due.
    fn word(&mut self) -> Result<&'a [u8], Fault>
        ensures section { self.new.section ≡ self.old.section }
        ensures cases { MatchResult result (λ w. (self.old.left ≡ w.now ∷ self.new.left) × (self.new.taken ≡ self.old.taken + 1)) (λ e. (self.old.left ≡ []) × (e ≡ found WrongLength self.old.section (self.old.taken + 1))) }
    {
        let word = self.take();
        word.ok_or(Fault {
            flaw: Flaw::WrongLength,
            blame: Blame {
                section: self.section,
                word: self.taken + 1,
            },
        })
    }

    // The word that opens a section is due.
    fn open(&mut self, section: Section) -> Result<(), Fault>
        ensures section { self.new.section ≡ section }
        ensures taken { OnOk result (self.new.taken ≡ 1) }
        ensures reads { Reads (due (opens section) section 1 self.old.left) result self.new.left }
        ensures cases { MatchResult result (λ _. self.old.left ≡ opening section ∷ self.new.left) (λ e. Misfit (λ w. w ≡ opening section) self.old.left section 1 e) }
    {
        self.section = section;
        self.taken = 0;
        let word = self.word()?;
        if is_text(word, section.opening_word()) {
            Ok(())
        } else {
            Err(self.flawed(Flaw::WrongWord))
        }
    }

    // The word that is due, and what it is worth.
    fn due<T, F: Fn(&[u8]) -> Option<T>>(&mut self, worth: F) -> Result<T, Fault>
        requires { F.IsAlwaysCallable worth }
        ensures section { self.new.section ≡ self.old.section }
        ensures taken { OnOk result (self.new.taken ≡ self.old.taken + 1) }
        ensures reads { (of : Word → Option T) → ((w : Word) (r : Option T) → FnReturnsAt F.Fn worth w r → r ≡ of w) → Reads (due of self.old.section (self.old.taken + 1) self.old.left) result self.new.left }
    {
        let word = self.word()?;
        worth(word).ok_or(self.flawed(Flaw::WrongWord))
    }

    // A count is due.
    fn count_word(&mut self) -> Result<u64, Fault>
        ensures section { self.new.section ≡ self.old.section }
        ensures taken { OnOk result (self.new.taken ≡ self.old.taken + 1) }
        ensures reads { Reads (due count_of self.old.section (self.old.taken + 1) self.old.left) result self.new.left }
        ensures cases { MatchResult result (λ n. Counted self.old.left n self.new.left) (λ e. Misfit Count self.old.left self.old.section (self.old.taken + 1) e) }
    {
        self.due(read_count)
    }

    // The section of the kind is due.
    #[tactic(auto, unfolding(jobtext::specs::Readings::headed))]
    pub fn kind(&mut self) -> Result<Kind, Fault>
        ensures { Reads (headed kind_of KindSection self.old.left) result self.new.left }
    {
        self.open(Section::Kind)?;
        self.due(Kind::from_word)
    }

    // The name and the count of a section are due.
    #[tactic(auto, unfolding(jobtext::specs::Readings::headed))]
    pub fn count(&mut self, section: Section) -> Result<u64, Fault>
        ensures section { self.new.section ≡ section }
        ensures taken { OnOk result (self.new.taken ≡ 2) }
        ensures reads { Reads (headed count_of section self.old.left) result self.new.left }
    {
        self.open(section)?;
        self.count_word()
    }

    // A number is due.
    fn number(&mut self) -> Result<i64, Fault>
        ensures section { self.new.section ≡ self.old.section }
        ensures taken { OnOk result (self.new.taken ≡ self.old.taken + 1) }
        ensures reads { Reads (due number_of self.old.section (self.old.taken + 1) self.old.left) result self.new.left }
        ensures cases { MatchResult result (λ n. Numbered self.old.left n self.new.left) (λ e. Misfit Number self.old.left self.old.section (self.old.taken + 1) e) }
    {
        self.due(read_number)
    }

    // So many numbers are due.
    #[tactic(auto, using(crate::proofs::Rows::numbers_first, jobtext::proofs::Told::numbers_cases))]
    pub fn numbers<const N: usize>(&mut self) -> Result<[i64; N], Fault>
        ensures section { self.new.section ≡ self.old.section }
        ensures taken { OnOk result (self.new.taken ≡ self.old.taken + N) }
        ensures reads { Reads (numbers N self.old.section self.old.taken self.old.left) result self.new.left }
        ensures cases { MatchResult result (λ ns. AllNumbered self.old.left ns self.new.left) (λ e. BrokenOff N self.old.left self.old.section self.old.taken e) }
    {
        let mut row = [0; N];
        for place in row.iter_mut() {
            *place = self.number()?;
        }
        Ok(row)
    }

    // No word is due any more.
    #[tactic(auto, unfolding(jobtext::specs::Readings::finished))]
    pub fn end(&mut self) -> Result<(), Fault>
        ensures ends { MatchResult result (λ _. finished self.old.section (self.old.taken + 1) self.old.left ≡ still (Ok [])) (λ e. finished self.old.section (self.old.taken + 1) self.old.left ≡ still (Err e)) }
        ensures cases { MatchResult result (λ _. self.old.left ≡ []) (λ e. (self.old.left ≢ []) × (e ≡ found WrongLength self.old.section (self.old.taken + 1))) }
    {
        match self.take() {
            Some(_) => Err(self.flawed(Flaw::WrongLength)),
            None => Ok(()),
        }
    }
}
