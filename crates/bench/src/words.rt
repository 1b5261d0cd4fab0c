// The words of a file. Not those of `words`, which hold a job to its limits.
use super::stop::Stop;
use std::str::SplitWhitespace;

// The words that are left, and how many were taken.
#[derive(Drop)]
pub struct Words<'a> {
    rest: SplitWhitespace<'a>,
    taken: u64,
}

impl<'a> Words<'a> {
    // All words of a text.
    pub(crate) fn new(text: &'a str) -> Words<'a> {
        Words {
            rest: text.split_whitespace(),
            taken: 0,
        }
    }

    // The word that is due.
    pub(crate) fn word(&mut self) -> Result<&'a str, Stop> {
        self.taken = self.taken.saturating_add(1);
        self.rest.next().ok_or(Stop::Malformed(self.taken))
    }

    // This word is due.
    pub(crate) fn name(&mut self, name: &str) -> Result<(), Stop> {
        if self.word()? == name {
            Ok(())
        } else {
            Err(Stop::Malformed(self.taken))
        }
    }

    // A number is due.
    pub(crate) fn number(&mut self) -> Result<i64, Stop> {
        let number = self.word()?.parse::<i64>();
        number.map_err(|_| Stop::Malformed(self.taken))
    }

    // So many numbers are due.
    pub(crate) fn numbers<const N: usize>(&mut self) -> Result<[i64; N], Stop> {
        let mut numbers = [0; N];
        for place in &mut numbers {
            *place = self.number()?;
        }
        Ok(numbers)
    }

    // No word is due any more.
    pub(crate) fn end(&mut self) -> Result<(), Stop> {
        match self.word() {
            Ok(_) => Err(Stop::Malformed(self.taken)),
            Err(_) => Ok(()),
        }
    }
}
