// How many vectors of each sort agree.
use super::sort::Sort;
use std::fmt;

#[derive(Clone, Copy, Default)]
pub struct Tally {
    reaches: u64,
    gaps: u64,
    partings: u64,
}

impl Tally {
    // One more vector of the sort.
    pub(crate) fn add(&mut self, sort: Sort) {
        let count = match sort {
            Sort::Reach => &mut self.reaches,
            Sort::Gap => &mut self.gaps,
            Sort::Parting => &mut self.partings,
        };
        *count = count.saturating_add(1);
    }
}

impl fmt::Display for Tally {
    fn fmt<W: fmt::Write>(&self, f: &mut fmt::Formatter<W>) -> fmt::Result {
        write!(
            f,
            "{} reaches, {} gaps, {} partings agree",
            self.reaches, self.gaps, self.partings
        )
    }
}
