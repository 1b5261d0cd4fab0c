// The sections of a job, in their order.
ghost use Rattle.std.specs.Prelude.{◌≡◌, Some};
ghost use Rattle.jobtext.specs.Sections.{opening, name};

use std::fmt;

#[derive(Clone, Copy)]
pub enum Section {
    Kind,
    Facets,
    Ties,
    Facets2,
    Ties2,
    Placements,
}

impl Section {
    // The word that opens the section.
    pub fn opening_word(self) -> &'static str
        ensures { result.now ≡ opening self }
    {
        match self {
            Section::Kind => "kind",
            Section::Facets | Section::Facets2 => "facets",
            Section::Ties | Section::Ties2 => "ties",
            Section::Placements => "placements",
        }
    }

    // The section's name in a report.
    fn report_name(self) -> &'static str
        ensures { result.now ≡ name self }
    {
        match self {
            Section::Facets2 => "facets2",
            Section::Ties2 => "ties2",
            _ => self.opening_word(),
        }
    }
}

impl fmt::Display for Section {
    ghost output = { λ s. Some (name s) };

    fn fmt<W: fmt::Write>(&self, f: &mut fmt::Formatter<W>) -> fmt::Result {
        f.write_str(self.report_name())
    }
}
