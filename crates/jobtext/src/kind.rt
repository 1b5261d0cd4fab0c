// The kind of a job's hulls.
ghost use Rattle.std.specs.Prelude.{◌≡◌};
ghost use Rattle.jobtext.specs.Sections.{word_of_kind, kind_of};

use super::text::is_text;

#[derive(Clone, Copy)]
pub enum Kind {
    Box,
    Many,
    Ball,
}

impl Kind {
    // The word for the kind.
    pub fn word(self) -> &'static str
        ensures { result.now ≡ word_of_kind self }
    {
        match self {
            Kind::Box => "box",
            Kind::Many => "many",
            Kind::Ball => "ball",
        }
    }

    // The kind that the word names.
    pub fn from_word(word: &[u8]) -> Option<Kind>
        ensures { result ≡ kind_of word.now }
    {
        [Kind::Box, Kind::Many, Kind::Ball]
            .iter()
            .copied()
            .find(|kind| is_text(word, kind.word()))
    }
}
