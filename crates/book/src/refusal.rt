// Why a call is refused.
ghost use Rattle.std.specs.Prelude.{◌≡◌, Some, decimal};
ghost use Rattle.book.specs.Refusals.{number, HasNumber};

use std::fmt;

#[derive(Clone, Copy, Debug, PartialEq, Eq)]
pub enum Refusal {
    DraftOpen = 1,
    ObjectsFull = 2,
    NotThisDraft = 3,
    OutOfRange = 4,
    TableFull = 5,
    PartsNotFree = 6,
    TooHigh = 7,
    PartsLeftOver = 8,
    NoSuchObject = 9,
    PlacementOutOfRange = 10,
    ListFull = 11,
}

impl Refusal {
    // The number that the refusal is known by.
    pub fn number(self) -> u8
        ensures { result ≡ number self }
    {
        self as u8
    }
}

// A number that no refusal has.
#[derive(Clone, Copy, Debug, PartialEq, Eq)]
pub struct NoRefusal(pub u8);

// The refusal with a number.
impl TryFrom<u8> for Refusal {
    type Error = NoRefusal;

    ghost try_from_gives = { HasNumber };

    fn try_from(number: u8) -> Result<Refusal, NoRefusal> {
        Ok(match number {
            1 => Refusal::DraftOpen,
            2 => Refusal::ObjectsFull,
            3 => Refusal::NotThisDraft,
            4 => Refusal::OutOfRange,
            5 => Refusal::TableFull,
            6 => Refusal::PartsNotFree,
            7 => Refusal::TooHigh,
            8 => Refusal::PartsLeftOver,
            9 => Refusal::NoSuchObject,
            10 => Refusal::PlacementOutOfRange,
            11 => Refusal::ListFull,
            _ => return Err(NoRefusal(number)),
        })
    }
}

impl fmt::Display for Refusal {
    ghost output = { λ r. Some (decimal (number r)) };

    fn fmt<W: fmt::Write>(&self, f: &mut fmt::Formatter<W>) -> fmt::Result {
        let number = self.number();
        write!(f, "{number}")
    }
}
