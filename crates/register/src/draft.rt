// A draft, which has to be closed or dropped.
ghost use Rattle.std.specs.Prelude.{◌≡◌};
ghost use Rattle.register.specs.Registers.{refusal_of};

use book::Refusal;

// The right to enter items into the register with its mark. It is not let go: only close and drop spend it.
pub struct Draft {
    pub(crate) mark: u16,
}

// Why a draft was not closed: it is another register's, or it was not one object.
pub enum Unclosed {
    NotThisDraft(Draft),
    PartsLeftOver,
}

impl Unclosed {
    // The refusal alone. It lets a draft go, so it is no From, which any crate could call.
    pub(crate) fn refusal(self) -> Refusal
        ensures { result ≡ refusal_of self }
    {
        match self {
            Unclosed::NotThisDraft(Draft { mark: _ }) => Refusal::NotThisDraft,
            Unclosed::PartsLeftOver => Refusal::PartsLeftOver,
        }
    }
}
