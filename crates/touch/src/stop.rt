// Why the reading of a job ends before the job does.
ghost use Rattle.std.specs.Prelude.{◌≡◌};
ghost use Rattle.touch.specs.declared.stop.Stop.TheVariants.{Refused, OutOfMemory};
ghost use Rattle.touch.specs.Faults.{of_text};

use super::refusal::Refusal;
use std::alloc::AllocError;

#[derive(Drop)]
pub enum Stop {
    Refused(Refusal),
    LargerObject,
    OutOfMemory(AllocError),
}

impl From<jobtext::Fault> for Stop {
    ghost from_gives = { λ fault r. r ≡ Refused (of_text fault) };

    fn from(fault: jobtext::Fault) -> Stop {
        Stop::Refused(Refusal::from(fault))
    }
}

impl From<Refusal> for Stop {
    ghost from_gives = { λ refusal r. r ≡ Refused refusal };

    fn from(refusal: Refusal) -> Stop {
        Stop::Refused(refusal)
    }
}

impl From<AllocError> for Stop {
    ghost from_gives = { λ error r. r ≡ OutOfMemory error };

    fn from(error: AllocError) -> Stop {
        Stop::OutOfMemory(error)
    }
}
