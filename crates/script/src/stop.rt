// Why the reading of a job ends before the job does.
ghost use Rattle.std.specs.Prelude.{◌≡◌, IfOk};
ghost use Rattle.script.specs.declared.stop.Stop.TheVariants.{Faulty, OutOfMemory};

use jobtext::Fault;
use std::alloc::AllocError;

#[derive(Drop)]
pub enum Stop {
    Faulty(Fault),
    OutOfMemory(AllocError),
}

impl Stop {
    // The fault, where it is not for want of memory.
    pub(crate) fn fault(self) -> Result<Fault, AllocError>
        ensures { IfOk result (λ e. self ≡ Faulty e) }
    {
        match self {
            Stop::Faulty(fault) => Ok(fault),
            Stop::OutOfMemory(error) => Err(error),
        }
    }
}

impl From<Fault> for Stop {
    ghost from_gives = { λ fault r. r ≡ Faulty fault };

    fn from(fault: Fault) -> Stop {
        Stop::Faulty(fault)
    }
}

impl From<AllocError> for Stop {
    ghost from_gives = { λ error r. r ≡ OutOfMemory error };

    fn from(error: AllocError) -> Stop {
        Stop::OutOfMemory(error)
    }
}
