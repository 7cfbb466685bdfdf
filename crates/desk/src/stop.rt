// Why a call has no answer.
ghost use Rattle.std.specs.Prelude.{◌≡◌};
ghost use Rattle.desk.specs.declared.stop.Stop.TheVariants.{Refused, OutOfMemory};

use answers::Refusal;
use std::alloc::AllocError;

#[derive(Clone, Copy, Debug)]
pub enum Stop {
    Refused(Refusal),
    OutOfMemory(AllocError),
}

impl From<Refusal> for Stop {
    ghost from_gives = { λ e s. s ≡ Refused e };

    fn from(refusal: Refusal) -> Stop {
        Stop::Refused(refusal)
    }
}

impl From<AllocError> for Stop {
    ghost from_gives = { λ e s. s ≡ OutOfMemory e };

    fn from(error: AllocError) -> Stop {
        Stop::OutOfMemory(error)
    }
}
