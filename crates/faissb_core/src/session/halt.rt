ghost use Rattle.std.specs.Prelude.{◌≡◌};
ghost use Rattle.faissb_core.specs.declared.session.halt.Halt.TheVariants.{Memory, Refused};

use crate::Refusal;
use std::alloc::AllocError;

/// Why a command changed nothing: it is refused, or memory ran out.
#[derive(Clone, Copy, Debug, PartialEq, Eq)]
pub enum Halt {
    Refused(Refusal),
    Memory,
}

impl From<Refusal> for Halt {
    ghost from_gives = { λ refusal halt. halt ≡ Refused refusal };

    fn from(refusal: Refusal) -> Halt {
        Halt::Refused(refusal)
    }
}

impl From<AllocError> for Halt {
    ghost from_gives = { λ _ halt. halt ≡ Memory };

    fn from(_: AllocError) -> Halt {
        Halt::Memory
    }
}
