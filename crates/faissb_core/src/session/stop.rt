ghost use Rattle.std.specs.Prelude.{◌≡◌};
ghost use Rattle.faissb_core.specs.declared.session.stop.Stop.TheVariants.{Memory};

use outside::Trouble;
use std::alloc::AllocError;
use thiserror::Error;

/// Why a line was not applied, though it may be a good one.
#[derive(Clone, Copy, Debug, Error, PartialEq, Eq)]
pub enum Stop {
    #[error("the shelf failed")]
    ShelfFailed,
    #[error("out of memory")]
    Memory,
}

impl From<AllocError> for Stop {
    ghost from_gives = { λ _ stop. stop ≡ Memory };

    fn from(_: AllocError) -> Stop {
        Stop::Memory
    }
}

impl From<Trouble> for Stop {
    ghost use Rattle.faissb_core.specs.Session.Results.{stop_of};

    ghost from_gives = { λ trouble stop. stop ≡ stop_of trouble };

    fn from(trouble: Trouble) -> Stop {
        match trouble {
            Trouble::Failed => Stop::ShelfFailed,
            Trouble::Memory => Stop::Memory,
        }
    }
}
