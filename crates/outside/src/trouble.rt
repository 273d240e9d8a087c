ghost use Rattle.std.specs.Prelude.{◌≡◌};
ghost use Rattle.outside.specs.declared.trouble.Trouble.TheVariants.{Memory};

use std::alloc::{AllocError, AllocFailed};
use thiserror::Error;

/// Why a call of a sink or a shelf failed.
#[derive(Clone, Copy, Debug, Error, PartialEq, Eq)]
pub enum Trouble {
    /// The device failed: its count of faults rose in the call.
    #[error("the device failed")]
    Failed,
    /// Memory ran out. This counts no fault.
    #[error("out of memory")]
    Memory,
}

impl From<AllocError> for Trouble {
    ghost from_gives = { λ _ trouble. trouble ≡ Memory };

    fn from(_: AllocError) -> Trouble {
        Trouble::Memory
    }
}

impl<T: Drop> From<AllocFailed<T>> for Trouble {
    ghost from_gives = { λ _ trouble. trouble ≡ Memory };

    fn from(_: AllocFailed<T>) -> Trouble {
        Trouble::Memory
    }
}
