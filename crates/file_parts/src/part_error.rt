ghost use Rattle.std.specs.Prelude.{◌≡◌};
ghost use Rattle.file_parts.specs.declared.part_error.PartError.TheVariants.{Memory};
ghost use Rattle.file_parts.specs.Errors.{part_error};

use crate::{FileFault, Reason};
use outside::Trouble;
use std::alloc::{AllocError, AllocFailed};
use thiserror::Error;

/// Why a part of a file could not be read.
#[derive(Clone, Copy, Debug, Error, PartialEq, Eq)]
pub enum PartError {
    /// The file has this fault.
    #[error("the file is not one of an index")]
    Bad(FileFault),
    /// The shelf failed: its count of faults rose in the call.
    #[error("the shelf failed")]
    Failed,
    /// Memory ran out.
    #[error("out of memory")]
    Memory,
}

impl PartError {
    /// The file has this fault at this offset.
    pub fn bad(at: u64, reason: Reason) -> PartError
        ensures { result ≡ PartError.Bad (record { at = at; reason = reason }) }
    {
        PartError::Bad(FileFault { at, reason })
    }
}

impl From<Trouble> for PartError {
    ghost from_gives = { λ trouble error. error ≡ part_error trouble };

    fn from(trouble: Trouble) -> PartError {
        match trouble {
            Trouble::Failed => PartError::Failed,
            Trouble::Memory => PartError::Memory,
        }
    }
}

impl From<AllocError> for PartError {
    ghost from_gives = { λ _ error. error ≡ Memory };

    fn from(_: AllocError) -> PartError {
        PartError::Memory
    }
}

impl<T: Drop> From<AllocFailed<T>> for PartError {
    ghost from_gives = { λ _ error. error ≡ Memory };

    fn from(_: AllocFailed<T>) -> PartError {
        PartError::Memory
    }
}
