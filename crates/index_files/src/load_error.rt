ghost use Rattle.std.specs.Prelude.{◌≡◌};
ghost use Rattle.index_files.specs.Loading.{load_error};

use file_parts::{FileFault, PartError};
use thiserror::Error;

/// Why no index was read.
#[derive(Clone, Copy, Debug, Error, PartialEq, Eq)]
pub enum LoadError {
    /// The file is not one of an index, and this is its first fault.
    #[error("the file is not one of an index")]
    Bad(FileFault),
    /// The shelf failed.
    #[error("the shelf failed")]
    Failed,
    #[error("out of memory")]
    Memory,
}

impl From<PartError> for LoadError {
    ghost from_gives = { λ part error. error ≡ load_error part };

    fn from(part: PartError) -> LoadError {
        match part {
            PartError::Bad(fault) => LoadError::Bad(fault),
            PartError::Failed => LoadError::Failed,
            PartError::Memory => LoadError::Memory,
        }
    }
}
