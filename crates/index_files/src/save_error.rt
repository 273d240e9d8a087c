ghost use Rattle.index_files.specs.Errors.{save_error};
ghost use Rattle.std.specs.Prelude.{◌≡◌};

use multi_hash::Wide;
use outside::Trouble;
use thiserror::Error;

/// Why an index was not written to a file.
#[derive(Clone, Copy, Debug, Error, PartialEq, Eq)]
pub enum SaveError {
    /// A bucket of a MultiHash holds all codes, and their number does not fit the bits that the
    /// file has for it.
    #[error("a bucket holds all codes")]
    BucketBits(Wide),
    /// The shelf failed.
    #[error("the shelf failed")]
    Failed,
    #[error("out of memory")]
    Memory,
}

impl From<Trouble> for SaveError {
    ghost from_gives = { λ trouble error. error ≡ save_error trouble };

    fn from(trouble: Trouble) -> SaveError {
        match trouble {
            Trouble::Failed => SaveError::Failed,
            Trouble::Memory => SaveError::Memory,
        }
    }
}
