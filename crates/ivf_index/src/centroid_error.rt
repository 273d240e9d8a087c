use thiserror::Error;

/// Why an IVF takes no further centroid.
#[derive(Clone, Copy, Debug, Error, PartialEq, Eq)]
pub enum CentroidError {
    #[error("as many centroids are held as there are lists")]
    Full,
    #[error("out of memory")]
    Memory,
}
