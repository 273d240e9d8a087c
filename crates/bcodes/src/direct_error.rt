use thiserror::Error;

/// Why an IVF keeps no direct map.
#[derive(Clone, Copy, Debug, Error, PartialEq, Eq)]
pub enum DirectError {
    #[error("the labels are not the numbers below their count, each once")]
    NotSequential,
    #[error("out of memory")]
    Memory,
}
