use thiserror::Error;

/// Fewer bits are left than a number takes.
#[derive(Clone, Copy, Debug, Error, PartialEq, Eq)]
#[error("fewer bits are left than the number takes")]
pub struct Short;
