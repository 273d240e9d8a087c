use thiserror::Error;

/// A device failed: its count of faults rose in the call.
#[derive(Clone, Copy, Debug, Error, PartialEq, Eq)]
#[error("the device failed")]
pub struct Failed;
