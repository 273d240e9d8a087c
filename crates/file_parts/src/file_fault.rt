use crate::Reason;

/// The first fault of a file.
#[derive(Clone, Copy, Debug, PartialEq, Eq)]
pub struct FileFault {
    /// The offset in bytes of the place that is named, from the beginning of the file. An offset of
    /// `u64::MAX` stands for each that is not below it.
    pub at: u64,
    /// What is wrong there.
    pub reason: Reason,
}
