/// What the header of an index says, as far as it is kept.
#[derive(Clone, Copy, Debug, PartialEq, Eq)]
pub struct Head {
    /// The bits of a code.
    pub dim: u32,
    /// The number of codes.
    pub count: u64,
    /// The flag `is_trained`.
    pub flag: bool,
}
