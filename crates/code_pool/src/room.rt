/// The blocks of 4 rows of a pool.
#[derive(Clone, Copy, Debug, PartialEq, Eq)]
pub struct Room {
    /// How many belong to lists.
    pub used: u64,
    /// How many are free.
    pub free: u64,
}
