/// So many blocks are looked up together.
pub const AHEAD_BLOCKS: usize = 64;

/// The numbers of neighbouring blocks of a list, those from place `first` of the list on.
#[derive(Clone, Copy, Debug)]
pub struct Ahead {
    pub numbers: [u32; AHEAD_BLOCKS],
    pub first: usize,
    pub count: usize,
}

impl Ahead {
    /// No blocks.
    pub const NONE: Ahead = Ahead {
        numbers: [0; AHEAD_BLOCKS],
        first: 0,
        count: 0,
    };
}
