/// The end of a chain of blocks, from which the whole chain is found: its last block and how many
/// blocks it has. The chain of a list also has the number of the list's rows.
#[derive(Clone, Copy, Debug)]
pub struct Chain {
    pub last: u32,
    pub blocks: u32,
    pub len: usize,
}

impl Chain {
    /// No blocks.
    pub const EMPTY: Chain = Chain {
        last: 0,
        blocks: 0,
        len: 0,
    };
}
