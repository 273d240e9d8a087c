ghost use Rattle.std.specs.Prelude.{◌≡◌, ℕ, ◌+◌, ◌-◌, ◌<◌, ◌^◌, ◌++◌, List, length, take};
ghost use Rattle.std.specs.List.{range_with_len};
ghost use Rattle.code_pool.specs.Chains.{IsFront};

/// The front of a list: its blocks from the first on, as far as their numbers follow one another.
/// It has the number of the first block and the count of the blocks, 0 where the list has none.
#[derive(Clone, Copy, Debug)]
pub struct Front {
    pub first: u32,
    pub blocks: u32,
}

impl Front {
    /// The front of an empty list.
    pub const NONE: Front = Front {
        first: 0,
        blocks: 0,
    };

    /// The front of a list of `blocks` blocks once it has `n` more, those from `first` on.
    pub fn with_blocks(self, blocks: u32, first: u32, n: u32) -> Front
        requires { blocks + n < 2 ^ 32 }
        ensures { (list : List ℕ) → length list ≡ blocks → IsFront list self.first self.blocks
            → IsFront (list ++ range_with_len first n) result.first result.blocks }
    {
        if blocks == 0 {
            Front { first, blocks: n }
        } else if self.blocks == blocks && self.first as usize + blocks as usize == first as usize {
            Front {
                first: self.first,
                blocks: blocks + n,
            }
        } else {
            self
        }
    }

    /// The front of a list of `blocks` blocks once it has lost the last of them.
    pub fn without_last(self, blocks: u32) -> Front
        requires { 0 < blocks }
        ensures { (list : List ℕ) → length list ≡ blocks → IsFront list self.first self.blocks
            → IsFront (take (length list - 1) list) result.first result.blocks }
    {
        Front {
            first: self.first,
            blocks: self.blocks.min(blocks - 1),
        }
    }
}
