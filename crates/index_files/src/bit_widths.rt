ghost use Rattle.std.specs.Prelude.{◌≡◌, ◌≤◌};
ghost use Rattle.index_files.specs.Canon.{bit_length, position_width};

// The number of bits that a number takes: the least `n` such that it is below 2 to the power `n`.
pub fn bit_length(x: u64) -> u32
    ensures value { result ≡ bit_length x }
    ensures most { result ≤ 64 }
{
    u64::BITS - x.leading_zeros()
}

// The number of bits that a position among so many takes in the file of a MultiHash.
pub fn position_width(count: u64) -> u32
    ensures value { result ≡ position_width count }
    ensures most { result ≤ 64 }
{
    bit_length(count.saturating_sub(1))
}
