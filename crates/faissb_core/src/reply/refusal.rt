use crate::FactoryWord;
use file_parts::FileFault;
use multi_hash::Wide;

/// Why a command is refused: by the first of these that applies, in this order.
#[derive(Clone, Copy, Debug, PartialEq, Eq)]
pub enum Refusal {
    /// The line has more than 1,048,576 bytes.
    Long,
    /// The line is no command.
    Line,
    /// There is no index.
    NoIndex,
    /// The number of bits is no multiple of 8 from 8 to 65,536.
    Dim,
    /// The factory text is refused.
    Factory(FactoryWord),
    /// A word is not the hexadecimal text of a code.
    Code,
    /// Ids are needed, or they are not taken.
    Ids,
    /// The index is of another kind.
    Kind,
    /// A number is out of its range.
    Value,
    /// There would be more centroids than lists.
    Full,
    /// The index lacks centroids.
    Untrained,
    /// The index would grow past the load limit.
    Load,
    /// There is no file of the name.
    NoFile,
    /// The file is not one of an index, and this is its first fault.
    File(FileFault),
    /// A bucket of a MultiHash holds all codes, and the file has too few bits for their number.
    BucketBits(Wide),
    /// There is no direct map.
    NoDirect,
    /// The labels are not the numbers below their count, each once.
    Sequential,
    /// The index is not alike to the shards.
    Mismatch,
}
