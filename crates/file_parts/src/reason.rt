/// What is wrong with a field of a file.
#[derive(Clone, Copy, Debug, PartialEq, Eq)]
pub enum Reason {
    /// The file ends before the field does.
    Short,
    /// The four letters name nothing that can stand here.
    Fourcc,
    /// What is named exists, and is not read here.
    LeftOut,
    /// The number of bits is no multiple of 8 from 8 to 65,536, or not that of the outer header.
    Dim,
    /// The number of bytes of a code does not fit the number of bits.
    CodeSize,
    /// The number of codes is negative, or does not fit the outer header.
    Count,
    /// The flag is neither 0 nor 1.
    Flag,
    /// The metric is neither 0 nor 1.
    Metric,
    /// A number is out of its range.
    Number,
    /// The count of a vector is not what the fields before it ask for.
    VectorSize,
    /// The sizes of the lists do not fit each other or the number of codes.
    ListSizes,
    /// A number of bits is not the one that is needed.
    Bits,
    /// A bit behind the last packed number is not 0.
    Padding,
    /// A key stands twice.
    DuplicateKey,
    /// A bucket has no codes.
    EmptyBucket,
    /// A code stands under a key that is not its own.
    WrongBucket,
    /// A position is out of range, or stands twice.
    Positions,
    /// An id is out of its range.
    IdRange,
    /// The index would be larger than the limit.
    Load,
    /// A byte follows the index.
    Trailing,
    /// The direct map points elsewhere.
    DirectMap,
}
