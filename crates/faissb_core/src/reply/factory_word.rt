/// Why a factory text is refused.
#[derive(Clone, Copy, Debug, PartialEq, Eq)]
pub enum FactoryWord {
    /// It names no kind of index.
    Unknown,
    /// A number has a leading zero or is out of its range.
    Number,
    /// It names a kind of Faiss's that is left out here.
    LeftOut,
    /// It has an `IDMap` behind another.
    Nested,
    /// A key would have more bits than a code.
    Misfit,
}
