use crate::KindName;
use bcodes::MapName;

/// Which index begins with four letters.
#[derive(Clone, Copy, Debug, PartialEq, Eq)]
pub enum Start {
    /// An index of one of the four kinds.
    Plain(KindName),
    /// An index under outer ids.
    Mapped(MapName),
    /// An index that Faiss has and that is not read here.
    NotRead,
    /// No index.
    Unknown,
}
