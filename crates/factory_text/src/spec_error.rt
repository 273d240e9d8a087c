use thiserror::Error;

/// Why a text is no factory text. No two of these hold for one text.
#[derive(Clone, Copy, Debug, Error, PartialEq, Eq)]
pub enum SpecError {
    /// None of the others.
    #[error("not a factory text")]
    Unknown,
    /// The text has the form of a kind with numbers, and one of them begins with a zero or is out
    /// of its range.
    #[error("a number begins with a zero or is out of its range")]
    Number,
    /// The kind is one that Faiss has and that is left out here: it begins with `BHNSW`, or it is
    /// `BIVF`, digits, `_HNSW` and anything.
    #[error("HNSW is left out")]
    LeftOut,
    /// A second prefix stands right behind the first.
    #[error("a prefix stands behind a prefix")]
    Nested,
}
