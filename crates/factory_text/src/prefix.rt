/// What a factory text says before its kind: whether the index keeps outer ids, and under which of
/// Faiss's two names.
#[derive(Clone, Copy, Debug, PartialEq, Eq)]
pub enum Prefix {
    /// Nothing: the index stands alone.
    Plain,
    /// `IDMap,`
    Map,
    /// `IDMap2,`
    Map2,
}
