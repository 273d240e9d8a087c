/// The header of an index: the five fields that Faiss's `read_index_binary_header`
/// (`index_read.cpp`) reads.
#[derive(Clone, Copy, Debug, PartialEq, Eq)]
pub struct Header {
    /// The bits of a code.
    pub d: i32,
    /// The bytes of a code.
    pub code_size: i32,
    /// The number of codes.
    pub ntotal: i64,
    /// The flag `is_trained`.
    pub trained: bool,
    /// The metric: 0 is `METRIC_INNER_PRODUCT`, and 1 is `METRIC_L2`.
    pub metric: i32,
}
