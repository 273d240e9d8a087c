/// Whose header is read, which decides what its fields are tried by.
#[derive(Clone, Copy, Debug, PartialEq, Eq)]
pub enum Role {
    /// That of the file.
    Outermost,
    /// That of a storage, or of an index inside an IDMap.
    Within {
        /// The bits of a code by the outer header.
        dim: u32,
        /// The number of codes by the outer header.
        count: u64,
    },
    /// That of the quantizer of an IVF.
    Quantizer {
        /// The bits of a code by the outer header.
        dim: u32,
        /// The number of lists.
        nlist: u64,
        /// The number of codes by the outer header.
        rows: u64,
        /// The flag of the outer header.
        flag: bool,
    },
}
