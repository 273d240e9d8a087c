/// What the fields before a packed run say of it.
#[derive(Clone, Copy, Debug)]
pub struct Packing {
    /// The bits of a key.
    pub b: u32,
    /// The bits of a size.
    pub width: u32,
    /// The number of buckets.
    pub count: u64,
    /// The number of rows of all buckets.
    pub total: u64,
}
