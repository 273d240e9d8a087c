/// A map in which one bucket holds all codes, and how many these are. Faiss's format for a
/// MultiHash has too few bits for the size of such a bucket where their number is a power of two.
#[derive(Clone, Copy, Debug, PartialEq, Eq)]
pub struct Wide {
    /// The number of the map.
    pub map: u32,
    /// The number of codes.
    pub size: u64,
}
