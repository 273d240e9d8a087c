/// A kind of index, with its numbers.
#[derive(Clone, Copy, Debug, PartialEq, Eq)]
pub enum Kind {
    /// `BFlat`, Faiss's `IndexBinaryFlat`.
    Flat,
    /// `BIVF`, Faiss's `IndexBinaryIVF`: the number of inverted lists, from 1 to 4,194,304.
    Ivf(u32),
    /// `BHash` and one number, Faiss's `IndexBinaryHash`: the bits of a key, from 1 to 64.
    Hash(u32),
    /// `BHash` and two numbers with an `x` between them, Faiss's `IndexBinaryMultiHash`: the number
    /// of maps, from 1 to 1,024, and the bits of a key, from 1 to 64.
    Multi(u32, u32),
}
