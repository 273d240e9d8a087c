//! The index that keeps codes in buckets by the key of their first bits, Faiss's `IndexBinaryHash`.
#![tactic(auto)]

mod hash;
pub mod laws;
mod room;

pub use hash::Hash;
