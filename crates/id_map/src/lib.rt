//! Indexes under outer ids, Faiss's `IndexBinaryIDMap` and `IndexBinaryIDMap2`.
#![tactic(auto)]

mod id_mapped;
mod labels;

pub use id_mapped::IdMapped;
pub use labels::count_up;
