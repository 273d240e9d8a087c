//! Several indexes searched as one, as Faiss's `IndexBinaryShards` with successive ids.
#![tactic(auto)]

pub mod laws;
mod merging;
mod queries;
mod shards;

pub use shards::Shards;
