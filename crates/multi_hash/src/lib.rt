//! The index that keeps the positions of codes in buckets by the keys of several runs of bits,
//! Faiss's `IndexBinaryMultiHash`.
#![tactic(auto)]

mod compare;
mod keys;
pub mod laws;
mod meet;
mod multi;
mod place;
mod put;
mod room;
mod seen;
mod tables;
mod wide;

pub use keys::keys_under;
pub use multi::{Building, Multi};
pub use seen::Seen;
pub use wide::Wide;
