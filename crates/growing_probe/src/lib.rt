//! Exact search on a MultiHash: the number of flipped bits grows until the answer is certain.
#![tactic(auto)]

mod count;
mod found;
pub mod laws;
mod probe;
mod round;
mod search;

pub use search::nearest;
