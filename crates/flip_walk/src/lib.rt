//! Patterns of flipped bits of a key, those with the fewest flips first, and how many there are.
#![tactic(auto)]

mod count;
mod flips;

pub use count::patterns;
pub use flips::Flips;
