//! Binary codes, their Hamming distances, hits and meters, and what every index answers.
//!
//! A code has `d` bits, a multiple of 8, and takes `d / 8` bytes. The distance of two codes is the
//! number of bits in which they differ.
#![tactic(auto)]

mod addable;
mod binary_index;
mod codes;
mod dim;
mod dim_error;
mod direct_error;
mod distance;
mod hit;
mod hits;
mod key_settings;
mod keys;
pub mod laws;
mod ledger;
mod list_settings;
mod map_name;
mod marks;
mod meter;

pub use addable::Addable;
pub use binary_index::BinaryIndex;
pub use codes::{Codes, are_bytes, code_at};
pub use dim::Dim;
pub use dim_error::DimError;
pub use direct_error::DirectError;
pub use distance::distance_plain;
pub use hit::Hit;
pub use hits::Hits;
pub use key_settings::KeySettings;
pub use keys::chunk;
pub use ledger::{Ledger, Plain};
pub use list_settings::ListSettings;
pub use map_name::MapName;
pub use marks::{range_exact, search_exact};
pub use meter::Meter;
pub use std::alloc::AllocError as Want;

/// The most that an index may weigh. Each row weighs the bytes of a code, 16, and 64 for each map
/// from keys to rows; each centroid weighs the bytes of a code and 16.
pub const LOAD_LIMIT: u64 = 1_073_741_824;
