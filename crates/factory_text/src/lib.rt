//! Factory texts such as `BFlat`, `BIVF1024`, `BHash16` and `IDMap2,BHash4x16`: what they stand
//! for, and how they are written. They follow Faiss's `index_binary_factory`
//! (`index_factory.cpp`).
//!
//! A factory text is a prefix and a kind. The prefix is nothing, `IDMap,` or `IDMap2,`. The kind is
//! `BFlat`, `BIVF` and the number of lists, `BHash` and the bits of a key, or `BHash`, the number
//! of maps, `x`, and the bits of a key. Numbers are decimal, without a sign and without a leading
//! zero, so that no two texts stand for the same.
#![tactic(auto)]

mod fitting;
mod kind;
mod numerals;
mod prefix;
mod printing;
mod reading;
mod spec;
mod spec_error;
mod text;

pub use fitting::fits;
pub use kind::Kind;
pub use prefix::Prefix;
pub use printing::print;
pub use reading::{read, read_bytes};
pub use spec::Spec;
pub use spec_error::SpecError;
pub use text::Text;
