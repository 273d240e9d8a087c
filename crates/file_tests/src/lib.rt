//! Tests of the files of indexes: files with the indexes or the faults that they must give, and the
//! fields that they are made of.
//!
//! The files were worked out by hand from Faiss's layouts. The tests stand apart from the crates
//! that they test, so that each of those is proved once alone. The crate has no item of its own.
#![tactic(auto)]

#[cfg(test)]
mod fields;
#[cfg(test)]
mod files;
#[cfg(test)]
mod samples;
