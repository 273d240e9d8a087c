//! Tests of what the indexes are made of: codes, hits, kernels, rows in lists, texts and devices.
//!
//! They stand apart from the crates that they test, so that each of those is proved once alone. The
//! crate has no item of its own.
#![tactic(auto)]

#[cfg(test)]
mod bits;
#[cfg(test)]
mod codes;
#[cfg(test)]
mod devices;
#[cfg(test)]
mod factories;
#[cfg(test)]
mod flips;
#[cfg(test)]
mod kept_hits;
#[cfg(test)]
mod kernels;
#[cfg(test)]
mod keys;
#[cfg(test)]
mod pool;
#[cfg(test)]
mod prepared;
#[cfg(test)]
mod selectors;
