//! Tests of the indexes: small ones with the hits that they must find, and the codes that they read.
//!
//! They stand apart from the crates that they test, so that each of those is proved once alone. The
//! crate has no item of its own.
#![tactic(auto)]

#[cfg(test)]
mod any;
#[cfg(test)]
mod building;
#[cfg(test)]
mod flat;
#[cfg(test)]
mod growing;
#[cfg(test)]
mod hash;
#[cfg(test)]
mod ivf;
#[cfg(test)]
mod made;
#[cfg(test)]
mod mapped;
#[cfg(test)]
mod multi;
#[cfg(test)]
mod shards;
