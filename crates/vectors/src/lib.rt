//! Scripts with the replies that they must get, and the tests that run them.
//!
//! The replies were worked out by hand from the definitions, and not taken from the program. The
//! crate has no item of its own.
#![tactic(auto)]

#[cfg(test)]
mod built;
#[cfg(test)]
mod devices;
#[cfg(test)]
mod expect;
#[cfg(test)]
mod long_row;
#[cfg(test)]
mod pieces;
#[cfg(test)]
mod row;
#[cfg(test)]
mod rows;
#[cfg(test)]
mod runs;
#[cfg(test)]
mod samples;
#[cfg(test)]
mod session;
