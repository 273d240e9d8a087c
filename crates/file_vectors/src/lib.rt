//! Scripts that save and load, with the replies and the files that they must leave, and the tests
//! that run them.
//!
//! The replies and the files were worked out by hand from the definitions, and not taken from the
//! program. The crate has no item of its own.
#![tactic(auto)]

#[cfg(test)]
mod bytes;
#[cfg(test)]
mod checks;
#[cfg(test)]
mod every_command;
#[cfg(test)]
mod expect;
#[cfg(test)]
mod faults;
#[cfg(test)]
mod file_row;
#[cfg(test)]
mod loads;
#[cfg(test)]
mod pairs;
#[cfg(test)]
mod runs;
#[cfg(test)]
mod saves;
#[cfg(test)]
mod short_sink;
