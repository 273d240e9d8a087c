//! The distance kernel for each code size, behind one type.
#![tactic(auto)]

mod prepared;

pub use hamming_kernels::Kernel;
pub use prepared::Prepared;
