//! Hamming distances of codes to one query, by kernels that hold the query as words of its code
//! size. They follow Faiss's classes `HammingComputer..` of `faiss/utils/hamming_distance`.
#![tactic(auto)]

mod few;
mod general;
mod half;
mod kernel;
mod lanes;
mod rest;
mod twenty;
mod words;

pub use general::General;
pub use half::Half;
pub use kernel::Kernel;
pub use twenty::Twenty;
pub use words::Words;
