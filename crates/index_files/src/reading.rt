mod flat;
mod hash;
mod index;
mod ivf;
mod load;
mod multi;
mod start;
mod wanted;

pub use load::decode;
