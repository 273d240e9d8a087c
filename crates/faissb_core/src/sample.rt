// The run of `sample`: range searches over an index of generated codes.
mod generator;
mod index;
mod queries;
mod tally;
mod text;

pub use text::write_sample;
