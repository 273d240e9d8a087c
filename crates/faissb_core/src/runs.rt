// The runs of the program.
mod check;
mod fault;
mod running;
mod sample;
mod script;
mod status;
mod words;

pub use script::run;
pub use status::{Status, usage};
