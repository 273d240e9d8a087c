mod flat;
mod hash;
mod held;
mod index;
mod ivf;
mod multi;
mod packed;
mod parts;
mod save;

pub use save::encode;
