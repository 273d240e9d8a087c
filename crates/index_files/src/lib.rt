//! The files of indexes, as Faiss lays them out (`impl/index_write.cpp`, `impl/index_read.cpp`).
#![tactic(auto)]

mod bit_widths;
mod kind_name;
pub mod laws;
mod load_error;
mod reading;
mod save_error;
mod start;
mod writing;

pub use kind_name::KindName;
pub use load_error::LoadError;
pub use reading::decode;
pub use save_error::SaveError;
pub use start::Start;
pub use writing::encode;
