//! Numbers of 0 to 64 bits packed into bytes, as Faiss packs the buckets of its binary hash files
//! (`BitstringWriter` and `BitstringReader` in `utils/hamming.h`).
//!
//! Bits go from the least significant bit of byte 0 on, each number with its least significant bit
//! first. The bits behind the last number, up to the end of its byte, are 0.
#![tactic(auto)]

mod bit_reader;
mod bit_writer;
mod packed;
mod short;

pub use bit_reader::BitReader;
pub use bit_writer::BitWriter;
pub use packed::Packed;
pub use short::Short;
