//! The script language: its lines, the session that they work on, and the runs of the program.
#![tactic(auto)]

mod language;
pub mod laws;
mod reply;
mod runs;
mod sample;
mod session;

pub use reply::{FactoryWord, Refusal, Reply, write_reply};
pub use runs::{Status, run, usage};
pub use session::{Session, Stop};

/// The most bytes of a line, without its line feed.
pub const LINE_LIMIT: usize = 1_048_576;

/// The most hits that a search may be asked for.
pub const K_LIMIT: u64 = 1_048_576;

/// The most that all shards may weigh together.
pub const SHARD_LIMIT: u64 = 268_435_456;

/// The greatest radius of a range search.
pub const RADIUS_LIMIT: u64 = 2_147_483_647;

/// The greatest setting of `nprobe` and `maxcodes`: the greatest signed number of 64 bits.
pub const NUMBER_LIMIT: u64 = 9_223_372_036_854_775_807;

/// The bytes of one piece of a reply. The last piece of a reply may be shorter.
pub const PIECE: usize = 8_192;
