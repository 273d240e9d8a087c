//! Buckets of rows by key: the table from key to the pool's list, the room that an add makes before
//! it puts a row, and the search for the buckets whose keys are near to a query's.
#![tactic(auto)]

mod direct;
mod key_table;
mod keys;
mod near;
mod room;

pub use key_table::KeyTable;
pub use keys::chunk_keys;
pub use near::{near_buckets, push_near_buckets};
pub use room::{make_named_room, make_room};
