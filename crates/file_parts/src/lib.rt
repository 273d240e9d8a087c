//! The fields of files, read and written one after the other.
//!
//! A [`Feed`] takes the fields of a file from a shelf and names the first fault that it finds, by
//! its offset. A [`Store`] writes such fields. Numbers stand with their lowest byte first.
#![tactic(auto)]

mod ahead;
mod feed;
mod file_fault;
mod fill;
mod head;
mod header;
mod heads;
mod letters;
mod part_error;
mod reason;
mod role;
mod run;
mod store;

pub use feed::Feed;
pub use file_fault::FileFault;
pub use head::Head;
pub use header::Header;
pub use letters::Letters;
pub use part_error::PartError;
pub use reason::Reason;
pub use role::Role;
pub use store::Store;
