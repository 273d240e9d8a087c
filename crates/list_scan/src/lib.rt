//! Scans of the lists of a pool: a query against every row of a list, a run at a time.
#![tactic(auto)]

mod batch;
mod lists;
mod query;
mod scan;

pub use lists::{offer_lists, offer_lists_below};
pub use query::{range_lists, search_lists};
pub use scan::{offer_list, offer_list_below, room_for_run, room_for_scan};
