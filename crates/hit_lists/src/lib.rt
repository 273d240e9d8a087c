//! The hits that a query keeps: the first k of those offered, or all of them in order.
#![tactic(auto)]

mod best_k;
mod range_hits;
mod runs;
mod seat;
mod slot_table;

pub use best_k::BestK;
pub use range_hits::RangeHits;
