//! Rows on the lists of a pool, with the order of their addition in a second pool.
#![tactic(auto)]

mod put;
mod room;

pub use put::{put_all, put_on_one, put_row};
pub use room::reserve_each;
