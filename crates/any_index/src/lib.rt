//! One index of any kind, plain or under outer ids.
#![tactic(auto)]

mod about;
mod any_index;
mod building;
mod counts;
mod inner_index;
pub mod laws;

pub use about::About;
pub use any_index::AnyIndex;
pub use building::{build, load_of};
pub use counts::Counts;
pub use inner_index::InnerIndex;
