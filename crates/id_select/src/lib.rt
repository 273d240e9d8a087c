//! Which rows are to be removed from an index, by their labels or ids, as with Faiss's `IDSelector`
//! (`impl/IDSelector.h`).
#![tactic(auto)]

mod id_list;
mod keep_positions;
mod selector;

pub use id_list::IdList;
pub use keep_positions::KeepPositions;
pub use selector::Selector;
