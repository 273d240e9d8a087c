//! All rows of an index, in lists that share one region of blocks. A stored code is read only under
//! a meter of the pool's ledger.
#![tactic(auto)]

mod ahead;
mod beside;
mod blocks;
mod chain;
mod front;
mod keep;
mod number;
mod pool;
mod room;
mod rows;
mod run;
mod stretch;
mod tables;
mod walk;

pub use pool::Pool;
pub use room::Room;
pub use run::{RUN_ROWS, Run};
pub use walk::Walk;
