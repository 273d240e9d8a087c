//! The outside world as the program sees it: a source of bytes, a sink for bytes, and a shelf of
//! files. Each counts its faults, and answers that it failed only where that count rose.
#![tactic(auto)]

mod failed;
mod failures;
mod folder_shelf;
mod input_source;
mod mem_shelf;
mod mem_sink;
mod mem_source;
mod output_sink;
mod remaining;
mod shelf;
mod sink;
mod source;
mod sure_shelf;
mod sure_sink;
mod sure_source;
mod trouble;

pub use failed::Failed;
pub use folder_shelf::FolderShelf;
pub use input_source::InputSource;
pub use mem_shelf::MemShelf;
pub use mem_sink::MemSink;
pub use mem_source::MemSource;
pub use output_sink::OutputSink;
pub use shelf::Shelf;
pub use sink::Sink;
pub use source::Source;
pub use sure_shelf::SureShelf;
pub use sure_sink::SureSink;
pub use sure_source::SureSource;
pub use trouble::Trouble;
