// The language of a script: words, commands and lines.
mod command;
mod grammar;
mod id;
mod id_words;
mod ids;
mod line;
mod name;
mod number;
mod words;

pub use command::{Command, IndexChange, IndexQuestion, Selection, ShardQuestion};
pub use id_words::IdWords;
pub use ids::Ids;
pub use line::{Line, read_line};
pub use name::file_name;
pub use number::number_within;
pub use words::{cut_at, first_word};
