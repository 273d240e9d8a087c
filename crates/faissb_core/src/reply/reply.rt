ghost use Rattle.std.specs.Prelude.{◌≡◌, is_err};

use crate::Refusal;
use any_index::About;
use bcodes::{Codes, Hits};

/// What a line is answered.
#[derive(Debug, Drop)]
pub enum Reply {
    /// A line without a command: no text.
    Silent,
    /// A command that only changes something.
    Done,
    /// How many codes were added, and how many there are then.
    Added(u64, u64),
    /// How many centroids are held, and how many lists there are.
    Held(u32, u32),
    /// The hits, how many codes were looked at, and whether the answer is marked as exact.
    Found(Hits, u64, bool),
    /// One code.
    Code(Codes),
    /// How many bytes the file has.
    Saved(u64),
    /// How many codes were loaded.
    Loaded(u64),
    /// What the index is and how it is set.
    Shown(About),
    /// How many shards there are, and how many codes they have together.
    Sharded(u64, u64),
    /// How many codes were removed, and how many there are then.
    Removed(u64, u64),
    /// The command changed nothing.
    Refused(Refusal),
}

impl Reply {
    ghost use Rattle.faissb_core.specs.Reply.Answer.{reply_of};

    /// Whether the command was refused.
    pub fn is_refused(&self) -> bool
        ensures { result ≡ is_err (reply_of self.now) }
    {
        matches!(self, Reply::Refused(_))
    }
}
