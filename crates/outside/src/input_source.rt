ghost use Rattle.std.specs.Prelude.{◌≡◌, None, IsErr, MatchResult};
ghost use Rattle.std.specs.Io.{ReadsAtMost};
ghost use Rattle.std.specs.Io.KnownBytes.{ReadConsumes};
ghost use Rattle.outside.specs.Causes.{HasCause, TakesCount, next_count};

use crate::{Failed, Source};
use std::io::Read;
use std::marker::Model;

/// A source over a reader, such as standard input. It does not tell its bytes, and counts each
/// error of the reader as a fault. Contracts see the reader, the number of bytes handed out and
/// the number of faults.
#[derive(Debug, Drop)]
pub struct InputSource<R> {
    reader: R,
    taken: u64,
    faults: u64,
}

impl<R> Model for InputSource<R> {
    ghost use Rattle.outside.specs.States.{InputState};

    ghost Value = { InputState R };

    ghost view = { λ s. record { reader = s.reader; taken = s.taken; faults = s.faults } };
}

impl<R: Read + Drop> InputSource<R> {
    /// A source over this reader, before its first read. It takes no memory.
    pub fn new(reader: R) -> InputSource<R>
        ensures { result ≡ record { reader = reader; taken = 0; faults = 0 } }
    {
        InputSource {
            reader,
            taken: 0,
            faults: 0,
        }
    }
}

impl<R: Read + Drop> Source for InputSource<R> {
    ghost left = { λ _. None };

    ghost taken = { λ s. s.taken };

    ghost faults = { λ s. s.faults };

    /// One read of the reader. Each error of it, one that was interrupted too, is `Failed`.
    fn read(&mut self, buf: &mut [u8]) -> Result<usize, Failed>
        ensures bound { ReadsAtMost result buf.new }
        ensures count { TakesCount self.old.taken self.new.taken result }
        ensures cause { HasCause self.old.faults self.new.faults (IsErr result) }

        // what a reader that tells its bytes gave
        ensures reader { ReadConsumes (R.remaining self.old.reader)
            (R.remaining self.new.reader) result buf.new }
        ensures faults { MatchResult result
            (λ _. self.new.faults ≡ self.old.faults)
            (λ _. self.new.faults ≡ next_count self.old.faults) }
    {
        match self.reader.read(buf) {
            Ok(count) => {
                self.taken = self.taken.saturating_add(count as u64);
                Ok(count)
            }
            Err(_) => {
                self.faults = self.faults.saturating_add(1);
                Err(Failed)
            }
        }
    }
}
