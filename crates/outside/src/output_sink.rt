ghost use Rattle.std.specs.Prelude.{◌≡◌, ◌<◌, None, length, take, IsErrOf, IfOk, IsOkUnless};
ghost use Rattle.std.specs.Prelude.{MatchResult};
ghost use Rattle.std.specs.Io.{WritesAtMost};
ghost use Rattle.std.specs.Io.KnownBytes.{Appends};
ghost use Rattle.outside.specs.Causes.{HasCause, next_count};

use crate::{Sink, Trouble};
use std::io::{self, ErrorKind, Write};
use std::marker::Model;

/// A sink over a writer, such as standard output, which is flushed after each write. It does not
/// tell its bytes, and counts each error of the writer as a fault. Contracts see the writer and
/// the number of faults.
#[derive(Debug, Drop)]
pub struct OutputSink<W> {
    writer: W,
    faults: u64,
}

impl<W> Model for OutputSink<W> {
    ghost use Rattle.outside.specs.States.{OutputState};

    ghost Value = { OutputState W };

    ghost view = { λ s. record { writer = s.writer; faults = s.faults } };
}

impl<W: Write + Drop> OutputSink<W> {
    /// A sink over this writer, before its first write. It takes no memory.
    pub fn new(writer: W) -> OutputSink<W>
        ensures { result ≡ record { writer = writer; faults = 0 } }
    {
        OutputSink { writer, faults: 0 }
    }
}

impl<W: Write + Drop> Sink for OutputSink<W> {
    ghost written = { λ _. None };

    ghost faults = { λ s. s.faults };

    /// One write and one flush of the writer. An error of either, and a writer that takes nothing
    /// of a piece that is not empty, is `Failed`; `Memory` never comes. After a flush that failed
    /// the writer may have taken some of the piece.
    fn write(&mut self, piece: &[u8]) -> Result<usize, Trouble>
        ensures bound { WritesAtMost result piece.now }
        ensures progress { 0 < length piece.now → IfOk result (λ n. 0 < n) }
        ensures cause { HasCause self.old.faults self.new.faults (IsErrOf result Trouble.Failed) }
        ensures failed_only { IsOkUnless result Trouble.Failed }

        // what a writer that tells its bytes took
        ensures writer { IfOk result (λ n.
            Appends (W.contents self.old.writer) (W.contents self.new.writer) (take n piece.now)) }
        ensures faults { MatchResult result
            (λ _. self.new.faults ≡ self.old.faults)
            (λ _. self.new.faults ≡ next_count self.old.faults) }
    {
        match write_through(&mut self.writer, piece) {
            Ok(count) => Ok(count),
            Err(_) => {
                self.faults = self.faults.saturating_add(1);
                Err(Trouble::Failed)
            }
        }
    }
}

// Writes the first bytes of the piece, at least one where it has any, and flushes the writer.
fn write_through<W: Write>(writer: &mut W, piece: &[u8]) -> io::Result<usize>
    ensures bound { WritesAtMost result piece.now }
    ensures progress { 0 < length piece.now → IfOk result (λ n. 0 < n) }
    ensures writer { IfOk result (λ n.
        Appends (W.contents writer.old) (W.contents writer.new) (take n piece.now)) }
{
    let count = writer.write(piece)?;
    if count == 0 && !piece.is_empty() {
        return Err(ErrorKind::WriteZero.into());
    }
    writer.flush()?;
    Ok(count)
}
