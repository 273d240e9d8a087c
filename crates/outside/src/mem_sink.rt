ghost use Rattle.std.specs.Prelude.{◌≡◌, ◌↔◌, ◌∷◌, ◌++◌, [], Some, length, Contains, IsErrOf, IfOk};
ghost use Rattle.std.specs.Prelude.{OnOk, OnErr};
ghost use Rattle.outside.specs.Causes.{HasCause, next_count};

use crate::failures::Failures;
use crate::{Sink, SureSink, Trouble};
use std::alloc::{AllocError, Global};
use std::marker::Model;

/// A sink in memory, some writes of which fail. Contracts see the bytes that it took, the number
/// of faults, the number of the next write, and the numbers of the writes that fail.
///
/// Writes are numbered from 0, those that fail among them. The numbers stop at `u64::MAX`: the
/// write of that number and all later ones share it.
#[derive(Debug, Drop)]
pub struct MemSink {
    inner: SureSink,
    failures: Failures,
}

impl Model for MemSink {
    ghost use Rattle.outside.specs.States.{MemSinkState};

    ghost Value = { MemSinkState };

    ghost view = { λ s. record {
      written = s.inner;
      faults = s.failures.faults;
      next = s.failures.next;
      failing = s.failures.failing.items;
    } };
}

impl MemSink {
    /// A sink that took nothing so far, and no write of which fails. It takes no memory.
    pub fn new(alloc: Global) -> MemSink
        ensures { result ≡ record { written = []; faults = 0; next = 0; failing = [] } }
    {
        MemSink {
            inner: SureSink::new(alloc),
            failures: Failures::new(alloc),
        }
    }

    /// Makes the write of this number fail. A number below that of the next write makes none
    /// fail. With `u64::MAX` each write fails from that number on.
    pub fn fail_at(&mut self, call: u64) -> Result<(), AllocError>
        ensures ok { OnOk result (self.new ≡ record self.old {
          failing = self.old.failing ++ call ∷ [];
        }) }
        ensures err { OnErr result (self.new ≡ self.old) }
    {
        self.failures.add(call)?;
        Ok(())
    }

    /// The bytes that it took so far.
    pub fn as_slice(&self) -> &[u8]
        ensures { result.now ≡ self.now.written }
    {
        self.inner.as_slice()
    }
}

impl Sink for MemSink {
    ghost written = { λ s. Some s.written };

    ghost faults = { λ s. s.faults };

    /// Answers `Failed` exactly where its number is one of those that fail. Else it takes the
    /// whole piece, or answers `Memory`.
    fn write(&mut self, piece: &[u8]) -> Result<usize, Trouble>
        ensures whole { IfOk result (λ n. n ≡ length piece.now) }
        ensures cause { HasCause self.old.faults self.new.faults (IsErrOf result Trouble.Failed) }
        ensures fails { IsErrOf result Trouble.Failed ↔ Contains self.old.failing self.old.next }

        ensures ok { OnOk result (self.new ≡ record self.old {
          written = self.old.written ++ piece.now;
          next = next_count self.old.next;
        }) }
        ensures failed { IsErrOf result Trouble.Failed → self.new ≡ record self.old {
          faults = next_count self.old.faults;
          next = next_count self.old.next;
        } }
        ensures memory { IsErrOf result Trouble.Memory → self.new ≡ record self.old {
          next = next_count self.old.next;
        } }
    {
        if self.failures.strikes() {
            return Err(Trouble::Failed);
        }
        self.inner.write(piece)
    }
}
