ghost use Rattle.std.specs.Prelude.{◌≡◌, ◌-◌, ◌^◌, ◌<◌, ◌↔◌, ◌∷◌, ◌++◌, [], Some, length, drop};
ghost use Rattle.std.specs.Prelude.{Contains, IsErr, IfOk, OnOk, OnErr};
ghost use Rattle.std.specs.Io.{ReadsAtMost};
ghost use Rattle.std.specs.Io.KnownBytes.{ReadConsumes};
ghost use Rattle.outside.specs.Causes.{HasCause, TakesCount, next_count};
ghost use Rattle.outside.specs.States.{read_len};

use crate::failures::Failures;
use crate::{Failed, Source, SureSource};
use std::alloc::{AllocError, Global};
use std::marker::Model;

/// A source in memory, some reads of which fail. Contracts see the bytes still to come, the most
/// bytes of one read, the number of bytes handed out, the number of faults, the number of the next
/// read, and the numbers of the reads that fail.
///
/// Reads are numbered from 0, those that fail among them. The numbers stop at `u64::MAX`: the read
/// of that number and all later ones share it.
#[derive(Debug, Drop)]
pub struct MemSource {
    inner: SureSource,
    failures: Failures,
}

impl Model for MemSource {
    ghost use Rattle.outside.specs.States.{MemSourceState};

    ghost Value = { MemSourceState };

    ghost view = { λ s. record {
      left = s.inner.left;
      most = s.inner.most;
      taken = s.inner.taken;
      faults = s.failures.faults;
      next = s.failures.next;
      failing = s.failures.failing.items;
    } };
}

impl MemSource {
    /// A source of these bytes, of which it keeps a copy. No read fails, and one read may give any
    /// number of them.
    pub fn new(alloc: Global, bytes: &[u8]) -> Result<MemSource, AllocError>
        ensures { IfOk result (λ s. s ≡ record {
          left = bytes.now;
          most = 2 ^ 64 - 1;
          taken = 0;
          faults = 0;
          next = 0;
          failing = [];
        }) }
    {
        Ok(MemSource {
            inner: SureSource::new(alloc, bytes)?,
            failures: Failures::new(alloc),
        })
    }

    /// From now on one read gives at most `n` bytes, of which there is at least one.
    pub fn most(&mut self, n: usize)
        requires { 0 < n }
        ensures { self.new ≡ record self.old { most = n } }
    {
        self.inner.most(n);
    }

    /// Makes the read of this number fail. A number below that of the next read makes none
    /// fail. With `u64::MAX` each read fails from that number on.
    pub fn fail_at(&mut self, call: u64) -> Result<(), AllocError>
        ensures ok { OnOk result (self.new ≡ record self.old {
          failing = self.old.failing ++ call ∷ [];
        }) }
        ensures err { OnErr result (self.new ≡ self.old) }
    {
        self.failures.add(call)?;
        Ok(())
    }
}

impl Source for MemSource {
    ghost left = { λ s. Some s.left };

    ghost taken = { λ s. s.taken };

    ghost faults = { λ s. s.faults };

    /// Fails exactly where its number is one of those that fail. Else it gives as many bytes as
    /// are left, as `buf` holds and as one read may give, whichever is the least, and leaves the
    /// rest of `buf`. A read that fails leaves `buf` as it was.
    fn read(&mut self, buf: &mut [u8]) -> Result<usize, Failed>
        ensures bound { ReadsAtMost result buf.new }
        ensures bytes { ReadConsumes (Some self.old.left) (Some self.new.left) result buf.new }
        ensures count { TakesCount self.old.taken self.new.taken result }
        ensures cause { HasCause self.old.faults self.new.faults (IsErr result) }

        ensures fails { IsErr result ↔ Contains self.old.failing self.old.next }
        ensures gives { IfOk result (λ n.
            n ≡ read_len self.old.left (length buf.old) self.old.most) }
        ensures rest { IfOk result (λ n. drop n buf.new ≡ drop n buf.old) }

        // what stays besides
        ensures ok { OnOk result (self.new ≡ record self.old {
          left = self.new.left;
          taken = self.new.taken;
          next = next_count self.old.next;
        }) }
        ensures err { OnErr result (self.new ≡ record self.old {
          faults = next_count self.old.faults;
          next = next_count self.old.next;
        }) }
        ensures untouched { OnErr result (buf.new ≡ buf.old) }
    {
        if self.failures.strikes() {
            return Err(Failed);
        }
        self.inner.read(buf)
    }
}
