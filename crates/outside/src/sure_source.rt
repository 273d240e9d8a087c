ghost use Rattle.std.specs.Prelude.{◌≡◌, ◌-◌, ◌^◌, ◌<◌, Ok, Some, IfOk, drop, min, length};
ghost use Rattle.std.specs.Io.{ReadsAtMost};
ghost use Rattle.std.specs.Io.KnownBytes.{ReadConsumes};
ghost use Rattle.outside.specs.Causes.{TakesCount};
ghost use Rattle.outside.specs.States.{read_len};

use crate::remaining::Remaining;
use crate::{Failed, Source};
use std::alloc::{AllocError, Global};
use std::marker::Model;

/// A source in memory that never fails. Contracts see the bytes still to come, the most bytes of
/// one read, and the number of bytes handed out.
#[derive(Debug, Drop)]
pub struct SureSource {
    left: Remaining,
    most: usize,
    taken: u64,
}

impl Model for SureSource {
    ghost use Rattle.std.specs.Prelude.{◌<◌};
    ghost use Rattle.outside.specs.States.{SureSourceState};

    ghost Value = { SureSourceState };

    ghost view = { λ s. record { left = s.left; most = s.most; taken = s.taken } };

    ghost invariant = { λ s. 0 < s.most };
}

impl SureSource {
    /// A source of these bytes, of which it keeps a copy. One read may give any number of them.
    pub fn new(alloc: Global, bytes: &[u8]) -> Result<SureSource, AllocError>
        ensures { IfOk result (λ s. s ≡ record { left = bytes.now; most = 2 ^ 64 - 1; taken = 0 }) }
    {
        Ok(SureSource {
            left: Remaining::new(alloc, bytes)?,
            most: usize::MAX,
            taken: 0,
        })
    }

    /// From now on one read gives at most `n` bytes, of which there is at least one.
    pub fn most(&mut self, n: usize)
        requires { 0 < n }
        ensures { self.new ≡ record self.old { most = n } }
    {
        self.most = n;
    }
}

impl Source for SureSource {
    ghost left = { λ s. Some s.left };

    ghost taken = { λ s. s.taken };

    ghost faults = { λ _. 0 };

    /// Never fails. It gives as many bytes as are left, as `buf` holds and as one read may give,
    /// whichever is the least, and leaves the rest of `buf`.
    #[tactic(auto, using(crate::proofs::ReadLemmas::consumes))]
    fn read(&mut self, buf: &mut [u8]) -> Result<usize, Failed>
        ensures gives { result ≡ Ok (read_len self.old.left (length buf.old) self.old.most) }
        ensures bound { ReadsAtMost result buf.new }
        ensures bytes { ReadConsumes (Some self.old.left) (Some self.new.left) result buf.new }
        ensures rest { IfOk result (λ n. drop n buf.new ≡ drop n buf.old) }
        ensures count { TakesCount self.old.taken self.new.taken result }
        ensures most { self.new.most ≡ self.old.most }
    {
        let count = self.left.read(buf, self.most);
        self.taken = self.taken.saturating_add(count as u64);
        Ok(count)
    }
}
