ghost use Rattle.std.specs.Prelude.{◌≡◌, ◌↔◌, ◌<◌, ◌^◌, ◌∷◌, ◌++◌, [], Some, Contains, IfOk};
ghost use Rattle.std.specs.Prelude.{IsErrOf, IsOkUnless, IsTrue, OnErr, OnOk, drop, is_some};
ghost use Rattle.std.specs.Prelude.{length};
ghost use Rattle.std.specs.List.{All};
ghost use Rattle.std.specs.Option.{option_map};
ghost use Rattle.std.specs.Io.{ReadsAtMost};
ghost use Rattle.std.specs.Io.KnownBytes.{ReadConsumes};
ghost use Rattle.outside.specs.Causes.{HasCause};
ghost use Rattle.outside.specs.Contents.{put};
ghost use Rattle.outside.specs.States.{closed, counted, created, dropped, empty_shelf, files_of};
ghost use Rattle.outside.specs.States.{given_len, lengthened, opened, read_on, refiled, struck};
ghost use Rattle.outside.specs.States.{to_read, with_made};

use crate::failures::Failures;
use crate::{Shelf, SureShelf, Trouble};
use std::alloc::{AllocError, Global};
use std::marker::Model;

/// A shelf in memory, some calls of which fail. Contracts see what it holds, as that of a
/// [`SureShelf`], the number of faults, the number of the next call, and the numbers of the calls
/// that fail.
///
/// The calls of [`Shelf`] are numbered from 0, all of them together and those that fail among
/// them. The numbers stop at `u64::MAX`: the call of that number and all later ones share it.
#[derive(Debug, Drop)]
pub struct MemShelf {
    inner: SureShelf,
    failures: Failures,
}

impl Model for MemShelf {
    ghost use Rattle.outside.specs.States.{MemShelfState};

    ghost Value = { MemShelfState };

    ghost view = { λ s. record {
      held = s.inner;
      faults = s.failures.faults;
      next = s.failures.next;
      failing = s.failures.failing.items;
    } };
}

impl MemShelf {
    /// A shelf with no file, of which none is being read or made, and no call of which fails. It
    /// takes no memory.
    pub fn new(alloc: Global) -> MemShelf
        ensures { result ≡ record { held = empty_shelf; faults = 0; next = 0; failing = [] } }
    {
        MemShelf {
            inner: SureShelf::new(alloc),
            failures: Failures::new(alloc),
        }
    }

    /// Makes the call of this number fail. A number below that of the next call makes none fail.
    /// With `u64::MAX` each call fails from that number on.
    pub fn fail_at(&mut self, call: u64) -> Result<(), AllocError>
        ensures ok { OnOk result (self.new ≡ record self.old {
          failing = self.old.failing ++ call ∷ [];
        }) }
        ensures err { OnErr result (self.new ≡ self.old) }
    {
        self.failures.add(call)?;
        Ok(())
    }

    /// Puts a file of these bytes under a name, in place of one that has the name. This is no call
    /// that can be made to fail.
    ///
    /// # Errors
    ///
    /// If memory runs out. The shelf is then as before.
    pub fn put(&mut self, name: &str, bytes: &[u8]) -> Result<(), AllocError>
        ensures ok { OnOk result (files_of self.new.held.named
            ≡ put (files_of self.old.held.named) name.now bytes.now) }
        ensures reading { self.new.held.reading ≡ self.old.held.reading }
        ensures making { self.new.held.making ≡ self.old.held.making }
        ensures calls { self.new ≡ record self.old { held = self.new.held } }
        ensures err { OnErr result (self.new ≡ self.old) }
    {
        self.inner.put(name, bytes)?;
        Ok(())
    }

    /// The bytes of the file of this name, or `None` where there is none.
    pub fn get(&self, name: &str) -> Option<&[u8]>
        ensures { option_map (λ bytes. bytes.now) result ≡ files_of self.now.held.named name.now }
    {
        self.inner.get(name)
    }
}

impl Shelf for MemShelf {
    ghost use Rattle.std.specs.Prelude.{Some, is_some};
    ghost use Rattle.outside.specs.States.{contents_of};

    ghost contents = { λ s. Some (contents_of s.held) };

    ghost is_reading = { λ s. is_some s.held.reading };

    ghost is_making = { λ s. is_some s.held.making };

    ghost faults = { λ s. s.faults };

    /// Answers `Failed` exactly where its number is one of those that fail.
    fn open(&mut self, name: &str) -> Result<bool, Trouble>
        ensures fails { IsErrOf result Trouble.Failed ↔ Contains self.old.failing self.old.next }
        ensures cause { HasCause self.old.faults self.new.faults (IsErrOf result Trouble.Failed) }
        ensures finds { IfOk result (λ found.
            found ≡ is_some (files_of self.old.held.named name.now)) }
        ensures ok { OnOk result (self.new ≡ counted self.old (opened self.old.held name.now)) }
        ensures are_bytes { OnOk result (All (λ byte. byte < 2 ^ 8) (to_read self.new.held)) }
        ensures failed { IsErrOf result Trouble.Failed
            → self.new ≡ struck self.old (closed self.old.held) }
        ensures memory { IsErrOf result Trouble.Memory
            → self.new ≡ counted self.old (closed self.old.held) }
    {
        if self.failures.strikes() {
            self.inner.close();
            return Err(Trouble::Failed);
        }
        self.inner.open(name)
    }

    /// Answers `Failed` exactly where its number is one of those that fail, and never `Memory`. It
    /// gives as many bytes as are left or as `buf` holds, whichever is less, and leaves the rest of
    /// `buf`. A read that fails leaves `buf` as it was.
    fn read(&mut self, buf: &mut [u8]) -> Result<usize, Trouble>
        requires { IsTrue (is_some self.old.held.reading) }
        ensures fails { IsErrOf result Trouble.Failed ↔ Contains self.old.failing self.old.next }
        ensures failed_only { IsOkUnless result Trouble.Failed }
        ensures cause { HasCause self.old.faults self.new.faults (IsErrOf result Trouble.Failed) }
        ensures gives { IfOk result (λ n. n ≡ given_len self.old.held (length buf.old)) }
        ensures bound { ReadsAtMost result buf.new }
        ensures bytes { ReadConsumes (Some (to_read self.old.held)) (Some (to_read self.new.held))
            result buf.new }
        ensures rest { IfOk result (λ n. drop n buf.new ≡ drop n buf.old) }
        ensures ok { OnOk result (self.new
            ≡ counted self.old (read_on self.old.held (length buf.old))) }
        ensures err { OnErr result (self.new ≡ struck self.old self.old.held) }
        ensures untouched { OnErr result (buf.new ≡ buf.old) }
    {
        if self.failures.strikes() {
            return Err(Trouble::Failed);
        }
        self.inner.read(buf)
    }

    /// Answers `Failed` exactly where its number is one of those that fail.
    fn create(&mut self, name: &str) -> Result<(), Trouble>
        ensures fails { IsErrOf result Trouble.Failed ↔ Contains self.old.failing self.old.next }
        ensures cause { HasCause self.old.faults self.new.faults (IsErrOf result Trouble.Failed) }
        ensures ok { OnOk result (self.new ≡ counted self.old (created self.old.held name.now)) }
        ensures failed { IsErrOf result Trouble.Failed
            → self.new ≡ struck self.old (closed self.old.held) }
        ensures memory { IsErrOf result Trouble.Memory
            → self.new ≡ counted self.old (closed self.old.held) }
    {
        if self.failures.strikes() {
            self.inner.close();
            return Err(Trouble::Failed);
        }
        self.inner.create(name)
    }

    /// Answers `Failed` exactly where its number is one of those that fail.
    fn append(&mut self, piece: &[u8]) -> Result<(), Trouble>
        requires { IsTrue (is_some self.old.held.making) }
        ensures fails { IsErrOf result Trouble.Failed ↔ Contains self.old.failing self.old.next }
        ensures cause { HasCause self.old.faults self.new.faults (IsErrOf result Trouble.Failed) }
        ensures ok { OnOk result (self.new
            ≡ counted self.old (lengthened self.old.held piece.now)) }
        ensures failed { IsErrOf result Trouble.Failed
            → self.new ≡ struck self.old (dropped self.old.held) }
        ensures memory { IsErrOf result Trouble.Memory
            → self.new ≡ counted self.old (dropped self.old.held) }
    {
        if self.failures.strikes() {
            self.inner.drop_draft();
            return Err(Trouble::Failed);
        }
        self.inner.append(piece)
    }

    /// Answers `Failed` exactly where its number is one of those that fail, and then leaves the
    /// files as they were.
    fn keep(&mut self) -> Result<(), Trouble>
        requires { IsTrue (is_some self.old.held.making) }
        ensures fails { IsErrOf result Trouble.Failed ↔ Contains self.old.failing self.old.next }
        ensures cause { HasCause self.old.faults self.new.faults (IsErrOf result Trouble.Failed) }
        ensures ok { OnOk result (files_of self.new.held.named ≡ with_made self.old.held) }
        ensures after { OnOk result (self.new ≡ counted self.old
            (refiled self.old.held self.new.held.named)) }
        ensures failed { IsErrOf result Trouble.Failed
            → self.new ≡ struck self.old (dropped self.old.held) }
        ensures memory { IsErrOf result Trouble.Memory
            → self.new ≡ counted self.old (dropped self.old.held) }
    {
        if self.failures.strikes() {
            self.inner.drop_draft();
            return Err(Trouble::Failed);
        }
        self.inner.keep()
    }
}
