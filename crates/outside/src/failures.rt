ghost use Rattle.std.specs.Prelude.{◌≡◌, ◌↔◌, ◌∷◌, ◌++◌, [], Contains, IsTrue, OnOk, OnErr};
ghost use Rattle.std.specs.Bool.{OnTrue, OnFalse};
ghost use Rattle.outside.specs.Causes.{HasCause, next_count};

use std::alloc::{AllocError, Global};

/// The numbers of the calls of a device that fail, the number of its next call, and how many
/// calls failed so far.
#[derive(Debug, Drop)]
pub(crate) struct Failures {
    pub(crate) failing: Vec<u64>,
    pub(crate) next: u64,
    pub(crate) faults: u64,
}

impl Failures {
    pub(crate) fn new(alloc: Global) -> Self
        ensures failing { result.failing.items ≡ [] }
        ensures next { result.next ≡ 0 }
        ensures faults { result.faults ≡ 0 }
    {
        Failures {
            failing: Vec::new(alloc),
            next: 0,
            faults: 0,
        }
    }

    pub(crate) fn add(&mut self, call: u64) -> Result<(), AllocError>
        ensures ok { OnOk result (self.new.failing.items ≡ self.old.failing.items ++ call ∷ []) }
        ensures err { OnErr result (self.new.failing.items ≡ self.old.failing.items) }
        ensures next { self.new.next ≡ self.old.next }
        ensures faults { self.new.faults ≡ self.old.faults }
    {
        self.failing.push(call)?;
        Ok(())
    }

    /// Counts a call, and says whether it fails. If so it is counted as a fault, too.
    pub(crate) fn strikes(&mut self) -> bool
        ensures cause { HasCause self.old.faults self.new.faults (IsTrue result) }
        ensures strikes { IsTrue result ↔ Contains self.old.failing.items self.old.next }
        ensures failing { self.new.failing ≡ self.old.failing }
        ensures next { self.new.next ≡ next_count self.old.next }
        ensures struck { OnTrue result (self.new.faults ≡ next_count self.old.faults) }
        ensures missed { OnFalse result (self.new.faults ≡ self.old.faults) }
    {
        let strikes = self.failing.contains(&self.next);
        self.next = self.next.saturating_add(1);
        if strikes {
            self.faults = self.faults.saturating_add(1);
        }
        strikes
    }
}
