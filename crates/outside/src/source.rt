ghost use Rattle.std.specs.Prelude.{◌≡◌, ℕ, List, IsErr, OnOk};
ghost use Rattle.std.specs.declared.option.Option.{Option};
ghost use Rattle.std.specs.Io.{ReadsAtMost};
ghost use Rattle.std.specs.Io.KnownBytes.{ReadConsumes};
ghost use Rattle.outside.specs.Causes.{HasCause, TakesCount};

use crate::Failed;

/// What bytes are read from, such as standard input.
pub trait Source {
    /// The bytes still to come, where the source tells them.
    ghost left: { Self → Option (List ℕ) };

    /// How many bytes were handed out so far; it stops at `u64::MAX`.
    ghost taken: { Self → ℕ };

    /// How many reads failed so far; it never falls.
    ghost faults: { Self → ℕ };

    /// Fills the first bytes of `buf`, and gives their number. 0 for a buffer that is not empty is
    /// the end of the source. A read that fails takes nothing from the source; what is then in
    /// `buf`, and what is in it behind the bytes of a read, is not promised.
    fn read(&mut self, buf: &mut [u8]) -> Result<usize, Failed>
        ensures bound { ReadsAtMost result buf.new }
        ensures bytes { ReadConsumes (left self.old) (left self.new) result buf.new }
        ensures count { TakesCount (taken self.old) (taken self.new) result }
        ensures cause { HasCause (faults self.old) (faults self.new) (IsErr result) }
        ensures faultless { OnOk result (faults self.new ≡ faults self.old) };
}
