ghost use Rattle.std.specs.Prelude.{◌≡◌, ◌<◌, ℕ, List, length, IfOk, OnOk, IsErrOf};
ghost use Rattle.std.specs.declared.option.Option.{Option};
ghost use Rattle.std.specs.Io.{WritesAtMost};
ghost use Rattle.std.specs.Io.KnownBytes.{WriteAppends};
ghost use Rattle.outside.specs.Causes.{HasCause};

use crate::Trouble;

/// What bytes are written to, such as standard output.
pub trait Sink {
    /// The bytes that it took so far, where the sink tells them.
    ghost written: { Self → Option (List ℕ) };

    /// How many writes failed so far; it never falls.
    ghost faults: { Self → ℕ };

    /// Takes the first bytes of `piece`, at least one if it has any, and gives their number. A
    /// sink that tells its bytes took none of them if an error is returned.
    fn write(&mut self, piece: &[u8]) -> Result<usize, Trouble>
        ensures bound { WritesAtMost result piece.now }
        ensures bytes { WriteAppends (written self.old) (written self.new) result piece.now }
        ensures progress { 0 < length piece.now → IfOk result (λ n. 0 < n) }
        ensures cause { HasCause (faults self.old) (faults self.new)
            (IsErrOf result Trouble.Failed) }
        ensures faultless { OnOk result (faults self.new ≡ faults self.old) }
        ensures memory_is_no_fault { IsErrOf result Trouble.Memory
            → faults self.new ≡ faults self.old };
}
