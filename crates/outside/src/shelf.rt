ghost use Rattle.std.specs.Prelude.{◌≡◌, ℕ, Bool, false, IsTrue, OnOk, IsErrOf, is_ok};
ghost use Rattle.std.specs.Result.{result_unwrap_or};
ghost use Rattle.std.specs.declared.option.Option.{Option};
ghost use Rattle.std.specs.Io.{ReadsAtMost};
ghost use Rattle.outside.specs.Calls.{AppendsTo, Creates, KeepsMade, Opens, Reads, WhereTold};
ghost use Rattle.outside.specs.Causes.{HasCause};
ghost use Rattle.outside.specs.Contents.{Contents};

use crate::Trouble;

/// Files by their names, of which one at a time is read or made.
///
/// A file is read by `open` and then `read` until it gives 0, and made by `create`, then `append`,
/// and `keep` at the end. Only `keep` changes what files there are.
pub trait Shelf {
    /// The files, the rest of the one that is being read, and the name and the bytes of the one
    /// that is being made, where the shelf tells them: all of these or none.
    ghost contents: { Self → Option Contents };

    /// Whether a file is being read.
    ghost is_reading: { Self → Bool };

    /// Whether a file is being made.
    ghost is_making: { Self → Bool };

    /// How many calls failed so far; it never falls.
    ghost faults: { Self → ℕ };

    /// Says whether there is a file of this name. If so it is being read from its first byte on.
    /// What was being read or made before is given up.
    fn open(&mut self, name: &str) -> Result<bool, Trouble>
        ensures contents { WhereTold (contents self.old) (contents self.new)
            (Opens name.now result) }
        ensures reading { is_reading self.new ≡ result_unwrap_or result false }
        ensures making { is_making self.new ≡ false }
        ensures cause { HasCause (faults self.old) (faults self.new)
            (IsErrOf result Trouble.Failed) }
        ensures faultless { OnOk result (faults self.new ≡ faults self.old) }
        ensures memory_is_no_fault { IsErrOf result Trouble.Memory
            → faults self.new ≡ faults self.old };

    /// Fills the first bytes of `buf` from the file that is being read, and gives their number. 0
    /// for a buffer that is not empty is the end of the file. After an error the same bytes are
    /// still to come; what is then in `buf`, and what is in it behind the bytes of a read, is not
    /// promised.
    fn read(&mut self, buf: &mut [u8]) -> Result<usize, Trouble>
        requires { IsTrue (is_reading self.old) }
        ensures bound { ReadsAtMost result buf.new }
        ensures contents { WhereTold (contents self.old) (contents self.new)
            (Reads buf.new result) }
        ensures reading { is_reading self.new ≡ is_reading self.old }
        ensures making { is_making self.new ≡ is_making self.old }
        ensures cause { HasCause (faults self.old) (faults self.new)
            (IsErrOf result Trouble.Failed) }
        ensures faultless { OnOk result (faults self.new ≡ faults self.old) }
        ensures memory_is_no_fault { IsErrOf result Trouble.Memory
            → faults self.new ≡ faults self.old };

    /// Begins a file of this name, with no bytes. A file that has the name stays as it is until
    /// `keep`. What was being read or made before is given up.
    fn create(&mut self, name: &str) -> Result<(), Trouble>
        ensures contents { WhereTold (contents self.old) (contents self.new)
            (Creates name.now result) }
        ensures reading { is_reading self.new ≡ false }
        ensures making { is_making self.new ≡ is_ok result }
        ensures cause { HasCause (faults self.old) (faults self.new)
            (IsErrOf result Trouble.Failed) }
        ensures faultless { OnOk result (faults self.new ≡ faults self.old) }
        ensures memory_is_no_fault { IsErrOf result Trouble.Memory
            → faults self.new ≡ faults self.old };

    /// Puts a piece behind the bytes of the file that is being made. After an error that file is
    /// given up.
    fn append(&mut self, piece: &[u8]) -> Result<(), Trouble>
        requires { IsTrue (is_making self.old) }
        ensures contents { WhereTold (contents self.old) (contents self.new)
            (AppendsTo piece.now result) }
        ensures reading { is_reading self.new ≡ is_reading self.old }
        ensures making { is_making self.new ≡ is_ok result }
        ensures cause { HasCause (faults self.old) (faults self.new)
            (IsErrOf result Trouble.Failed) }
        ensures faultless { OnOk result (faults self.new ≡ faults self.old) }
        ensures memory_is_no_fault { IsErrOf result Trouble.Memory
            → faults self.new ≡ faults self.old };

    /// Puts the file that was made under its name, in place of one that has the name. After it, no
    /// file is being made. If the shelf failed, the new file may stand there or not, and no other
    /// file is touched.
    fn keep(&mut self) -> Result<(), Trouble>
        requires { IsTrue (is_making self.old) }
        ensures contents { WhereTold (contents self.old) (contents self.new) (KeepsMade result) }
        ensures reading { is_reading self.new ≡ is_reading self.old }
        ensures making { is_making self.new ≡ false }
        ensures cause { HasCause (faults self.old) (faults self.new)
            (IsErrOf result Trouble.Failed) }
        ensures faultless { OnOk result (faults self.new ≡ faults self.old) }
        ensures memory_is_no_fault { IsErrOf result Trouble.Memory
            → faults self.new ≡ faults self.old };
}
