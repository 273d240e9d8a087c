ghost use Rattle.std.specs.Prelude.{◌≡◌, ℕ, ◌≤◌, Some};
ghost use Rattle.bcodes.specs.Settings.{key_bits, with_nflip};

use crate::Addable;

/// The setting of a Hash or a MultiHash, or of the one under outer ids. It leaves the rows.
pub trait KeySettings: Addable {
    /// In how many bits the key of a bucket may differ from the query's key.
    fn set_nflip(&mut self, n: u32)
        requires { (b : ℕ) → key_bits (Self.value self.old) ≡ Some b → n ≤ b }
        ensures { Self.value self.new ≡ with_nflip n (Self.value self.old) };
}
