ghost use Rattle.std.specs.Prelude.{◌≡◌, length, IsSome, Some};
ghost use Rattle.std.specs.List.{items_where_true};
ghost use Rattle.bcodes.specs.Value.{Bare, CodeList, Flat, count_of};
ghost use Rattle.id_select.specs.Removal.{flat_in};

use bcodes::Addable;

/// A Flat, whose codes go by their positions: where some leave, the others close up, as with
/// Faiss's `IndexBinaryFlat::remove_ids`.
pub trait KeepPositions: Addable {
    /// Keeps the codes whose flags are true, in their order. They take the positions 0, 1, 2 and so
    /// on. It takes no memory.
    fn keep(&mut self, flags: &[bool])
        requires is_flat { IsSome (flat_in (Self.value self.old)) }
        requires one_each { length flags.now ≡ count_of (Self.value self.old) }
        ensures { (v : CodeList) → flat_in (Self.value self.old) ≡ Some v → Self.value self.new
            ≡ Bare (Flat (record v { codes = items_where_true flags.now v.codes })) };
}
