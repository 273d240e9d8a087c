//! What an index promises of its answers, as the contract of a function that does nothing.
ghost use Rattle.std.specs.Prelude.{◌≡◌, ℕ, List, true};
ghost use Rattle.bcodes.specs.Answers.{best, scan_best, scan_within, within};
ghost use Rattle.bcodes.specs.Marks.{range_mark, search_mark};

use crate::AnyIndex;
use bcodes::BinaryIndex;

/// An answer of an index of any kind, plain or under outer ids, that is marked as exact is that of
/// a full scan.
pub fn marked_answers_are_full_scans(index: &AnyIndex)
    ensures range { (q : List ℕ) (radius : ℕ) → range_mark index.now q radius ≡ true
        → within index.now q radius ≡ scan_within index.now q radius }
    ensures search { (q : List ℕ) (k : ℕ) → search_mark index.now q k ≡ true
        → best index.now q k ≡ scan_best index.now q k }
{
    let _dim = index.dim();
    bcodes::laws::marked_answers_are_full_scans();
}
