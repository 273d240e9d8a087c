//! What the definitions promise of a Hash, as the contracts of functions that do nothing.
ghost use Rattle.std.specs.Prelude.{◌≡◌, ℕ, ◌+◌, ◌<◌, List, true};
ghost use Rattle.bcodes.specs.Bits.{dist};
ghost use Rattle.bcodes.specs.Value.{Bare, Hash as HashForm, HashValue, IsLegalHash, IsRow, Row};
ghost use Rattle.bcodes.specs.Answers.{best, is_probed_hash, scan_best, scan_within, within};
ghost use Rattle.bcodes.specs.Marks.{range_mark, search_mark};

/// An answer that is marked as exact is that of a full scan.
#[tactic(auto, using(bcodes::proofs::MarkedLemmas::marked_within, bcodes::proofs::MarkedLemmas::marked_best,))]
pub fn marked_answers_are_full_scans()
    ensures range { (v : HashValue) (q : List ℕ) (radius : ℕ) → IsLegalHash v
        → range_mark (Bare (HashForm v)) q radius ≡ true
        → within (Bare (HashForm v)) q radius ≡ scan_within (Bare (HashForm v)) q radius }
    ensures search { (v : HashValue) (q : List ℕ) (k : ℕ) → IsLegalHash v
        → search_mark (Bare (HashForm v)) q k ≡ true
        → best (Bare (HashForm v)) q k ≡ scan_best (Bare (HashForm v)) q k }
{}

/// A row nearer to the query than `nflip + 1` bits is probed.
#[tactic(auto, using(crate::proofs::MarkLemmas::close_is_probed))]
pub fn close_rows_are_probed()
    ensures { (v : HashValue) (q : List ℕ) (row : Row) → IsLegalHash v → IsRow v.dim row
        → dist row.code q < v.nflip + 1 → is_probed_hash v q row ≡ true }
{}
