//! What the definitions themselves promise, as the contracts of functions that do nothing.
ghost use Rattle.std.specs.Prelude.{◌≡◌, ℕ, List, true};
ghost use Rattle.std.specs.List.Sorted.{IsPermutation, IsSorted};
ghost use Rattle.bcodes.specs.declared.hit.Hit.{Hit};
ghost use Rattle.bcodes.specs.Ranges.{load_limit};
ghost use Rattle.bcodes.specs.Hits.{hit_cmp, in_order};
ghost use Rattle.bcodes.specs.Value.{IndexValue, IsLegal};
ghost use Rattle.bcodes.specs.Answers.{best, scan_best, scan_within, within};
ghost use Rattle.bcodes.specs.Marks.{range_mark, search_mark};

use crate::LOAD_LIMIT;

/// The order of hits sorts them, by distance and then by label, and keeps each.
#[tactic(auto, using(crate::proofs::OrderLemmas::in_order_sorted, crate::proofs::OrderLemmas::in_order_permutes))]
pub fn hits_in_order()
    ensures sorted { (hits : List Hit) → IsSorted hit_cmp (in_order hits) }
    ensures permutation { (hits : List Hit) → IsPermutation hits (in_order hits) }
{}

/// An answer that is marked as exact is that of a full scan, for each kind of index and with outer
/// ids.
#[tactic(auto, using(crate::proofs::MarkedLemmas::marked_within, crate::proofs::MarkedLemmas::marked_best))]
pub fn marked_answers_are_full_scans()
    ensures range { (v : IndexValue) (q : List ℕ) (radius : ℕ) → IsLegal v
        → range_mark v q radius ≡ true → within v q radius ≡ scan_within v q radius }
    ensures search { (v : IndexValue) (q : List ℕ) (k : ℕ) → IsLegal v
        → search_mark v q k ≡ true → best v q k ≡ scan_best v q k }
{}

/// The limit in the code is that of the definitions.
pub fn limits()
    ensures { LOAD_LIMIT ≡ load_limit }
{}
