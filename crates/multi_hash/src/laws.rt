//! What the definitions promise of a MultiHash, as the contracts of functions that do nothing.
ghost use Rattle.std.specs.Prelude.{◌≡◌, ℕ, ◌+◌, ◌*◌, ◌/◌, ◌<◌, ◌≤◌, List, true};
ghost use Rattle.bcodes.specs.Bits.{dist};
ghost use Rattle.bcodes.specs.Ranges.{IsDim};
ghost use Rattle.bcodes.specs.Value.{Bare, IndexValue, IsCode, IsLegalMulti, Multi as MultiForm};
ghost use Rattle.bcodes.specs.Value.{MultiValue, Row, inner_of};
ghost use Rattle.bcodes.specs.Answers.{best, is_probed_multi, scan_best, scan_within, within};
ghost use Rattle.bcodes.specs.Marks.{range_mark, search_mark};
ghost use Rattle.multi_hash.specs.Sharp.{IsMissed, lowest_of_each, zeros};

/// A row nearer to the query than `nhash * (nflip + 1)` bits is probed: its distance is at least
/// the sum of the distances over the `nhash` chunks, so they are not all above `nflip`.
#[tactic(auto, using(crate::proofs::ProbeLemmas::close_is_probed))]
pub fn close_rows_are_probed()
    ensures { (v : MultiValue) (q : List ℕ) (row : Row) → IsLegalMulti v → IsCode v.dim row.code
        → dist row.code q < v.nhash * (v.nflip + 1) → is_probed_multi v q row ≡ true }
{}

/// An answer that is marked as exact is that of a full scan.
#[tactic(auto, using(bcodes::proofs::MarkedLemmas::marked_within, bcodes::proofs::MarkedLemmas::marked_best,))]
pub fn marked_answers_are_full_scans()
    ensures range { (v : MultiValue) (q : List ℕ) (radius : ℕ) → IsLegalMulti v
        → range_mark (Bare (MultiForm v)) q radius ≡ true
        → within (Bare (MultiForm v)) q radius ≡ scan_within (Bare (MultiForm v)) q radius }
    ensures search { (v : MultiValue) (q : List ℕ) (k : ℕ) → IsLegalMulti v
        → search_mark (Bare (MultiForm v)) q k ≡ true
        → best (Bare (MultiForm v)) q k ≡ scan_best (Bare (MultiForm v)) q k }
{}

/// A range search up to a radius of `nhash * (nflip + 1)` is always marked as exact, also with
/// outer ids.
#[tactic(auto, using(crate::proofs::ProbeLemmas::small_range_marked))]
pub fn small_ranges_are_exact()
    ensures { (v : MultiValue) (outer : IndexValue) (q : List ℕ) (radius : ℕ)
        → inner_of outer ≡ MultiForm v → radius ≤ v.nhash * (v.nflip + 1)
        → range_mark outer q radius ≡ true }
{}

/// No greater radius could be promised while `nflip` is below `b`: the code that has exactly the
/// lowest `nflip + 1` bits of each chunk lies at a distance of `nhash * (nflip + 1)` from the code
/// of zeros, and is not probed for it.
pub fn bound_is_sharp()
    ensures { (d nhash b nflip : ℕ) → IsDim d → 1 ≤ nhash → nhash ≤ 1024 → 1 ≤ b → b ≤ 64
        → nhash * b ≤ d → nflip < b
        → IsMissed d nhash b nflip (lowest_of_each d nhash b nflip) (zeros d) }
{}
