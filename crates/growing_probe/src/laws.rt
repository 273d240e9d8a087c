//! What the definitions promise of a growing search, as the contracts of functions that do nothing.
ghost use Rattle.std.specs.Prelude.{◌≡◌, ℕ, ◌<◌, ◌≤◌, List, true, false};
ghost use Rattle.bcodes.specs.Value.{IsLegalMulti, MultiValue};
ghost use Rattle.bcodes.specs.Answers.{looked};
ghost use Rattle.bcodes.specs.Marks.{search_mark};
ghost use Rattle.growing_probe.specs.Grown.{flipped, grown};
ghost use Rattle.growing_probe.specs.Looks.{looks_up_to};

/// The `nflip` of an index says neither when a search is exact nor how much it looks at.
pub fn nflip_plays_no_part()
    ensures grown { (v : MultiValue) (q : List ℕ) (k n : ℕ)
        → grown (record v { nflip = n }) q k ≡ grown v q k }
    ensures looked { (v : MultiValue) (q : List ℕ) (flips n : ℕ)
        → looked (flipped (record v { nflip = n }) flips) q ≡ looked (flipped v flips) q }
    ensures asked { (v : MultiValue) (flips n : ℕ)
        → looks_up_to (record v { nflip = n }) flips ≡ looks_up_to v flips }
{}

/// `grown` is the least number of flips at which a search is marked as exact.
pub fn grown_is_the_least()
    ensures within { (v : MultiValue) (q : List ℕ) (k : ℕ) → grown v q k ≤ v.b }
    ensures marked { (v : MultiValue) (q : List ℕ) (k : ℕ) → IsLegalMulti v
        → search_mark (flipped v (grown v q k)) q k ≡ true }
    ensures least { (v : MultiValue) (q : List ℕ) (k flips : ℕ) → flips < grown v q k
        → search_mark (flipped v flips) q k ≡ false }
{}
