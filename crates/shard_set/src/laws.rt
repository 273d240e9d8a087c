//! What the definitions promise of several indexes as one, as the contracts of functions that do
//! nothing.
ghost use Rattle.std.specs.Prelude.{◌≡◌, ℕ, ◌≤◌, List, [], ◌∷◌, ◌++◌, Some, None, IsSome};
ghost use Rattle.std.specs.Prelude.{sum_by, true};
ghost use Rattle.std.specs.List.{All, list_all};
ghost use Rattle.bcodes.specs.Ranges.{load_limit};
ghost use Rattle.bcodes.specs.Value.{IndexValue, IsLegal, dim_of, load_of};
ghost use Rattle.bcodes.specs.Answers.{best, bound_of, hits, within};
ghost use Rattle.bcodes.specs.Marks.{AreNumbers};
ghost use Rattle.shard_set.specs.Joined.{are_alike, is_alike, joined, joined_best, joined_count};
ghost use Rattle.shard_set.specs.Joined.{joined_hits, joined_looked, joined_within};
ghost use Rattle.shard_set.specs.Shards.{IsShard};

/// Plain Flat of one `dim`, or plain MultiHash of the same numbers, answer as the one index that
/// has all their codes.
pub fn joined_answers_are_of_one_index()
    ensures hits { (vs : List IndexValue) (v : IndexValue) (q : List ℕ) → are_alike vs ≡ true
        → joined vs ≡ Some v → joined_hits vs q ≡ hits v q }
    ensures search { (vs : List IndexValue) (v : IndexValue) (q : List ℕ) (k : ℕ)
        → are_alike vs ≡ true → joined vs ≡ Some v → joined_best vs q k ≡ best v q k }
    ensures range { (vs : List IndexValue) (v : IndexValue) (q : List ℕ) (radius : ℕ)
        → are_alike vs ≡ true → joined vs ≡ Some v
        → joined_within vs q radius ≡ within v q radius }
{}

/// The numbers by which an answer of this one index is marked: the codes that all of them compare,
/// no centroids, the sum of their counts, and the bound of the first.
pub fn joined_numbers_are_of_one_index()
    ensures { (v : IndexValue) (vs : List IndexValue) (all : IndexValue) (q : List ℕ)
        → are_alike (v ∷ vs) ≡ true → joined (v ∷ vs) ≡ Some all
        → AreNumbers all q (joined_looked (v ∷ vs) q) 0 (joined_count (v ∷ vs)) (bound_of v) }
{}

/// There is such an index where there is any. It has the `dim` of the first, weighs as much as all
/// of them, and is legal where each of them is and they are not too heavy together.
pub fn joined_index()
    ensures none { joined [] ≡ None }
    ensures some { (v : IndexValue) (vs : List IndexValue) → IsSome (joined (v ∷ vs)) }
    ensures dim { (v : IndexValue) (vs : List IndexValue) (all : IndexValue)
        → joined (v ∷ vs) ≡ Some all → dim_of all ≡ dim_of v }
    ensures load { (vs : List IndexValue) (v : IndexValue) → are_alike vs ≡ true
        → joined vs ≡ Some v → load_of v ≡ sum_by load_of vs }
    ensures legal { (vs : List IndexValue) (v : IndexValue) → are_alike vs ≡ true
        → joined vs ≡ Some v → All IsLegal vs → sum_by load_of vs ≤ load_limit → IsLegal v }
{}

/// A plain Flat or a plain MultiHash may be a shard. One more that is alike to each of some keeps
/// them alike.
pub fn alike_indexes_are_shards()
    ensures shard { (v : IndexValue) → IsLegal v → is_alike v v ≡ true → IsShard v }
    ensures push { (vs : List IndexValue) (v : IndexValue) → are_alike vs ≡ true
        → is_alike v v ≡ true → list_all (is_alike v) vs ≡ true
        → are_alike (vs ++ v ∷ []) ≡ true }
{}
