//! What the definitions of files promise, as the contracts of functions that do nothing.
ghost use Rattle.std.specs.Prelude.{◌≡◌, ℕ, ◌^◌, ◌<◌, List, None};
ghost use Rattle.std.specs.List.{All};
ghost use Rattle.bcodes.specs.Answers.{best, within};
ghost use Rattle.bcodes.specs.Value.{IndexValue, IsLegal};
ghost use Rattle.multi_hash.specs.Wide.{wide};
ghost use Rattle.index_files.specs.Canon.{canon};
ghost use Rattle.index_files.specs.File.{IsFile, settled};
ghost use Rattle.index_files.specs.Laws.{IsDecidedFile, unlimited};

/// Each list of bytes is a file of exactly one index and has no fault, or it is no file and has
/// exactly one first fault.
pub fn one_reading()
    ensures { (bytes : List ℕ) → All (λ x. x < 2 ^ 8) bytes → IsDecidedFile bytes }
{}

/// What is written of an index without a wide bucket is a file, and it stands for the index with
/// its rows list by list or bucket by bucket.
pub fn written()
    ensures { (v : IndexValue) → IsLegal v → wide v ≡ None → IsFile (settled v) (canon v) }
{}

/// An index that was written and read is written as the same bytes.
pub fn written_again()
    ensures { (v : IndexValue) → IsLegal v → canon (settled v) ≡ canon v }
{}

/// An index that was written and read gives every answer as before, where it had no limit on the
/// rows that a query reads.
pub fn same_answers()
    ensures search { (v : IndexValue) (q : List ℕ) (k : ℕ) → IsLegal v
        → best (settled v) q k ≡ best (unlimited v) q k }
    ensures range { (v : IndexValue) (q : List ℕ) (radius : ℕ) → IsLegal v
        → within (settled v) q radius ≡ within (unlimited v) q radius }
{}
