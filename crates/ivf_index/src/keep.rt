ghost use Rattle.std.specs.Prelude.{◌≡◌, ℕ, ◌≤◌, length, slice_index};
ghost use Rattle.code_pool.specs.Lists.{kept};
ghost use Rattle.row_lists.specs.Rows.{lists_in};
ghost use Rattle.ivf_index.specs.Flags.{flags_to};

use bcodes::Ledger;
use code_pool::Pool;

/// Keeps the rows of each list whose flags are true. `ends` says where the flags of each list end.
pub fn keep_lists<L: Ledger>(lists: &mut Pool<L>, flags: &[bool], ends: &[usize])
    requires count { length ends.now ≡ length lists.old.lists }
    requires room { (l : ℕ) → length (lists_in lists.old l) ≤ slice_index ends.now l }
    requires within { (l : ℕ) → slice_index ends.now l ≤ length flags.now }
    ensures rows { (l : ℕ) → lists_in lists.new l
        ≡ kept (lists_in lists.old l)
        (flags_to flags.now (slice_index ends.now l) (length (lists_in lists.old l))) }
    ensures lists { length lists.new.lists ≡ length lists.old.lists }
    ensures size { lists.new.code_size ≡ lists.old.code_size }
{
    for list in 0..lists.lists() {
        let end = ends[list as usize];
        let start = end - lists.len(list);
        lists.keep_rows(list, &flags[start..end]);
    }
}
