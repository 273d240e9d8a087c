ghost use Rattle.std.specs.Prelude.{◌≡◌, ℕ, ◌+◌, ◌<◌, ◌≤◌, ◌++◌, List, length, map, nat_abs};
ghost use Rattle.std.specs.Prelude.{slice_index, vec_capacity, vec_len, IfOk, OnOk};
ghost use Rattle.std.specs.List.{All};
ghost use Rattle.flip_walk.specs.Patterns.{times};
ghost use Rattle.row_lists.specs.Rows.{order_in};
ghost use Rattle.ivf_index.specs.Flags.{AreOrderFlags};

use bcodes::{Ledger, Want};
use code_pool::Pool;
use std::alloc::Global;

/// The flags of rows in the order of their addition, from those of their lists. `next` says where
/// the flags of each list begin, and then where they end.
pub fn flag_order<L: Ledger>(
    alloc: Global,
    order: &Pool<L>,
    flags: &[bool],
    next: &mut [usize],
) -> Result<Vec<bool>, Want>
    requires one { 0 < length order.now.lists }
    requires known { All (λ l. l < length next.old) (order_in order.now) }
    requires within { (l : ℕ) → l < length next.old
        → slice_index next.old l + times l (order_in order.now) ≤ length flags.now }
    ensures { IfOk result (λ found.
        AreOrderFlags flags.now next.old (order_in order.now) next.new found.items) }
{
    let count = order.len(0);
    let mut found = Vec::with_capacity(alloc, count)?;
    let mut walk = order.walk(0);
    while walk.at() < count {
        flag_run(walk.labels(), flags, next, &mut found);
    }
    Ok(found)
}

// Appends the flags of further rows, by the numbers of their lists, in room that was made for them.
fn flag_run(numbers: &[i64], flags: &[bool], next: &mut [usize], found: &mut Vec<bool>)
    requires known { All (λ number. nat_abs number < length next.old) numbers.now }
    requires within { (l : ℕ) → l < length next.old
        → slice_index next.old l + times l (map nat_abs numbers.now) ≤ length flags.now }
    requires room { vec_len found.old + length numbers.now ≤ vec_capacity found.old }
    ensures flags { (starts before : List ℕ) → length starts ≡ length next.old
        → AreOrderFlags flags.now starts before next.old found.old.items
        → AreOrderFlags flags.now starts (before ++ map nat_abs numbers.now) next.new
        found.new.items }
    ensures capacity { vec_capacity found.new ≡ vec_capacity found.old }
{
    for number in numbers {
        let list = number.unsigned_abs() as usize;
        let at = next[list];
        found.push_reserved(flags[at]);
        next[list] = at + 1;
    }
}
