ghost use Rattle.std.specs.Prelude.{◌≡◌, ◌+◌, ◌<◌, ◌≤◌, ◌++◌, length, map, vec_capacity, vec_len, IfOk};
ghost use Rattle.code_pool.specs.Lists.{list_at};
ghost use Rattle.row_lists.specs.Rows.{lists_in};
ghost use Rattle.ivf_index.specs.Flags.{AreListFlags, row_stays};

use bcodes::{Ledger, Want};
use code_pool::Pool;
use id_select::Selector;
use std::alloc::Global;

/// Flags of the rows of all lists, true for those that stay.
#[derive(Drop)]
pub struct ListFlags {
    /// The flags, list after list.
    pub flags: Vec<bool>,
    /// Where the flags of each list begin.
    pub starts: Vec<usize>,
}

/// The flags of the rows of all lists, of which there are `count`.
pub fn flag_lists<L: Ledger>(
    alloc: Global,
    lists: &Pool<L>,
    count: usize,
    sel: &Selector,
) -> Result<ListFlags, Want>
    ensures starts { IfOk result (λ f. length f.starts.items ≡ length lists.now.lists) }
    ensures flags { IfOk result
        (λ f. AreListFlags sel.now (lists_in lists.now) f.flags.items f.starts.items) }
{
    let mut flags = Vec::with_capacity(alloc, count)?;
    let mut starts = Vec::with_capacity(alloc, lists.lists() as usize)?;
    for list in 0..lists.lists() {
        starts.push(flags.len())?;
        flags.reserve(lists.len(list))?;
        flag_list(lists, list, sel, &mut flags);
    }
    Ok(ListFlags { flags, starts })
}

// Appends the flags of the rows of a list, in room that was made for them.
fn flag_list<L: Ledger>(lists: &Pool<L>, list: u32, sel: &Selector, flags: &mut Vec<bool>)
    requires exists { list < length lists.now.lists }
    requires room { vec_len flags.old + length (list_at lists.now list).rows
        ≤ vec_capacity flags.old }
    ensures { flags.new.items
        ≡ flags.old.items ++ map (row_stays sel.now) (lists_in lists.now list) }
{
    let count = lists.len(list);
    let mut walk = lists.walk(list);
    while walk.at() < count {
        sel.push_flags(walk.labels(), flags);
    }
}
