ghost use Rattle.std.specs.Prelude.{◌≡◌, ◌+◌, ◌<◌, ◌≤◌, length, take};
ghost use Rattle.code_pool.specs.Chains.{IsAhead, list_of};
ghost use Rattle.code_pool.specs.Inside.{IsPool, pool_in};
ghost use Rattle.code_pool.specs.Lists.{kept, list_at, with_copy, with_list};

use crate::ahead::Ahead;
use crate::blocks::Blocks;
use crate::rows::Rows;

/// Moves the rows of a list whose flags are true to its front, in their order, and gives how many
/// they are. What stands behind them means nothing.
pub fn move_kept(rows: &mut Rows, blocks: &Blocks, list: u32, keep: &[bool]) -> usize
    requires pool { IsPool rows.old blocks.now }
    requires exists { list + 1 < length blocks.now.chains }
    requires flags { length keep.now ≡ (list_of blocks.now list).len }
    ensures pool { IsPool rows.new blocks.now }
    ensures others { pool_in rows.new blocks.now ≡ with_list (pool_in rows.old blocks.now) list
        (record {
          rows = (list_at (pool_in rows.new blocks.now) list).rows;
          spare = (list_at (pool_in rows.old blocks.now) list).spare;
        }) }
    ensures size { length (list_at (pool_in rows.new blocks.now) list).rows
        ≡ length (list_at (pool_in rows.old blocks.now) list).rows }
    ensures within { result ≤ length (list_at (pool_in rows.new blocks.now) list).rows }
    ensures front { take result (list_at (pool_in rows.new blocks.now) list).rows
        ≡ kept (list_at (pool_in rows.old blocks.now) list).rows keep.now }
    ensures count { result
        ≡ length (kept (list_at (pool_in rows.old blocks.now) list).rows keep.now) }
{
    let mut sources = Ahead::NONE;
    let mut targets = Ahead::NONE;
    let mut kept = 0;
    for at in 0..keep.len() {
        if keep[at] {
            move_row(rows, blocks, list, at, kept, &mut sources, &mut targets);
            kept += 1;
        }
    }
    kept
}

// Copies the row at one place of a list to another, for a walk of both places forward.
fn move_row(
    rows: &mut Rows,
    blocks: &Blocks,
    list: u32,
    from: usize,
    to: usize,
    sources: &mut Ahead,
    targets: &mut Ahead,
)
    requires pool { IsPool rows.old blocks.now }
    requires exists { list + 1 < length blocks.now.chains }
    requires from { from < (list_of blocks.now list).len }
    requires to { to < (list_of blocks.now list).len }
    requires sources { IsAhead (list_of blocks.now list).blocks sources.old.first
        sources.old.count sources.old.numbers }
    requires targets { IsAhead (list_of blocks.now list).blocks targets.old.first
        targets.old.count targets.old.numbers }
    ensures pool { IsPool rows.new blocks.now }
    ensures copied { pool_in rows.new blocks.now ≡ with_list (pool_in rows.old blocks.now) list
        (with_copy (list_at (pool_in rows.old blocks.now) list) from to) }
    ensures sources { IsAhead (list_of blocks.now list).blocks sources.new.first
        sources.new.count sources.new.numbers }
    ensures targets { IsAhead (list_of blocks.now list).blocks targets.new.first
        targets.new.count targets.new.numbers }
{
    if from == to {
        return;
    }
    let source = blocks.place_ahead(list, from, sources);
    let target = blocks.place_ahead(list, to, targets);
    rows.copy(source, target);
}
