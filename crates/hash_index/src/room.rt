ghost use Rattle.std.specs.Prelude.{◌≡◌, ℕ, ◌+◌, ◌<◌, ◌≤◌, ◌^◌, length, max, replicate, IfOk, OnErr, OnOk};
ghost use Rattle.code_pool.specs.Lists.{IsReserved, list_at};
ghost use Rattle.key_buckets.specs.Keys.{IsNumbering};
ghost use Rattle.key_buckets.specs.Room.{IsOpened, IsRoomed, IsUndoable, lists_most};

use bcodes::{Ledger, Want};
use code_pool::Pool;
use key_buckets::KeyTable;

// For how many rows at least the order gets room.
const ORDER_ROOM: usize = 1_024;

/// The list of a key, with room on it for `n` more rows. A key that has none gets one.
///
/// # Errors
///
/// If memory runs out. As on success, no row has moved, and the table is as before once the keys
/// behind the old ones are taken out.
pub fn make_room_under<L: Ledger>(
    table: &mut KeyTable,
    pool: &mut Pool<L>,
    key: u64,
    n: usize,
) -> Result<u32, Want>
    requires numbering { IsNumbering (length table.old) table.old }
    requires used { length table.old ≤ length pool.old.lists }
    requires lists { length pool.old.lists ≤ lists_most }
    requires few { length table.old + 1 ≤ lists_most }
    requires some { 1 ≤ n }
    requires rows { (l : ℕ) → length (list_at pool.old l).rows + n < 2 ^ 31 }
    ensures roomed { IfOk result (λ list.
        IsRoomed 0 table.old table.new (replicate n key) n (replicate n list)) }
    ensures exists { IfOk result (λ list. list < length pool.new.lists) }
    ensures room { IfOk result (λ list. n ≤ (list_at pool.new list).spare) }
    ensures undo { IsUndoable 0 table.old table.new pool.old pool.new }
{
    let list = list_under(table, pool, key)?;
    pool.reserve(list, n)?;
    Ok(list)
}

// The list of a key. A new key takes the first unused list, which may be open already: an add that
// ran out of memory leaves empty lists.
fn list_under<L: Ledger>(table: &mut KeyTable, pool: &mut Pool<L>, key: u64) -> Result<u32, Want>
    requires numbering { IsNumbering (length table.old) table.old }
    requires used { length table.old ≤ length pool.old.lists }
    requires lists { length pool.old.lists ≤ lists_most }
    ensures opened { IfOk result (λ list. IsOpened 0 table.old table.new key list) }
    ensures closed { OnErr result (table.new ≡ table.old) }
    ensures same { (l : ℕ) → list_at pool.new l ≡ list_at pool.old l }
    ensures size { pool.new.code_size ≡ pool.old.code_size }
    ensures used { length table.new ≤ length pool.new.lists }
    ensures lists_least { length pool.old.lists ≤ length pool.new.lists }
    ensures lists_most { length pool.new.lists
        ≤ max (length pool.old.lists) (length table.old + 1) }
{
    if let Some(list) = table.list(key) {
        return Ok(list);
    }
    let list = table.len() as u32;
    if list == pool.lists() {
        pool.open_list()?;
    }
    table.push(key, list)?;
    Ok(list)
}

/// Room for `n` more rows of an order. It comes for many at a time, so that few of many small adds
/// take memory.
///
/// # Errors
///
/// If memory runs out. The order is then as before.
pub fn make_room_in_order<L: Ledger>(order: &mut Pool<L>, n: usize) -> Result<(), Want>
    requires exists { 0 < length order.old.lists }
    requires few { length (list_at order.old 0).rows + n < 2 ^ 31 }
    requires room { length (list_at order.old 0).rows + 1024 < 2 ^ 31 }
    ensures ok { OnOk result (IsReserved order.old order.new 0 n) }
    ensures err { OnErr result (order.new ≡ order.old) }
{
    let all = order.blocks(0).saturating_mul(4);
    if all - (order.len(0) as u64) < n as u64 {
        order.reserve(0, n.max(ORDER_ROOM))?;
    }
    Ok(())
}
