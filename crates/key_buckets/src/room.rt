ghost use Rattle.std.specs.Prelude.{◌≡◌, ℕ, ◌+◌, ◌<◌, ◌≤◌, ◌^◌, length, max, slice_index};
ghost use Rattle.std.specs.Prelude.{IfOk, OnOk, OnErr};
ghost use Rattle.std.specs.List.{All};
ghost use Rattle.code_pool.specs.Lists.{list_at};
ghost use Rattle.flip_walk.specs.Patterns.{times};
ghost use Rattle.key_buckets.specs.Keys.{IsNumbering};
ghost use Rattle.key_buckets.specs.Room.{AreOpened, IsOpened, IsRoomed, IsUndoable, keys_named};
ghost use Rattle.key_buckets.specs.Room.{lists_most};
ghost use Rattle.row_lists.specs.Room.{HasRoomFor};

use crate::KeyTable;
use bcodes::{Ledger, Want};
use code_pool::Pool;
use row_lists::reserve_each;
use std::alloc::Global;

/// Buckets for keys, and room in them for one row a key. It gives the list of each key.
///
/// New keys go to the end of the table. Other tables may keep their rows in the same pool: they use
/// `others` lists, and a new key takes the first list that no key of any table uses.
///
/// # Errors
///
/// If memory runs out. As on success, no row has moved, and the table is as before once the keys
/// behind the old ones are taken out. Lists that were opened stay empty, and serve the next new
/// keys of any table.
pub fn make_room<L: Ledger>(
    alloc: Global,
    table: &mut KeyTable,
    pool: &mut Pool<L>,
    keys: &[u64],
    others: u32,
) -> Result<Vec<u32>, Want>
    requires numbering { IsNumbering (others + length table.old) table.old }
    requires used { others + length table.old ≤ length pool.old.lists }
    requires lists { length pool.old.lists ≤ lists_most }
    requires few { others + length table.old + length keys.now ≤ lists_most }
    requires rows { (l : ℕ) → length (list_at pool.old l).rows + length keys.now < 2 ^ 31 }
    ensures roomed { IfOk result (λ numbers.
        IsRoomed others table.old table.new keys.now (length keys.now) numbers.items) }
    ensures room { IfOk result (λ numbers. HasRoomFor numbers.items pool.new) }
    ensures spare { IfOk result (λ numbers. (l : ℕ) → times l numbers.items ≡ 0
        → (list_at pool.old l).spare ≤ (list_at pool.new l).spare) }
    ensures undo { IsUndoable others table.old table.new pool.old pool.new }
{
    let numbers = open_buckets(alloc, table, pool, keys, others)?;
    reserve_each(alloc, pool, &numbers)?;
    Ok(numbers)
}

/// `make_room` for keys that are known by their numbers: those of `keys` at these places. A bucket
/// is looked up once, however many numbers name its key.
///
/// # Errors
///
/// As those of `make_room`.
pub fn make_named_room<L: Ledger>(
    alloc: Global,
    table: &mut KeyTable,
    pool: &mut Pool<L>,
    keys: &[u64],
    numbers: &[u32],
    others: u32,
) -> Result<Vec<u32>, Want>
    requires known { All (λ n. n < length keys.now) numbers.now }
    requires numbering { IsNumbering (others + length table.old) table.old }
    requires used { others + length table.old ≤ length pool.old.lists }
    requires lists { length pool.old.lists ≤ lists_most }
    requires few { others + length table.old + length numbers.now ≤ lists_most }
    requires rows { (l : ℕ) → length (list_at pool.old l).rows + length numbers.now < 2 ^ 31 }
    ensures roomed { IfOk result (λ lists. let named = keys_named keys.now numbers.now in
        IsRoomed others table.old table.new named (length named) lists.items) }
    ensures room { IfOk result (λ lists. HasRoomFor lists.items pool.new) }
    ensures spare { IfOk result (λ lists. (l : ℕ) → times l lists.items ≡ 0
        → (list_at pool.old l).spare ≤ (list_at pool.new l).spare) }
    ensures undo { IsUndoable others table.old table.new pool.old pool.new }
{
    let lists = open_named(alloc, table, pool, keys, numbers, others)?;
    reserve_each(alloc, pool, &lists)?;
    Ok(lists)
}

// The lists of keys that are known by their numbers, which are opened where there are none.
fn open_named<L: Ledger>(
    alloc: Global,
    table: &mut KeyTable,
    pool: &mut Pool<L>,
    keys: &[u64],
    numbers: &[u32],
    others: u32,
) -> Result<Vec<u32>, Want>
    requires known { All (λ n. n < length keys.now) numbers.now }
    requires numbering { IsNumbering (others + length table.old) table.old }
    requires used { others + length table.old ≤ length pool.old.lists }
    requires lists { length pool.old.lists ≤ lists_most }
    requires few { others + length table.old + length numbers.now ≤ lists_most }
    ensures roomed { IfOk result (λ lists. let named = keys_named keys.now numbers.now in
        IsRoomed others table.old table.new named (length named) lists.items) }
    ensures same { (l : ℕ) → list_at pool.new l ≡ list_at pool.old l }
    ensures undo { IsUndoable others table.old table.new pool.old pool.new }
{
    // The list of each key that a number has named.
    let mut opened = vec![in alloc; None; keys.len()]?;
    let mut lists = Vec::with_capacity(alloc, numbers.len())?;
    for number in numbers {
        let list = open_once(&mut opened, *number as usize, table, pool, keys, others)?;
        lists.push(list)?;
    }
    Ok(lists)
}

// `open_bucket` for the key at a place, unless its list is among those that were opened.
fn open_once<L: Ledger>(
    opened: &mut Vec<Option<u32>>,
    at: usize,
    table: &mut KeyTable,
    pool: &mut Pool<L>,
    keys: &[u64],
    others: u32,
) -> Result<u32, Want>
    requires exists { at < length keys.now }
    requires whole { length opened.old.items ≡ length keys.now }
    requires opened { AreOpened keys.now opened.old.items table.old }
    requires numbering { IsNumbering (others + length table.old) table.old }
    requires used { others + length table.old ≤ length pool.old.lists }
    requires room { length pool.old.lists ≤ lists_most }
    ensures is { IfOk result (λ list.
        IsOpened others table.old table.new (slice_index keys.now at) list) }
    ensures opened { IfOk result (λ list. AreOpened keys.now opened.new.items table.new) }
    ensures whole { length opened.new.items ≡ length opened.old.items }
    ensures closed { OnErr result (table.new ≡ table.old) }
    ensures same { (l : ℕ) → list_at pool.new l ≡ list_at pool.old l }
    ensures size { pool.new.code_size ≡ pool.old.code_size }
    ensures used { others + length table.new ≤ length pool.new.lists }
    ensures lists_least { length pool.old.lists ≤ length pool.new.lists }
    ensures lists_most { length pool.new.lists
        ≤ max (length pool.old.lists) (others + length table.old + 1) }
{
    if let Some(list) = opened[at] {
        return Ok(list);
    }
    let list = open_bucket(table, pool, keys[at], others)?;
    opened[at] = Some(list);
    Ok(list)
}

// The lists of keys, which are opened where there are none.
fn open_buckets<L: Ledger>(
    alloc: Global,
    table: &mut KeyTable,
    pool: &mut Pool<L>,
    keys: &[u64],
    others: u32,
) -> Result<Vec<u32>, Want>
    requires numbering { IsNumbering (others + length table.old) table.old }
    requires used { others + length table.old ≤ length pool.old.lists }
    requires lists { length pool.old.lists ≤ lists_most }
    requires few { others + length table.old + length keys.now ≤ lists_most }
    ensures roomed { IfOk result (λ numbers.
        IsRoomed others table.old table.new keys.now (length keys.now) numbers.items) }
    ensures same { (l : ℕ) → list_at pool.new l ≡ list_at pool.old l }
    ensures undo { IsUndoable others table.old table.new pool.old pool.new }
{
    let mut numbers = Vec::with_capacity(alloc, keys.len())?;
    for key in keys {
        let list = open_bucket(table, pool, *key, others)?;
        numbers.push(list)?;
    }
    Ok(numbers)
}

// The list of a key. A new key takes the first unused list, which may be open already: an add that
// ran out of memory leaves empty lists.
fn open_bucket<L: Ledger>(
    table: &mut KeyTable,
    pool: &mut Pool<L>,
    key: u64,
    others: u32,
) -> Result<u32, Want>
    requires numbering { IsNumbering (others + length table.old) table.old }
    requires used { others + length table.old ≤ length pool.old.lists }
    requires room { length pool.old.lists ≤ lists_most }
    ensures opened { IfOk result (λ list. IsOpened others table.old table.new key list) }
    ensures closed { OnErr result (table.new ≡ table.old) }
    ensures same { (l : ℕ) → list_at pool.new l ≡ list_at pool.old l }
    ensures size { pool.new.code_size ≡ pool.old.code_size }
    ensures used { others + length table.new ≤ length pool.new.lists }
    ensures lists_least { length pool.old.lists ≤ length pool.new.lists }
    ensures lists_most { length pool.new.lists
        ≤ max (length pool.old.lists) (others + length table.old + 1) }
{
    if let Some(list) = table.list(key) {
        return Ok(list);
    }
    let list = others + table.len() as u32;
    if list == pool.lists() {
        pool.open_list()?;
    }
    table.push(key, list)?;
    Ok(list)
}
