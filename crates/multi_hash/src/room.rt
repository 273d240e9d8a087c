ghost use Rattle.std.specs.Prelude.{◌≡◌, ℕ, ◌+◌, ◌*◌, ◌<◌, ◌≤◌, ◌^◌, ◌++◌, List, length, slice_set, IfOk, OnOk, OnErr};
ghost use Rattle.std.specs.List.{All};
ghost use Rattle.bcodes.specs.Ranges.{load_limit};
ghost use Rattle.bcodes.specs.Value.{weight};
ghost use Rattle.code_pool.specs.Lists.{list_at};
ghost use Rattle.flip_walk.specs.Patterns.{times};
ghost use Rattle.key_buckets.specs.Keys.{IsNumbering};
ghost use Rattle.key_buckets.specs.Room.{IsRoomed, IsUndoable, keys_named, lists_most};
ghost use Rattle.row_lists.specs.Room.{HasRoomFor};
ghost use Rattle.multi_hash.specs.Inside.{AreMaps, IsShared, lists_in, map_at};
ghost use Rattle.multi_hash.specs.Room.{AreUndoable, IsRoomy, lists_under};

use crate::tables::table;
use bcodes::{Codes, Ledger, Want};
use code_pool::Pool;
use flat_index::Flat;
use key_buckets::{KeyTable, chunk_keys, make_named_room, make_room};
use std::alloc::Global;

/// What an add has made room for.
#[derive(Drop)]
pub struct Room {
    /// The list of each code under each map: of all codes under map 0, then under map 1 and so on.
    pub lists: Vec<u32>,
    /// The number of keys of all maps.
    pub keys: u32,
}

/// Opens buckets for codes under each map, where the maps have `keys` keys, makes room in them, and
/// then appends the codes to the storage.
///
/// # Errors
///
/// If memory runs out. The storage is then as before. As on success, no position has moved, and the
/// maps are as before once the keys behind the old ones are taken out.
pub fn store<L: Ledger>(
    alloc: Global,
    maps: &mut [KeyTable],
    buckets: &mut Pool<L>,
    storage: &mut Flat<L>,
    b: u32,
    keys: u32,
    codes: &Codes,
) -> Result<Room, Want>
    requires maps { AreMaps b keys (λ i. storage.old.codes) (λ i. storage.old.codes) maps.old
        (lists_in buckets.old) }
    requires shared { IsShared keys buckets.old }
    requires same_dim { codes.now.dim ≡ storage.old.dim }
    requires b_least { 1 ≤ b }
    requires b_most { b ≤ 64 }
    requires within { length maps.old * b ≤ codes.now.dim }
    requires nhash_most { length maps.old ≤ 1024 }
    requires few { keys + length maps.old * length codes.now.codes ≤ lists_most }
    requires rows { (l : ℕ) → length (lists_in buckets.old l) + length codes.now.codes < 2 ^ 31 }
    requires load { weight storage.old.dim 0 (length storage.old.codes + length codes.now.codes) 0
        ≤ load_limit }
    ensures maps { IfOk result (λ room. AreMaps b room.keys
        (λ i. storage.old.codes ++ codes.now.codes) (λ i. storage.old.codes) maps.new
        (lists_in buckets.new)) }
    ensures roomy { IfOk result (λ room. (i : ℕ) → i < length maps.old → IsRoomy i b maps.new
        codes.now.codes (lists_under room.lists.items (length codes.now.codes) i) buckets.new) }
    ensures known { IfOk result (λ room. All (λ l. l < room.keys) room.lists.items) }
    ensures whole { IfOk result (λ room.
        length room.lists.items ≡ length maps.old * length codes.now.codes) }
    ensures shared { IfOk result (λ room. IsShared room.keys buckets.new) }
    ensures keys { IfOk result (λ room.
        room.keys ≤ keys + length maps.old * length codes.now.codes) }
    ensures stored { OnOk result (storage.new
        ≡ record storage.old { codes = storage.old.codes ++ codes.now.codes }) }
    ensures kept { OnErr result (storage.new ≡ storage.old) }
    ensures undo { AreUndoable maps.old maps.new buckets.old buckets.new }
{
    let room = open_all(alloc, maps, buckets, b, keys, codes)?;
    storage.append(codes)?;
    Ok(room)
}

// Opens buckets for codes under each map, and makes room in them.
fn open_all<L: Ledger>(
    alloc: Global,
    maps: &mut [KeyTable],
    buckets: &mut Pool<L>,
    b: u32,
    keys: u32,
    codes: &Codes,
) -> Result<Room, Want>
    requires maps { (old : List (List ℕ)) × AreMaps b keys (λ i. old) (λ i. old) maps.old
        (lists_in buckets.old) }
    requires shared { IsShared keys buckets.old }
    requires b_least { 1 ≤ b }
    requires b_most { b ≤ 64 }
    requires within { length maps.old * b ≤ codes.now.dim }
    requires nhash_most { length maps.old ≤ 1024 }
    requires few { keys + length maps.old * length codes.now.codes ≤ lists_most }
    requires rows { (l : ℕ) → length (lists_in buckets.old l) + length codes.now.codes < 2 ^ 31 }
    ensures maps { IfOk result (λ room. (old : List (List ℕ))
        → AreMaps b keys (λ i. old) (λ i. old) maps.old (lists_in buckets.old)
        → AreMaps b room.keys (λ i. old ++ codes.now.codes) (λ i. old) maps.new
        (lists_in buckets.new)) }
    ensures roomy { IfOk result (λ room. (i : ℕ) → i < length maps.old → IsRoomy i b maps.new
        codes.now.codes (lists_under room.lists.items (length codes.now.codes) i) buckets.new) }
    ensures known { IfOk result (λ room. All (λ l. l < room.keys) room.lists.items) }
    ensures whole { IfOk result (λ room.
        length room.lists.items ≡ length maps.old * length codes.now.codes) }
    ensures shared { IfOk result (λ room. IsShared room.keys buckets.new) }
    ensures keys { IfOk result (λ room.
        room.keys ≤ keys + length maps.old * length codes.now.codes) }
    ensures undo { AreUndoable maps.old maps.new buckets.old buckets.new }
{
    let mut lists = Vec::with_capacity(alloc, maps.len() * codes.len())?;
    let mut used = keys;
    for i in 0..maps.len() {
        let others = used - table(maps, i).len() as u32;
        let map_keys = chunk_keys(alloc, codes, i as u32, b)?;
        let own = make_room_under(alloc, maps, i, buckets, &map_keys, others)?;
        lists.extend_from_slice(&own)?;
        used = others + table(maps, i).len() as u32;
    }
    Ok(Room { lists, keys: used })
}

/// Opens buckets for keys under map `i`, and makes room in them. The rest is as in `make_room`.
pub fn make_room_under<L: Ledger>(
    alloc: Global,
    maps: &mut [KeyTable],
    i: usize,
    buckets: &mut Pool<L>,
    keys: &[u64],
    others: u32,
) -> Result<Vec<u32>, Want>
    requires exists { i < length maps.old }
    requires numbering { IsNumbering (others + length (map_at maps.old i)) (map_at maps.old i) }
    requires used { others + length (map_at maps.old i) ≤ length buckets.old.lists }
    requires lists { length buckets.old.lists ≤ lists_most }
    requires few { others + length (map_at maps.old i) + length keys.now ≤ lists_most }
    requires rows { (l : ℕ) → length (list_at buckets.old l).rows + length keys.now < 2 ^ 31 }
    ensures maps { maps.new ≡ slice_set maps.old i (map_at maps.new i) }
    ensures roomed { IfOk result (λ numbers. IsRoomed others (map_at maps.old i)
        (map_at maps.new i) keys.now (length keys.now) numbers.items) }
    ensures room { IfOk result (λ numbers. HasRoomFor numbers.items buckets.new) }
    ensures spare { IfOk result (λ numbers. (l : ℕ) → times l numbers.items ≡ 0
        → (list_at buckets.old l).spare ≤ (list_at buckets.new l).spare) }
    ensures undo { IsUndoable others (map_at maps.old i) (map_at maps.new i) buckets.old
        buckets.new }
{
    let numbers = make_room(alloc, &mut maps[i], buckets, keys, others)?;
    Ok(numbers)
}

/// `make_room_under` for keys that are known by their numbers.
pub fn make_named_room_under<L: Ledger>(
    alloc: Global,
    maps: &mut [KeyTable],
    i: usize,
    buckets: &mut Pool<L>,
    keys: &[u64],
    numbers: &[u32],
    others: u32,
) -> Result<Vec<u32>, Want>
    requires exists { i < length maps.old }
    requires known { All (λ n. n < length keys.now) numbers.now }
    requires numbering { IsNumbering (others + length (map_at maps.old i)) (map_at maps.old i) }
    requires used { others + length (map_at maps.old i) ≤ length buckets.old.lists }
    requires lists { length buckets.old.lists ≤ lists_most }
    requires few { others + length (map_at maps.old i) + length numbers.now ≤ lists_most }
    requires rows { (l : ℕ) → length (list_at buckets.old l).rows + length numbers.now < 2 ^ 31 }
    ensures maps { maps.new ≡ slice_set maps.old i (map_at maps.new i) }
    ensures roomed { IfOk result (λ lists. let named = keys_named keys.now numbers.now in
        IsRoomed others (map_at maps.old i) (map_at maps.new i) named (length named) lists.items) }
    ensures room { IfOk result (λ lists. HasRoomFor lists.items buckets.new) }
    ensures spare { IfOk result (λ lists. (l : ℕ) → times l lists.items ≡ 0
        → (list_at buckets.old l).spare ≤ (list_at buckets.new l).spare) }
    ensures undo { IsUndoable others (map_at maps.old i) (map_at maps.new i) buckets.old
        buckets.new }
{
    let lists = make_named_room(alloc, &mut maps[i], buckets, keys, numbers, others)?;
    Ok(lists)
}
