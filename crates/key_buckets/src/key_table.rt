ghost use Rattle.std.specs.Prelude.{◌≡◌, ◌<◌, ◌^◌, [], ◌∷◌, ◌++◌, length, take, nat_eq, position};
ghost use Rattle.std.specs.Prelude.{cond, ℕ, None, Some, IfOk, OnOk, OnErr, slice_index_or};
ghost use Rattle.std.specs.List.{IsDistinct};
ghost use Rattle.std.specs.Map.{keys_of};
ghost use Rattle.key_buckets.specs.Direct.{AreDirect};
ghost use Rattle.key_buckets.specs.Keys.{list_of};

use crate::direct::{Direct, note};
use bcodes::Want;
use indexmap::IndexMap;
use std::alloc::Global;
use std::marker::Model;

/// From so many keys on, keys may number places of their own.
const LEAST_KEYS: usize = 1_024;

/// The most places for a key that is there.
const PLACES_A_KEY: u64 = 8;

/// The list of each key, as the `map` of Faiss's binary hash indexes (`IndexBinaryHash.h`).
///
/// It is seen as the keys with the numbers of their lists, in the order in which the keys came.
///
/// Keys are numbers from strangers, and the map's hashes have no secret: keys can be chosen that
/// meet each other in it, and each look-up then goes by all of them. Keys that number places of
/// their own, as those of a few bits do once there are many codes, cannot be chosen so.
pub struct KeyTable {
    map: IndexMap<u64, u32>,
    // The lists of the keys below the number of places, where keys are dense: a look-up then reads
    // one entry of one table.
    direct: Direct,
}

// Written out, so that it is proved here once and not again wherever one is dropped.
impl Drop for KeyTable {
    fn drop(self) {
        let KeyTable {
            map: _map,
            direct: _direct,
        } = self;
    }
}

impl Model for KeyTable {
    ghost use Rattle.std.specs.Prelude.{ℕ, List};
    ghost use Rattle.key_buckets.specs.Direct.{AreDirect};

    ghost Value = { List (ℕ × ℕ) };

    ghost view = { λ t. t.map.entries };

    ghost invariant = { λ t. AreDirect t.map.entries t.direct };
}

impl KeyTable {
    /// A table without keys. It takes no memory.
    pub fn new(alloc: Global) -> KeyTable
        ensures { result ≡ [] }
    {
        KeyTable {
            map: IndexMap::new(alloc),
            direct: Direct::new(alloc),
        }
    }

    /// The number of keys.
    pub fn len(&self) -> usize
        ensures value { result ≡ length self.now }
        ensures small { result < 2 ^ 63 }
        ensures distinct { IsDistinct nat_eq (keys_of self.now) }
    {
        self.map.len()
    }

    /// Whether there are no keys.
    pub fn is_empty(&self) -> bool
        ensures { result ≡ nat_eq (length self.now) 0 }
    {
        self.len() == 0
    }

    /// The list of a key, or `None` where there is no such key.
    pub fn list(&self, key: u64) -> Option<u32>
        ensures { result ≡ list_of self.now key }
    {
        if key < self.direct.len() as u64 {
            self.direct.list(key as usize)
        } else {
            self.map.get(&key).copied()
        }
    }

    /// The place of a key in order of first appearance, or `None` where there is no such key.
    pub fn place(&self, key: u64) -> Option<usize>
        ensures { result ≡ position (nat_eq key) (keys_of self.now) }
    {
        self.map.get_index_of(&key)
    }

    /// The key and the list at place `i`, in order of first appearance.
    pub fn bucket(&self, i: usize) -> (u64, u32)
        requires { i < length self.now }
        ensures entry { result ≡ slice_index_or self.now i (0, 0) }
        ensures distinct { IsDistinct nat_eq (keys_of self.now) }
    {
        let _count = self.map.len();
        entry(&self.map, i)
    }

    /// Puts a new key last, with its list.
    ///
    /// # Errors
    ///
    /// If memory runs out. The table is then as before.
    pub fn push(&mut self, key: u64, list: u32) -> Result<(), Want>
        requires { list_of self.old key ≡ None }
        ensures ok { OnOk result (self.new ≡ self.old ++ (key, list) ∷ []) }
        ensures lists { OnOk result ((k : ℕ)
            → list_of self.new k ≡ cond (nat_eq key k) (Some list) (list_of self.old k)) }
        ensures err { OnErr result (self.new ≡ self.old) }
    {
        widen(&mut self.direct, &self.map)?;
        self.map.insert(key, list)?;
        note(&mut self.direct, key, list);
        Ok(())
    }

    /// Keeps the first `len` keys. It takes no memory.
    pub fn truncate(&mut self, len: usize)
        ensures { self.new ≡ take len self.old }
    {
        if len < self.map.len() {
            self.direct.clear();
        }
        self.map.truncate(len);
    }
}

// Makes more places where the keys of a map are worth them.
fn widen(direct: &mut Direct, map: &IndexMap<u64, u32>) -> Result<(), Want>
    requires { AreDirect map.now.entries direct.old }
    ensures { AreDirect map.now.entries direct.new }
{
    let places = places_for(map);
    if places > direct.len() {
        *direct = direct_lists(map, places)?;
    }
    Ok(())
}

// The number of places that the keys of a map are worth: 0 where they are few or not dense. So that
// the keys are not gone through too often, it is 0 too unless their number is a power of two.
fn places_for(map: &IndexMap<u64, u32>) -> usize {
    let count = map.len();
    if count < LEAST_KEYS || !count.is_power_of_two() {
        return 0;
    }
    let mut last = 0;
    for i in 0..count {
        last = entry(map, i).0.max(last);
    }
    if last / PLACES_A_KEY < count as u64 {
        last.saturating_add(1) as usize
    } else {
        0
    }
}

// The lists of the keys of a map, those of keys below the number of places.
fn direct_lists(map: &IndexMap<u64, u32>, places: usize) -> Result<Direct, Want>
    ensures { IfOk result (AreDirect map.now.entries) }
{
    let mut direct = Direct::with_len(*map.allocator(), places)?;
    for i in 0..map.len() {
        let (key, list) = entry(map, i);
        note(&mut direct, key, list);
    }
    Ok(direct)
}

// The key and the list at place `i`.
fn entry(map: &IndexMap<u64, u32>, i: usize) -> (u64, u32)
    requires { i < length map.now.entries }
    ensures { result ≡ slice_index_or map.now.entries i (0, 0) }
{
    match map.get_index(i) {
        Some((key, list)) => (*key, *list),
        None => unreachable!(),
    }
}
