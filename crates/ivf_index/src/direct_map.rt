ghost use Rattle.std.specs.Prelude.{◌≡◌, ℕ, ◌<◌, ◌≤◌, ◌^◌, ◌++◌, ◌+◌, [], ◌∷◌, true, length};
ghost use Rattle.std.specs.Prelude.{replicate, slice_index, Err, IfOk, OnOk, OnErr};
ghost use Rattle.code_pool.specs.Lists.{list_at};
ghost use Rattle.row_lists.specs.Rows.{lists_in};
ghost use Rattle.ivf_index.specs.Places.{HasGap};
ghost use Rattle.ivf_index.specs.Direct.{HasRoomOf, IsPlaced, entries_of, entries_or, extended};
ghost use Rattle.ivf_index.specs.Direct.{has_map};

use crate::label_places::{NO_PLACE, note_lists};
use bcodes::{DirectError, Ledger, Want};
use code_pool::Pool;
use std::alloc::Global;
use std::marker::Model;

/// Where the row of each label stands: one entry a label, `list * 2^32 + offset`.
#[derive(Drop)]
pub struct DirectMap {
    entries: Vec<u64>,
}

impl Model for DirectMap {
    ghost use Rattle.std.specs.Prelude.{◌-◌, vec_capacity, vec_len};
    ghost use Rattle.ivf_index.specs.Direct.{PlaceList};

    ghost Value = { PlaceList };

    ghost view = { λ m. record {
      entries = m.entries.items;
      spare = vec_capacity m.entries - vec_len m.entries;
    } };
}

impl DirectMap {
    /// The entry of a label.
    pub fn entry(&self, label: u64) -> u64
        requires { label < length self.now.entries }
        ensures { result ≡ slice_index self.now.entries label }
    {
        self.entries[label as usize]
    }

    /// Makes room for at least `n` more labels.
    pub fn reserve(&mut self, n: usize) -> Result<(), Want>
        ensures room { OnOk result (n ≤ self.new.spare) }
        ensures entries { self.new.entries ≡ self.old.entries }
    {
        self.entries.reserve(n)
    }

    /// Appends the entry of the next label, for which there is room.
    pub fn push(&mut self, place: u64)
        requires { 0 < self.old.spare }
        ensures entries { self.new.entries ≡ self.old.entries ++ place ∷ [] }
        ensures spare { self.old.spare ≤ self.new.spare + 1 }
    {
        self.entries.push_reserved(place);
    }
}

/// Makes room for `n` more labels in a map, where there is one.
pub fn reserve_places(direct: &mut Option<DirectMap>, n: usize) -> Result<(), Want>
    ensures room { OnOk result (HasRoomOf n direct.new) }
    ensures entries { entries_of direct.new ≡ entries_of direct.old }
{
    if let Some(map) = direct {
        map.reserve(n)?;
    }
    Ok(())
}

/// Appends the place of the next label to a map, where there is one.
pub fn append_place(direct: &mut Option<DirectMap>, place: u64)
    requires { HasRoomOf 1 direct.old }
    ensures entries { entries_of direct.new ≡ extended (entries_of direct.old) (place ∷ []) }
    ensures room { (n : ℕ) → HasRoomOf (n + 1) direct.old → HasRoomOf n direct.new }
{
    if let Some(map) = direct {
        map.push(place);
    }
}

/// The entry of a label, in a map that is there.
pub fn entry_of(direct: &Option<DirectMap>, label: u64) -> u64
    requires there { has_map (entries_of direct.now) ≡ true }
    requires within { label < length (entries_or (entries_of direct.now)) }
    ensures { result ≡ slice_index (entries_or (entries_of direct.now)) label }
{
    match direct {
        Some(map) => map.entry(label),
        None => unreachable!(),
    }
}

/// A map of `count` labels for the rows of lists, where these are the labels of the rows, each
/// once.
pub fn map_of<L: Ledger>(
    alloc: Global,
    lists: &Pool<L>,
    count: usize,
) -> Result<DirectMap, DirectError>
    requires lists { length lists.now.lists ≤ 4194304 }
    requires few { (l : ℕ) → length (list_at lists.now l).rows < 2 ^ 31 }
    ensures count { IfOk result (λ m. length m.entries ≡ count) }
    ensures placed { IfOk result (λ m. (p : ℕ) → p < count
        → IsPlaced (lists_in lists.now) (length lists.now.lists) p (slice_index m.entries p)) }
    ensures gap { result ≡ Err DirectError.NotSequential → HasGap (lists_in lists.now) count }
{
    let mut entries = match no_places(alloc, count) {
        Ok(entries) => entries,
        Err(_) => return Err(DirectError::Memory),
    };
    if !note_lists(lists, &mut entries) {
        return Err(DirectError::NotSequential);
    }
    Ok(DirectMap { entries })
}

fn no_places(alloc: Global, n: usize) -> Result<Vec<u64>, Want>
    ensures { IfOk result (λ v. v.items ≡ replicate n NO_PLACE) }
{
    let v = vec![in alloc; NO_PLACE; n]?;
    Ok(v)
}
