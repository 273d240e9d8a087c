ghost use Rattle.std.specs.Prelude.{◌≡◌, ℕ, ◌+◌, ◌<◌, ◌≤◌, ◌^◌, pos, length, map, nat_abs};
ghost use Rattle.std.specs.Prelude.{slice_index, slice_index_or, slice_set, replicate, true, false};
ghost use Rattle.code_pool.specs.Lists.{IsPart, label_of, list_at};
ghost use Rattle.row_lists.specs.Rows.{lists_in};
ghost use Rattle.ivf_index.specs.Places.{AreNoted, HasGap, IsListNoted, IsOutside, IsRunNoted};
ghost use Rattle.ivf_index.specs.Direct.{IsPlaced, entry};

use crate::entry::entry_at;
use bcodes::Ledger;
use code_pool::Pool;

/// A place that no row has.
pub const NO_PLACE: u64 = u64::MAX;

/// Notes the place of each row of the lists under its label. It tells whether the labels are the
/// numbers below the number of places, each once.
pub fn note_lists<L: Ledger>(pool: &Pool<L>, places: &mut [u64]) -> bool
    requires none { places.old ≡ replicate (length places.old) NO_PLACE }
    requires lists { length pool.now.lists ≤ 4194304 }
    requires few { (l : ℕ) → length (list_at pool.now l).rows < 2 ^ 31 }
    ensures yes { result ≡ true → (p : ℕ) → p < length places.old
        → IsPlaced (lists_in pool.now) (length pool.now.lists) p (slice_index places.new p) }
    ensures no { result ≡ false → HasGap (lists_in pool.now) (length places.old) }
{
    for list in 0..pool.lists() {
        if !note_list(pool, list, places) {
            return false;
        }
    }
    is_full(places)
}

// Whether each place was noted.
fn is_full(places: &[u64]) -> bool
    ensures yes { result ≡ true → (p : ℕ) → p < length places.now
        → slice_index places.now p ≡ NO_PLACE → ⊥ }
    ensures no { result ≡ false → (p : ℕ) × (p < length places.now)
        × (slice_index places.now p ≡ NO_PLACE) }
{
    for place in places {
        if *place == NO_PLACE {
            return false;
        }
    }
    true
}

// Notes the places of the rows of a list, up to one whose label is no place.
fn note_list<L: Ledger>(pool: &Pool<L>, list: u32, places: &mut [u64]) -> bool
    requires exists { list < length pool.now.lists }
    requires few { length (list_at pool.now list).rows < 2 ^ 31 }
    ensures yes { result ≡ true
        → IsListNoted (lists_in pool.now) (length pool.now.lists) list
        (length (list_at pool.now list).rows) places.old places.new }
    ensures no { result ≡ false → IsOutside (lists_in pool.now) (length places.old) }
{
    let count = pool.len(list);
    let mut walk = pool.walk(list);
    while walk.at() < count {
        let from = walk.at();
        if !note_run(list, from, walk.labels(), places) {
            return false;
        }
    }
    true
}

// Notes the places of neighbouring rows, up to one whose label is no place.
fn note_run(list: u32, from: usize, labels: &[i64], places: &mut [u64]) -> bool
    requires { from + length labels.now < 2 ^ 31 }
    ensures yes { result ≡ true
        → IsRunNoted list from labels.now (length labels.now) places.old places.new }
    ensures no { result ≡ false → (i : ℕ) × (i < length labels.now)
        × ((m : ℕ) → m < length places.old → pos m ≡ slice_index_or labels.now i (pos 0) → ⊥) }
{
    for i in 0..labels.len() {
        if !note(labels[i], entry_at(list, from + i), places) {
            return false;
        }
    }
    true
}

// Notes a place under its label, where it is one.
fn note(label: i64, place: u64, places: &mut [u64]) -> bool
    ensures yes { result ≡ true → (label ≡ pos (nat_abs label))
        × (nat_abs label < length places.old)
        × (places.new ≡ slice_set places.old (nat_abs label) place) }
    ensures no { result ≡ false → (m : ℕ) → m < length places.old → pos m ≡ label → ⊥ }
{
    if label < 0 || label as usize >= places.len() {
        return false;
    }
    places[label as usize] = place;
    true
}
