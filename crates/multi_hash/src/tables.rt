ghost use Rattle.std.specs.Prelude.{◌≡◌, ℕ, ◌<◌, [], length, map, take, slice_index, find, nat_eq, ◌≤◌, IfOk};
ghost use Rattle.std.specs.List.{range_with_len};
ghost use Rattle.multi_hash.specs.Inside.{map_at};

use bcodes::Want;
use key_buckets::KeyTable;
use std::alloc::Global;

/// Tables without keys, one for each map.
pub fn empty_tables(alloc: Global, nhash: u32) -> Result<Vec<KeyTable>, Want>
    ensures count { IfOk result (λ maps. length maps.items ≡ nhash) }
    ensures empty { IfOk result (λ maps. (i : ℕ) → map_at maps.items i ≡ []) }
{
    let mut maps = Vec::with_capacity(alloc, nhash as usize)?;
    for made in 0..nhash {
        maps.push(KeyTable::new(alloc))?;
    }
    Ok(maps)
}

/// The table of map `i`.
pub fn table(maps: &[KeyTable], i: usize) -> &KeyTable
    requires { i < length maps.now }
    ensures { result.now ≡ map_at maps.now i }
{
    &maps[i]
}

/// The number of keys of each table.
pub fn key_counts(alloc: Global, maps: &[KeyTable]) -> Result<Vec<usize>, Want>
    ensures { IfOk result (λ counts. counts.items ≡ map length maps.now) }
{
    let mut counts = Vec::with_capacity(alloc, maps.len())?;
    for i in 0..maps.len() {
        counts.push(table(maps, i).len())?;
    }
    Ok(counts)
}

/// Takes out of each table the keys behind the first `counts`. It takes no memory.
pub fn keep_first(maps: &mut [KeyTable], counts: &[usize])
    requires { length counts.now ≡ length maps.old }
    ensures count { length maps.new ≡ length maps.old }
    ensures kept { (i : ℕ) → i < length maps.old
        → map_at maps.new i ≡ take (slice_index counts.now i) (map_at maps.old i) }
{
    for i in 0..counts.len() {
        maps[i].truncate(counts[i]);
    }
}

/// The first map with one key alone.
pub fn first_of_one_key(maps: &[KeyTable]) -> Option<u32>
    requires { length maps.now ≤ 1024 }
    ensures { result ≡ find (λ i. nat_eq (length (map_at maps.now i)) 1)
        (range_with_len 0 (length maps.now)) }
{
    for i in 0..maps.len() {
        if table(maps, i).len() == 1 {
            return Some(i as u32);
        }
    }
    None
}
