ghost use Rattle.std.specs.Prelude.{◌≡◌, ◌+◌, ◌<◌, ◌≤◌, [], length, map, IfOk};
ghost use Rattle.std.specs.List.{All};
ghost use Rattle.bcodes.specs.Ranges.{load_limit};
ghost use Rattle.bcodes.specs.Value.{weight};
ghost use Rattle.key_buckets.specs.Keys.{key_in};
ghost use Rattle.key_buckets.specs.Room.{keys_named};
ghost use Rattle.multi_hash.specs.Inside.{IsMulti};
ghost use Rattle.multi_hash.specs.Partly.{IsPartly};

use crate::keys::keys_under;
use crate::put::put;
use crate::room::{make_named_room_under, make_room_under};
use crate::tables::table;
use bcodes::{Ledger, Meter, Want};
use code_pool::Pool;
use flat_index::Flat;
use key_buckets::KeyTable;
use std::alloc::Global;

/// Puts the positions of all codes of a Flat into the buckets of maps that have no key yet. It
/// gives the number of keys.
///
/// # Errors
///
/// If memory runs out. Some positions may then be in the buckets.
pub fn place_all<L: Ledger>(
    alloc: Global,
    maps: &mut [KeyTable],
    buckets: &mut Pool<L>,
    storage: &Flat<L>,
    b: u32,
    meter: &mut Meter<L>,
) -> Result<u32, Want>
    requires multi { IsMulti storage.now.dim b 0 0 [] maps.old buckets.old }
    requires load { weight storage.now.dim (length maps.old) (length storage.now.codes) 0
        ≤ load_limit }
    ensures multi { IfOk result (λ keys.
        IsMulti storage.now.dim b 0 keys storage.now.codes maps.new buckets.new) }
    ensures count { length maps.new ≡ length maps.old }
{
    let mut used = 0;
    for i in 0..maps.len() {
        used = place(alloc, maps, i, buckets, storage, b, used, meter)?;
    }
    Ok(used)
}

// Puts the positions of all codes of a Flat into the buckets of the next map, `i`. Room is made for
// all of them first, so that the positions of a bucket stand side by side. It gives the number of
// keys of the maps up to this, where those before it have `used`.
fn place<L: Ledger>(
    alloc: Global,
    maps: &mut [KeyTable],
    i: usize,
    buckets: &mut Pool<L>,
    storage: &Flat<L>,
    b: u32,
    used: u32,
    meter: &mut Meter<L>,
) -> Result<u32, Want>
    requires partly { IsPartly storage.now.dim b i used storage.now.codes maps.old buckets.old }
    requires next { i < length maps.old }
    ensures partly { IfOk result (λ keys.
        IsPartly storage.now.dim b (i + 1) keys storage.now.codes maps.new buckets.new) }
    ensures count { length maps.new ≡ length maps.old }
{
    let keys = keys_under(alloc, storage, i as u32, b, meter)?;
    let lists = make_room_under(alloc, maps, i, buckets, &keys, used)?;
    put(buckets, &lists, 0);
    Ok(used + table(maps, i).len() as u32)
}

/// `place` where the key of each code is known by its number among `keys`.
pub fn place_named<L: Ledger>(
    alloc: Global,
    maps: &mut [KeyTable],
    i: usize,
    buckets: &mut Pool<L>,
    storage: &Flat<L>,
    b: u32,
    used: u32,
    keys: &[u64],
    numbers: &[u32],
) -> Result<u32, Want>
    requires partly { IsPartly storage.now.dim b i used storage.now.codes maps.old buckets.old }
    requires next { i < length maps.old }
    requires known { All (λ n. n < length keys.now) numbers.now }
    requires keys { keys_named keys.now numbers.now ≡ map (key_in i b) storage.now.codes }
    ensures partly { IfOk result (λ keys.
        IsPartly storage.now.dim b (i + 1) keys storage.now.codes maps.new buckets.new) }
    ensures count { length maps.new ≡ length maps.old }
{
    let lists = make_named_room_under(alloc, maps, i, buckets, keys, numbers, used)?;
    put(buckets, &lists, 0);
    Ok(used + table(maps, i).len() as u32)
}
