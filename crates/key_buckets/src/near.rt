ghost use Rattle.std.specs.Prelude.{◌≡◌, ◌+◌, ◌≤◌, ◌++◌, length, nat_eq, IfOk, OnOk};
ghost use Rattle.std.specs.List.{IsDistinct};
ghost use Rattle.std.specs.Map.{keys_of};
ghost use Rattle.bcodes.specs.Ranges.{raised};
ghost use Rattle.flip_walk.specs.Patterns.{flips};
ghost use Rattle.key_buckets.specs.Near.{flipped_lists, lists_by_key, looks_at, near_lists};

use crate::KeyTable;
use bcodes::{Ledger, Meter, Want};
use flip_walk::{Flips, patterns};
use std::alloc::Global;

/// The lists of the buckets whose keys differ from `key` in at most `nflip` of `b` bits.
///
/// Where there are at most as many patterns of flips as buckets, each flipped key is looked up, and
/// else each bucket is looked at. Either look raises the meter's `asked` by 1.
///
/// # Errors
///
/// If memory runs out. The meter's `asked` has then risen by no more than on success.
pub fn near_buckets<L: Ledger>(
    alloc: Global,
    table: &KeyTable,
    b: u32,
    nflip: u32,
    key: u64,
    meter: &mut Meter<L>,
) -> Result<Vec<u32>, Want>
    requires b_least { 1 ≤ b }
    requires b_most { b ≤ 64 }
    requires flips_most { nflip ≤ b }
    ensures near { IfOk result (λ near. near.items ≡ near_lists table.now b nflip key) }
    ensures distinct { IsDistinct nat_eq (keys_of table.now) }
    ensures lent { meter.new.lent ≡ meter.old.lent }
    ensures asked { OnOk result (meter.new.asked
        ≡ raised meter.old.asked (looks_at table.now b nflip)) }
    ensures asked_least { meter.old.asked ≤ meter.new.asked }
    ensures asked_most { meter.new.asked ≤ meter.old.asked + looks_at table.now b nflip }
{
    let mut near = Vec::new(alloc);
    push_near_buckets(table, b, nflip, key, &mut near, meter)?;
    Ok(near)
}

/// Appends the lists of `near_buckets` to those that were found before.
///
/// # Errors
///
/// As in `near_buckets`. What `near` holds then means nothing.
pub fn push_near_buckets<L: Ledger>(
    table: &KeyTable,
    b: u32,
    nflip: u32,
    key: u64,
    near: &mut Vec<u32>,
    meter: &mut Meter<L>,
) -> Result<(), Want>
    requires b_least { 1 ≤ b }
    requires b_most { b ≤ 64 }
    requires flips_most { nflip ≤ b }
    ensures near { OnOk result (near.new.items
        ≡ near.old.items ++ near_lists table.now b nflip key) }
    ensures distinct { IsDistinct nat_eq (keys_of table.now) }
    ensures lent { meter.new.lent ≡ meter.old.lent }
    ensures asked { OnOk result (meter.new.asked
        ≡ raised meter.old.asked (looks_at table.now b nflip)) }
    ensures asked_least { meter.old.asked ≤ meter.new.asked }
    ensures asked_most { meter.new.asked ≤ meter.old.asked + looks_at table.now b nflip }
{
    if patterns(b, nflip) <= table.len() as u128 {
        push_flipped(table, b, nflip, key, near, meter)?;
    } else {
        push_by_key(table, nflip, key, near, meter)?;
    }
    Ok(())
}

// Appends the lists of the flipped keys that have buckets.
fn push_flipped<L: Ledger>(
    table: &KeyTable,
    b: u32,
    nflip: u32,
    key: u64,
    near: &mut Vec<u32>,
    meter: &mut Meter<L>,
) -> Result<(), Want>
    requires b_least { 1 ≤ b }
    requires b_most { b ≤ 64 }
    requires flips_most { nflip ≤ b }
    ensures near { OnOk result (near.new.items
        ≡ near.old.items ++ flipped_lists table.now key (flips b nflip)) }
    ensures lent { meter.new.lent ≡ meter.old.lent }
    ensures asked { OnOk result (meter.new.asked
        ≡ raised meter.old.asked (length (flips b nflip))) }
    ensures asked_least { meter.old.asked ≤ meter.new.asked }
    ensures asked_most { meter.new.asked ≤ meter.old.asked + length (flips b nflip) }
{
    let mut walk = Flips::new(b, nflip);
    while let Some(pattern) = walk.next() {
        meter.raise_asked(1);
        if let Some(list) = table.list(key ^ pattern) {
            near.push(list)?;
        }
    }
    Ok(())
}

// Appends the lists of the buckets whose keys are near, each bucket looked at.
fn push_by_key<L: Ledger>(
    table: &KeyTable,
    nflip: u32,
    key: u64,
    near: &mut Vec<u32>,
    meter: &mut Meter<L>,
) -> Result<(), Want>
    ensures near { OnOk result (near.new.items
        ≡ near.old.items ++ lists_by_key table.now nflip key) }
    ensures lent { meter.new.lent ≡ meter.old.lent }
    ensures asked { OnOk result (meter.new.asked
        ≡ raised meter.old.asked (length table.now)) }
    ensures asked_least { meter.old.asked ≤ meter.new.asked }
    ensures asked_most { meter.new.asked ≤ meter.old.asked + length table.now }
{
    for i in 0..table.len() {
        meter.raise_asked(1);
        let (other, list) = table.bucket(i);
        if (key ^ other).count_ones() <= nflip {
            near.push(list)?;
        }
    }
    Ok(())
}
