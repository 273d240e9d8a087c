ghost use Rattle.std.specs.Prelude.{◌≡◌, ℕ, ◌^◌, ◌<◌, ◌≤◌, length, ◌||◌};
ghost use Rattle.bcodes.specs.Ranges.{raised};
ghost use Rattle.flip_walk.specs.Patterns.{with_ones};
ghost use Rattle.multi_hash.specs.Maps.{map_key, map_keys};
ghost use Rattle.growing_probe.specs.Looks.{looks_of};
ghost use Rattle.growing_probe.specs.Met.{is_at, is_seen, some_chunk_at, IsFound};

use crate::count::patterns_of;
use crate::found::Found;
use crate::probe::probe_bucket;
use bcodes::{Ledger, Meter, chunk};
use flip_walk::Flips;
use kernel_table::Prepared;
use multi_hash::Multi;

/// Meets the positions in the buckets whose keys differ from the query's in exactly `flips` bits,
/// map by map. Each key or bucket that is looked at raises the meter's `asked` by 1.
pub fn probe_round<L: Ledger>(
    index: &Multi<L>,
    q: &[u8],
    flips: u32,
    kernel: &Prepared<'_>,
    found: &mut Found,
    meter: &mut Meter<L>,
)
    requires query { q.now ≡ kernel.now }
    requires flips_most { flips ≤ index.now.b }
    requires found { IsFound index.now kernel.now found.old.best.k found.old }
    ensures found { IsFound index.now kernel.now found.old.best.k found.new }
    ensures seen { (p : ℕ) → p < length index.now.codes → is_seen found.new.seen p
        ≡ (is_seen found.old.seen p || some_chunk_at index.now q.now flips index.now.nhash p) }
    ensures lent { (n : ℕ) → meter.old.lent ≡ raised n found.old.met
        → meter.new.lent ≡ raised n found.new.met }
    ensures asked { meter.new.asked ≡ raised meter.old.asked (looks_of index.now flips) }
{
    let b = index.b();
    let patterns = patterns_of(b, flips);
    for map in 0..index.nhash() {
        let key = chunk(q, map, b);
        if patterns <= index.buckets(map) as u128 {
            probe_flipped(index, map, key, flips, kernel, found, meter);
        } else {
            probe_by_key(index, map, key, flips, kernel, found, meter);
        }
    }
}

// Looks up each key that differs from `key` in exactly `flips` bits.
fn probe_flipped<L: Ledger>(
    index: &Multi<L>,
    map: u32,
    key: u64,
    flips: u32,
    kernel: &Prepared<'_>,
    found: &mut Found,
    meter: &mut Meter<L>,
)
    requires exists { map < index.now.nhash }
    requires key { key < 2 ^ index.now.b }
    requires flips_most { flips ≤ index.now.b }
    requires found { IsFound index.now kernel.now found.old.best.k found.old }
    ensures found { IsFound index.now kernel.now found.old.best.k found.new }
    ensures seen { (p : ℕ) → p < length index.now.codes → is_seen found.new.seen p
        ≡ (is_seen found.old.seen p || is_at key flips (map_key index.now map p)) }
    ensures lent { (n : ℕ) → meter.old.lent ≡ raised n found.old.met
        → meter.new.lent ≡ raised n found.new.met }
    ensures asked { meter.new.asked
        ≡ raised meter.old.asked (length (with_ones index.now.b flips)) }
{
    let mut walk = Flips::exactly(index.b(), flips);
    while let Some(pattern) = walk.next() {
        if let Some(bucket) = index.find(map, key ^ pattern, meter) {
            probe_bucket(index, map, bucket, kernel, found, meter);
        }
    }
}

// Looks at each bucket, and whether its key differs from `key` in exactly `flips` bits.
fn probe_by_key<L: Ledger>(
    index: &Multi<L>,
    map: u32,
    key: u64,
    flips: u32,
    kernel: &Prepared<'_>,
    found: &mut Found,
    meter: &mut Meter<L>,
)
    requires exists { map < index.now.nhash }
    requires found { IsFound index.now kernel.now found.old.best.k found.old }
    ensures found { IsFound index.now kernel.now found.old.best.k found.new }
    ensures seen { (p : ℕ) → p < length index.now.codes → is_seen found.new.seen p
        ≡ (is_seen found.old.seen p || is_at key flips (map_key index.now map p)) }
    ensures lent { (n : ℕ) → meter.old.lent ≡ raised n found.old.met
        → meter.new.lent ≡ raised n found.new.met }
    ensures asked { meter.new.asked
        ≡ raised meter.old.asked (length (map_keys index.now map)) }
{
    for i in 0..index.buckets(map) {
        meter.raise_asked(1);
        if (key ^ index.bucket_key(map, i)).count_ones() == flips {
            probe_bucket(index, map, i, kernel, found, meter);
        }
    }
}
