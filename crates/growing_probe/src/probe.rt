ghost use Rattle.std.specs.Prelude.{◌≡◌, ℕ, ◌+◌, ◌<◌, length, nat_abs, nat_eq, ◌||◌, true};
ghost use Rattle.std.specs.Prelude.{slice_index, slice_set};
ghost use Rattle.std.specs.List.{All, list_any};
ghost use Rattle.bcodes.specs.Ranges.{raised};
ghost use Rattle.bcodes.specs.Value.{IsPlace};
ghost use Rattle.multi_hash.specs.Maps.{map_key, map_keys};
ghost use Rattle.growing_probe.specs.Met.{is_seen, IsFound};

use crate::found::Found;
use bcodes::{BinaryIndex, Hit, Ledger, Meter};
use kernel_table::{Kernel, Prepared};
use multi_hash::Multi;

/// Meets the positions of a bucket. Codes at positions that were not met before are read, and the
/// meter's `lent` rises by their number.
pub fn probe_bucket<L: Ledger>(
    index: &Multi<L>,
    map: u32,
    bucket: usize,
    kernel: &Prepared<'_>,
    found: &mut Found,
    meter: &mut Meter<L>,
)
    requires exists { map < index.now.nhash }
    requires within { bucket < length (map_keys index.now map) }
    requires found { IsFound index.now kernel.now found.old.best.k found.old }
    ensures found { IsFound index.now kernel.now found.old.best.k found.new }
    ensures seen { (p : ℕ) → p < length index.now.codes → is_seen found.new.seen p
        ≡ (is_seen found.old.seen p
        || nat_eq (map_key index.now map p) (slice_index (map_keys index.now map) bucket)) }
    ensures lent { (n : ℕ) → meter.old.lent ≡ raised n found.old.met
        → meter.new.lent ≡ raised n found.new.met }
    ensures asked { meter.new.asked ≡ meter.old.asked }
{
    let count = index.bucket_len(map, bucket);
    let mut at = 0;
    while at < count {
        let run = index.positions(map, bucket, at);
        at += run.len();
        probe_run(index, run, kernel, found, meter);
    }
}

// Meets positions, given as labels.
fn probe_run<L: Ledger>(
    index: &Multi<L>,
    labels: &[i64],
    kernel: &Prepared<'_>,
    found: &mut Found,
    meter: &mut Meter<L>,
)
    requires places { All (IsPlace (length index.now.codes)) labels.now }
    requires found { IsFound index.now kernel.now found.old.best.k found.old }
    ensures found { IsFound index.now kernel.now found.old.best.k found.new }
    ensures seen { (p : ℕ) → is_seen found.new.seen p
        ≡ (is_seen found.old.seen p || list_any (λ label. nat_eq p (nat_abs label)) labels.now) }
    ensures lent { (n : ℕ) → meter.old.lent ≡ raised n found.old.met
        → meter.new.lent ≡ raised n found.new.met }
    ensures asked { meter.new.asked ≡ meter.old.asked }
{
    for label in labels {
        probe_one(index, *label, kernel, found, meter);
    }
}

// Meets a position, given as a label.
fn probe_one<L: Ledger>(
    index: &Multi<L>,
    label: i64,
    kernel: &Prepared<'_>,
    found: &mut Found,
    meter: &mut Meter<L>,
)
    requires place { IsPlace (length index.now.codes) label }
    requires found { IsFound index.now kernel.now found.old.best.k found.old }
    ensures found { IsFound index.now kernel.now found.old.best.k found.new }
    ensures seen { found.new.seen ≡ slice_set found.old.seen (nat_abs label) true }
    ensures lent { (n : ℕ) → meter.old.lent ≡ raised n found.old.met
        → meter.new.lent ≡ raised n found.new.met }
    ensures asked { meter.new.asked ≡ meter.old.asked }
{
    if found.seen.insert(label as usize) {
        let distance = kernel.distance(index.code(label as u64, meter));
        found.best.offer(Hit { distance, label });
        found.met += 1;
    }
}
