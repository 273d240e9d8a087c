ghost use Rattle.std.specs.Prelude.{◌≡◌, ℕ, ◌/◌, ◌<◌, ◌≤◌, length, false, IfOk, OnOk, OnErr};
ghost use Rattle.bcodes.specs.Ranges.{raised};
ghost use Rattle.bcodes.specs.Value.{Bare, Multi as MultiForm};
ghost use Rattle.bcodes.specs.Answers.{is_probed_multi, looked, scan_best};
ghost use Rattle.multi_hash.specs.Seen.{row_at};
ghost use Rattle.growing_probe.specs.Grown.{flipped, grown};
ghost use Rattle.growing_probe.specs.Looks.{looks_up_to};
ghost use Rattle.growing_probe.specs.Met.{is_seen, IsFound};

use crate::found::Found;
use crate::round::probe_round;
use bcodes::{BinaryIndex, Hits, Ledger, Meter, Want};
use kernel_table::Prepared;
use multi_hash::Multi;
use std::alloc::Global;

/// The `k` nearest of all codes of a MultiHash, or all codes where there are fewer, by distance and
/// then by position: what a full scan answers.
///
/// Buckets are gone through in rounds: first those with the query's own keys, then those whose keys
/// differ from them in one bit, in two and so on. After the round of `f` bits each code at a
/// distance below `nhash * (f + 1)` was met. So the rounds end once `k` hits lie below that, or
/// once all codes were read. The `nflip` of the index plays no part.
///
/// The meter's `lent` rises by the number of codes read, each once, and `asked` by 1 for each key
/// or bucket that is looked at: in each round and under each map the patterns of so many flips, or
/// the buckets where there are fewer.
///
/// Faiss has no such search: its `IndexBinaryMultiHash` answers from the buckets within the
/// `nflip` that is set.
///
/// # Errors
///
/// If memory runs out, before any code is read.
pub fn nearest<L: Ledger>(
    alloc: Global,
    index: &Multi<L>,
    q: &[u8],
    k: u32,
    meter: &mut Meter<L>,
) -> Result<Hits, Want>
    requires size { length q.now ≡ index.now.dim / 8 }
    requires some { 1 ≤ k }
    ensures ok { IfOk result (λ hits. hits.items
        ≡ scan_best (Bare (MultiForm index.now)) q.now k) }
    ensures lent { OnOk result (meter.new.lent ≡ raised meter.old.lent
        (looked (flipped index.now (grown index.now q.now k)) q.now)) }
    ensures asked { OnOk result (meter.new.asked ≡ raised meter.old.asked
        (looks_up_to index.now (grown index.now q.now k))) }
    ensures err { OnErr result (meter.new ≡ meter.old) }
{
    let dim = index.dim();
    let mut found = Found::new(alloc, dim, k, index.count())?;
    let kernel = Prepared::new(dim, q);
    probe_rounds(index, q, &kernel, &mut found, meter);
    Ok(found.into_hits())
}

// Meets the positions that a search probes with so many flips that it is exact.
fn probe_rounds<L: Ledger>(
    index: &Multi<L>,
    q: &[u8],
    kernel: &Prepared<'_>,
    found: &mut Found,
    meter: &mut Meter<L>,
)
    requires query { q.now ≡ kernel.now }
    requires some { 1 ≤ found.old.best.k }
    requires found { IsFound index.now kernel.now found.old.best.k found.old }
    requires none { (p : ℕ) → is_seen found.old.seen p ≡ false }
    ensures found { IsFound index.now kernel.now found.old.best.k found.new }
    ensures seen { (p : ℕ) → p < length index.now.codes → is_seen found.new.seen p
        ≡ is_probed_multi (record index.now { nflip = grown index.now q.now found.old.best.k })
        q.now (row_at index.now.codes p) }
    ensures lent { (n : ℕ) → meter.old.lent ≡ raised n found.old.met
        → meter.new.lent ≡ raised n found.new.met }
    ensures asked { meter.new.asked ≡ raised meter.old.asked
        (looks_up_to index.now (grown index.now q.now found.old.best.k)) }
{
    for flips in 0..=index.b() {
        probe_round(index, q, flips, kernel, found, meter);
        let bound = u64::from(index.nhash()) * (u64::from(flips) + 1);
        if found.is_certain(index.count(), bound) {
            return;
        }
    }
}
