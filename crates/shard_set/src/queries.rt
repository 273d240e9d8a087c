ghost use Rattle.std.specs.Prelude.{◌≡◌, ◌+◌, ◌^◌, ◌<◌, ◌≤◌, length, map, IfOk, OnOk};
ghost use Rattle.std.specs.List.{All};
ghost use Rattle.bcodes.specs.Ranges.{raised};
ghost use Rattle.bcodes.specs.Value.{code_size};
ghost use Rattle.shard_set.specs.Joined.{joined_best, joined_count, joined_looked, joined_within};
ghost use Rattle.shard_set.specs.Shards.{IsShard};

use crate::merging::with_answer;
use bcodes::{BinaryIndex, Hits, Meter, Want};
use std::alloc::Global;

/// The first `k` hits of all shards.
pub fn search_all<I: BinaryIndex>(
    alloc: Global,
    shards: &[I],
    q: &[u8],
    k: u32,
    meter: &mut Meter<I::Led>,
) -> Result<Hits, Want>
    requires shards { All IsShard (map I.value shards.now) }
    requires code_size { All (λ v. length q.now ≡ code_size v) (map I.value shards.now) }
    requires few { joined_count (map I.value shards.now) < 2 ^ 31 }
    requires some { 1 ≤ k }
    ensures ok { IfOk result
        (λ hits. hits.items ≡ joined_best (map I.value shards.now) q.now k) }
    ensures lent { OnOk result (meter.new.lent
        ≡ raised meter.old.lent (joined_looked (map I.value shards.now) q.now)) }
    ensures lent_least { meter.old.lent ≤ meter.new.lent }
    ensures lent_most { meter.new.lent
        ≤ meter.old.lent + joined_looked (map I.value shards.now) q.now }
{
    let mut best = Hits::new(alloc);
    let mut before = 0;
    for shard in shards {
        let found = shard.search(alloc, q, k, meter)?;
        best = with_answer(alloc, best, found, before, k as usize)?;
        before += shard.count();
    }
    Ok(best)
}

/// The hits of all shards whose distance is strictly below `radius`.
pub fn range_all<I: BinaryIndex>(
    alloc: Global,
    shards: &[I],
    q: &[u8],
    radius: u32,
    meter: &mut Meter<I::Led>,
) -> Result<Hits, Want>
    requires shards { All IsShard (map I.value shards.now) }
    requires code_size { All (λ v. length q.now ≡ code_size v) (map I.value shards.now) }
    requires few { joined_count (map I.value shards.now) < 2 ^ 31 }
    ensures ok { IfOk result
        (λ hits. hits.items ≡ joined_within (map I.value shards.now) q.now radius) }
    ensures lent { OnOk result (meter.new.lent
        ≡ raised meter.old.lent (joined_looked (map I.value shards.now) q.now)) }
    ensures lent_least { meter.old.lent ≤ meter.new.lent }
    ensures lent_most { meter.new.lent
        ≤ meter.old.lent + joined_looked (map I.value shards.now) q.now }
{
    let mut all = Hits::new(alloc);
    let mut before = 0;
    for shard in shards {
        let found = shard.range(alloc, q, radius, meter)?;
        all = with_answer(alloc, all, found, before, usize::MAX)?;
        before += shard.count();
    }
    Ok(all)
}
