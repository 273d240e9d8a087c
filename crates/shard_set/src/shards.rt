ghost use Rattle.std.specs.Prelude.{◌≡◌, ◌+◌, ◌/◌, ◌^◌, ◌<◌, ◌≤◌, [], ◌∷◌, ◌++◌, false, length};
ghost use Rattle.std.specs.Prelude.{nat_eq, slice_index_or, IfOk, IsTrue, OnOk, OnErr};
ghost use Rattle.std.specs.List.{All};
ghost use Rattle.bcodes.specs.Ranges.{raised};
ghost use Rattle.bcodes.specs.Value.{IndexValue, IsPlace, count_of, dim_of, is_trained, rows_of};
ghost use Rattle.bcodes.specs.Settings.{needs_ids};
ghost use Rattle.shard_set.specs.Joined.{joined_best, joined_count, joined_looked, joined_within};
ghost use Rattle.shard_set.specs.Shards.{IsShard};

use crate::queries::{range_all, search_all};
use bcodes::{BinaryIndex, Dim, Hits, Meter, Want};
use std::alloc::Global;
use std::marker::Model;

/// Several indexes that are searched as one, as Faiss's `IndexBinaryShards` with successive ids
/// (`IndexShards.h`).
///
/// It is seen as the list of the shards' values, all of `dim` bits, and as `spare`, the number of
/// shards that can be pushed without an allocation. In an answer the labels of a shard go up by the
/// number of codes in the shards before it.
#[derive(Drop)]
pub struct Shards<I: BinaryIndex> {
    dim: Dim,
    count: u64,
    list: Vec<I>,
}

impl<I: BinaryIndex> Model for Shards<I> {
    ghost use Rattle.std.specs.Prelude.{◌-◌, map, vec_capacity, vec_len};
    ghost use Rattle.shard_set.specs.Shards.{AreShards, ShardList};

    ghost Value = { ShardList };

    ghost view = { λ s. record {
      dim = s.dim.bits;
      values = map I.value s.list.items;
      spare = vec_capacity s.list - vec_len s.list;
    } };

    ghost invariant = { λ s. AreShards s.dim.bits s.count (map I.value s.list.items) };
}

impl<I: BinaryIndex> Shards<I> {
    /// No shards yet, for codes of `dim` bits. Takes no memory.
    pub fn new(alloc: Global, dim: Dim) -> Shards<I>
        ensures { result ≡ record { dim = dim.bits; values = []; spare = 0 } }
    {
        Shards {
            dim,
            count: 0,
            list: Vec::new(alloc),
        }
    }

    /// The bits of a code in each shard.
    pub fn dim(&self) -> Dim
        ensures value { result.bits ≡ self.now.dim }
        ensures shards { All IsShard self.now.values }
        ensures dims { All (λ v. dim_of v ≡ self.now.dim) self.now.values }
    {
        let _ = &self.list;
        self.dim
    }

    /// The number of shards.
    pub fn len(&self) -> usize
        ensures { result ≡ length self.now.values }
    {
        self.list.len()
    }

    /// Whether there are no shards.
    pub fn is_empty(&self) -> bool
        ensures { result ≡ nat_eq (length self.now.values) 0 }
    {
        self.list.is_empty()
    }

    /// The number of codes in all shards, fewer than 2^31.
    pub fn count(&self) -> u64
        ensures value { result ≡ joined_count self.now.values }
        ensures few { result < 2 ^ 31 }
    {
        self.count
    }

    /// Shard `i`, counted from 0.
    pub fn get(&self, i: usize) -> &I
        requires { i < length self.now.values }
        ensures { (v : IndexValue) → I.value result.now ≡ slice_index_or self.now.values i v }
    {
        &self.list[i]
    }

    /// Makes room for at least `n` more shards.
    ///
    /// # Errors
    ///
    /// If memory runs out. The shards and the room are then as before.
    pub fn reserve(&mut self, n: usize) -> Result<(), Want>
        ensures ok { OnOk result (n ≤ self.new.spare) }
        ensures dim { self.new.dim ≡ self.old.dim }
        ensures values { self.new.values ≡ self.old.values }
        ensures err { OnErr result (self.new ≡ self.old) }
    {
        self.list.reserve(n)
    }

    /// Appends a shard, in the room that was reserved, so no memory is taken.
    ///
    /// The shard must be trained and without outer ids, with labels from 0 to its count less 1.
    pub fn push(&mut self, index: I)
        requires room { 0 < self.old.spare }
        requires same_dim { dim_of (I.value index) ≡ self.old.dim }
        requires is_trained { IsTrue (is_trained (I.value index)) }
        requires bare { needs_ids (I.value index) ≡ false }
        requires places { All (λ row. IsPlace (count_of (I.value index)) row.label)
            (rows_of (I.value index)) }
        requires few { joined_count self.old.values + count_of (I.value index) < 2 ^ 31 }
        ensures dim { self.new.dim ≡ self.old.dim }
        ensures values { self.new.values ≡ self.old.values ++ I.value index ∷ [] }
        ensures spare { self.old.spare ≤ self.new.spare + 1 }
    {
        // For the proof that each shard's value is legal.
        let _dim = index.dim();
        self.count += index.count();
        self.list.push_reserved(index);
    }

    /// The `k` nearest of the codes that the shards probe, or all of them where there are fewer, by
    /// distance and then by label. The ordered answers of the shards are merged one after the
    /// other, so no more than three lists of `k` hits are held at a time.
    ///
    /// The meter's `lent` rises by the number of codes that the shards read.
    ///
    /// # Errors
    ///
    /// If memory runs out. The meter's `lent` has then risen by no more than on success.
    pub fn search(
        &self,
        alloc: Global,
        q: &[u8],
        k: u32,
        meter: &mut Meter<I::Led>,
    ) -> Result<Hits, Want>
        requires code_size { length q.now ≡ self.now.dim / 8 }
        requires k_positive { 1 ≤ k }
        ensures ok { IfOk result (λ hits. hits.items ≡ joined_best self.now.values q.now k) }
        ensures lent { OnOk result (meter.new.lent
            ≡ raised meter.old.lent (joined_looked self.now.values q.now)) }
        ensures lent_least { meter.old.lent ≤ meter.new.lent }
        ensures lent_most { meter.new.lent
            ≤ meter.old.lent + joined_looked self.now.values q.now }
    {
        let hits = search_all(alloc, &self.list, q, k, meter)?;
        Ok(hits)
    }

    /// The codes that the shards probe whose distance is strictly below `radius`, by distance and
    /// then by label.
    ///
    /// The meter's `lent` rises by the number of codes that the shards read.
    ///
    /// # Errors
    ///
    /// If memory runs out. The meter's `lent` has then risen by no more than on success.
    pub fn range(
        &self,
        alloc: Global,
        q: &[u8],
        radius: u32,
        meter: &mut Meter<I::Led>,
    ) -> Result<Hits, Want>
        requires code_size { length q.now ≡ self.now.dim / 8 }
        ensures ok { IfOk result
            (λ hits. hits.items ≡ joined_within self.now.values q.now radius) }
        ensures lent { OnOk result (meter.new.lent
            ≡ raised meter.old.lent (joined_looked self.now.values q.now)) }
        ensures lent_least { meter.old.lent ≤ meter.new.lent }
        ensures lent_most { meter.new.lent
            ≤ meter.old.lent + joined_looked self.now.values q.now }
    {
        let hits = range_all(alloc, &self.list, q, radius, meter)?;
        Ok(hits)
    }
}
