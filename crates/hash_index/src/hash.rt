ghost use Rattle.std.specs.Prelude.{◌≡◌, ◌+◌, ◌*◌, ◌/◌, ◌<◌, ◌≤◌, ◌++◌, length, slice_index};
ghost use Rattle.std.specs.Prelude.{IfOk, OnOk, OnErr};
ghost use Rattle.bcodes.specs.Chunks.{chunks_of};
ghost use Rattle.bcodes.specs.Ranges.{load_limit, raised};
ghost use Rattle.bcodes.specs.Value.{Bare, Hash as HashForm, empty_hash, weight};
ghost use Rattle.bcodes.specs.Answers.{best, looked, paired, within};
ghost use Rattle.code_pool.specs.Lists.{IsRun};
ghost use Rattle.hash_index.specs.Keys.{HaveKey, bucket_at, hash_keys, looks};

use crate::room::{make_room_in_order, make_room_under};
use bcodes::{Addable, BinaryIndex, Codes, Dim, Hits, KeySettings, Ledger, Meter, Want, chunk};
use code_pool::{Pool, Run};
use key_buckets::{KeyTable, chunk_keys, make_room, near_buckets};
use list_scan::{range_lists, search_lists};
use row_lists::{put_all, put_on_one};
use std::alloc::Global;
use std::marker::Model;

/// An index of codes in buckets by their keys, Faiss's `IndexBinaryHash` (`IndexBinaryHash.h`).
///
/// The key of a code is the number of its first `b` bits. A query compares the codes of each bucket
/// whose key differs from its own in at most `nflip` bits, and no others.
///
/// It is seen as its rows, labels with codes, in the order in which they were added. The rows stand
/// in a pool over the ledger `L`, one list a bucket, and are read under the caller's meter alone.
/// The index never exceeds the load limit.
#[derive(Drop)]
pub struct Hash<L: Ledger> {
    alloc: Global,
    dim: Dim,
    b: u32,
    nflip: u32,
    // The list of each key, in order of first appearance.
    table: KeyTable,
    // The list of each row in order of addition, as labels on list 0.
    order: Pool<L>,
    buckets: Pool<L>,
}

impl<L: Ledger> Model for Hash<L> {
    ghost use Rattle.bcodes.specs.Value.{HashValue};
    ghost use Rattle.hash_index.specs.Inside.{rows_in_order, IsHash};

    ghost Value = { HashValue };

    ghost view = { λ h. record {
      dim = h.dim.bits;
      b = h.b;
      nflip = h.nflip;
      rows = rows_in_order h.order h.buckets;
    } };

    ghost invariant = { λ h. IsHash h.dim.bits h.b h.nflip h.table h.order h.buckets };
}

impl<L: Ledger> Hash<L> {
    /// An index of codes of `dim` bits by keys of `b` bits, without any code yet. `nflip` is 0.
    ///
    /// # Errors
    ///
    /// If memory runs out.
    pub fn new(alloc: Global, dim: Dim, b: u32) -> Result<Hash<L>, Want>
        requires b_least { 1 ≤ b }
        requires b_most { b ≤ 64 }
        requires b_within { b ≤ dim.bits }
        ensures { IfOk result (λ h. h ≡ empty_hash dim.bits b) }
    {
        let mut order = Pool::new(alloc, 0);
        order.open_list()?;
        Ok(Hash {
            alloc,
            dim,
            b,
            nflip: 0,
            table: KeyTable::new(alloc),
            order,
            buckets: Pool::new(alloc, dim.bytes()),
        })
    }

    /// The number of bits of a key.
    pub fn b(&self) -> u32
        ensures { result ≡ self.now.b }
    {
        self.b
    }

    /// In how many bits the key of a bucket may differ from the query's key.
    pub fn nflip(&self) -> u32
        ensures { result ≡ self.now.nflip }
    {
        self.nflip
    }

    /// Sets `nflip` and leaves the rows.
    pub fn set_nflip(&mut self, n: u32)
        requires { n ≤ self.old.b }
        ensures { self.new ≡ record self.old { nflip = n } }
    {
        self.nflip = n;
    }

    /// The number of buckets: of distinct keys of the rows.
    pub fn buckets(&self) -> usize
        ensures { result ≡ length (hash_keys self.now) }
    {
        self.table.len()
    }

    /// The key of bucket `i`, in order of first appearance.
    pub fn bucket_key(&self, i: usize) -> u64
        requires { i < length (hash_keys self.now) }
        ensures { result ≡ slice_index (hash_keys self.now) i }
    {
        self.table.bucket(i).0
    }

    /// The number of rows of bucket `i`, in order of first appearance.
    pub fn bucket_len(&self, i: usize) -> usize
        requires { i < length (hash_keys self.now) }
        ensures { result ≡ length (bucket_at self.now i) }
    {
        self.buckets.len(self.table.bucket(i).1)
    }

    /// Lends rows of bucket `i` from place `from` on, without copying: at least one, which need not
    /// be all that are left. They come in order of addition, and the meter's `lent` rises by their
    /// number.
    pub fn bucket_lend(&self, i: usize, from: usize, meter: &mut Meter<L>) -> Run<'_>
        requires exists { i < length (hash_keys self.now) }
        requires within { from < length (bucket_at self.now i) }
        ensures run { IsRun (bucket_at self.now i) from (self.now.dim / 8)
            result.labels.now result.codes.now }
        ensures lent { meter.new
            ≡ record meter.old { lent = raised meter.old.lent (length result.labels.now) } }
        ensures rises { meter.old.lent ≤ meter.new.lent }
    {
        self.buckets.lend(self.table.bucket(i).1, from, meter)
    }

    /// Appends rows whose codes all have this key, as `add_all` does but with one look for their
    /// bucket. The codes lie side by side.
    ///
    /// # Errors
    ///
    /// If memory runs out. The index is then as before.
    pub fn add_bucket(&mut self, key: u64, labels: &[i64], codes: &[u8]) -> Result<(), Want>
        requires whole { length codes.now ≡ length labels.now * (self.old.dim / 8) }
        requires keys { HaveKey self.old.b key
            (chunks_of (self.old.dim / 8) (length labels.now) codes.now) }
        requires load { weight self.old.dim 1 (length self.old.rows + length labels.now) 0
            ≤ load_limit }
        ensures ok { OnOk result (self.new ≡ record self.old {
          rows = self.old.rows
              ++ paired labels.now (chunks_of (self.old.dim / 8) (length labels.now) codes.now);
        }) }
        ensures err { OnErr result (self.new ≡ self.old) }
    {
        if labels.is_empty() {
            return Ok(());
        }
        let n = labels.len();
        let keys = self.table.len();
        make_room_in_order(&mut self.order, n)?;
        match make_room_under(&mut self.table, &mut self.buckets, key, n) {
            Ok(list) => {
                let size = self.dim.bytes();
                put_on_one(
                    &mut self.order,
                    &mut self.buckets,
                    list,
                    labels,
                    codes,
                    size,
                );
                Ok(())
            }
            Err(error) => {
                self.table.truncate(keys);
                Err(error)
            }
        }
    }

    // Appends rows. All growths come first, so that the pushes cannot fail.
    fn append(&mut self, labels: &[i64], codes: &Codes) -> Result<(), Want>
        requires same_count { length labels.now ≡ length codes.now.codes }
        requires same_dim { codes.now.dim ≡ self.old.dim }
        requires load { weight self.old.dim 1 (length self.old.rows + length codes.now.codes) 0
            ≤ load_limit }
        ensures ok { OnOk result (self.new ≡ record self.old {
          rows = self.old.rows ++ paired labels.now codes.now.codes;
        }) }
        ensures err { OnErr result (self.new ≡ self.old) }
    {
        let held = self.table.len();
        let keys = chunk_keys(self.alloc, codes, 0, self.b)?;
        self.order.reserve(0, codes.len())?;
        match make_room(self.alloc, &mut self.table, &mut self.buckets, &keys, 0) {
            Ok(numbers) => {
                put_all(&mut self.order, &mut self.buckets, &numbers, labels, codes);
                Ok(())
            }
            Err(error) => {
                self.table.truncate(held);
                Err(error)
            }
        }
    }
}

/// A Hash compares no centroids, so `fixed` is 0. A code that differs from the query in at most
/// `nflip` bits is in a probed bucket, so the bound is `nflip + 1`. A Hash is trained from the
/// start.
impl<L: Ledger> BinaryIndex for Hash<L> {
    type Led = L;

    ghost value = { λ h. Bare (HashForm h) };

    fn dim(&self) -> Dim {
        // For the proof that the value is legal: the pool tells that the rows' codes are bytes.
        let _lists = self.buckets.lists();
        self.dim
    }

    fn count(&self) -> u64 {
        self.order.len(0) as u64
    }

    fn trained(&self) -> bool {
        true
    }

    fn fixed(&self) -> u64 {
        0
    }

    fn bound(&self) -> u64 {
        u64::from(self.nflip) + 1
    }

    /// The `k` nearest of the codes in probed buckets, by distance and then by label. Each key or
    /// bucket that is looked at raises the meter's `asked` by 1: each flipped key, or each bucket
    /// where there are fewer buckets.
    fn search(&self, alloc: Global, q: &[u8], k: u32, meter: &mut Meter<L>) -> Result<Hits, Want>
        requires size { length q.now ≡ self.now.dim / 8 }
        requires some { 1 ≤ k }
        ensures ok { IfOk result (λ hits. hits.items ≡ best (Bare (HashForm self.now)) q.now k) }
        ensures lent { OnOk result (meter.new.lent
            ≡ raised meter.old.lent (looked (Bare (HashForm self.now)) q.now)) }
        ensures lent_least { meter.old.lent ≤ meter.new.lent }
        ensures lent_most { meter.new.lent
            ≤ meter.old.lent + looked (Bare (HashForm self.now)) q.now }
        ensures asked { OnOk result (meter.new.asked ≡ raised meter.old.asked (looks self.now)) }
        ensures asked_least { meter.old.asked ≤ meter.new.asked }
        ensures asked_most { meter.new.asked ≤ meter.old.asked + looks self.now }
    {
        let key = chunk(q, 0, self.b);
        let near = near_buckets(alloc, &self.table, self.b, self.nflip, key, meter)?;
        let hits = search_lists(alloc, &self.buckets, &near, self.dim, q, k, meter)?;
        Ok(hits)
    }

    /// The codes in probed buckets whose distance is strictly below `radius`, by distance and then
    /// by label. The meter's `asked` rises as in `search`.
    fn range(
        &self,
        alloc: Global,
        q: &[u8],
        radius: u32,
        meter: &mut Meter<L>,
    ) -> Result<Hits, Want>
        requires size { length q.now ≡ self.now.dim / 8 }
        ensures ok { IfOk result (λ hits. hits.items
            ≡ within (Bare (HashForm self.now)) q.now radius) }
        ensures lent { OnOk result (meter.new.lent
            ≡ raised meter.old.lent (looked (Bare (HashForm self.now)) q.now)) }
        ensures lent_least { meter.old.lent ≤ meter.new.lent }
        ensures lent_most { meter.new.lent
            ≤ meter.old.lent + looked (Bare (HashForm self.now)) q.now }
        ensures asked { OnOk result (meter.new.asked ≡ raised meter.old.asked (looks self.now)) }
        ensures asked_least { meter.old.asked ≤ meter.new.asked }
        ensures asked_most { meter.new.asked ≤ meter.old.asked + looks self.now }
    {
        let key = chunk(q, 0, self.b);
        let near = near_buckets(alloc, &self.table, self.b, self.nflip, key, meter)?;
        let hits = range_lists(alloc, &self.buckets, &near, self.dim, q, radius, meter)?;
        Ok(hits)
    }
}

/// The caller chooses the labels. All growths of an add come before its first push, and an add that
/// runs out of memory takes its new keys out again.
impl<L: Ledger> Addable for Hash<L> {
    fn takes_ids(&self) -> bool {
        true
    }

    fn add_all(
        &mut self,
        labels: &[i64],
        codes: &Codes,
        _meter: &mut Meter<L>,
    ) -> Result<(), Want> {
        self.append(labels, codes)?;
        Ok(())
    }
}

/// The setting of a plain Hash.
impl<L: Ledger> KeySettings for Hash<L> {
    fn set_nflip(&mut self, n: u32) {
        Hash::set_nflip(self, n);
    }
}
