mod building;

ghost use Rattle.std.specs.Prelude.{◌≡◌, ◌+◌, ◌*◌, ◌/◌, ◌<◌, ◌≤◌, [], ◌++◌, length, nat_eq, position};
ghost use Rattle.std.specs.Prelude.{slice_index, slice_index_or, IfOk, OnOk, OnErr};
ghost use Rattle.bcodes.specs.Ranges.{load_limit, raised};
ghost use Rattle.bcodes.specs.Value.{Bare, Multi as MultiForm, empty_multi, weight};
ghost use Rattle.bcodes.specs.Answers.{best, looked, within};
ghost use Rattle.code_pool.specs.Lists.{IsPart};
ghost use Rattle.multi_hash.specs.Maps.{labels_at, looks, map_keys, positions_at};
ghost use Rattle.multi_hash.specs.Wide.{wide};

use crate::Wide;
use crate::compare::{offer_met, offer_met_below};
use crate::meet::meet;
use crate::place::place_all;
use crate::put::put_all;
use crate::room::store;
use crate::tables::{empty_tables, first_of_one_key, keep_first, key_counts, table};
use bcodes::{Addable, BinaryIndex, Codes, Dim, Hits, KeySettings, Ledger, Meter, Want};
pub use building::Building;
use code_pool::Pool;
use flat_index::Flat;
use hit_lists::{BestK, RangeHits};
use kernel_table::Prepared;
use key_buckets::KeyTable;
use std::alloc::Global;
use std::marker::Model;

/// An index of codes in buckets by several keys each, Faiss's `IndexBinaryMultiHash`
/// (`IndexBinaryHash.h`).
///
/// It has `nhash` maps. The key of a code under map `i` is the number of its bits `i * b` to
/// `i * b + b - 1`. A query compares the codes of each bucket of a map whose key differs from its
/// own in at most `nflip` bits. A code in several such buckets is read and compared once.
///
/// It is seen as a list of codes of `dim` bits, under their positions 0, 1, 2 and so on. The codes
/// stand in a `Flat` over the ledger `L`, and are read under the caller's meter alone. Buckets hold
/// positions. The index never exceeds the load limit.
#[derive(Drop)]
pub struct Multi<L: Ledger> {
    alloc: Global,
    storage: Flat<L>,
    b: u32,
    nflip: u32,
    maps: Vec<KeyTable>,
    // The number of keys of all maps. Their lists are the first of so many.
    keys: u32,
    // The positions of each bucket, as labels on its list.
    buckets: Pool<L>,
}

impl<L: Ledger> Model for Multi<L> {
    ghost use Rattle.std.specs.Prelude.{length};
    ghost use Rattle.bcodes.specs.Value.{MultiValue};
    ghost use Rattle.multi_hash.specs.Inside.{IsMulti};

    ghost Value = { MultiValue };

    ghost view = { λ m. record {
      dim = m.storage.dim;
      nhash = length m.maps.items;
      b = m.b;
      nflip = m.nflip;
      codes = m.storage.codes;
    } };

    ghost invariant = { λ m.
        IsMulti m.storage.dim m.b m.nflip m.keys m.storage.codes m.maps.items m.buckets };
}

impl<L: Ledger> Multi<L> {
    /// An index of codes of `dim` bits by `nhash` keys of `b` bits, without any code yet. `nflip`
    /// is 0.
    ///
    /// # Errors
    ///
    /// If memory runs out.
    pub fn new(alloc: Global, dim: Dim, nhash: u32, b: u32) -> Result<Multi<L>, Want>
        requires nhash_least { 1 ≤ nhash }
        requires nhash_most { nhash ≤ 1024 }
        requires b_least { 1 ≤ b }
        requires b_most { b ≤ 64 }
        requires within { nhash * b ≤ dim.bits }
        ensures { IfOk result (λ m. m ≡ empty_multi dim.bits nhash b) }
    {
        let storage = Flat::new(alloc, dim)?;
        let maps = empty_tables(alloc, nhash)?;
        Ok(Multi {
            alloc,
            storage,
            b,
            nflip: 0,
            maps,
            keys: 0,
            buckets: Pool::new(alloc, 0),
        })
    }

    /// An index of the codes of a Flat by `nhash` keys of `b` bits, with `nflip` 0. Nothing is
    /// promised of how far the meter rises.
    ///
    /// # Errors
    ///
    /// If memory runs out. The Flat is then gone.
    pub fn over(
        alloc: Global,
        flat: Flat<L>,
        nhash: u32,
        b: u32,
        meter: &mut Meter<L>,
    ) -> Result<Multi<L>, Want>
        requires nhash_least { 1 ≤ nhash }
        requires nhash_most { nhash ≤ 1024 }
        requires b_least { 1 ≤ b }
        requires b_most { b ≤ 64 }
        requires within { nhash * b ≤ flat.dim }
        requires load { weight flat.dim nhash (length flat.codes) 0 ≤ load_limit }
        ensures { IfOk result (λ m. m ≡ record {
          dim = flat.dim;
          nhash = nhash;
          b = b;
          nflip = 0;
          codes = flat.codes;
        }) }
    {
        let mut maps = empty_tables(alloc, nhash)?;
        let mut buckets = Pool::new(alloc, 0);
        let keys = place_all(alloc, &mut maps, &mut buckets, &flat, b, meter)?;
        Ok(Multi {
            alloc,
            storage: flat,
            b,
            nflip: 0,
            maps,
            keys,
            buckets,
        })
    }

    /// The number of maps.
    pub fn nhash(&self) -> u32
        ensures { result ≡ self.now.nhash }
    {
        self.maps.len() as u32
    }

    /// The number of bits of a key.
    pub fn b(&self) -> u32
        ensures { result ≡ self.now.b }
    {
        self.b
    }

    /// In how many bits the key of a bucket may differ from the query's key.
    pub fn nflip(&self) -> u32
        ensures { result ≡ self.now.nflip }
    {
        self.nflip
    }

    /// Sets `nflip` and leaves the codes.
    pub fn set_nflip(&mut self, n: u32)
        requires { n ≤ self.old.b }
        ensures { self.new ≡ record self.old { nflip = n } }
    {
        self.nflip = n;
    }

    /// The bytes of the code at position `p`, which is its inner label. The meter's `lent` rises by
    /// 1.
    pub fn code(&self, p: u64, meter: &mut Meter<L>) -> &[u8]
        requires { p < length self.now.codes }
        ensures code { result.now ≡ slice_index_or self.now.codes p [] }
        ensures lent { meter.new ≡ record meter.old { lent = raised meter.old.lent 1 } }
    {
        self.storage.code(p, meter)
    }

    /// The Flat in which the codes stand, each at its position.
    pub fn storage(&self) -> &Flat<L>
        ensures { result.now ≡ record { dim = self.now.dim; codes = self.now.codes } }
    {
        &self.storage
    }

    /// The number of buckets of a map: of distinct keys of the codes.
    pub fn buckets(&self, map: u32) -> usize
        requires { map < self.now.nhash }
        ensures { result ≡ length (map_keys self.now map) }
    {
        table(&self.maps, map as usize).len()
    }

    /// The key of bucket `i` of a map, in order of first appearance.
    pub fn bucket_key(&self, map: u32, i: usize) -> u64
        requires exists { map < self.now.nhash }
        requires within { i < length (map_keys self.now map) }
        ensures { result ≡ slice_index (map_keys self.now map) i }
    {
        table(&self.maps, map as usize).bucket(i).0
    }

    /// The number of positions in bucket `i` of a map, in order of first appearance.
    pub fn bucket_len(&self, map: u32, i: usize) -> usize
        requires exists { map < self.now.nhash }
        requires within { i < length (map_keys self.now map) }
        ensures { result ≡ length (positions_at self.now map i) }
    {
        self.buckets
            .len(table(&self.maps, map as usize).bucket(i).1)
    }

    /// Positions in bucket `i` of a map from place `from` on, ascending: at least one, which need
    /// not be all that are left. No code is read, so there is no meter.
    pub fn positions(&self, map: u32, i: usize, from: usize) -> &[i64]
        requires exists { map < self.now.nhash }
        requires bucket { i < length (map_keys self.now map) }
        requires within { from < length (positions_at self.now map i) }
        ensures { IsPart (labels_at self.now map i) from result.now }
    {
        self.buckets
            .labels(table(&self.maps, map as usize).bucket(i).1, from)
    }

    /// The number of the bucket of a map with this key, in order of first appearance, or `None`
    /// where there is no such bucket. The meter's `asked` rises by 1.
    pub fn find(&self, map: u32, key: u64, meter: &mut Meter<L>) -> Option<usize>
        requires { map < self.now.nhash }
        ensures place { result ≡ position (nat_eq key) (map_keys self.now map) }
        ensures asked { meter.new ≡ record meter.old { asked = raised meter.old.asked 1 } }
    {
        meter.raise_asked(1);
        table(&self.maps, map as usize).place(key)
    }

    /// The first map in which one bucket holds all codes, with their number. `None` where there is
    /// no such map, or where the number is no power of two.
    pub fn wide_bucket(&self) -> Option<Wide>
        ensures { result ≡ wide (Bare (MultiForm self.now)) }
    {
        let size = self.storage.count();
        if !size.is_power_of_two() {
            return None;
        }
        let map = first_of_one_key(&self.maps)?;
        Some(Wide { map, size })
    }

    // Appends codes. All growths come first, so that the pushes cannot fail.
    fn append(&mut self, codes: &Codes) -> Result<(), Want>
        requires same_dim { codes.now.dim ≡ self.old.dim }
        requires load { weight self.old.dim self.old.nhash
            (length self.old.codes + length codes.now.codes) 0 ≤ load_limit }
        ensures ok { OnOk result (self.new
            ≡ record self.old { codes = self.old.codes ++ codes.now.codes }) }
        ensures err { OnErr result (self.new ≡ self.old) }
    {
        let first = self.storage.count() as usize;
        let counts = key_counts(self.alloc, &self.maps)?;
        match store(
            self.alloc,
            &mut self.maps,
            &mut self.buckets,
            &mut self.storage,
            self.b,
            self.keys,
            codes,
        ) {
            Ok(room) => {
                let nhash = self.maps.len();
                put_all(&mut self.buckets, &room.lists, first, nhash, codes.len());
                self.keys = room.keys;
                Ok(())
            }
            Err(error) => {
                keep_first(&mut self.maps, &counts);
                Err(error)
            }
        }
    }
}

/// A MultiHash compares no centroids, so `fixed` is 0. A code at a distance below
/// `nhash * (nflip + 1)` differs from the query in at most `nflip` bits of some key, so that is the
/// bound. A MultiHash is trained from the start.
impl<L: Ledger> BinaryIndex for Multi<L> {
    type Led = L;

    ghost value = { λ m. Bare (MultiForm m) };

    fn dim(&self) -> Dim {
        self.storage.dim()
    }

    fn count(&self) -> u64 {
        self.storage.count()
    }

    fn trained(&self) -> bool {
        true
    }

    fn fixed(&self) -> u64 {
        0
    }

    fn bound(&self) -> u64 {
        self.maps.len() as u64 * (u64::from(self.nflip) + 1)
    }

    /// The `k` nearest of the codes in probed buckets, by distance and then by position. Each key
    /// or bucket that is looked at raises the meter's `asked` by 1: under each map each flipped
    /// key, or each bucket where there are fewer buckets.
    fn search(&self, alloc: Global, q: &[u8], k: u32, meter: &mut Meter<L>) -> Result<Hits, Want>
        requires size { length q.now ≡ self.now.dim / 8 }
        requires some { 1 ≤ k }
        ensures ok { IfOk result (λ hits. hits.items ≡ best (Bare (MultiForm self.now)) q.now k) }
        ensures lent { OnOk result (meter.new.lent
            ≡ raised meter.old.lent (looked (Bare (MultiForm self.now)) q.now)) }
        ensures lent_least { meter.old.lent ≤ meter.new.lent }
        ensures lent_most { meter.new.lent
            ≤ meter.old.lent + looked (Bare (MultiForm self.now)) q.now }
        ensures asked { OnOk result (meter.new.asked ≡ raised meter.old.asked (looks self.now)) }
        ensures asked_least { meter.old.asked ≤ meter.new.asked }
        ensures asked_most { meter.new.asked ≤ meter.old.asked + looks self.now }
    {
        let dim = self.storage.dim();
        let count = self.storage.count() as usize;
        let (b, nflip) = (self.b, self.nflip);
        let met = meet(alloc, &self.maps, &self.buckets, b, nflip, count, q, meter)?;
        let kernel = Prepared::new(dim, q);
        let mut best = BestK::new(alloc, dim, k, met.len() as u64)?;
        offer_met(&self.storage, &met, &mut best, &kernel, meter);
        Ok(best.into_hits())
    }

    /// The codes in probed buckets whose distance is strictly below `radius`, by distance and then
    /// by position. The meter's `asked` rises as in `search`.
    fn range(
        &self,
        alloc: Global,
        q: &[u8],
        radius: u32,
        meter: &mut Meter<L>,
    ) -> Result<Hits, Want>
        requires size { length q.now ≡ self.now.dim / 8 }
        ensures ok { IfOk result (λ hits. hits.items
            ≡ within (Bare (MultiForm self.now)) q.now radius) }
        ensures lent { OnOk result (meter.new.lent
            ≡ raised meter.old.lent (looked (Bare (MultiForm self.now)) q.now)) }
        ensures lent_least { meter.old.lent ≤ meter.new.lent }
        ensures lent_most { meter.new.lent
            ≤ meter.old.lent + looked (Bare (MultiForm self.now)) q.now }
        ensures asked { OnOk result (meter.new.asked ≡ raised meter.old.asked (looks self.now)) }
        ensures asked_least { meter.old.asked ≤ meter.new.asked }
        ensures asked_most { meter.new.asked ≤ meter.old.asked + looks self.now }
    {
        let dim = self.storage.dim();
        let count = self.storage.count() as usize;
        let (b, nflip) = (self.b, self.nflip);
        let met = meet(alloc, &self.maps, &self.buckets, b, nflip, count, q, meter)?;
        let kernel = Prepared::new(dim, q);
        let mut found = RangeHits::new(alloc);
        offer_met_below(&self.storage, &met, &mut found, radius, &kernel, meter)?;
        Ok(found.into_hits())
    }
}

/// A code's inner label is its position, so the caller chooses none. All growths of an add come
/// before its first push, and an add that runs out of memory takes its new keys out again.
impl<L: Ledger> Addable for Multi<L> {
    fn takes_ids(&self) -> bool {
        false
    }

    fn add_all(
        &mut self,
        labels: &[i64],
        codes: &Codes,
        _meter: &mut Meter<L>,
    ) -> Result<(), Want> {
        self.append(codes)?;
        Ok(())
    }
}

/// The setting of a plain MultiHash.
impl<L: Ledger> KeySettings for Multi<L> {
    fn set_nflip(&mut self, n: u32) {
        Multi::set_nflip(self, n);
    }
}
