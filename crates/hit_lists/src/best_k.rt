ghost use Rattle.std.specs.Prelude.{◌≡◌, ◌+◌, ◌-◌, ◌<◌, ◌≤◌, ◌⊎◌, ◌↔◌, [], ◌∷◌, ◌++◌, length, take};
ghost use Rattle.std.specs.Prelude.{IfOk, IfSome, IsNone, slice_index_or};
ghost use Rattle.hit_lists.specs.Labelled.{hits_of};
ghost use Rattle.std.specs.List.{All};
ghost use Rattle.bcodes.specs.Hits.{in_order, no_hit};

use crate::runs::{RUN, least};
use crate::slot_table::SlotTable;
use bcodes::{Dim, Hit, Hits, Want};
use std::alloc::Global;
use std::marker::Model;

/// The first `k` of the hits that were offered, by distance and then by label.
///
/// Only `new` allocates, so no offer can fail. Faiss keeps a heap, or counts by distance
/// (`hammings_knn_hc` and `hammings_knn_mc` in `utils/hamming.h`). Among hits at the last distance
/// it may keep other labels.
#[derive(Debug, Drop)]
pub struct BestK {
    table: SlotTable,
    dim: Dim,
    k: u32,
    most: u64,
}

impl Model for BestK {
    ghost use Rattle.hit_lists.specs.BestHits.{BestHits, IsKept};
    ghost use Rattle.bcodes.specs.Hits.{in_order};

    ghost Value = { BestHits };

    ghost view = { λ b. record {
      items = in_order b.table.hits.items;
      k = b.k;
      most = b.most;
      bits = b.dim.bits;
    } };

    ghost invariant = { λ b. IsKept b.table b.k b.most b.dim.bits };
}

impl BestK {
    /// Keeps at most `k` hits on codes of `dim`. Until `k` hits are kept, at most `most` may be
    /// offered, so there is room for the lesser of the two numbers.
    pub fn new(alloc: Global, dim: Dim, k: u32, most: u64) -> Result<BestK, Want>
        requires { 1 ≤ k }
        ensures { IfOk result
            (λ best. best ≡ record { items = []; k = k; most = most; bits = dim.bits }) }
    {
        let room = most.min(u64::from(k)) as u32;
        let table = SlotTable::new(alloc, dim.bits(), room)?;
        Ok(BestK {
            table,
            dim,
            k,
            most,
        })
    }

    /// Keeps the first `k` of the kept hits and this one. Does not allocate.
    pub fn offer(&mut self, hit: Hit)
        requires distance { hit.distance ≤ self.old.bits }
        requires room { (length self.old.items < self.old.most)
            ⊎ (length self.old.items ≡ self.old.k) }
        ensures items { self.new.items ≡ take self.old.k (in_order (hit ∷ self.old.items)) }
        ensures k { self.new.k ≡ self.old.k }
        ensures most { self.new.most ≡ self.old.most }
        ensures bits { self.new.bits ≡ self.old.bits }
    {
        // While fewer than k are kept, the limit is the number of bits, and every hit passes.
        if hit.distance <= self.table.limit {
            self.table.offer(hit, self.k);
        }
    }

    /// Offers codes by their labels and distances. Does not allocate.
    pub fn offer_all(&mut self, labels: &[i64], distances: &[u32])
        requires same_count { length labels.now ≡ length distances.now }
        requires distances { All (λ d. d ≤ self.old.bits) distances.now }
        requires room { (length self.old.items + length labels.now ≤ self.old.most)
            ⊎ (length self.old.items ≡ self.old.k) }
        ensures items { self.new.items
            ≡ take self.old.k (in_order (self.old.items ++ hits_of labels.now distances.now)) }
        ensures k { self.new.k ≡ self.old.k }
        ensures most { self.new.most ≡ self.old.most }
        ensures bits { self.new.bits ≡ self.old.bits }
    {
        // Opened, so that the kept hits are known to be in order.
        let _ = &self.table;
        let count = labels.len();
        let mut at = 0;
        while at < count {
            let end = (at + RUN).min(count);
            self.offer_run(&labels[at..end], &distances[at..end]);
            at = end;
        }
    }

    // `offer_all` of a run. Where even its least distance is past the limit, as of nearly all runs
    // of a long list, no hit is offered.
    fn offer_run(&mut self, labels: &[i64], distances: &[u32])
        requires same_count { length labels.now ≡ length distances.now }
        requires distances { All (λ d. d ≤ self.old.bits) distances.now }
        requires room { (length self.old.items + length labels.now ≤ self.old.most)
            ⊎ (length self.old.items ≡ self.old.k) }
        ensures items { self.new.items
            ≡ take self.old.k (in_order (self.old.items ++ hits_of labels.now distances.now)) }
        ensures k { self.new.k ≡ self.old.k }
        ensures most { self.new.most ≡ self.old.most }
        ensures bits { self.new.bits ≡ self.old.bits }
    {
        if least(distances) <= self.table.limit {
            for (i, label) in labels.iter().enumerate() {
                self.offer(Hit {
                    distance: distances[i],
                    label: *label,
                });
            }
        }
    }

    /// The kept hits, in order. Does not allocate.
    pub fn into_hits(self) -> Hits
        ensures { result.items ≡ self.items }
    {
        let BestK { table, .. } = self;
        let SlotTable { mut hits, .. } = table;
        hits.sort_unstable();
        Hits::from_vec(hits)
    }

    /// The distance of the last kept hit where `k` hits are kept, and `None` where fewer are.
    pub fn worst(&self) -> Option<u32>
        ensures none { IsNone result ↔ (length self.now.items < self.now.k) }
        ensures last { IfSome result
            (λ d. d ≡ (slice_index_or self.now.items (self.now.k - 1) no_hit).distance) }
    {
        if self.table.hits.len() == self.k as usize {
            Some(self.table.limit)
        } else {
            None
        }
    }
}
