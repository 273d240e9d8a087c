ghost use Rattle.std.specs.Prelude.{◌≡◌, ◌^◌, ◌≤◌, ◌||◌, [], length, nat_eq, replicate, false};
ghost use Rattle.std.specs.Prelude.{IfOk};
ghost use Rattle.bcodes.specs.Marks.{is_full_below};

use bcodes::{Dim, Hits, Want};
use hit_lists::BestK;
use multi_hash::Seen;
use std::alloc::Global;

/// What a search has found in the buckets that it went through.
#[derive(Drop)]
pub struct Found {
    /// Which positions were met.
    pub seen: Seen,
    /// How many were.
    pub met: u64,
    /// The first `k` of the codes there.
    pub best: BestK,
}

impl Found {
    /// Nothing yet, where there are `count` codes. All memory of a search is taken here.
    ///
    /// # Errors
    ///
    /// If memory runs out.
    pub fn new(alloc: Global, dim: Dim, k: u32, count: u64) -> Result<Found, Want>
        requires some { 1 ≤ k }
        requires few { count ≤ 2 ^ 32 }
        ensures { IfOk result (λ found. found ≡ record {
          seen = replicate count false;
          met = 0;
          best = record { items = []; k = k; most = count; bits = dim.bits };
        }) }
    {
        let seen = Seen::new(alloc, count as usize)?;
        let best = BestK::new(alloc, dim, k, count)?;
        Ok(Found { seen, met: 0, best })
    }

    /// Whether the kept hits are those of a full scan, where there are `count` codes and each at a
    /// distance below `bound` was met.
    pub fn is_certain(&self, count: u64, bound: u64) -> bool
        requires some { 1 ≤ self.now.best.k }
        requires kept { length self.now.best.items ≤ self.now.best.k }
        ensures { result ≡ (nat_eq self.now.met count
            || is_full_below self.now.best.items self.now.best.k bound) }
    {
        self.met == count || is_full_below(&self.best, bound)
    }

    /// The kept hits, in order. Takes no memory.
    pub fn into_hits(self) -> Hits
        ensures { result.items ≡ self.best.items }
    {
        let Found { best, .. } = self;
        best.into_hits()
    }
}

fn is_full_below(best: &BestK, bound: u64) -> bool
    requires some { 1 ≤ best.now.k }
    requires kept { length best.now.items ≤ best.now.k }
    ensures { result ≡ is_full_below best.now.items best.now.k bound }
{
    match best.worst() {
        Some(distance) => u64::from(distance) < bound,
        None => false,
    }
}
