ghost use Rattle.std.specs.Prelude.{◌≡◌, ◌+◌, ◌/◌, ◌<◌, ◌≤◌, ◌^◌, length, IfOk, OnOk, OnErr};
ghost use Rattle.std.specs.List.{All};
ghost use Rattle.bcodes.specs.Hits.{in_order};
ghost use Rattle.bcodes.specs.Ranges.{raised};
ghost use Rattle.list_scan.specs.Visited.{below, first, hits_on, rows_at, rows_on};

use crate::lists::{offer_lists, offer_lists_below};
use crate::scan::room_for_scan;
use bcodes::{Dim, Hits, Ledger, Meter, Want};
use code_pool::Pool;
use hit_lists::{BestK, RangeHits};
use kernel_table::Prepared;
use std::alloc::Global;

/// The first `k` rows of some lists by distance from a query and then by label. The meter's `lent`
/// rises by the number of their rows.
///
/// # Errors
///
/// If memory runs out, before any row is read.
pub fn search_lists<L: Ledger>(
    alloc: Global,
    pool: &Pool<L>,
    lists: &[u32],
    dim: Dim,
    q: &[u8],
    k: u32,
    meter: &mut Meter<L>,
) -> Result<Hits, Want>
    requires exist { All (λ l. l < length pool.now.lists) lists.now }
    requires few { length (rows_at pool.now lists.now) < 2 ^ 64 }
    requires size { length q.now ≡ dim.bits / 8 }
    requires code_size { pool.now.code_size ≡ dim.bits / 8 }
    requires some { 1 ≤ k }
    ensures ok { IfOk result (λ hits.
        hits.items ≡ first k (hits_on q.now (rows_at pool.now lists.now))) }
    ensures lent { OnOk result (meter.new ≡ record meter.old {
      lent = raised meter.old.lent (length (rows_at pool.now lists.now));
    }) }
    ensures rises { meter.old.lent ≤ meter.new.lent }
    ensures err { OnErr result (meter.new ≡ meter.old) }
{
    let kernel = Prepared::new(dim, q);
    let mut best = BestK::new(alloc, dim, k, count_rows(pool, lists))?;
    let mut distances = room_for_scan(alloc, longest(pool, lists))?;
    offer_lists(pool, lists, &mut best, &kernel, &mut distances, meter);
    Ok(best.into_hits())
}

/// The rows of some lists whose distance from a query is strictly below `radius`, by distance and
/// then by label. The meter's `lent` rises by the number of the rows of the lists.
///
/// # Errors
///
/// If memory runs out. `lent` has then risen by no more than on success.
pub fn range_lists<L: Ledger>(
    alloc: Global,
    pool: &Pool<L>,
    lists: &[u32],
    dim: Dim,
    q: &[u8],
    radius: u32,
    meter: &mut Meter<L>,
) -> Result<Hits, Want>
    requires exist { All (λ l. l < length pool.now.lists) lists.now }
    requires size { length q.now ≡ dim.bits / 8 }
    requires code_size { pool.now.code_size ≡ dim.bits / 8 }
    ensures ok { IfOk result (λ hits.
        hits.items ≡ in_order (below radius (hits_on q.now (rows_at pool.now lists.now)))) }
    ensures lent { OnOk result
        (meter.new.lent ≡ raised meter.old.lent (length (rows_at pool.now lists.now))) }
    ensures lent_least { meter.old.lent ≤ meter.new.lent }
    ensures lent_most { meter.new.lent ≤ meter.old.lent + length (rows_at pool.now lists.now) }
    ensures asked { meter.new.asked ≡ meter.old.asked }
{
    let kernel = Prepared::new(dim, q);
    let mut found = RangeHits::new(alloc);
    let mut distances = room_for_scan(alloc, longest(pool, lists))?;
    offer_lists_below(
        pool,
        lists,
        &mut found,
        radius,
        &kernel,
        &mut distances,
        meter,
    )?;
    Ok(found.into_hits())
}

// The number of rows of some lists.
fn count_rows<L: Ledger>(pool: &Pool<L>, lists: &[u32]) -> u64
    requires exist { All (λ l. l < length pool.now.lists) lists.now }
    requires few { length (rows_at pool.now lists.now) < 2 ^ 64 }
    ensures { result ≡ length (rows_at pool.now lists.now) }
{
    let mut count = 0;
    for list in lists {
        count += pool.len(*list) as u64;
    }
    count
}

// The number of rows of the longest of some lists, or 0 where there are none.
fn longest<L: Ledger>(pool: &Pool<L>, lists: &[u32]) -> usize
    requires { All (λ l. l < length pool.now.lists) lists.now }
    ensures { All (λ l. length (rows_on pool.now l) ≤ result) lists.now }
{
    let mut longest = 0;
    for list in lists {
        longest = longest.max(pool.len(*list));
    }
    longest
}
