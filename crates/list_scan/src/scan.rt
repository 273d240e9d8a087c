ghost use Rattle.std.specs.Prelude.{◌≡◌, ◌+◌, ◌*◌, ◌<◌, ◌≤◌, ◌⊎◌, List, ◌++◌, length, min, vec_len};
ghost use Rattle.std.specs.Prelude.{IfOk, OnOk};
ghost use Rattle.std.specs.List.{All};
ghost use Rattle.bcodes.specs.declared.hit.Hit.{Hit};
ghost use Rattle.bcodes.specs.Ranges.{raised};
ghost use Rattle.code_pool.specs.Lists.{rows_in, run_rows};
ghost use Rattle.list_scan.specs.Visited.{below, first, hits_on, rows_on, scan_rows};

use bcodes::{Ledger, Meter, Want};
use code_pool::{Pool, RUN_ROWS, Run};
use hit_lists::{BestK, RangeHits};
use kernel_table::{Kernel, Prepared};
use std::alloc::Global;

/// The most rows that are scanned at a time. Their distances stay in the fastest cache.
const SCAN_ROWS: usize = 1_024;

/// Room for the distances that a scan of lists works on, none of more than `count` rows.
pub fn room_for_scan(alloc: Global, count: usize) -> Result<Vec<u32>, Want>
    ensures { IfOk result (λ room. vec_len room ≡ min count scan_rows) }
{
    vec![in alloc; 0; count.min(SCAN_ROWS)]
}

/// Room for the distances of any one run of a list of `count` rows.
pub fn room_for_run(alloc: Global, count: usize) -> Result<Vec<u32>, Want>
    ensures { IfOk result (λ room. vec_len room ≡ min count run_rows) }
{
    vec![in alloc; 0; count.min(RUN_ROWS)]
}

/// Offers every row of a list to the `k` best, as Faiss's `InvertedListScanner::scan_codes` does.
///
/// The meter's `lent` rises by the number of rows. `distances` is room to work in, as
/// `room_for_scan` gives it, and what it holds afterwards means nothing. It takes no memory.
pub fn offer_list<L: Ledger>(
    pool: &Pool<L>,
    list: u32,
    best: &mut BestK,
    kernel: &Prepared<'_>,
    distances: &mut [u32],
    meter: &mut Meter<L>,
)
    requires exists { list < length pool.now.lists }
    requires size { pool.now.code_size ≡ length kernel.now }
    requires bits { best.old.bits ≡ 8 * length kernel.now }
    requires written { min (length (rows_on pool.now list)) scan_rows ≤ length distances.old }
    requires room { length best.old.items + length (rows_on pool.now list) ≤ best.old.most }
    ensures items { (hits : List Hit) → best.old.items ≡ first best.old.k hits
        → best.new.items ≡ first best.old.k (hits ++ hits_on kernel.now (rows_on pool.now list)) }
    ensures grown { length best.new.items ≤ length best.old.items + length (rows_on pool.now list) }
    ensures k { best.new.k ≡ best.old.k }
    ensures most { best.new.most ≡ best.old.most }
    ensures bits { best.new.bits ≡ best.old.bits }
    ensures lent { meter.new
        ≡ record meter.old { lent = raised meter.old.lent (length (rows_on pool.now list)) } }
    ensures rises { meter.old.lent ≤ meter.new.lent }
{
    let count = pool.len(list);
    let mut walk = pool.walk(list);
    while walk.at() < count {
        let run = walk.lend(meter);
        offer_run(best, kernel, run, distances);
    }
}

/// Adds the rows of a list whose distance from the query is strictly below `radius`, as Faiss's
/// `InvertedListScanner::scan_codes_range` does.
///
/// The meter's `lent` rises by the number of rows, and where memory ends the scan by no more than
/// that. `distances` is as in `offer_list`.
pub fn offer_list_below<L: Ledger>(
    pool: &Pool<L>,
    list: u32,
    found: &mut RangeHits,
    radius: u32,
    kernel: &Prepared<'_>,
    distances: &mut [u32],
    meter: &mut Meter<L>,
) -> Result<(), Want>
    requires exists { list < length pool.now.lists }
    requires size { pool.now.code_size ≡ length kernel.now }
    requires written { min (length (rows_on pool.now list)) scan_rows ≤ length distances.old }
    ensures items { OnOk result (found.new.items
        ≡ found.old.items ++ below radius (hits_on kernel.now (rows_on pool.now list))) }
    ensures lent { OnOk result
        (meter.new.lent ≡ raised meter.old.lent (length (rows_on pool.now list))) }
    ensures lent_least { meter.old.lent ≤ meter.new.lent }
    ensures lent_most { meter.new.lent ≤ meter.old.lent + length (rows_on pool.now list) }
    ensures asked { meter.new.asked ≡ meter.old.asked }
{
    let count = pool.len(list);
    let mut walk = pool.walk(list);
    while walk.at() < count {
        let run = walk.lend(meter);
        offer_run_below(found, radius, kernel, run, distances)?;
    }
    Ok(())
}

/// Offers each row of a run, with its distance from the query, a part of the run at a time.
pub fn offer_run(best: &mut BestK, kernel: &Prepared<'_>, run: Run<'_>, distances: &mut [u32])
    requires bits { best.old.bits ≡ 8 * length kernel.now }
    requires whole { length run.codes.now ≡ length run.labels.now * length kernel.now }
    requires written { min (length run.labels.now) scan_rows ≤ length distances.old }
    requires room { length best.old.items + length run.labels.now ≤ best.old.most }
    ensures items { (hits : List Hit) → best.old.items ≡ first best.old.k hits
        → best.new.items ≡ first best.old.k (hits ++ hits_on kernel.now
        (rows_in (length kernel.now) run.entry.labels.now run.entry.codes.now)) }
    ensures grown { length best.new.items ≤ length best.old.items + length run.entry.labels.now }
    ensures k { best.new.k ≡ best.old.k }
    ensures most { best.new.most ≡ best.old.most }
    ensures bits { best.new.bits ≡ best.old.bits }
{
    let count = run.labels.len();
    let mut at = 0;
    while at < count {
        let part = run.part(at, SCAN_ROWS.min(count - at));
        at += part.labels.len();
        offer_part(best, kernel, part, distances);
    }
}

/// Adds the rows of a run whose distance from the query is strictly below the radius, a part of the
/// run at a time.
pub fn offer_run_below(
    found: &mut RangeHits,
    radius: u32,
    kernel: &Prepared<'_>,
    run: Run<'_>,
    distances: &mut [u32],
) -> Result<(), Want>
    requires whole { length run.codes.now ≡ length run.labels.now * length kernel.now }
    requires written { min (length run.labels.now) scan_rows ≤ length distances.old }
    ensures { OnOk result (found.new.items ≡ found.old.items ++ below radius (hits_on kernel.now
        (rows_in (length kernel.now) run.entry.labels.now run.entry.codes.now))) }
{
    let count = run.labels.len();
    let mut at = 0;
    while at < count {
        let part = run.part(at, SCAN_ROWS.min(count - at));
        at += part.labels.len();
        found.reserve(part.labels.len())?;
        offer_part_below(found, radius, kernel, part, distances);
    }
    Ok(())
}

// Offers each row of a part of a run, with its distance from the query.
fn offer_part(best: &mut BestK, kernel: &Prepared<'_>, part: Run<'_>, distances: &mut [u32])
    requires bits { best.old.bits ≡ 8 * length kernel.now }
    requires whole { length part.codes.now ≡ length part.labels.now * length kernel.now }
    requires written { length part.labels.now ≤ length distances.old }
    requires room { (length best.old.items + length part.labels.now ≤ best.old.most)
        ⊎ (length best.old.items ≡ best.old.k) }
    ensures items { best.new.items ≡ first best.old.k (best.old.items ++ hits_on kernel.now
        (rows_in (length kernel.now) part.entry.labels.now part.entry.codes.now)) }
    ensures k { best.new.k ≡ best.old.k }
    ensures most { best.new.most ≡ best.old.most }
    ensures bits { best.new.bits ≡ best.old.bits }
{
    let distances = &mut distances[..part.labels.len()];
    kernel.scan(part.codes, distances);
    best.offer_all(part.labels, distances);
}

// Adds the rows of a part of a run whose distance from the query is strictly below the radius.
fn offer_part_below(
    found: &mut RangeHits,
    radius: u32,
    kernel: &Prepared<'_>,
    part: Run<'_>,
    distances: &mut [u32],
)
    requires whole { length part.codes.now ≡ length part.labels.now * length kernel.now }
    requires written { length part.labels.now ≤ length distances.old }
    requires room { length part.labels.now ≤ found.old.spare }
    ensures { found.new.items ≡ found.old.items ++ below radius (hits_on kernel.now
        (rows_in (length kernel.now) part.entry.labels.now part.entry.codes.now)) }
{
    let distances = &mut distances[..part.labels.len()];
    kernel.scan(part.codes, distances);
    found.offer_below(radius, part.labels, distances);
}
