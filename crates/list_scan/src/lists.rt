ghost use Rattle.std.specs.Prelude.{◌≡◌, ◌+◌, ◌*◌, ◌<◌, ◌≤◌, List, [], ◌++◌, length, min, OnOk};
ghost use Rattle.std.specs.List.{All};
ghost use Rattle.bcodes.specs.declared.hit.Hit.{Hit};
ghost use Rattle.bcodes.specs.Ranges.{raised};
ghost use Rattle.list_scan.specs.Batches.{IsAwaiting, IsScannable, rows_of_runs};
ghost use Rattle.list_scan.specs.Visited.{below, first, hits_on, rows_at, rows_on, scan_rows};

use crate::batch::Batch;
use crate::scan::{offer_run, offer_run_below};
use bcodes::{Ledger, Meter, Want};
use code_pool::{Pool, Run};
use hit_lists::{BestK, RangeHits};
use kernel_table::{Kernel, Prepared};

/// The bytes of a line of the processor's caches.
const LINE: usize = 64;

/// So many bytes of each run are fetched ahead. The rest of a longer run the processor fetches by
/// itself.
const AHEAD_BYTES: usize = 1_024;

/// Offers every row of some lists to the `k` best, one list after the other. The rest is as in
/// `offer_list`.
///
/// The rows of a list stand in scattered blocks. So that the processor fetches many of them side by
/// side, runs wait in a batch and are fetched before the first of them is scanned.
pub fn offer_lists<L: Ledger>(
    pool: &Pool<L>,
    lists: &[u32],
    best: &mut BestK,
    kernel: &Prepared<'_>,
    distances: &mut [u32],
    meter: &mut Meter<L>,
)
    requires exist { All (λ l. l < length pool.now.lists) lists.now }
    requires size { pool.now.code_size ≡ length kernel.now }
    requires bits { best.old.bits ≡ 8 * length kernel.now }
    requires written { All (λ l. min (length (rows_on pool.now l)) scan_rows
        ≤ length distances.old) lists.now }
    requires room { length best.old.items + length (rows_at pool.now lists.now) ≤ best.old.most }
    ensures items { (hits : List Hit) → best.old.items ≡ first best.old.k hits
        → best.new.items
        ≡ first best.old.k (hits ++ hits_on kernel.now (rows_at pool.now lists.now)) }
    ensures grown { length best.new.items
        ≤ length best.old.items + length (rows_at pool.now lists.now) }
    ensures k { best.new.k ≡ best.old.k }
    ensures most { best.new.most ≡ best.old.most }
    ensures bits { best.new.bits ≡ best.old.bits }
    ensures lent { meter.new
        ≡ record meter.old { lent = raised meter.old.lent (length (rows_at pool.now lists.now)) } }
    ensures rises { meter.old.lent ≤ meter.new.lent }
{
    let mut batch = Batch::new(kernel.size(), distances.len());
    for list in lists {
        gather_list(pool, *list, &mut batch, best, kernel, distances, meter);
    }
    offer_runs(best, kernel, batch.runs(), distances);
}

/// Adds the rows of some lists whose distance from the query is strictly below `radius`, one list
/// after the other. The rest is as in `offer_list_below`, and runs wait as in `offer_lists`.
pub fn offer_lists_below<L: Ledger>(
    pool: &Pool<L>,
    lists: &[u32],
    found: &mut RangeHits,
    radius: u32,
    kernel: &Prepared<'_>,
    distances: &mut [u32],
    meter: &mut Meter<L>,
) -> Result<(), Want>
    requires exist { All (λ l. l < length pool.now.lists) lists.now }
    requires size { pool.now.code_size ≡ length kernel.now }
    requires written { All (λ l. min (length (rows_on pool.now l)) scan_rows
        ≤ length distances.old) lists.now }
    ensures items { OnOk result (found.new.items
        ≡ found.old.items ++ below radius (hits_on kernel.now (rows_at pool.now lists.now))) }
    ensures lent { OnOk result
        (meter.new.lent ≡ raised meter.old.lent (length (rows_at pool.now lists.now))) }
    ensures lent_least { meter.old.lent ≤ meter.new.lent }
    ensures lent_most { meter.new.lent ≤ meter.old.lent + length (rows_at pool.now lists.now) }
    ensures asked { meter.new.asked ≡ meter.old.asked }
{
    let mut batch = Batch::new(kernel.size(), distances.len());
    for list in lists {
        gather_list_below(
            pool, *list, &mut batch, found, radius, kernel, distances, meter,
        )?;
    }
    offer_runs_below(found, radius, kernel, batch.runs(), distances)?;
    Ok(())
}

// Puts the runs of a list into the batch, and offers the batch whenever it is full.
fn gather_list<'a, L: Ledger>(
    pool: &'a Pool<L>,
    list: u32,
    batch: &mut Batch<'a>,
    best: &mut BestK,
    kernel: &Prepared<'_>,
    distances: &mut [u32],
    meter: &mut Meter<L>,
)
    requires exists { list < length pool.now.lists }
    requires size { pool.now.code_size ≡ length kernel.now }
    requires batch_size { batch.old.size ≡ length kernel.now }
    requires batch_room { batch.old.room ≡ length distances.old }
    requires bits { best.old.bits ≡ 8 * length kernel.now }
    requires written { min (length (rows_on pool.now list)) scan_rows ≤ batch.old.room }
    requires room { length best.old.items + length batch.old.rows
        + length (rows_on pool.now list) ≤ best.old.most }
    ensures items { (all : List Hit)
        → IsAwaiting best.old.k all best.old.items (hits_on kernel.now batch.old.rows)
        → IsAwaiting best.old.k (all ++ hits_on kernel.now (rows_on pool.now list))
        best.new.items (hits_on kernel.now batch.new.rows) }
    ensures grown { length best.new.items + length batch.new.rows
        ≤ length best.old.items + length batch.old.rows + length (rows_on pool.now list) }
    ensures batch_size { batch.new.size ≡ batch.old.size }
    ensures batch_room { batch.new.room ≡ batch.old.room }
    ensures k { best.new.k ≡ best.old.k }
    ensures most { best.new.most ≡ best.old.most }
    ensures bits { best.new.bits ≡ best.old.bits }
    ensures lent { meter.new
        ≡ record meter.old { lent = raised meter.old.lent (length (rows_on pool.now list)) } }
    ensures rises { meter.old.lent ≤ meter.new.lent }
{
    let count = pool.len(list);
    let mut walk = pool.walk(list);
    while walk.at() < count {
        make_room(batch, best, kernel, distances);
        batch.push(walk.lend(meter));
    }
}

// Puts the runs of a list into the batch, and adds those of its rows that are near whenever it is
// full.
fn gather_list_below<'a, L: Ledger>(
    pool: &'a Pool<L>,
    list: u32,
    batch: &mut Batch<'a>,
    found: &mut RangeHits,
    radius: u32,
    kernel: &Prepared<'_>,
    distances: &mut [u32],
    meter: &mut Meter<L>,
) -> Result<(), Want>
    requires exists { list < length pool.now.lists }
    requires size { pool.now.code_size ≡ length kernel.now }
    requires batch_size { batch.old.size ≡ length kernel.now }
    requires batch_room { batch.old.room ≡ length distances.old }
    requires written { min (length (rows_on pool.now list)) scan_rows ≤ batch.old.room }
    ensures items { OnOk result (
        found.new.items ++ below radius (hits_on kernel.now batch.new.rows)
        ≡ found.old.items ++ below radius
        (hits_on kernel.now (batch.old.rows ++ rows_on pool.now list))) }
    ensures batch_size { OnOk result (batch.new.size ≡ batch.old.size) }
    ensures batch_room { OnOk result (batch.new.room ≡ batch.old.room) }
    ensures lent { OnOk result
        (meter.new.lent ≡ raised meter.old.lent (length (rows_on pool.now list))) }
    ensures lent_least { meter.old.lent ≤ meter.new.lent }
    ensures lent_most { meter.new.lent ≤ meter.old.lent + length (rows_on pool.now list) }
    ensures asked { meter.new.asked ≡ meter.old.asked }
{
    let count = pool.len(list);
    let mut walk = pool.walk(list);
    while walk.at() < count {
        make_room_below(batch, found, radius, kernel, distances)?;
        batch.push(walk.lend(meter));
    }
    Ok(())
}

// Offers the batch where it is full.
fn make_room(batch: &mut Batch<'_>, best: &mut BestK, kernel: &Prepared<'_>, distances: &mut [u32])
    requires batch_size { batch.old.size ≡ length kernel.now }
    requires batch_room { batch.old.room ≡ length distances.old }
    requires bits { best.old.bits ≡ 8 * length kernel.now }
    requires room { length best.old.items + length batch.old.rows ≤ best.old.most }
    ensures items { (all : List Hit)
        → IsAwaiting best.old.k all best.old.items (hits_on kernel.now batch.old.rows)
        → IsAwaiting best.old.k all best.new.items (hits_on kernel.now batch.new.rows) }
    ensures grown { length best.new.items + length batch.new.rows
        ≤ length best.old.items + length batch.old.rows }
    ensures fits { batch.new.count < 32 }
    ensures batch_size { batch.new.size ≡ batch.old.size }
    ensures batch_room { batch.new.room ≡ batch.old.room }
    ensures k { best.new.k ≡ best.old.k }
    ensures most { best.new.most ≡ best.old.most }
    ensures bits { best.new.bits ≡ best.old.bits }
{
    if batch.is_full() {
        offer_runs(best, kernel, batch.runs(), distances);
        batch.clear();
    }
}

// Adds the near rows of the batch where it is full.
fn make_room_below(
    batch: &mut Batch<'_>,
    found: &mut RangeHits,
    radius: u32,
    kernel: &Prepared<'_>,
    distances: &mut [u32],
) -> Result<(), Want>
    requires batch_size { batch.old.size ≡ length kernel.now }
    requires batch_room { batch.old.room ≡ length distances.old }
    ensures items { OnOk result (
        found.new.items ++ below radius (hits_on kernel.now batch.new.rows)
        ≡ found.old.items ++ below radius (hits_on kernel.now batch.old.rows)) }
    ensures fits { OnOk result (batch.new.count < 32) }
    ensures batch_size { OnOk result (batch.new.size ≡ batch.old.size) }
    ensures batch_room { OnOk result (batch.new.room ≡ batch.old.room) }
{
    if batch.is_full() {
        offer_runs_below(found, radius, kernel, batch.runs(), distances)?;
        batch.clear();
    }
    Ok(())
}

// Offers each row of some runs, with its distance from the query, one run after the other.
fn offer_runs(best: &mut BestK, kernel: &Prepared<'_>, runs: &[Run<'_>], distances: &mut [u32])
    requires bits { best.old.bits ≡ 8 * length kernel.now }
    requires each { All (IsScannable (length kernel.now) (length distances.old)) runs.now }
    requires room { length best.old.items + length (rows_of_runs (length kernel.now) runs.now)
        ≤ best.old.most }
    ensures items { (hits : List Hit) → best.old.items ≡ first best.old.k hits
        → best.new.items ≡ first best.old.k (hits ++ hits_on kernel.now
        (rows_of_runs (length kernel.now) runs.now)) }
    ensures grown { length best.new.items
        ≤ length best.old.items + length (rows_of_runs (length kernel.now) runs.now) }
    ensures k { best.new.k ≡ best.old.k }
    ensures most { best.new.most ≡ best.old.most }
    ensures bits { best.new.bits ≡ best.old.bits }
{
    fetch(runs, distances);
    for run in runs {
        offer_run(best, kernel, *run, distances);
    }
}

// Adds the rows of some runs whose distance from the query is strictly below the radius, one run
// after the other.
fn offer_runs_below(
    found: &mut RangeHits,
    radius: u32,
    kernel: &Prepared<'_>,
    runs: &[Run<'_>],
    distances: &mut [u32],
) -> Result<(), Want>
    requires each { All (IsScannable (length kernel.now) (length distances.old)) runs.now }
    ensures { OnOk result (found.new.items ≡ found.old.items ++ below radius (hits_on kernel.now
        (rows_of_runs (length kernel.now) runs.now))) }
{
    fetch(runs, distances);
    for run in runs {
        offer_run_below(found, radius, kernel, *run, distances)?;
    }
    Ok(())
}

// Reads a byte of each cache line at the front of each run, so that the processor fetches these
// lines side by side. What was read goes to the room for distances, where nobody looks at it, so
// that the compiler does not leave the reads out.
fn fetch(runs: &[Run<'_>], distances: &mut [u32]) {
    let mut read = 0;
    for run in runs {
        read ^= lines_of(run.codes);
    }
    if !distances.is_empty() {
        distances[0] = u32::from(read);
    }
}

// A byte of each line at the front of some bytes, and the last byte there, all in one.
fn lines_of(bytes: &[u8]) -> u8 {
    let end = bytes.len().min(AHEAD_BYTES);
    let mut read = 0;
    let mut at = 0;
    while at < end {
        read ^= bytes[at];
        at += LINE;
    }
    if end > 0 {
        read ^= bytes[end - 1];
    }
    read
}
