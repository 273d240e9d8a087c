ghost use Rattle.std.specs.Prelude.{◌≡◌, ℕ, ◌+◌, ◌*◌, ◌/◌, ◌<◌, ◌≤◌, List, [], ◌∷◌, length, map, nat_abs};
ghost use Rattle.std.specs.Prelude.{nat_eq, IfOk, OnOk};
ghost use Rattle.std.specs.List.{All, IsDistinct, flat_map, range_with_len};
ghost use Rattle.std.specs.Map.{keys_of};
ghost use Rattle.bcodes.specs.Ranges.{raised};
ghost use Rattle.bcodes.specs.Value.{IsPlace};
ghost use Rattle.multi_hash.specs.Inside.{IsPosition, lists_in, map_at};
ghost use Rattle.multi_hash.specs.Meet.{asked_below, AreNumbered, met_under, near_under, positions_on};
ghost use Rattle.multi_hash.specs.Seen.{first_met, IsSeen};

use crate::Seen;
use crate::tables::table;
use bcodes::{Ledger, Meter, Want, chunk};
use code_pool::Pool;
use key_buckets::{KeyTable, push_near_buckets};
use std::alloc::Global;

/// The most positions that wait to be met.
const WAITING: usize = 512;

/// The positions in the buckets whose keys are near to the query's, map by map, each where it is
/// met first. Each key or bucket that is looked at raises the meter's `asked` by 1.
///
/// # Errors
///
/// If memory runs out. The meter's `asked` has then risen by no more than on success.
pub fn meet<L: Ledger>(
    alloc: Global,
    maps: &[KeyTable],
    buckets: &Pool<L>,
    b: u32,
    nflip: u32,
    count: usize,
    q: &[u8],
    meter: &mut Meter<L>,
) -> Result<Vec<usize>, Want>
    requires b_least { 1 ≤ b }
    requires b_most { b ≤ 64 }
    requires flips_most { nflip ≤ b }
    requires within { length maps.now * b ≤ 8 * length q.now }
    requires nhash_most { length maps.now ≤ 1024 }
    requires few { count ≤ 67108864 }
    requires numbered { AreNumbered maps.now (length buckets.now.lists) }
    requires places { (l : ℕ) → All (IsPosition count) (lists_in buckets.now l) }
    ensures met { IfOk result (λ met. met.items ≡ first_met [] (flat_map
        (met_under maps.now buckets.now b nflip q.now) (range_with_len 0 (length maps.now)))) }
    ensures distinct { OnOk result ((i : ℕ) → i < length maps.now
        → IsDistinct nat_eq (keys_of (map_at maps.now i))) }
    ensures lent { meter.new.lent ≡ meter.old.lent }
    ensures asked { OnOk result (meter.new.asked
        ≡ raised meter.old.asked (asked_below maps.now b nflip (length maps.now))) }
    ensures asked_least { meter.old.asked ≤ meter.new.asked }
    ensures asked_most { meter.new.asked
        ≤ meter.old.asked + asked_below maps.now b nflip (length maps.now) }
{
    let near = near_in_maps(alloc, maps, b, nflip, q, meter)?;
    let met = meet_lists(alloc, buckets, &near, count)?;
    Ok(met)
}

// The lists of the buckets whose keys are near to the query's, map by map.
fn near_in_maps<L: Ledger>(
    alloc: Global,
    maps: &[KeyTable],
    b: u32,
    nflip: u32,
    q: &[u8],
    meter: &mut Meter<L>,
) -> Result<Vec<u32>, Want>
    requires b_least { 1 ≤ b }
    requires b_most { b ≤ 64 }
    requires flips_most { nflip ≤ b }
    requires within { length maps.now * b ≤ 8 * length q.now }
    requires nhash_most { length maps.now ≤ 1024 }
    ensures near { IfOk result (λ near. near.items
        ≡ flat_map (near_under maps.now b nflip q.now) (range_with_len 0 (length maps.now))) }
    ensures distinct { OnOk result ((i : ℕ) → i < length maps.now
        → IsDistinct nat_eq (keys_of (map_at maps.now i))) }
    ensures lent { meter.new.lent ≡ meter.old.lent }
    ensures asked { OnOk result (meter.new.asked
        ≡ raised meter.old.asked (asked_below maps.now b nflip (length maps.now))) }
    ensures asked_least { meter.old.asked ≤ meter.new.asked }
    ensures asked_most { meter.new.asked
        ≤ meter.old.asked + asked_below maps.now b nflip (length maps.now) }
{
    let mut near = Vec::new(alloc);
    for i in 0..maps.len() {
        let key = chunk(q, i as u32, b);
        push_near_buckets(table(maps, i), b, nflip, key, &mut near, meter)?;
    }
    Ok(near)
}

// The positions on some lists, each where it is met first.
//
// Most lists are short, and all that is read of one stands where no other read was. So each step is
// made for many lists before the next step: the processor then waits for many reads at once.
fn meet_lists<L: Ledger>(
    alloc: Global,
    buckets: &Pool<L>,
    lists: &[u32],
    count: usize,
) -> Result<Vec<usize>, Want>
    requires few { count ≤ 67108864 }
    requires known { All (λ l. l < length buckets.now.lists) lists.now }
    requires places { (l : ℕ) → All (IsPosition count) (lists_in buckets.now l) }
    ensures { IfOk result (λ met. met.items
        ≡ first_met [] (flat_map (positions_on buckets.now) lists.now)) }
{
    let mut seen = Seen::new(alloc, count)?;
    let rows = count_rows(buckets, lists);
    let mut met = Vec::with_capacity(alloc, rows.min(count))?;
    let mut waiting = Vec::with_capacity(alloc, rows.min(WAITING).max(1))?;
    // Kept for a moment, so that the reads are not left out.
    waiting.push_reserved(fetch_firsts(buckets, lists));
    waiting.clear();
    for list in lists {
        gather_list(buckets, *list, &mut waiting, &mut seen, &mut met)?;
    }
    meet_run(&waiting, &mut seen, &mut met)?;
    Ok(met)
}

// Reads the first label of each of some lists, whose value is of no use yet: the processor waits for
// all of these reads together, and then finds them in its caches.
fn fetch_firsts<L: Ledger>(buckets: &Pool<L>, lists: &[u32]) -> i64
    requires { All (λ l. l < length buckets.now.lists) lists.now }
{
    let mut firsts = 0;
    for list in lists {
        if buckets.len(*list) > 0 {
            firsts ^= buckets.labels(*list, 0)[0];
        }
    }
    firsts
}

// The number of rows on some lists.
fn count_rows<L: Ledger>(buckets: &Pool<L>, lists: &[u32]) -> usize
    requires { All (λ l. l < length buckets.now.lists) lists.now }
{
    let mut rows = 0usize;
    for list in lists {
        rows = rows.saturating_add(buckets.len(*list));
    }
    rows
}

// Lets the positions on a list wait.
fn gather_list<L: Ledger>(
    buckets: &Pool<L>,
    list: u32,
    waiting: &mut Vec<i64>,
    seen: &mut Seen,
    met: &mut Vec<usize>,
) -> Result<(), Want>
    requires known { list < length buckets.now.lists }
    requires places { All (IsPosition (length seen.old)) (lists_in buckets.now list) }
    requires waiting { All (IsPlace (length seen.old)) waiting.old.items }
    requires seen { IsSeen (length seen.old) met.old.items seen.old }
    ensures met { OnOk result (first_met met.new.items (map nat_abs waiting.new.items)
        ≡ first_met (first_met met.old.items (map nat_abs waiting.old.items))
        (positions_on buckets.now list)) }
    ensures waiting { OnOk result (All (IsPlace (length seen.old)) waiting.new.items) }
    ensures seen { OnOk result (IsSeen (length seen.old) met.new.items seen.new) }
    ensures count { length seen.new ≡ length seen.old }
{
    let count = buckets.len(list);
    let mut at = 0;
    while at < count {
        let run = buckets.labels(list, at);
        at += run.len();
        gather_run(run, waiting, seen, met)?;
    }
    Ok(())
}

// Lets positions, given as labels, wait. Where too many would wait, all are met.
fn gather_run(
    labels: &[i64],
    waiting: &mut Vec<i64>,
    seen: &mut Seen,
    met: &mut Vec<usize>,
) -> Result<(), Want>
    requires places { All (IsPlace (length seen.old)) labels.now }
    requires waiting { All (IsPlace (length seen.old)) waiting.old.items }
    requires seen { IsSeen (length seen.old) met.old.items seen.old }
    ensures met { OnOk result (first_met met.new.items (map nat_abs waiting.new.items)
        ≡ first_met (first_met met.old.items (map nat_abs waiting.old.items))
        (map nat_abs labels.now)) }
    ensures waiting { OnOk result (All (IsPlace (length seen.old)) waiting.new.items) }
    ensures seen { OnOk result (IsSeen (length seen.old) met.new.items seen.new) }
    ensures count { length seen.new ≡ length seen.old }
{
    if labels.len() > WAITING.saturating_sub(waiting.len()) {
        meet_run(waiting, seen, met)?;
        waiting.clear();
        meet_run(labels, seen, met)?;
    } else {
        waiting.extend_from_slice(labels)?;
    }
    Ok(())
}

// Meets positions, given as labels.
fn meet_run(labels: &[i64], seen: &mut Seen, met: &mut Vec<usize>) -> Result<(), Want>
    requires places { All (IsPlace (length seen.old)) labels.now }
    requires seen { IsSeen (length seen.old) met.old.items seen.old }
    ensures met { OnOk result (met.new.items
        ≡ first_met met.old.items (map nat_abs labels.now)) }
    ensures seen { OnOk result (IsSeen (length seen.old) met.new.items seen.new) }
    ensures count { length seen.new ≡ length seen.old }
{
    for i in 0..labels.len() {
        meet_one(labels[i] as usize, seen, met)?;
    }
    Ok(())
}

// Meets a position.
fn meet_one(position: usize, seen: &mut Seen, met: &mut Vec<usize>) -> Result<(), Want>
    requires place { position < length seen.old }
    requires seen { IsSeen (length seen.old) met.old.items seen.old }
    ensures met { OnOk result (met.new.items ≡ first_met met.old.items (position ∷ [])) }
    ensures seen { OnOk result (IsSeen (length seen.old) met.new.items seen.new) }
    ensures count { length seen.new ≡ length seen.old }
{
    if !seen.insert(position) {
        return Ok(());
    }
    met.push(position)?;
    Ok(())
}
