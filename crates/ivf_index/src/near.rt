ghost use Rattle.std.specs.Prelude.{◌≡◌, ◌+◌, ◌/◌, ◌<◌, ◌≤◌, length, map, nat_abs, take, IfOk};
ghost use Rattle.std.specs.Prelude.{OnOk};
ghost use Rattle.std.specs.List.{All};
ghost use Rattle.bcodes.specs.Ranges.{raised};
ghost use Rattle.code_pool.specs.Lists.{list_at};
ghost use Rattle.ivf_index.specs.Near.{IsNumber, count_in, front_by, lists_by, near_by, nearest_by};

use bcodes::{BinaryIndex, Codes, Hit, Ledger, Meter, Want};
use code_pool::Pool;
use flat_index::Flat;
use std::alloc::Global;

/// The numbers of the first `probes` lists by the distance of their centroids, up to where they
/// have `max_codes` rows.
pub fn near_lists<L: Ledger>(
    alloc: Global,
    quantizer: &Flat<L>,
    lists: &Pool<L>,
    probes: u32,
    max_codes: u64,
    q: &[u8],
    meter: &mut Meter<L>,
) -> Result<Vec<u32>, Want>
    requires size { length q.now ≡ quantizer.now.dim / 8 }
    requires some { 1 ≤ probes }
    requires few { length quantizer.now.codes ≤ 4194304 }
    requires lists { length quantizer.now.codes ≤ length lists.now.lists }
    ensures near { IfOk result
        (λ near. near.items ≡ near_by (count_in lists.now) max_codes
        (take probes (lists_by quantizer.now.codes q.now))) }
    ensures below { IfOk result (λ near. All (λ n. n < length quantizer.now.codes) near.items) }
    ensures lent { OnOk result
        (meter.new.lent ≡ raised meter.old.lent (length quantizer.now.codes)) }
    ensures lent_least { meter.old.lent ≤ meter.new.lent }
    ensures lent_most { meter.new.lent ≤ meter.old.lent + length quantizer.now.codes }
    ensures asked { meter.new.asked ≡ meter.old.asked }
{
    let hits = quantizer.search(alloc, q, probes, meter)?;
    let mut near = numbers_of(alloc, hits.as_slice())?;
    let n = front(lists, &near, max_codes);
    near.truncate(n);
    Ok(near)
}

// The labels of hits, which are list numbers.
fn numbers_of(alloc: Global, hits: &[Hit]) -> Result<Vec<u32>, Want>
    requires { All (λ h. IsNumber 4194304 h.label) hits.now }
    ensures { IfOk result (λ numbers. numbers.items ≡ map (λ h. nat_abs h.label) hits.now) }
{
    let mut numbers = Vec::with_capacity(alloc, hits.len())?;
    for hit in hits {
        numbers.push(number_of(hit.label))?;
    }
    Ok(numbers)
}

fn number_of(label: i64) -> u32
    requires { IsNumber 4194304 label }
    ensures { result ≡ nat_abs label }
{
    label as u32
}

// How many of the lists are taken until they have `max_codes` rows, or all where it is 0.
fn front<L: Ledger>(pool: &Pool<L>, lists: &[u32], max_codes: u64) -> usize
    requires { All (λ l. l < length pool.now.lists) lists.now }
    ensures { take result lists.now ≡ near_by (count_in pool.now) max_codes lists.now }
{
    if max_codes == 0 {
        return lists.len();
    }
    front_within(pool, lists, max_codes)
}

fn front_within<L: Ledger>(pool: &Pool<L>, lists: &[u32], max_codes: u64) -> usize
    requires { All (λ l. l < length pool.now.lists) lists.now }
    ensures { take result lists.now ≡ front_by (count_in pool.now) max_codes lists.now }
{
    let mut wanted = max_codes;
    let mut n = 0;
    while n < lists.len() && wanted > 0 {
        wanted = wanted.saturating_sub(pool.len(lists[n]) as u64);
        n += 1;
    }
    n
}
