ghost use Rattle.std.specs.Prelude.{◌≡◌, ℕ, ◌/◌, ◌<◌, ◌≤◌, length, map, min, slice_index_or, IfOk};
ghost use Rattle.std.specs.List.{All};
ghost use Rattle.code_pool.specs.Lists.{run_rows};
ghost use Rattle.ivf_index.specs.Near.{nearest_by};

use bcodes::{BinaryIndex, Codes, Ledger, Meter, Want};
use flat_index::Flat;
use kernel_table::{Kernel, Prepared};
use list_scan::room_for_run;
use std::alloc::Global;

/// The number of the nearest centroid of each code, the lowest where several are equally near.
pub fn nearest_lists<L: Ledger>(
    alloc: Global,
    quantizer: &Flat<L>,
    codes: &Codes,
    meter: &mut Meter<L>,
) -> Result<Vec<u32>, Want>
    requires dim { codes.now.dim ≡ quantizer.now.dim }
    requires some { 1 ≤ length quantizer.now.codes }
    requires few { length quantizer.now.codes ≤ 4194304 }
    ensures nearest { IfOk result
        (λ numbers. numbers.items ≡ map (nearest_by quantizer.now.codes) codes.now.codes) }
    ensures below { IfOk result
        (λ numbers. All (λ n. n < length quantizer.now.codes) numbers.items) }
{
    let mut distances = room_for_run(alloc, quantizer.count() as usize)?;
    let mut numbers = Vec::with_capacity(alloc, codes.len())?;
    for i in 0..codes.len() {
        let kernel = Prepared::new(codes.dim(), codes.get(i));
        let nearest = nearest_list(quantizer, &kernel, &mut distances, meter);
        numbers.push(nearest)?;
    }
    Ok(numbers)
}

// The number of the centroid that is nearest to a query. `distances` is room to work in.
fn nearest_list<L: Ledger>(
    quantizer: &Flat<L>,
    kernel: &Prepared<'_>,
    distances: &mut [u32],
    meter: &mut Meter<L>,
) -> u32
    requires size { length kernel.now ≡ quantizer.now.dim / 8 }
    requires some { 1 ≤ length quantizer.now.codes }
    requires few { length quantizer.now.codes ≤ 4194304 }
    requires written { min (length quantizer.now.codes) run_rows ≤ length distances.old }
    ensures nearest { result ≡ nearest_by quantizer.now.codes kernel.now }
    ensures below { result < length quantizer.now.codes }
    ensures room { length distances.new ≡ length distances.old }
{
    let count = quantizer.count();
    let mut nearest = 0;
    // No centroid is that far.
    let mut least = quantizer.dim().bits() + 1;
    let mut from = 0;
    while from < count {
        let run = quantizer.lend(from, meter);
        let part = &mut distances[..run.labels.len()];
        kernel.scan(run.codes, part);
        let first = first_least(part);
        if part[first] < least {
            least = part[first];
            nearest = from + first as u64;
        }
        from += run.labels.len() as u64;
    }
    nearest as u32
}

// The place of the least number, the first where there are several.
fn first_least(numbers: &[u32]) -> usize
    requires { 1 ≤ length numbers.now }
    ensures within { result < length numbers.now }
    ensures least { (i : ℕ) → i < length numbers.now
        → slice_index_or numbers.now result 0 ≤ slice_index_or numbers.now i 0 }
    ensures first { (i : ℕ) → i < result
        → slice_index_or numbers.now result 0 < slice_index_or numbers.now i 0 }
{
    let mut first = 0;
    for i in 1..numbers.len() {
        if numbers[i] < numbers[first] {
            first = i;
        }
    }
    first
}
