ghost use Rattle.std.specs.Prelude.{◌≡◌, ◌+◌, ◌*◌, ◌≤◌, ◌++◌, length, map, IfOk, OnOk};
ghost use Rattle.code_pool.specs.Lists.{rows_in};
ghost use Rattle.key_buckets.specs.Keys.{key_in};
ghost use Rattle.multi_hash.specs.Inside.{row_key};

use bcodes::{BinaryIndex, Ledger, Meter, Want, chunk, code_at};
use code_pool::Run;
use flat_index::Flat;
use std::alloc::Global;

/// The keys of `b` bits of all codes of a Flat under map `i`, in the order of their positions.
/// Nothing is promised of how far the meter rises.
///
/// # Errors
///
/// If memory runs out.
pub fn keys_under<L: Ledger>(
    alloc: Global,
    storage: &Flat<L>,
    i: u32,
    b: u32,
    meter: &mut Meter<L>,
) -> Result<Vec<u64>, Want>
    requires b_least { 1 ≤ b }
    requires b_most { b ≤ 64 }
    requires within { (i + 1) * b ≤ storage.now.dim }
    ensures { IfOk result (λ keys. keys.items ≡ map (key_in i b) storage.now.codes) }
{
    let size = storage.dim().bytes();
    let count = storage.count();
    let mut keys = Vec::with_capacity(alloc, count as usize)?;
    let mut from = 0;
    while from < count {
        let run = storage.lend(from, meter);
        push_keys(&mut keys, run, size, i, b)?;
        from += run.labels.len() as u64;
    }
    Ok(keys)
}

// Appends the keys of the codes of a run.
fn push_keys(keys: &mut Vec<u64>, run: Run<'_>, size: usize, i: u32, b: u32) -> Result<(), Want>
    requires b_least { 1 ≤ b }
    requires b_most { b ≤ 64 }
    requires size_least { 1 ≤ size }
    requires within { (i + 1) * b ≤ 8 * size }
    requires whole { length run.codes.now ≡ length run.labels.now * size }
    ensures { OnOk result (keys.new.items ≡ keys.old.items
        ++ map (row_key i b) (rows_in size run.entry.labels.now run.entry.codes.now)) }
{
    for at in 0..run.labels.len() {
        keys.push(chunk(code_at(run.codes, size, at), i, b))?;
    }
    Ok(())
}
