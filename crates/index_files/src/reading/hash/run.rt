ghost use Rattle.std.specs.Prelude.{◌≡◌, ◌+◌, ◌*◌, ◌≤◌, None, IfOk, IsErrOf, IsTrue, length};
ghost use Rattle.bcodes.specs.Bits.{key};
ghost use Rattle.file_parts.specs.Feeding.{GivesField, StaysOver, shelf_of};
ghost use Rattle.file_parts.specs.Format.{first_refusal};
ghost use Rattle.index_files.specs.HashFormat.{end_checks, hash_run_checks, run_field};
ghost use Rattle.index_files.specs.HashReading.{IsPacking, refusal_for, run_bytes};

use crate::bit_widths::bit_length;
use crate::reading::hash::bucket::Bucket;
use crate::reading::hash::packing::Packing;
use bcodes::Want;
use bit_strings::BitReader;
use file_parts::{Feed, PartError, Reason};
use key_buckets::KeyTable;
use outside::Shelf;
use std::alloc::Global;

// The packed run of keys and sizes, which has so many bytes.
#[tactic(auto, unfolding(crate::specs::HashFormat::run_field), using(file_parts::proofs::FeedLemmas::field_gives))]
pub fn read_run<H: Shelf>(
    alloc: Global,
    feed: &mut Feed<'_, H>,
    packing: Packing,
    bytes: u64,
) -> Result<Vec<u8>, PartError>
    requires reading { IsTrue (H.is_reading (shelf_of feed.old)) }
    requires packing { IsPacking packing }
    requires bytes { bytes ≡ run_bytes packing }
    ensures gives { GivesField H.contents (λ run. run.items)
        (run_field packing.b packing.width packing.count packing.total bytes)
        feed.old feed.new result }
    ensures shelf { StaysOver H.contents H.is_reading H.faults feed.old feed.new
        (IsErrOf result PartError.Failed) }
    ensures size { IfOk result (λ run. length run.items ≡ bytes) }
    ensures passes { IfOk result (λ run. first_refusal
        (hash_run_checks packing.b packing.width packing.count packing.total run.items) ≡ None) }
{
    let at = feed.at();
    let run = feed.run(alloc, bytes)?;
    match run_fault(alloc, packing, &run)? {
        None => Ok(run),
        Some(reason) => Err(PartError::bad(at, reason)),
    }
}

// What is wrong with a packed run first.
fn run_fault(alloc: Global, packing: Packing, run: &[u8]) -> Result<Option<Reason>, Want>
    requires packing { IsPacking packing }
    requires bytes { length run.now ≡ run_bytes packing }
    ensures { IfOk result (λ found. first_refusal
        (hash_run_checks packing.b packing.width packing.count packing.total run.now)
        ≡ refusal_for found) }
{
    let mut bits = BitReader::new(run);
    let mut seen = KeyTable::new(alloc);
    let mut sum = 0;
    let mut largest = 0;
    for i in 0..packing.count {
        let bucket = next_bucket(&mut bits, packing);
        if seen.list(bucket.key).is_some() {
            return Ok(Some(Reason::DuplicateKey));
        }
        if bucket.size == 0 {
            return Ok(Some(Reason::EmptyBucket));
        }
        seen.push(bucket.key, i as u32)?;
        sum += bucket.size;
        largest = largest.max(bucket.size);
    }
    Ok(end_fault(&bits, packing, sum, largest))
}

// What is wrong with a run first behind its last bucket, by the sum of the sizes and the largest.
fn end_fault(bits: &BitReader<'_>, packing: Packing, sum: u64, largest: u64) -> Option<Reason>
    ensures { first_refusal
        (end_checks packing.width packing.total sum largest bits.now.bytes bits.now.at)
        ≡ refusal_for result }
{
    if sum != packing.total {
        return Some(Reason::ListSizes);
    }
    if packing.width != bit_length(largest) {
        return Some(Reason::Bits);
    }
    if !bits.rest_is_zero() {
        return Some(Reason::Padding);
    }
    None
}

// The next bucket of a run.
pub fn next_bucket(bits: &mut BitReader<'_>, packing: Packing) -> Bucket
    requires b { packing.b ≤ 64 }
    requires width { packing.width ≤ 31 }
    requires within { bits.old.at + packing.b + packing.width ≤ 8 * length bits.old.bytes }
    ensures key { result.key ≡ key bits.old.bytes bits.old.at packing.b }
    ensures size { result.size ≡ key bits.old.bytes (bits.old.at + packing.b) packing.width }
    ensures moved { bits.new
        ≡ record bits.old { at = bits.old.at + packing.b + packing.width } }
{
    Bucket {
        key: next_number(bits, packing.b),
        size: next_number(bits, packing.width),
    }
}

fn next_number(bits: &mut BitReader<'_>, n: u32) -> u64
    requires most { n ≤ 64 }
    requires within { bits.old.at + n ≤ 8 * length bits.old.bytes }
    ensures number { result ≡ key bits.old.bytes bits.old.at n }
    ensures moved { bits.new ≡ record bits.old { at = bits.old.at + n } }
{
    match bits.read(n) {
        Ok(number) => number,
        Err(_) => unreachable!(),
    }
}
