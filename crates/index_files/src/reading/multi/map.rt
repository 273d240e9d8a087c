ghost use Rattle.std.specs.Prelude.{◌≡◌, ◌+◌, ◌*◌, ◌/◌, ◌^◌, ◌<◌, ◌≤◌, ◌==◌, ◌&&◌, ◌||◌, not};
ghost use Rattle.std.specs.Prelude.{IfOk, IsErrOf, IsTrue, length, nat_lt, replicate};
ghost use Rattle.std.specs.List.{range_with_len};
ghost use Rattle.file_parts.specs.declared.reason.Reason.TheVariants as reason;
ghost use Rattle.file_parts.specs.Feeding.{GivesField, StaysOver, shelf_of};
ghost use Rattle.file_parts.specs.Fields.{each, must_be, number};
ghost use Rattle.index_files.specs.Canon.{position_width};
ghost use Rattle.index_files.specs.HashFormat.{bucket_count_checks};
ghost use Rattle.index_files.specs.MapReading.{map_bits, run_field};
ghost use Rattle.index_files.specs.MultiFormat.{map_fields};

use crate::bit_widths::position_width;
use crate::reading::multi::keyed::Keyed;
use crate::reading::multi::map_run::check_run;
use crate::reading::wanted::read_wanted;
use bcodes::{BinaryIndex, Plain};
use file_parts::{Feed, PartError, Reason};
use flat_index::Flat;
use outside::Shelf;
use std::alloc::Global;

/// The maps of a MultiHash over a storage. Nothing of them is kept, since the codes fix them.
pub fn read_maps<H: Shelf>(
    alloc: Global,
    feed: &mut Feed<'_, H>,
    storage: &Flat<Plain>,
    nhash: u32,
    b: u32,
) -> Result<(), PartError>
    requires reading { IsTrue (H.is_reading (shelf_of feed.old)) }
    requires b_least { 1 ≤ b }
    requires b_most { b ≤ 64 }
    requires within { nhash * b ≤ storage.now.dim }
    requires few { length storage.now.codes ≤ 67108864 }
    ensures gives { GivesField H.contents (λ _. replicate nhash tt)
        (each (range_with_len 0 nhash) (map_fields storage.now.codes b))
        feed.old feed.new result }
    ensures shelf { StaysOver H.contents H.is_reading H.faults feed.old feed.new
        (IsErrOf result PartError.Failed) }
{
    for number in 0..nhash {
        read_map(alloc, feed, storage, number, b)?;
    }
    Ok(())
}

fn read_map<H: Shelf>(
    alloc: Global,
    feed: &mut Feed<'_, H>,
    storage: &Flat<Plain>,
    number: u32,
    b: u32,
) -> Result<(), PartError>
    requires reading { IsTrue (H.is_reading (shelf_of feed.old)) }
    requires b_least { 1 ≤ b }
    requires b_most { b ≤ 64 }
    requires within { (number + 1) * b ≤ storage.now.dim }
    requires few { length storage.now.codes ≤ 67108864 }
    ensures gives { GivesField H.contents (λ _. tt) (map_fields storage.now.codes b number)
        feed.old feed.new result }
    ensures shelf { StaysOver H.contents H.is_reading H.faults feed.old feed.new
        (IsErrOf result PartError.Failed) }
{
    let count = storage.count();
    let width = read_width(feed, count)?;
    let buckets = read_bucket_count(feed, count)?;
    let size = read_run_size(feed, count, b, width, buckets)?;
    read_run(alloc, feed, storage, number, b, width, buckets, size)?;
    Ok(())
}

#[tactic(auto, using(file_parts::proofs::FeedLemmas::checked_gives))]
fn read_width<H: Shelf>(feed: &mut Feed<'_, H>, count: u64) -> Result<u32, PartError>
    requires { IsTrue (H.is_reading (shelf_of feed.old)) }
    ensures gives { GivesField H.contents (λ n. n)
        (number 4 (must_be (position_width count) reason.Bits)) feed.old feed.new result }
    ensures shelf { StaysOver H.contents H.is_reading H.faults feed.old feed.new
        (IsErrOf result PartError.Failed) }
    ensures most { IfOk result (λ n. n ≤ 64) }
{
    let at = feed.at();
    let width = feed.u32()?;
    if width != position_width(count) {
        return Err(PartError::bad(at, Reason::Bits));
    }
    Ok(width)
}

// Whether so many codes cannot be in so many buckets.
fn is_bad_count(count: u64, buckets: u64) -> bool
    ensures { result ≡ (nat_lt count buckets || (buckets == 0 && not (count == 0))) }
{
    buckets > count || (buckets == 0 && count != 0)
}

#[tactic(auto, using(file_parts::proofs::FeedLemmas::checked_gives))]
fn read_bucket_count<H: Shelf>(feed: &mut Feed<'_, H>, count: u64) -> Result<u64, PartError>
    requires { IsTrue (H.is_reading (shelf_of feed.old)) }
    ensures gives { GivesField H.contents (λ n. n) (number 8 (bucket_count_checks count))
        feed.old feed.new result }
    ensures shelf { StaysOver H.contents H.is_reading H.faults feed.old feed.new
        (IsErrOf result PartError.Failed) }
    ensures most { IfOk result (λ n. n ≤ count) }
{
    let at = feed.at();
    let buckets = feed.u64()?;
    if is_bad_count(count, buckets) {
        return Err(PartError::bad(at, Reason::Number));
    }
    Ok(buckets)
}

#[tactic(auto, using(file_parts::proofs::FeedLemmas::checked_gives))]
fn read_run_size<H: Shelf>(
    feed: &mut Feed<'_, H>,
    count: u64,
    b: u32,
    width: u32,
    buckets: u64,
) -> Result<u64, PartError>
    requires reading { IsTrue (H.is_reading (shelf_of feed.old)) }
    requires b { b ≤ 64 }
    requires width { width ≤ 64 }
    requires few { count ≤ 67108864 }
    requires buckets { buckets ≤ count }
    ensures gives { GivesField H.contents (λ n. n)
        (number 8 (must_be ((map_bits count b width buckets + 7) / 8) reason.VectorSize))
        feed.old feed.new result }
    ensures shelf { StaysOver H.contents H.is_reading H.faults feed.old feed.new
        (IsErrOf result PartError.Failed) }
    ensures size { IfOk result (λ n. n ≡ (map_bits count b width buckets + 7) / 8) }
{
    let size = run_size(count, b, width, buckets);
    read_wanted(feed, size, Reason::VectorSize)
}

// The bytes of the packed run of a map.
fn run_size(count: u64, b: u32, width: u32, buckets: u64) -> u64
    requires b { b ≤ 64 }
    requires width { width ≤ 64 }
    requires few { count ≤ 67108864 }
    requires buckets { buckets ≤ count }
    ensures { result ≡ (map_bits count b width buckets + 7) / 8 }
{
    let heads = u64::from(b + width) * buckets;
    let positions = count * u64::from(width);
    (heads + positions).div_ceil(8)
}

// The packed run of a map, tried by its checks.
fn read_run<H: Shelf>(
    alloc: Global,
    feed: &mut Feed<'_, H>,
    storage: &Flat<Plain>,
    number: u32,
    b: u32,
    width: u32,
    buckets: u64,
    size: u64,
) -> Result<(), PartError>
    requires reading { IsTrue (H.is_reading (shelf_of feed.old)) }
    requires b_least { 1 ≤ b }
    requires b_most { b ≤ 64 }
    requires within { (number + 1) * b ≤ storage.now.dim }
    requires few { length storage.now.codes ≤ 67108864 }
    requires width { width ≤ 64 }
    requires whole { map_bits (length storage.now.codes) b width buckets ≤ 8 * size }
    ensures gives { GivesField H.contents (λ _. tt)
        (run_field storage.now.codes number b width buckets size) feed.old feed.new result }
    ensures shelf { StaysOver H.contents H.is_reading H.faults feed.old feed.new
        (IsErrOf result PartError.Failed) }
{
    let at = feed.at();
    let run = feed.run(alloc, size)?;
    let codes = Keyed::new(alloc, storage, number, b)?;
    check_run(alloc, at, &run, &codes, width, buckets)?;
    Ok(())
}
