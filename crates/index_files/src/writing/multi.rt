ghost use Rattle.std.specs.Prelude.{◌≡◌, ◌*◌, ◌<◌, ◌≤◌, length, map, nat_abs, slice_index, FitsSigned};
ghost use Rattle.std.specs.Prelude.{IsTrue, IfOk, IsErrOf, OnOk};
ghost use Rattle.std.specs.Int.{w64};
ghost use Rattle.std.specs.List.{All, flat_map, range_with_len};
ghost use Rattle.bcodes.specs.Value.{IsLegalMulti, Multi as MultiForm};
ghost use Rattle.bit_strings.specs.Packed.{packed, total_width};
ghost use Rattle.file_parts.specs.Storing.{behind, maker_of, written};
ghost use Rattle.multi_hash.specs.Maps.{map_keys, positions_at};
ghost use Rattle.index_files.specs.Canon.{inner_bytes, map_bytes, position_width};
ghost use Rattle.index_files.specs.File.{bits_of_entry, entry_bits, settled_inner};
ghost use Rattle.index_files.specs.Groups.{entries_of};
ghost use Rattle.index_files.specs.Writing.{Packs, Writes};

use crate::bit_widths::position_width;
use crate::writing::flat::write_flat;
use crate::writing::packed::{put_bits, write_run};
use crate::writing::parts::write_head;
use bcodes::{BinaryIndex, Meter, Plain, Want};
use bit_strings::{BitWriter, Packed};
use file_parts::Store;
use multi_hash::Multi;
use outside::{Shelf, Trouble};
use std::alloc::Global;

// A MultiHash, with its letters.
pub fn write_multi<H: Shelf>(
    alloc: Global,
    store: &mut Store<'_, H>,
    multi: &Multi<Plain>,
    meter: &mut Meter<Plain>,
) -> Result<(), Trouble>
    requires { IsTrue (H.is_making (maker_of store.old)) }
    ensures ok { OnOk result (written H.contents store.new
        ≡ behind (inner_bytes (settled_inner (MultiForm multi.now))) (written H.contents store.old)) }
    ensures shelf { Writes H.contents H.is_making H.faults store.old store.new result
        (IsErrOf result Trouble.Failed) }
{
    store.bytes(b"IBHm")?;
    write_head(store, multi.dim(), multi.count(), true)?;
    write_flat(store, multi.storage(), meter)?;
    store.u32(multi.b())?;
    store.u32(multi.nhash())?;
    store.u32(multi.nflip())?;
    write_maps(alloc, store, multi)?;
    Ok(())
}

fn write_maps<H: Shelf>(
    alloc: Global,
    store: &mut Store<'_, H>,
    multi: &Multi<Plain>,
) -> Result<(), Trouble>
    requires { IsTrue (H.is_making (maker_of store.old)) }
    ensures ok { OnOk result (written H.contents store.new
        ≡ behind (flat_map (map_bytes multi.now) (range_with_len 0 multi.now.nhash))
        (written H.contents store.old)) }
    ensures shelf { Writes H.contents H.is_making H.faults store.old store.new result
        (IsErrOf result Trouble.Failed) }
{
    for i in 0..multi.nhash() {
        write_map(alloc, store, multi, i)?;
    }
    Ok(())
}

fn write_map<H: Shelf>(
    alloc: Global,
    store: &mut Store<'_, H>,
    multi: &Multi<Plain>,
    i: u32,
) -> Result<(), Trouble>
    requires making { IsTrue (H.is_making (maker_of store.old)) }
    requires exists { i < multi.now.nhash }
    ensures ok { OnOk result (written H.contents store.new
        ≡ behind (map_bytes multi.now i) (written H.contents store.old)) }
    ensures shelf { Writes H.contents H.is_making H.faults store.old store.new result
        (IsErrOf result Trouble.Failed) }
{
    let width = position_width(multi.count());
    let run = packed_map(alloc, multi, i, width)?;
    store.u32(width)?;
    store.u64(multi.buckets(i) as u64)?;
    write_run(store, &run)?;
    Ok(())
}

// The key, the size and the positions of each bucket of a map.
fn packed_map(alloc: Global, multi: &Multi<Plain>, i: u32, width: u32) -> Result<Packed, Want>
    requires exists { i < multi.now.nhash }
    requires width { width ≤ 64 }
    ensures { IfOk result (λ run.
        run ≡ packed (entry_bits multi.now.b width (entries_of multi.now i))) }
{
    let _dim = multi.dim();
    let buckets = multi.buckets(i);
    let heads = buckets as u64 * u64::from(multi.b() + width);
    let positions = multi.count() * u64::from(width);
    let mut writer = BitWriter::new(alloc, heads + positions)?;
    for bucket in 0..buckets {
        put_bucket(&mut writer, multi, i, bucket, width);
    }
    Ok(writer.finish())
}

// The size of a bucket is cut to the width. Only that of a bucket of all codes can be too great,
// and an index with such a bucket is not saved.
fn put_bucket(writer: &mut BitWriter, multi: &Multi<Plain>, i: u32, bucket: usize, width: u32)
    requires legal { IsLegalMulti multi.now }
    requires exists { i < multi.now.nhash }
    requires bucket { bucket < length (map_keys multi.now i) }
    requires width { width ≤ 64 }
    requires room { total_width (bits_of_entry multi.now.b width (record {
      key = slice_index (map_keys multi.now i) bucket;
      positions = positions_at multi.now i bucket;
    })) ≤ writer.old.room }
    ensures { Packs (bits_of_entry multi.now.b width (record {
      key = slice_index (map_keys multi.now i) bucket;
      positions = positions_at multi.now i bucket;
    })) writer.old writer.new }
{
    let count = multi.bucket_len(i, bucket);
    put_bits(writer, multi.bucket_key(i, bucket), multi.b());
    put_bits(writer, count as u64, width);
    put_positions(writer, multi, i, bucket, width);
}

fn put_positions(writer: &mut BitWriter, multi: &Multi<Plain>, i: u32, bucket: usize, width: u32)
    requires legal { IsLegalMulti multi.now }
    requires exists { i < multi.now.nhash }
    requires bucket { bucket < length (map_keys multi.now i) }
    requires width { width ≤ 64 }
    requires room { length (positions_at multi.now i bucket) * width ≤ writer.old.room }
    ensures { Packs (map (λ p. record { number = p; width = width }) (positions_at multi.now i bucket))
        writer.old writer.new }
{
    let count = multi.bucket_len(i, bucket);
    let mut from = 0;
    while from < count {
        let part = multi.positions(i, bucket, from);
        put_labels(writer, part, width);
        from += part.len();
    }
}

// Positions, given as labels.
fn put_labels(writer: &mut BitWriter, labels: &[i64], width: u32)
    requires fits { All (FitsSigned w64) labels.now }
    requires width { width ≤ 64 }
    requires room { length labels.now * width ≤ writer.old.room }
    ensures { Packs (map (λ z. record { number = nat_abs z; width = width }) labels.now)
        writer.old writer.new }
{
    for i in 0..labels.len() {
        put_bits(writer, labels[i].unsigned_abs(), width);
    }
}
