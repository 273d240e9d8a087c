ghost use Rattle.std.specs.Prelude.{◌≡◌, ◌<◌, ◌≤◌, length, map, IsTrue, IfOk, IsErrOf, OnOk};
ghost use Rattle.std.specs.List.{flat_map};
ghost use Rattle.bcodes.specs.Value.{Hash as HashForm};
ghost use Rattle.bit_strings.specs.Packed.{packed};
ghost use Rattle.file_parts.specs.Storing.{behind, maker_of, written};
ghost use Rattle.hash_index.specs.Keys.{bucket, bucket_at, hash_keys};
ghost use Rattle.index_files.specs.Canon.{bucket_bytes, ids_bytes, inner_bytes, size_width};
ghost use Rattle.index_files.specs.File.{hash_bits, settled_inner};
ghost use Rattle.index_files.specs.Writing.{Writes, gathered};

use crate::bit_widths::bit_length;
use crate::writing::held::{Held, put, put_ids, put_u64, write_held};
use crate::writing::packed::{put_bits, write_run};
use crate::writing::parts::write_head;
use bcodes::{BinaryIndex, Meter, Plain, Want};
use bit_strings::{BitWriter, Packed};
use file_parts::Store;
use hash_index::Hash;
use outside::{Shelf, Trouble};
use std::alloc::Global;

// A Hash, with its letters.
pub fn write_hash<H: Shelf>(
    alloc: Global,
    store: &mut Store<'_, H>,
    hash: &Hash<Plain>,
    meter: &mut Meter<Plain>,
) -> Result<(), Trouble>
    requires { IsTrue (H.is_making (maker_of store.old)) }
    ensures ok { OnOk result (written H.contents store.new
        ≡ behind (inner_bytes (settled_inner (HashForm hash.now))) (written H.contents store.old)) }
    ensures shelf { Writes H.contents H.is_making H.faults store.old store.new result
        (IsErrOf result Trouble.Failed) }
{
    let width = width_of_sizes(hash);
    let run = packed_sizes(alloc, hash, width)?;
    store.bytes(b"IBHh")?;
    write_head(store, hash.dim(), hash.count(), true)?;
    store.u32(hash.b())?;
    store.u32(hash.nflip())?;
    store.u64(hash.buckets() as u64)?;
    store.u32(width)?;
    write_run(store, &run)?;
    write_buckets(store, hash, meter)?;
    Ok(())
}

// The least width for the size of each bucket.
fn width_of_sizes(hash: &Hash<Plain>) -> u32
    ensures value { result ≡ size_width hash.now }
    ensures most { result ≤ 64 }
{
    let mut largest = 0;
    for i in 0..hash.buckets() {
        largest = largest.max(hash.bucket_len(i));
    }
    bit_length(largest as u64)
}

// The key and the size of each bucket.
fn packed_sizes(alloc: Global, hash: &Hash<Plain>, width: u32) -> Result<Packed, Want>
    requires { width ≤ 64 }
    ensures { IfOk result (λ run. run ≡ packed (hash_bits hash.now width)) }
{
    let _dim = hash.dim();
    let count = hash.buckets();
    let b = hash.b();
    let mut writer = BitWriter::new(alloc, count as u64 * u64::from(b + width))?;
    for i in 0..count {
        put_bits(&mut writer, hash.bucket_key(i), b);
        put_bits(&mut writer, hash.bucket_len(i) as u64, width);
    }
    Ok(writer.finish())
}

// The rows of each bucket.
fn write_buckets<H: Shelf>(
    store: &mut Store<'_, H>,
    hash: &Hash<Plain>,
    meter: &mut Meter<Plain>,
) -> Result<(), Trouble>
    requires { IsTrue (H.is_making (maker_of store.old)) }
    ensures ok { OnOk result (written H.contents store.new
        ≡ behind (flat_map (λ k. bucket_bytes (bucket hash.now k)) (hash_keys hash.now))
        (written H.contents store.old)) }
    ensures shelf { Writes H.contents H.is_making H.faults store.old store.new result
        (IsErrOf result Trouble.Failed) }
{
    let mut held = Held::new();
    put_buckets(store, &mut held, hash, meter)?;
    write_held(store, &mut held)?;
    Ok(())
}

fn put_buckets<H: Shelf>(
    store: &mut Store<'_, H>,
    held: &mut Held,
    hash: &Hash<Plain>,
    meter: &mut Meter<Plain>,
) -> Result<(), Trouble>
    requires { IsTrue (H.is_making (maker_of store.old)) }
    ensures ok { OnOk result (gathered H.contents store.new held.new
        ≡ behind (flat_map (λ k. bucket_bytes (bucket hash.now k)) (hash_keys hash.now))
        (gathered H.contents store.old held.old)) }
    ensures shelf { Writes H.contents H.is_making H.faults store.old store.new result
        (IsErrOf result Trouble.Failed) }
{
    for i in 0..hash.buckets() {
        put_bucket(store, held, hash, i, meter)?;
    }
    Ok(())
}

// The ids of a bucket, and then its codes.
fn put_bucket<H: Shelf>(
    store: &mut Store<'_, H>,
    held: &mut Held,
    hash: &Hash<Plain>,
    i: usize,
    meter: &mut Meter<Plain>,
) -> Result<(), Trouble>
    requires making { IsTrue (H.is_making (maker_of store.old)) }
    requires exists { i < length (hash_keys hash.now) }
    ensures ok { OnOk result (gathered H.contents store.new held.new
        ≡ behind (bucket_bytes (bucket_at hash.now i)) (gathered H.contents store.old held.old)) }
    ensures shelf { Writes H.contents H.is_making H.faults store.old store.new result
        (IsErrOf result Trouble.Failed) }
{
    let count = hash.bucket_len(i);
    let size = hash.dim().bytes();
    put_u64(store, held, count as u64)?;
    put_bucket_ids(store, held, hash, i, meter)?;
    put_u64(store, held, count as u64 * size as u64)?;
    put_bucket_codes(store, held, hash, i, meter)?;
    Ok(())
}

fn put_bucket_ids<H: Shelf>(
    store: &mut Store<'_, H>,
    held: &mut Held,
    hash: &Hash<Plain>,
    i: usize,
    meter: &mut Meter<Plain>,
) -> Result<(), Trouble>
    requires making { IsTrue (H.is_making (maker_of store.old)) }
    requires exists { i < length (hash_keys hash.now) }
    ensures ok { OnOk result (gathered H.contents store.new held.new
        ≡ behind (ids_bytes (map (λ row. row.label) (bucket_at hash.now i)))
        (gathered H.contents store.old held.old)) }
    ensures shelf { Writes H.contents H.is_making H.faults store.old store.new result
        (IsErrOf result Trouble.Failed) }
{
    let count = hash.bucket_len(i);
    let mut from = 0;
    while from < count {
        let run = hash.bucket_lend(i, from, meter);
        put_ids(store, held, run.labels)?;
        from += run.labels.len();
    }
    Ok(())
}

fn put_bucket_codes<H: Shelf>(
    store: &mut Store<'_, H>,
    held: &mut Held,
    hash: &Hash<Plain>,
    i: usize,
    meter: &mut Meter<Plain>,
) -> Result<(), Trouble>
    requires making { IsTrue (H.is_making (maker_of store.old)) }
    requires exists { i < length (hash_keys hash.now) }
    ensures ok { OnOk result (gathered H.contents store.new held.new
        ≡ behind (flat_map (λ row. row.code) (bucket_at hash.now i))
        (gathered H.contents store.old held.old)) }
    ensures shelf { Writes H.contents H.is_making H.faults store.old store.new result
        (IsErrOf result Trouble.Failed) }
{
    let count = hash.bucket_len(i);
    let mut from = 0;
    while from < count {
        let run = hash.bucket_lend(i, from, meter);
        put(store, held, run.codes)?;
        from += run.labels.len();
    }
    Ok(())
}
