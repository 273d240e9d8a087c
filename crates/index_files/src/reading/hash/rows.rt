ghost use Rattle.std.specs.Prelude.{◌≡◌, ◌+◌, ◌/◌, ◌≤◌, ◌++◌, [], ◌&&◌, None, false};
ghost use Rattle.std.specs.Prelude.{IfOk, IsErrOf, IsTrue, OnOk, length};
ghost use Rattle.bcodes.specs.Ranges.{load_limit};
ghost use Rattle.bcodes.specs.Value.{weight};
ghost use Rattle.file_parts.specs.Feeding.{GivesField, StaysOver, shelf_of};
ghost use Rattle.file_parts.specs.Fields.{repeated};
ghost use Rattle.file_parts.specs.Format.{first_refusal};
ghost use Rattle.index_files.specs.FlatFormat.{is_inside, is_no_place};
ghost use Rattle.index_files.specs.HashFormat.{all_rows, bucket_id, bucket_rows};
ghost use Rattle.index_files.specs.HashFormat.{buckets_in, hash_run_checks, rows_under};
ghost use Rattle.index_files.specs.HashReading.{Gains, GainsRows, IsPacking, PassIds};
ghost use Rattle.index_files.specs.HashReading.{behind_rows, key_size, run_bytes};

use crate::reading::hash::bucket::Bucket;
use crate::reading::hash::gathered::Gathered;
use crate::reading::hash::packing::Packing;
use crate::reading::hash::run::next_bucket;
use crate::reading::wanted::read_wanted;
use bcodes::{BinaryIndex, Plain};
use bit_strings::BitReader;
use file_parts::{Feed, PartError, Reason, Role};
use hash_index::Hash;
use outside::Shelf;
use std::alloc::Global;

// The rows of the buckets of a run.
pub fn read_all_rows<H: Shelf>(
    alloc: Global,
    feed: &mut Feed<'_, H>,
    role: Role,
    packing: Packing,
    run: &[u8],
    hash: &mut Hash<Plain>,
) -> Result<(), PartError>
    requires reading { IsTrue (H.is_reading (shelf_of feed.old)) }
    requires none { hash.old.rows ≡ [] }
    requires b { hash.old.b ≡ packing.b }
    requires packing { IsPacking packing }
    requires load { weight hash.old.dim 1 packing.total 0 ≤ load_limit }
    requires size { length run.now ≡ run_bytes packing }
    requires passes { first_refusal
        (hash_run_checks packing.b packing.width packing.count packing.total run.now) ≡ None }
    ensures gives { GivesField H.contents (λ _. hash.new.rows)
        (all_rows role (hash.old.dim / 8) packing.total packing.b
        (buckets_in run.now packing.b packing.width packing.count))
        feed.old feed.new result }
    ensures shelf { StaysOver H.contents H.is_reading H.faults feed.old feed.new
        (IsErrOf result PartError.Failed) }
    ensures gains { OnOk result (GainsRows role packing.total packing.total hash.old hash.new) }
{
    let mut gathered = Gathered::new(alloc, hash.dim(), hash.b())?;
    let mut ids = Vec::new(alloc);
    let mut bits = BitReader::new(run);
    for _ in 0..packing.count {
        let bucket = next_bucket(&mut bits, packing);
        read_bucket(
            feed,
            role,
            packing.total,
            bucket,
            &mut ids,
            &mut gathered,
            hash,
        )?;
    }
    Ok(())
}

// The rows of a bucket, put behind those that the index has. The vector is for its ids, and its
// rows are gathered in between.
fn read_bucket<H: Shelf>(
    feed: &mut Feed<'_, H>,
    role: Role,
    total: u64,
    bucket: Bucket,
    ids: &mut Vec<i64>,
    gathered: &mut Gathered,
    hash: &mut Hash<Plain>,
) -> Result<(), PartError>
    requires reading { IsTrue (H.is_reading (shelf_of feed.old)) }
    requires dim { gathered.old.dim ≡ hash.old.dim }
    requires b { gathered.old.b ≡ hash.old.b }
    requires load { weight hash.old.dim 1 (length hash.old.rows + bucket.size) 0 ≤ load_limit }
    ensures gives { GivesField H.contents (λ _. hash.new.rows) (behind_rows hash.old.rows
        (bucket_rows role (hash.old.dim / 8) total hash.old.b (key_size bucket)))
        feed.old feed.new result }
    ensures shelf { StaysOver H.contents H.is_reading H.faults feed.old feed.new
        (IsErrOf result PartError.Failed) }
    ensures gains { OnOk result (GainsRows role total bucket.size hash.old hash.new) }
    ensures dim { OnOk result (gathered.new.dim ≡ hash.new.dim) }
    ensures b { OnOk result (gathered.new.b ≡ hash.new.b) }
{
    let dim = hash.dim();
    read_wanted(feed, bucket.size, Reason::VectorSize)?;
    read_ids(feed, role, total, bucket.size, ids)?;
    let bytes = bucket.size * dim.bytes() as u64;
    read_wanted(feed, bytes, Reason::VectorSize)?;
    read_codes(feed, bucket, ids, gathered, hash)?;
    Ok(())
}

// The ids of a bucket, in place of what the vector has.
fn read_ids<H: Shelf>(
    feed: &mut Feed<'_, H>,
    role: Role,
    total: u64,
    count: u64,
    ids: &mut Vec<i64>,
) -> Result<(), PartError>
    requires { IsTrue (H.is_reading (shelf_of feed.old)) }
    ensures gives { GivesField H.contents (λ _. ids.new.items)
        (repeated count (bucket_id role total)) feed.old feed.new result }
    ensures shelf { StaysOver H.contents H.is_reading H.faults feed.old feed.new
        (IsErrOf result PartError.Failed) }
    ensures count { OnOk result (length ids.new.items ≡ count) }
    ensures pass { OnOk result (PassIds role total ids.new.items) }
{
    ids.clear();
    for _ in 0..count {
        let id = read_id(feed, role, total)?;
        ids.push(id)?;
    }
    Ok(())
}

#[tactic(auto, unfolding(crate::specs::HashFormat::bucket_id), using(crate::proofs::HashReading::signed_checked))]
fn read_id<H: Shelf>(feed: &mut Feed<'_, H>, role: Role, total: u64) -> Result<i64, PartError>
    requires { IsTrue (H.is_reading (shelf_of feed.old)) }
    ensures gives { GivesField H.contents (λ id. id) (bucket_id role total)
        feed.old feed.new result }
    ensures shelf { StaysOver H.contents H.is_reading H.faults feed.old feed.new
        (IsErrOf result PartError.Failed) }
    ensures pass { IfOk result (λ id. (is_inside role && is_no_place total id) ≡ false) }
{
    let at = feed.at();
    let id = feed.i64()?;
    if is_out(role, total, id) {
        return Err(PartError::bad(at, Reason::IdRange));
    }
    Ok(id)
}

// Whether an id may not stand here: inside an IDMap ids are places.
fn is_out(role: Role, total: u64, id: i64) -> bool
    ensures { result ≡ (is_inside role && is_no_place total id) }
{
    match role {
        Role::Within { .. } => id < 0 || id as u64 >= total,
        Role::Outermost | Role::Quantizer { .. } => false,
    }
}

// The codes of a bucket, put under their ids behind the rows that the index has.
fn read_codes<H: Shelf>(
    feed: &mut Feed<'_, H>,
    bucket: Bucket,
    ids: &[i64],
    gathered: &mut Gathered,
    hash: &mut Hash<Plain>,
) -> Result<(), PartError>
    requires reading { IsTrue (H.is_reading (shelf_of feed.old)) }
    requires count { length ids.now ≡ bucket.size }
    requires dim { gathered.old.dim ≡ hash.old.dim }
    requires b { gathered.old.b ≡ hash.old.b }
    requires load { weight hash.old.dim 1 (length hash.old.rows + bucket.size) 0 ≤ load_limit }
    ensures gives { GivesField H.contents (λ _. hash.new.rows) (behind_rows hash.old.rows
        (rows_under (hash.old.dim / 8) hash.old.b (key_size bucket) ids.now))
        feed.old feed.new result }
    ensures shelf { StaysOver H.contents H.is_reading H.faults feed.old feed.new
        (IsErrOf result PartError.Failed) }
    ensures gains { OnOk result (Gains ids.now hash.old hash.new) }
    ensures dim { OnOk result (gathered.new.dim ≡ hash.new.dim) }
    ensures b { OnOk result (gathered.new.b ≡ hash.new.b) }
{
    // For the proof that keys have 1 to 64 bits, and no more than a code.
    let _dim = hash.dim();
    gathered.begin(bucket.key);
    for i in 0..ids.len() {
        gathered.put_if_full(hash)?;
        gathered.read_code(feed)?;
        gathered.push(ids[i])?;
    }
    gathered.put_into(hash)?;
    Ok(())
}
