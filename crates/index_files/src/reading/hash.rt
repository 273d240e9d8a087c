mod bucket;
mod gathered;
mod packing;
mod rows;
mod run;

ghost use Rattle.std.specs.Prelude.{◌≡◌, ◌+◌, ◌*◌, ◌/◌, ◌≤◌, ◌++◌, [], IfOk, IsErrOf, IsTrue, OnOk};
ghost use Rattle.bcodes.specs.Ranges.{IsDim, load_limit};
ghost use Rattle.bcodes.specs.Value.{Hash as HashForm, empty_hash, weight};
ghost use Rattle.file_parts.specs.Feeding.{GivesField, StaysOver, shelf_of};
ghost use Rattle.file_parts.specs.Heads.{IsHead, view_head};
ghost use Rattle.index_files.specs.HashFormat.{b_field, bucket_count_field, buckets_of, hash_body};
ghost use Rattle.index_files.specs.HashFormat.{hash_buckets, hash_rest, nflip_field};
ghost use Rattle.index_files.specs.HashFormat.{width_field};
ghost use Rattle.index_files.specs.HashReading.{GainsRows};
ghost use Rattle.index_files.specs.Laws.{FitsRole, IsBodyRole};

use crate::reading::flat::dim_of;
use crate::reading::hash::packing::Packing;
use crate::reading::hash::rows::read_all_rows;
use crate::reading::hash::run::read_run;
use crate::reading::wanted::read_wanted;
use bcodes::{BinaryIndex, LOAD_LIMIT, Plain, Want};
use file_parts::{Feed, Head, PartError, Reason, Role};
use hash_index::Hash;
use outside::Shelf;
use std::alloc::Global;

// What follows the letters of a Hash.
#[tactic(auto, unfolding(crate::specs::HashFormat::hash_body), using(file_parts::proofs::Reading::run_then))]
pub fn read_hash<H: Shelf>(
    alloc: Global,
    feed: &mut Feed<'_, H>,
    role: Role,
) -> Result<Hash<Plain>, PartError>
    requires reading { IsTrue (H.is_reading (shelf_of feed.old)) }
    requires role { IsBodyRole role }
    ensures gives { GivesField H.contents (λ hash. hash) (hash_body role)
        feed.old feed.new result }
    ensures shelf { StaysOver H.contents H.is_reading H.faults feed.old feed.new
        (IsErrOf result PartError.Failed) }
    ensures fits { IfOk result (λ hash. FitsRole role (HashForm hash)) }
{
    let head = feed.head(role)?;
    let hash = read_rest(alloc, feed, role, head)?;
    Ok(hash)
}

// What follows the header.
#[tactic(auto, unfolding(crate::specs::HashFormat::hash_rest), using(file_parts::proofs::Reading::run_then, crate::proofs::HashReading::fits_hash))]
fn read_rest<H: Shelf>(
    alloc: Global,
    feed: &mut Feed<'_, H>,
    role: Role,
    head: Head,
) -> Result<Hash<Plain>, PartError>
    requires reading { IsTrue (H.is_reading (shelf_of feed.old)) }
    requires role { IsBodyRole role }
    requires head { IsHead role head }
    ensures gives { GivesField H.contents (λ hash. hash) (hash_rest role (view_head head))
        feed.old feed.new result }
    ensures shelf { StaysOver H.contents H.is_reading H.faults feed.old feed.new
        (IsErrOf result PartError.Failed) }
    ensures fits { IfOk result (λ hash. FitsRole role (HashForm hash)) }
{
    let b = read_b(feed, role, head)?;
    let nflip = read_nflip(feed, b)?;
    let mut hash = empty_hash(alloc, head.dim, b, nflip)?;
    read_buckets(alloc, feed, role, head.count, &mut hash)?;
    Ok(hash)
}

// An index with these settings and no rows.
fn empty_hash(alloc: Global, d: u32, b: u32, nflip: u32) -> Result<Hash<Plain>, Want>
    requires dim { IsDim d }
    requires b_least { 1 ≤ b }
    requires b_most { b ≤ 64 }
    requires b_within { b ≤ d }
    requires nflip { nflip ≤ b }
    ensures { IfOk result (λ hash. hash ≡ record (empty_hash d b) { nflip = nflip }) }
{
    let mut hash = Hash::new(alloc, dim_of(d), b)?;
    hash.set_nflip(nflip);
    Ok(hash)
}

#[tactic(auto, unfolding(crate::specs::HashFormat::b_field), using(file_parts::proofs::FeedLemmas::checked_gives, crate::proofs::HashReading::head_few))]
fn read_b<H: Shelf>(feed: &mut Feed<'_, H>, role: Role, head: Head) -> Result<u32, PartError>
    requires reading { IsTrue (H.is_reading (shelf_of feed.old)) }
    requires head { IsHead role head }
    ensures gives { GivesField H.contents (λ b. b) (b_field (view_head head))
        feed.old feed.new result }
    ensures shelf { StaysOver H.contents H.is_reading H.faults feed.old feed.new
        (IsErrOf result PartError.Failed) }
    ensures least { IfOk result (λ b. 1 ≤ b) }
    ensures most { IfOk result (λ b. b ≤ 64) }
    ensures within { IfOk result (λ b. b ≤ head.dim) }
    ensures load { OnOk result (head.count * (head.dim / 8 + 80) ≤ load_limit) }
{
    let at = feed.at();
    let b = feed.u32()?;
    if b < 1 || b > 64 || head.dim < b {
        return Err(PartError::bad(at, Reason::Number));
    }
    if head.count * u64::from(head.dim / 8 + 80) > LOAD_LIMIT {
        return Err(PartError::bad(at, Reason::Load));
    }
    Ok(b)
}

#[tactic(auto, unfolding(crate::specs::HashFormat::nflip_field), using(file_parts::proofs::FeedLemmas::checked_gives))]
fn read_nflip<H: Shelf>(feed: &mut Feed<'_, H>, b: u32) -> Result<u32, PartError>
    requires { IsTrue (H.is_reading (shelf_of feed.old)) }
    ensures gives { GivesField H.contents (λ n. n) (nflip_field b) feed.old feed.new result }
    ensures shelf { StaysOver H.contents H.is_reading H.faults feed.old feed.new
        (IsErrOf result PartError.Failed) }
    ensures most { IfOk result (λ n. n ≤ b) }
{
    let at = feed.at();
    let nflip = feed.u32()?;
    if nflip > b {
        return Err(PartError::bad(at, Reason::Number));
    }
    Ok(nflip)
}

// What follows the settings. The rows go into the index, which has none.
#[tactic(auto, unfolding(crate::specs::HashFormat::hash_buckets), using(file_parts::proofs::Reading::run_then))]
fn read_buckets<H: Shelf>(
    alloc: Global,
    feed: &mut Feed<'_, H>,
    role: Role,
    total: u64,
    hash: &mut Hash<Plain>,
) -> Result<(), PartError>
    requires reading { IsTrue (H.is_reading (shelf_of feed.old)) }
    requires none { hash.old.rows ≡ [] }
    requires load { weight hash.old.dim 1 total 0 ≤ load_limit }
    ensures gives { GivesField H.contents (λ _. hash.new.rows)
        (hash_buckets role (hash.old.dim / 8) total hash.old.b)
        feed.old feed.new result }
    ensures shelf { StaysOver H.contents H.is_reading H.faults feed.old feed.new
        (IsErrOf result PartError.Failed) }
    ensures gains { OnOk result (GainsRows role total total hash.old hash.new) }
{
    let count = read_bucket_count(feed, total)?;
    let width = read_width(feed)?;
    let packing = Packing {
        b: hash.b(),
        width,
        count,
        total,
    };
    read_packed(alloc, feed, role, packing, hash)?;
    Ok(())
}

#[tactic(auto, unfolding(crate::specs::HashFormat::bucket_count_field), using(file_parts::proofs::FeedLemmas::checked_gives))]
fn read_bucket_count<H: Shelf>(feed: &mut Feed<'_, H>, total: u64) -> Result<u64, PartError>
    requires { IsTrue (H.is_reading (shelf_of feed.old)) }
    ensures gives { GivesField H.contents (λ n. n) (bucket_count_field total)
        feed.old feed.new result }
    ensures shelf { StaysOver H.contents H.is_reading H.faults feed.old feed.new
        (IsErrOf result PartError.Failed) }
    ensures most { IfOk result (λ n. n ≤ total) }
{
    let at = feed.at();
    let count = feed.u64()?;
    if count > total || (count == 0 && total != 0) {
        return Err(PartError::bad(at, Reason::Number));
    }
    Ok(count)
}

#[tactic(auto, unfolding(crate::specs::HashFormat::width_field), using(file_parts::proofs::FeedLemmas::checked_gives))]
fn read_width<H: Shelf>(feed: &mut Feed<'_, H>) -> Result<u32, PartError>
    requires { IsTrue (H.is_reading (shelf_of feed.old)) }
    ensures gives { GivesField H.contents (λ n. n) width_field feed.old feed.new result }
    ensures shelf { StaysOver H.contents H.is_reading H.faults feed.old feed.new
        (IsErrOf result PartError.Failed) }
    ensures most { IfOk result (λ n. n ≤ 31) }
{
    let at = feed.at();
    let width = feed.u32()?;
    if width > 31 {
        return Err(PartError::bad(at, Reason::Bits));
    }
    Ok(width)
}

// The packed run with its count of bytes, and the rows of its buckets.
#[tactic(auto, unfolding(crate::specs::HashFormat::buckets_of, crate::specs::Counts::known_count), using(file_parts::proofs::Reading::run_then))]
fn read_packed<H: Shelf>(
    alloc: Global,
    feed: &mut Feed<'_, H>,
    role: Role,
    packing: Packing,
    hash: &mut Hash<Plain>,
) -> Result<(), PartError>
    requires reading { IsTrue (H.is_reading (shelf_of feed.old)) }
    requires none { hash.old.rows ≡ [] }
    requires b { hash.old.b ≡ packing.b }
    requires width { packing.width ≤ 31 }
    requires count { packing.count ≤ packing.total }
    requires load { weight hash.old.dim 1 packing.total 0 ≤ load_limit }
    ensures gives { GivesField H.contents (λ _. hash.new.rows)
        (buckets_of role (hash.old.dim / 8) packing.total packing.b packing.count packing.width)
        feed.old feed.new result }
    ensures shelf { StaysOver H.contents H.is_reading H.faults feed.old feed.new
        (IsErrOf result PartError.Failed) }
    ensures gains { OnOk result (GainsRows role packing.total packing.total hash.old hash.new) }
{
    let _dim = hash.dim();
    let bits = u64::from(packing.b + packing.width) * packing.count;
    let bytes = read_wanted(feed, (bits + 7) / 8, Reason::VectorSize)?;
    let run = read_run(alloc, feed, packing, bytes)?;
    read_all_rows(alloc, feed, role, packing, &run, hash)?;
    Ok(())
}
