mod key_column;
mod keyed;
mod map;
mod map_run;

ghost use Rattle.std.specs.Prelude.{◌≡◌, ◌+◌, ◌*◌, ◌/◌, ◌^◌, ◌<◌, ◌≤◌, ◌||◌, IfOk, IsErrOf, IsTrue};
ghost use Rattle.std.specs.Prelude.{length, nat_lt};
ghost use Rattle.bcodes.specs.Ranges.{load_limit};
ghost use Rattle.bcodes.specs.Value.{Multi as MultiForm, weight};
ghost use Rattle.file_parts.specs.declared.reason.Reason.TheVariants as reason;
ghost use Rattle.file_parts.specs.declared.role.Role.TheVariants.{Within};
ghost use Rattle.file_parts.specs.Feeding.{GivesField, StaysOver, shelf_of};
ghost use Rattle.file_parts.specs.Fields.{at_most, is_out, number};
ghost use Rattle.file_parts.specs.Heads.{view_head};
ghost use Rattle.index_files.specs.FlatFormat.{flat_inside};
ghost use Rattle.index_files.specs.MultiFormat.{multi_b_checks, multi_body, nhash_checks};
ghost use Rattle.index_files.specs.Laws.{FitsRole, IsBodyRole};

use crate::reading::flat::read_flat;
use crate::reading::multi::map::read_maps;
use crate::reading::start::{Wanted, read_start};
use bcodes::{LOAD_LIMIT, Meter, Plain, Want};
use file_parts::{Feed, Head, PartError, Reason, Role};
use flat_index::Flat;
use multi_hash::Multi;
use outside::Shelf;
use std::alloc::Global;

// What follows the letters of a MultiHash.
pub fn read_multi<H: Shelf>(
    alloc: Global,
    feed: &mut Feed<'_, H>,
    role: Role,
) -> Result<Multi<Plain>, PartError>
    requires reading { IsTrue (H.is_reading (shelf_of feed.old)) }
    requires role { IsBodyRole role }
    ensures gives { GivesField H.contents (λ multi. multi) (multi_body role)
        feed.old feed.new result }
    ensures shelf { StaysOver H.contents H.is_reading H.faults feed.old feed.new
        (IsErrOf result PartError.Failed) }
    ensures fits { IfOk result (λ multi. FitsRole role (MultiForm multi)) }
{
    let head = feed.head(role)?;
    let storage = read_storage(alloc, feed, head)?;
    let b = read_b(feed, head)?;
    let nhash = read_nhash(feed, head, b)?;
    let nflip = read_nflip(feed, b)?;
    read_maps(alloc, feed, &storage, nhash, b)?;
    let multi = multi_over(alloc, storage, nhash, b, nflip)?;
    Ok(multi)
}

// The codes, as a Flat with its letters.
#[tactic(auto, unfolding(crate::specs::FlatFormat::flat_inside), using(file_parts::proofs::Reading::run_then))]
fn read_storage<H: Shelf>(
    alloc: Global,
    feed: &mut Feed<'_, H>,
    head: Head,
) -> Result<Flat<Plain>, PartError>
    requires { IsTrue (H.is_reading (shelf_of feed.old)) }
    ensures gives { GivesField H.contents (λ flat. flat)
        (flat_inside (Within head.dim head.count)) feed.old feed.new result }
    ensures shelf { StaysOver H.contents H.is_reading H.faults feed.old feed.new
        (IsErrOf result PartError.Failed) }
    ensures dim { IfOk result (λ flat. flat.dim ≡ head.dim) }
    ensures count { IfOk result (λ flat. length flat.codes ≡ head.count) }
{
    read_start(feed, Wanted::Flat)?;
    let inside = Role::Within {
        dim: head.dim,
        count: head.count,
    };
    let flat = read_flat(alloc, feed, inside)?;
    Ok(flat)
}

// Whether keys of codes of so many bits cannot have `b` bits.
fn is_bad_b(dim: u32, b: u32) -> bool
    ensures { result ≡ (is_out 1 64 b || nat_lt dim b) }
{
    b < 1 || b > 64 || b > dim
}

#[tactic(auto, using(file_parts::proofs::FeedLemmas::checked_gives))]
fn read_b<H: Shelf>(feed: &mut Feed<'_, H>, head: Head) -> Result<u32, PartError>
    requires { IsTrue (H.is_reading (shelf_of feed.old)) }
    ensures gives { GivesField H.contents (λ n. n) (number 4 (multi_b_checks (view_head head)))
        feed.old feed.new result }
    ensures shelf { StaysOver H.contents H.is_reading H.faults feed.old feed.new
        (IsErrOf result PartError.Failed) }
    ensures least { IfOk result (λ b. 1 ≤ b) }
    ensures most { IfOk result (λ b. b ≤ 64) }
{
    let at = feed.at();
    let b = feed.u32()?;
    if is_bad_b(head.dim, b) {
        return Err(PartError::bad(at, Reason::Number));
    }
    Ok(b)
}

// Whether codes of so many bits cannot have `nhash` keys of `b` bits.
fn is_bad_nhash(dim: u32, b: u32, nhash: u32) -> bool
    ensures { result ≡ (is_out 1 1024 nhash || nat_lt dim (nhash * b)) }
{
    nhash < 1 || nhash > 1024 || u64::from(nhash) * u64::from(b) > u64::from(dim)
}

// Whether so many codes under `nhash` maps weigh more than an index may.
fn is_heavy(head: Head, nhash: u32) -> bool
    ensures { result
        ≡ nat_lt load_limit (head.count * (head.dim / 8 + 16 + 64 * nhash)) }
{
    let row = u64::from(head.dim / 8) + 16 + 64 * u64::from(nhash);
    u128::from(head.count) * u128::from(row) > u128::from(LOAD_LIMIT)
}

#[tactic(auto, using(file_parts::proofs::FeedLemmas::checked_gives))]
fn read_nhash<H: Shelf>(feed: &mut Feed<'_, H>, head: Head, b: u32) -> Result<u32, PartError>
    requires { IsTrue (H.is_reading (shelf_of feed.old)) }
    ensures gives { GivesField H.contents (λ n. n)
        (number 4 (nhash_checks (view_head head) b)) feed.old feed.new result }
    ensures shelf { StaysOver H.contents H.is_reading H.faults feed.old feed.new
        (IsErrOf result PartError.Failed) }
    ensures least { IfOk result (λ nhash. 1 ≤ nhash) }
    ensures most { IfOk result (λ nhash. nhash ≤ 1024) }
    ensures within { IfOk result (λ nhash. nhash * b ≤ head.dim) }
    ensures load { IfOk result (λ nhash.
        head.count * (head.dim / 8 + 16 + 64 * nhash) ≤ load_limit) }
{
    let at = feed.at();
    let nhash = feed.u32()?;
    if is_bad_nhash(head.dim, b, nhash) {
        return Err(PartError::bad(at, Reason::Number));
    }
    if is_heavy(head, nhash) {
        return Err(PartError::bad(at, Reason::Load));
    }
    Ok(nhash)
}

#[tactic(auto, using(file_parts::proofs::FeedLemmas::checked_gives))]
fn read_nflip<H: Shelf>(feed: &mut Feed<'_, H>, b: u32) -> Result<u32, PartError>
    requires { IsTrue (H.is_reading (shelf_of feed.old)) }
    ensures gives { GivesField H.contents (λ n. n) (number 4 (at_most b reason.Number))
        feed.old feed.new result }
    ensures shelf { StaysOver H.contents H.is_reading H.faults feed.old feed.new
        (IsErrOf result PartError.Failed) }
    ensures most { IfOk result (λ nflip. nflip ≤ b) }
{
    let at = feed.at();
    let nflip = feed.u32()?;
    if nflip > b {
        return Err(PartError::bad(at, Reason::Number));
    }
    Ok(nflip)
}

// The MultiHash of a storage.
fn multi_over(
    alloc: Global,
    storage: Flat<Plain>,
    nhash: u32,
    b: u32,
    nflip: u32,
) -> Result<Multi<Plain>, Want>
    requires nhash_least { 1 ≤ nhash }
    requires nhash_most { nhash ≤ 1024 }
    requires b_least { 1 ≤ b }
    requires b_most { b ≤ 64 }
    requires nflip { nflip ≤ b }
    requires within { nhash * b ≤ storage.dim }
    requires load { weight storage.dim nhash (length storage.codes) 0 ≤ load_limit }
    ensures { IfOk result (λ multi. multi ≡ record {
      dim = storage.dim;
      nhash = nhash;
      b = b;
      nflip = nflip;
      codes = storage.codes;
    }) }
{
    // Nobody asks what reading a file reads of its own codes.
    let mut meter = Meter::new(Plain);
    let mut multi = Multi::over(alloc, storage, nhash, b, &mut meter)?;
    multi.set_nflip(nflip);
    Ok(multi)
}
