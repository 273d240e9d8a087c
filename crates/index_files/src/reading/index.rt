ghost use Rattle.std.specs.Prelude.{◌≡◌, IfOk, IsErrOf, IsTrue, length};
ghost use Rattle.any_index.specs.Kinds.{inner_value};
ghost use Rattle.file_parts.specs.Fields.{any_signed, repeated};
ghost use Rattle.file_parts.specs.Feeding.{GivesField, StaysOver, shelf_of};
ghost use Rattle.file_parts.specs.Heads.{view_head};
ghost use Rattle.index_files.specs.FileFormat.{body, file, index};
ghost use Rattle.index_files.specs.FileFormat.{map_body, map_start, outer_ids};
ghost use Rattle.index_files.specs.Laws.{FitsRole, IsBodyRole};
ghost use Rattle.index_files.specs.Letters.{is_index, is_plain, letters};
ghost use Rattle.index_files.specs.declared.start.Start.TheVariants as start;

use crate::reading::flat::read_flat;
use crate::reading::hash::read_hash;
use crate::reading::ivf::read_ivf;
use crate::reading::multi::read_multi;
use crate::reading::start::{Wanted, read_start};
use crate::reading::wanted::read_wanted;
use crate::{KindName, Start};
use any_index::{AnyIndex, InnerIndex};
use bcodes::MapName;
use file_parts::{Feed, Head, PartError, Reason, Role};
use outside::Shelf;
use std::alloc::Global;

// A whole index, with its letters.
#[tactic(auto, unfolding(crate::specs::FileFormat::file), using(file_parts::proofs::Reading::run_then))]
pub fn read_file<H: Shelf>(alloc: Global, feed: &mut Feed<'_, H>) -> Result<AnyIndex, PartError>
    requires { IsTrue (H.is_reading (shelf_of feed.old)) }
    ensures gives { GivesField H.contents (λ index. index) file
        feed.old feed.new result }
    ensures shelf { StaysOver H.contents H.is_reading H.faults feed.old feed.new
        (IsErrOf result PartError.Failed) }
{
    let start = read_start(feed, Wanted::Index)?;
    let index = read_index(alloc, feed, start)?;
    Ok(index)
}

// What follows the letters.
fn read_index<H: Shelf>(
    alloc: Global,
    feed: &mut Feed<'_, H>,
    start: Start,
) -> Result<AnyIndex, PartError>
    requires reading { IsTrue (H.is_reading (shelf_of feed.old)) }
    requires wanted { IsTrue (is_index start) }
    ensures gives { GivesField H.contents (λ index. index) (index start)
        feed.old feed.new result }
    ensures shelf { StaysOver H.contents H.is_reading H.faults feed.old feed.new
        (IsErrOf result PartError.Failed) }
{
    let index = match start {
        Start::Plain(kind) => read_plain(alloc, feed, kind)?,
        Start::Mapped(name) => read_mapped(alloc, feed, name)?,
        Start::NotRead | Start::Unknown => unreachable!(),
    };
    Ok(index)
}

#[tactic(auto, using(file_parts::proofs::Reading::run_then))]
fn read_plain<H: Shelf>(
    alloc: Global,
    feed: &mut Feed<'_, H>,
    kind: KindName,
) -> Result<AnyIndex, PartError>
    requires { IsTrue (H.is_reading (shelf_of feed.old)) }
    ensures gives { GivesField H.contents (λ index. index) (index (start.Plain kind))
        feed.old feed.new result }
    ensures shelf { StaysOver H.contents H.is_reading H.faults feed.old feed.new
        (IsErrOf result PartError.Failed) }
{
    let inner = read_inner(alloc, feed, kind, Role::Outermost)?;
    Ok(AnyIndex::plain(inner))
}

// An index under outer ids.
#[tactic(auto, using(file_parts::proofs::Reading::run_then))]
fn read_mapped<H: Shelf>(
    alloc: Global,
    feed: &mut Feed<'_, H>,
    name: MapName,
) -> Result<AnyIndex, PartError>
    requires { IsTrue (H.is_reading (shelf_of feed.old)) }
    ensures gives { GivesField H.contents (λ index. index) (index (start.Mapped name))
        feed.old feed.new result }
    ensures shelf { StaysOver H.contents H.is_reading H.faults feed.old feed.new
        (IsErrOf result PartError.Failed) }
{
    let head = feed.head(Role::Outermost)?;
    let index = read_map_start(alloc, feed, name, head)?;
    Ok(index)
}

// What follows the header of an IDMap.
#[tactic(auto, using(file_parts::proofs::Reading::run_then))]
fn read_map_start<H: Shelf>(
    alloc: Global,
    feed: &mut Feed<'_, H>,
    name: MapName,
    head: Head,
) -> Result<AnyIndex, PartError>
    requires { IsTrue (H.is_reading (shelf_of feed.old)) }
    ensures gives { GivesField H.contents (λ index. index) (map_start name (view_head head))
        feed.old feed.new result }
    ensures shelf { StaysOver H.contents H.is_reading H.faults feed.old feed.new
        (IsErrOf result PartError.Failed) }
{
    let kind = read_kind(feed)?;
    let index = read_map_body(alloc, feed, name, kind, head)?;
    Ok(index)
}

// The index under the ids, without its letters, and the ids.
#[tactic(auto, unfolding(crate::specs::FileFormat::map_body), using(file_parts::proofs::Reading::run_then))]
fn read_map_body<H: Shelf>(
    alloc: Global,
    feed: &mut Feed<'_, H>,
    name: MapName,
    kind: KindName,
    head: Head,
) -> Result<AnyIndex, PartError>
    requires { IsTrue (H.is_reading (shelf_of feed.old)) }
    ensures gives { GivesField H.contents (λ index. index) (map_body name kind head.dim head.count)
        feed.old feed.new result }
    ensures shelf { StaysOver H.contents H.is_reading H.faults feed.old feed.new
        (IsErrOf result PartError.Failed) }
{
    let inside = Role::Within {
        dim: head.dim,
        count: head.count,
    };
    let inner = read_inner(alloc, feed, kind, inside)?;
    let ids = read_outer_ids(alloc, feed, head.count)?;
    let index = AnyIndex::mapped(alloc, name, inner, &ids)?;
    Ok(index)
}

// The letters of an index of one of the four kinds.
fn read_kind<H: Shelf>(feed: &mut Feed<'_, H>) -> Result<KindName, PartError>
    requires { IsTrue (H.is_reading (shelf_of feed.old)) }
    ensures gives { GivesField H.contents (λ kind. start.Plain kind) (letters is_plain)
        feed.old feed.new result }
    ensures shelf { StaysOver H.contents H.is_reading H.faults feed.old feed.new
        (IsErrOf result PartError.Failed) }
{
    match read_start(feed, Wanted::Plain)? {
        Start::Plain(kind) => Ok(kind),
        Start::Mapped(_) | Start::NotRead | Start::Unknown => unreachable!(),
    }
}

// What follows the letters of a kind.
#[tactic(auto, unfolding(crate::specs::FileFormat::body), using(file_parts::proofs::Reading::run_then, crate::proofs::LoadLemmas::fits_flat))]
fn read_inner<H: Shelf>(
    alloc: Global,
    feed: &mut Feed<'_, H>,
    kind: KindName,
    role: Role,
) -> Result<InnerIndex, PartError>
    requires reading { IsTrue (H.is_reading (shelf_of feed.old)) }
    requires role { IsBodyRole role }
    ensures gives { GivesField H.contents (λ inner. inner_value inner) (body kind role)
        feed.old feed.new result }
    ensures shelf { StaysOver H.contents H.is_reading H.faults feed.old feed.new
        (IsErrOf result PartError.Failed) }
    ensures fits { IfOk result (λ inner. FitsRole role (inner_value inner)) }
{
    match kind {
        KindName::Flat => {
            let flat = read_flat(alloc, feed, role)?;
            Ok(InnerIndex::Flat(flat))
        }
        KindName::Ivf => {
            let ivf = read_ivf(alloc, feed, role)?;
            Ok(InnerIndex::Ivf(ivf))
        }
        KindName::Hash => {
            let hash = read_hash(alloc, feed, role)?;
            Ok(InnerIndex::Hash(hash))
        }
        KindName::Multi => {
            let multi = read_multi(alloc, feed, role)?;
            Ok(InnerIndex::Multi(multi))
        }
    }
}

// The outer ids, with their count.
#[tactic(auto, unfolding(crate::specs::Counts::known_count), using(file_parts::proofs::Reading::run_then))]
fn read_outer_ids<H: Shelf>(
    alloc: Global,
    feed: &mut Feed<'_, H>,
    count: u64,
) -> Result<Vec<i64>, PartError>
    requires { IsTrue (H.is_reading (shelf_of feed.old)) }
    ensures gives { GivesField H.contents (λ ids. ids.items) (outer_ids count)
        feed.old feed.new result }
    ensures shelf { StaysOver H.contents H.is_reading H.faults feed.old feed.new
        (IsErrOf result PartError.Failed) }
    ensures count { IfOk result (λ ids. length ids.items ≡ count) }
{
    read_wanted(feed, count, Reason::VectorSize)?;
    let ids = read_ids(alloc, feed, count)?;
    Ok(ids)
}

fn read_ids<H: Shelf>(
    alloc: Global,
    feed: &mut Feed<'_, H>,
    count: u64,
) -> Result<Vec<i64>, PartError>
    requires { IsTrue (H.is_reading (shelf_of feed.old)) }
    ensures gives { GivesField H.contents (λ ids. ids.items) (repeated count (any_signed 8))
        feed.old feed.new result }
    ensures shelf { StaysOver H.contents H.is_reading H.faults feed.old feed.new
        (IsErrOf result PartError.Failed) }
    ensures count { IfOk result (λ ids. length ids.items ≡ count) }
{
    let mut ids = Vec::new(alloc);
    for _ in 0..count {
        let id = feed.i64()?;
        ids.push(id)?;
    }
    Ok(ids)
}
