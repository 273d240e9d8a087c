ghost use Rattle.std.specs.Prelude.{◌≡◌, IfOk, IsErrOf, IsTrue, length, option_map};
ghost use Rattle.file_parts.specs.Feeding.{GivesField, StaysOver, shelf_of};
ghost use Rattle.file_parts.specs.Fields.{any_number, number, repeated};
ghost use Rattle.index_files.specs.IvfFormat.{direct_map, direct_type_checks, some_entries};
ghost use Rattle.index_files.specs.IvfSteps.{HasEntries};

use crate::reading::ivf::room::make_room;
use crate::reading::wanted::read_wanted;
use file_parts::{Feed, PartError, Reason};
use outside::Shelf;
use std::alloc::Global;

/// The direct map of so many labels: its entries, or `None`.
#[tactic(auto, unfolding(crate::specs::IvfFormat::direct_map), using(file_parts::proofs::Reading::run_then))]
pub fn read_direct<H: Shelf>(
    alloc: Global,
    feed: &mut Feed<'_, H>,
    count: u64,
) -> Result<Option<Vec<u64>>, PartError>
    requires { IsTrue (H.is_reading (shelf_of feed.old)) }
    ensures gives { GivesField H.contents (λ direct. option_map (λ entries. entries.items) direct)
        (direct_map count) feed.old feed.new result }
    ensures shelf { StaysOver H.contents H.is_reading H.faults feed.old feed.new
        (IsErrOf result PartError.Failed) }
    ensures count { IfOk result (λ direct.
        HasEntries count (option_map (λ entries. entries.items) direct)) }
{
    let direct_type = read_direct_type(feed)?;
    if direct_type == 1 {
        let entries = read_counted(alloc, feed, count)?;
        return Ok(Some(entries));
    }
    read_wanted(feed, 0, Reason::VectorSize)?;
    Ok(None)
}

#[tactic(auto, using(file_parts::proofs::FeedLemmas::checked_gives))]
fn read_direct_type<H: Shelf>(feed: &mut Feed<'_, H>) -> Result<u8, PartError>
    requires { IsTrue (H.is_reading (shelf_of feed.old)) }
    ensures gives { GivesField H.contents (λ n. n) (number 1 direct_type_checks)
        feed.old feed.new result }
    ensures shelf { StaysOver H.contents H.is_reading H.faults feed.old feed.new
        (IsErrOf result PartError.Failed) }
{
    let at = feed.at();
    let direct_type = feed.byte()?;
    if direct_type == 2 {
        return Err(PartError::bad(at, Reason::LeftOut));
    }
    if direct_type > 2 {
        return Err(PartError::bad(at, Reason::Number));
    }
    Ok(direct_type)
}

// The entries of a direct map, with their count.
#[tactic(auto, using(file_parts::proofs::Reading::run_then))]
fn read_counted<H: Shelf>(
    alloc: Global,
    feed: &mut Feed<'_, H>,
    count: u64,
) -> Result<Vec<u64>, PartError>
    requires { IsTrue (H.is_reading (shelf_of feed.old)) }
    ensures gives { GivesField H.contents (λ entries. Some entries.items) (some_entries count)
        feed.old feed.new result }
    ensures shelf { StaysOver H.contents H.is_reading H.faults feed.old feed.new
        (IsErrOf result PartError.Failed) }
    ensures count { IfOk result (λ entries. length entries.items ≡ count) }
{
    read_wanted(feed, count, Reason::VectorSize)?;
    let entries = read_entries(alloc, feed, count)?;
    Ok(entries)
}

fn read_entries<H: Shelf>(
    alloc: Global,
    feed: &mut Feed<'_, H>,
    count: u64,
) -> Result<Vec<u64>, PartError>
    requires { IsTrue (H.is_reading (shelf_of feed.old)) }
    ensures gives { GivesField H.contents (λ entries. entries.items)
        (repeated count (any_number 8)) feed.old feed.new result }
    ensures shelf { StaysOver H.contents H.is_reading H.faults feed.old feed.new
        (IsErrOf result PartError.Failed) }
    ensures count { IfOk result (λ entries. length entries.items ≡ count) }
{
    let mut entries = Vec::new(alloc);
    for _ in 0..count {
        let entry = feed.u64()?;
        make_room(&mut entries)?;
        entries.push(entry)?;
    }
    Ok(entries)
}
