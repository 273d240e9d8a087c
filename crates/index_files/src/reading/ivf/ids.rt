ghost use Rattle.std.specs.Prelude.{◌≡◌, ◌<◌, ◌^◌, ◌||◌, ◌&&◌, IfOk, IsErrOf, IsTrue, None, false, is_some};
ghost use Rattle.std.specs.Prelude.{length, option_map, true};
ghost use Rattle.std.specs.List.{range_with_len};
ghost use Rattle.file_parts.specs.Feeding.{GivesField, StaysOver, shelf_of};
ghost use Rattle.file_parts.specs.Fields.{each};
ghost use Rattle.file_parts.specs.Format.{first_refusal};
ghost use Rattle.index_files.specs.FlatFormat.{is_inside, is_no_place};
ghost use Rattle.index_files.specs.IvfFormat.{is_misplaced, list_id, list_id_checks};
ghost use Rattle.index_files.specs.IvfSteps.{ArePassed, HasEntries};
ghost use Rattle.ivf_index.specs.Direct.{entry};

use crate::reading::ivf::room::make_room;
use file_parts::{Feed, PartError, Reason, Role};
use outside::Shelf;
use std::alloc::Global;
use std::marker::Model;

// The numbers of offsets in an entry of a direct map.
const OFFSETS: u64 = 1 << 32;

/// By what the ids of an IVF's rows are tried: where the IVF stands, the number of its rows, and
/// its direct map.
#[derive(Drop)]
pub struct IdChecks {
    role: Role,
    count: u64,
    direct: Option<Vec<u64>>,
}

impl Model for IdChecks {
    ghost use Rattle.std.specs.Prelude.{option_map};
    ghost use Rattle.index_files.specs.IvfSteps.{HasEntries, IdRules};

    ghost Value = { IdRules };

    ghost view = { λ c. record {
      role = c.role;
      count = c.count;
      direct = option_map (λ entries. entries.items) c.direct;
    } };

    ghost invariant = { λ c. HasEntries c.count
        (option_map (λ entries. entries.items) c.direct) };
}

impl IdChecks {
    pub fn new(role: Role, count: u64, direct: Option<Vec<u64>>) -> IdChecks
        requires { HasEntries count (option_map (λ entries. entries.items) direct) }
        ensures { result ≡ record {
          role = role;
          count = count;
          direct = option_map (λ entries. entries.items) direct;
        } }
    {
        IdChecks {
            role,
            count,
            direct,
        }
    }

    /// Whether there is a direct map.
    pub fn has_map(&self) -> bool
        ensures { result ≡ is_some self.now.direct }
    {
        self.direct.is_some()
    }

    // Whether an id has to be a place and is none.
    fn is_outside(&self, id: i64) -> bool
        ensures { result ≡ ((is_inside self.now.role || is_some self.now.direct)
            && is_no_place self.now.count id) }
    {
        (is_inside(self.role) || self.has_map()) && is_no_place(self.count, id)
    }

    // Whether the direct map has another entry for an id.
    fn is_misplaced(&self, wanted: u64, id: i64) -> bool
        requires { is_some self.now.direct ≡ true → is_no_place self.now.count id ≡ false }
        ensures { result ≡ is_misplaced self.now.direct wanted id }
    {
        match &self.direct {
            Some(entries) => entries[id as usize] != wanted,
            None => false,
        }
    }
}

// Whether ids are places, as inside an IDMap.
fn is_inside(role: Role) -> bool
    ensures { result ≡ is_inside role }
{
    match role {
        Role::Within { .. } => true,
        Role::Outermost | Role::Quantizer { .. } => false,
    }
}

fn is_no_place(count: u64, id: i64) -> bool
    ensures { result ≡ is_no_place count id }
{
    if id < 0 {
        return true;
    }
    id as u64 >= count
}

// The entry of a place in a direct map.
fn entry_at(list: u32, offset: u32) -> u64
    ensures { result ≡ entry list offset }
{
    u64::from(list) * OFFSETS + u64::from(offset)
}

/// The ids of so many rows of a list, in their order.
pub fn read_list_ids<H: Shelf>(
    alloc: Global,
    feed: &mut Feed<'_, H>,
    checks: &IdChecks,
    list: u32,
    n: u32,
) -> Result<Vec<i64>, PartError>
    requires { IsTrue (H.is_reading (shelf_of feed.old)) }
    ensures gives { GivesField H.contents (λ ids. ids.items) (each (range_with_len 0 n)
        (list_id checks.now.role checks.now.count checks.now.direct list))
        feed.old feed.new result }
    ensures shelf { StaysOver H.contents H.is_reading H.faults feed.old feed.new
        (IsErrOf result PartError.Failed) }
    ensures count { IfOk result (λ ids. length ids.items ≡ n) }
    ensures passed { IfOk result (λ ids. ArePassed checks.now list 0 ids.items) }
{
    let mut ids = Vec::new(alloc);
    for offset in 0..n {
        let id = read_id(feed, checks, list, offset)?;
        make_room(&mut ids)?;
        ids.push(id)?;
    }
    Ok(ids)
}

// The id of the row of a list at an offset.
#[tactic(auto, unfolding(crate::specs::IvfFormat::list_id), using(crate::proofs::IvfReading::signed_gives))]
fn read_id<H: Shelf>(
    feed: &mut Feed<'_, H>,
    checks: &IdChecks,
    list: u32,
    offset: u32,
) -> Result<i64, PartError>
    requires { IsTrue (H.is_reading (shelf_of feed.old)) }
    ensures gives { GivesField H.contents (λ id. id)
        (list_id checks.now.role checks.now.count checks.now.direct list offset)
        feed.old feed.new result }
    ensures shelf { StaysOver H.contents H.is_reading H.faults feed.old feed.new
        (IsErrOf result PartError.Failed) }
    ensures passed { IfOk result (λ id. first_refusal (list_id_checks checks.now.role
        checks.now.count checks.now.direct list offset id) ≡ None) }
{
    let at = feed.at();
    let id = feed.i64()?;
    if checks.is_outside(id) {
        return Err(PartError::bad(at, Reason::IdRange));
    }
    if checks.is_misplaced(entry_at(list, offset), id) {
        return Err(PartError::bad(at, Reason::DirectMap));
    }
    Ok(id)
}
