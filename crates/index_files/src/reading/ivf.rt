ghost use Rattle.std.specs.Prelude.{◌≡◌, ◌-◌, ◌^◌, ◌<◌, ◌≤◌, IfErr, IfOk, IsErrOf, IsTrue, false, length, map};
ghost use Rattle.std.specs.Prelude.{true};
ghost use Rattle.bcodes.specs.Value.{Ivf as IvfForm, IsNumbering, empty_ivf};
ghost use Rattle.file_parts.specs.declared.role.Role.TheVariants.{Quantizer};
ghost use Rattle.file_parts.specs.Feeding.{GivesField, StaysOver, shelf_of};
ghost use Rattle.file_parts.specs.Fields.{in_range, number};
ghost use Rattle.file_parts.specs.Heads.{IsHead, view_head};
ghost use Rattle.index_files.specs.IvfFormat.{ivf_body};
ghost use Rattle.index_files.specs.IvfSteps.{ivf_lists};
ghost use Rattle.index_files.specs.Laws.{FitsRole, IsBodyRole};

mod direct;
mod ids;
mod lists;
mod quantizer;
mod room;
mod rows;
mod sizes;

use crate::reading::ivf::lists::read_lists;
use crate::reading::ivf::quantizer::read_quantizer;
use bcodes::{DirectError, Plain};
use file_parts::{Feed, Head, PartError, Reason, Role};
use ivf_index::Ivf;
use outside::Shelf;
use std::alloc::Global;

// The most lists that an IVF may have.
const MOST_LISTS: u64 = 4_194_304;

// What follows the letters of an IVF.
#[tactic(auto, unfolding(crate::specs::IvfFormat::ivf_body), using(file_parts::proofs::Reading::run_then))]
pub fn read_ivf<H: Shelf>(
    alloc: Global,
    feed: &mut Feed<'_, H>,
    role: Role,
) -> Result<Ivf<Plain>, PartError>
    requires reading { IsTrue (H.is_reading (shelf_of feed.old)) }
    requires role { IsBodyRole role }
    ensures gives { GivesField H.contents (λ ivf. ivf) (ivf_body role)
        feed.old feed.new result }
    ensures shelf { StaysOver H.contents H.is_reading H.faults feed.old feed.new
        (IsErrOf result PartError.Failed) }
    ensures fits { IfOk result (λ ivf. FitsRole role (IvfForm ivf)) }
{
    let head = feed.head(role)?;
    let nlist = read_nlist(feed)?;
    let nprobe = read_nprobe(feed)?;
    let quantizer = read_quantizer(alloc, feed, head, nlist)?;
    let ivf = read_rest(alloc, feed, role, head, nlist, nprobe, quantizer)?;
    Ok(ivf)
}

// What follows the quantizer, for an index that holds its centroids alone.
fn read_rest<H: Shelf>(
    alloc: Global,
    feed: &mut Feed<'_, H>,
    role: Role,
    head: Head,
    nlist: u32,
    nprobe: u64,
    mut ivf: Ivf<Plain>,
) -> Result<Ivf<Plain>, PartError>
    requires reading { IsTrue (H.is_reading (shelf_of feed.old)) }
    requires role { IsBodyRole role }
    requires head { IsHead role head }
    requires nlist_least { 1 ≤ nlist }
    requires nlist_most { nlist ≤ 4194304 }
    requires nprobe_least { 1 ≤ nprobe }
    requires nprobe_most { nprobe < 2 ^ 63 }
    requires empty { ivf ≡ record (empty_ivf head.dim nlist) { centroids = ivf.centroids } }
    requires quantizer { IsHead (Quantizer head.dim nlist head.count head.flag)
        (record { dim = head.dim; count = length ivf.centroids; flag = true }) }
    ensures gives { GivesField H.contents (λ new. new)
        (ivf_lists role (view_head head) nlist nprobe ivf.centroids) feed.old feed.new result }
    ensures shelf { StaysOver H.contents H.is_reading H.faults feed.old feed.new
        (IsErrOf result PartError.Failed) }
    ensures fits { IfOk result (λ new. FitsRole role (IvfForm new)) }
{
    ivf.set_nprobe(nprobe);
    let direct = read_lists(alloc, feed, role, head, &mut ivf)?;
    let ivf = with_map(ivf, direct)?;
    Ok(ivf)
}

// The index with a direct map where it is to keep one. Its labels are then the numbers below their
// count.
fn with_map(mut ivf: Ivf<Plain>, direct: bool) -> Result<Ivf<Plain>, PartError>
    requires none { ivf.direct ≡ false }
    requires numbered { direct ≡ true → IsNumbering (map (λ row. row.label) ivf.rows) }
    ensures ok { IfOk result (λ new. new ≡ record ivf { direct = direct }) }
    ensures err { IfErr result (λ error. error ≡ PartError.Memory) }
{
    if !direct {
        return Ok(ivf);
    }
    match ivf.set_direct(true) {
        Ok(()) => Ok(ivf),
        Err(DirectError::Memory) => Err(PartError::Memory),
        Err(DirectError::NotSequential) => unreachable!(),
    }
}

#[tactic(auto, using(file_parts::proofs::FeedLemmas::checked_gives))]
fn read_nlist<H: Shelf>(feed: &mut Feed<'_, H>) -> Result<u32, PartError>
    requires { IsTrue (H.is_reading (shelf_of feed.old)) }
    ensures gives { GivesField H.contents (λ n. n) (number 8 (in_range 1 4194304))
        feed.old feed.new result }
    ensures shelf { StaysOver H.contents H.is_reading H.faults feed.old feed.new
        (IsErrOf result PartError.Failed) }
    ensures least { IfOk result (λ n. 1 ≤ n) }
    ensures most { IfOk result (λ n. n ≤ 4194304) }
{
    let at = feed.at();
    let nlist = feed.u64()?;
    if nlist < 1 || nlist > MOST_LISTS {
        return Err(PartError::bad(at, Reason::Number));
    }
    Ok(nlist as u32)
}

#[tactic(auto, using(file_parts::proofs::FeedLemmas::checked_gives))]
fn read_nprobe<H: Shelf>(feed: &mut Feed<'_, H>) -> Result<u64, PartError>
    requires { IsTrue (H.is_reading (shelf_of feed.old)) }
    ensures gives { GivesField H.contents (λ n. n) (number 8 (in_range 1 (2 ^ 63 - 1)))
        feed.old feed.new result }
    ensures shelf { StaysOver H.contents H.is_reading H.faults feed.old feed.new
        (IsErrOf result PartError.Failed) }
    ensures least { IfOk result (λ n. 1 ≤ n) }
    ensures most { IfOk result (λ n. n < 2 ^ 63) }
{
    let at = feed.at();
    let nprobe = feed.u64()?;
    if nprobe < 1 || nprobe >= 1 << 63 {
        return Err(PartError::bad(at, Reason::Number));
    }
    Ok(nprobe)
}
