ghost use Rattle.std.specs.Prelude.{◌≡◌, ◌/◌, ◌<◌, ◌≤◌, IfOk, IsErrOf, IsTrue, OnOk, length, map, option_map, true};
ghost use Rattle.bcodes.specs.Ranges.{IsDim, load_limit};
ghost use Rattle.bcodes.specs.Value.{IsNumbering, Ivf as IvfForm, empty_ivf, weight};
ghost use Rattle.file_parts.specs.Feeding.{GivesField, StaysOver, shelf_of};
ghost use Rattle.file_parts.specs.Fields.{bytes_field};
ghost use Rattle.file_parts.specs.Heads.{IsHead, view_head};
ghost use Rattle.index_files.specs.IvfFormat.{list_kind_checks};
ghost use Rattle.index_files.specs.IvfSteps.{ivf_lists, list_start};
ghost use Rattle.index_files.specs.Laws.{FitsRole, IsBodyRole};

use crate::reading::flat::dim_of;
use crate::reading::ivf::direct::read_direct;
use crate::reading::ivf::ids::IdChecks;
use crate::reading::ivf::rows::read_rows;
use crate::reading::ivf::sizes::read_sizes;
use crate::reading::wanted::read_wanted;
use bcodes::Plain;
use file_parts::{Feed, Head, Letters, PartError, Reason, Role};
use ivf_index::Ivf;
use outside::Shelf;
use std::alloc::Global;

/// Puts the rows of a file on an index of these settings that has none, and tells whether the file
/// has a direct map, which the index does not keep yet.
#[tactic(auto, unfolding(crate::specs::IvfSteps::ivf_lists), using(file_parts::proofs::Reading::run_then))]
pub fn read_lists<H: Shelf>(
    alloc: Global,
    feed: &mut Feed<'_, H>,
    role: Role,
    head: Head,
    ivf: &mut Ivf<Plain>,
) -> Result<bool, PartError>
    requires reading { IsTrue (H.is_reading (shelf_of feed.old)) }
    requires role { IsBodyRole role }
    requires head { IsHead role head }
    requires empty { ivf.old ≡ record (empty_ivf head.dim ivf.old.nlist) {
      nprobe = ivf.old.nprobe;
      centroids = ivf.old.centroids;
    } }
    requires least { 1 ≤ ivf.old.nlist }
    requires most { ivf.old.nlist ≤ 4194304 }
    requires trained { 0 < head.count → ivf.old.nlist ≤ length ivf.old.centroids }
    requires load { weight head.dim 0 head.count (length ivf.old.centroids) ≤ load_limit }
    ensures gives { GivesField H.contents (λ direct. record ivf.new { direct = direct })
        (ivf_lists role (view_head head) ivf.old.nlist ivf.old.nprobe ivf.old.centroids)
        feed.old feed.new result }
    ensures shelf { StaysOver H.contents H.is_reading H.faults feed.old feed.new
        (IsErrOf result PartError.Failed) }
    ensures ivf { ivf.new ≡ record ivf.old { rows = ivf.new.rows } }
    ensures fits { OnOk result (FitsRole role (IvfForm ivf.new)) }
    ensures numbered { IfOk result (λ direct. direct ≡ true
        → IsNumbering (map (λ row. row.label) ivf.new.rows)) }
{
    let direct = read_direct(alloc, feed, head.count)?;
    let checks = IdChecks::new(role, head.count, direct);
    read_list_start(feed, ivf.nlist(), head.dim)?;
    let sizes = read_sizes(alloc, feed, ivf.nlist(), head.count)?;
    read_rows(alloc, feed, &checks, dim_of(head.dim), &sizes, ivf)?;
    Ok(checks.has_map())
}

// What stands before the sizes of the lists.
#[tactic(auto, unfolding(crate::specs::IvfSteps::list_start), using(file_parts::proofs::Reading::run_then))]
fn read_list_start<H: Shelf>(feed: &mut Feed<'_, H>, nlist: u32, d: u32) -> Result<u64, PartError>
    requires { IsTrue (H.is_reading (shelf_of feed.old)) }
    ensures gives { GivesField H.contents (λ n. n) (list_start nlist (d / 8))
        feed.old feed.new result }
    ensures shelf { StaysOver H.contents H.is_reading H.faults feed.old feed.new
        (IsErrOf result PartError.Failed) }
{
    read_list_kind(feed)?;
    read_wanted(feed, nlist as u64, Reason::Number)?;
    let code_size = read_wanted(feed, (d / 8) as u64, Reason::CodeSize)?;
    Ok(code_size)
}

#[tactic(auto, using(file_parts::proofs::FeedLemmas::field_gives))]
fn read_list_kind<H: Shelf>(feed: &mut Feed<'_, H>) -> Result<Letters, PartError>
    requires { IsTrue (H.is_reading (shelf_of feed.old)) }
    ensures gives { GivesField H.contents (λ kind. kind) (bytes_field 4 list_kind_checks)
        feed.old feed.new result }
    ensures shelf { StaysOver H.contents H.is_reading H.faults feed.old feed.new
        (IsErrOf result PartError.Failed) }
{
    let at = feed.at();
    let kind = feed.letters()?;
    if kind.is("il00") {
        return Err(PartError::bad(at, Reason::LeftOut));
    }
    if !kind.is("ilar") {
        return Err(PartError::bad(at, Reason::Fourcc));
    }
    Ok(kind)
}
