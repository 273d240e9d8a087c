ghost use Rattle.std.specs.Prelude.{◌≡◌, ℕ, ◌+◌, ◌-◌, ◌/◌, ◌<◌, ◌≤◌, ◌^◌, [], ◌∷◌, ◌++◌, List, IfOk, IsErrOf};
ghost use Rattle.std.specs.Prelude.{IsTrue, OnOk, count_by, length, nat_le, nat_lt, not, sum, ◌==◌, ◌&&◌, ◌||◌};
ghost use Rattle.std.specs.Prelude.{if◌then◌else◌};
ghost use Rattle.std.specs.List.{list_any};
ghost use Rattle.file_parts.specs.Feeding.{GivesField, StaysOver, shelf_of};
ghost use Rattle.file_parts.specs.Fields.{bytes_field, number};
ghost use Rattle.index_files.specs.IvfFormat.{ListSize as ListSizeForm, form_checks, full_form};
ghost use Rattle.index_files.specs.IvfFormat.{full_size_checks, list_checks};
ghost use Rattle.index_files.specs.IvfFormat.{list_sizes, rows_in, sparse_count_checks, sparse_form};
ghost use Rattle.index_files.specs.IvfFormat.{sparse_size_checks, sparse_sizes};
ghost use Rattle.index_files.specs.IvfSteps.{AreFilled, filled_sizes, list_pair};

use crate::reading::ivf::room::make_room;
use crate::reading::wanted::read_wanted;
use file_parts::{Feed, Letters, PartError, Reason};
use outside::Shelf;
use std::alloc::{AllocError, Global};
use std::marker::Model;

/// A list that is not empty, and the number of its rows.
#[derive(Clone, Copy, Debug)]
pub struct ListSize {
    list: u32,
    size: u32,
}

impl Model for ListSize {
    ghost Value = { ListSizeForm };

    ghost view = { λ p. record { list = p.list; size = p.size } };

    ghost inverse = { λ p. record { list = p.list; size = p.size } };
}

impl ListSize {
    /// The number of the list.
    pub fn list(self) -> u32
        ensures { result ≡ self.list }
    {
        self.list
    }

    /// The number of its rows.
    pub fn size(self) -> u32
        ensures { result ≡ self.size }
    {
        self.size
    }
}

/// The sizes of the lists that are not empty, of which there are so many rows together.
#[tactic(auto, unfolding(crate::specs::IvfFormat::list_sizes), using(file_parts::proofs::Reading::run_then))]
pub fn read_sizes<H: Shelf>(
    alloc: Global,
    feed: &mut Feed<'_, H>,
    nlist: u32,
    total: u64,
) -> Result<Vec<ListSize>, PartError>
    requires reading { IsTrue (H.is_reading (shelf_of feed.old)) }
    requires least { 1 ≤ nlist }
    requires most { nlist ≤ 4194304 }
    requires few { total < 2 ^ 32 }
    ensures gives { GivesField H.contents (λ sizes. sizes.items) (list_sizes nlist total)
        feed.old feed.new result }
    ensures shelf { StaysOver H.contents H.is_reading H.faults feed.old feed.new
        (IsErrOf result PartError.Failed) }
    ensures filled { IfOk result (λ sizes. AreFilled 0 nlist sizes.items) }
    ensures total { IfOk result (λ sizes. rows_in sizes.items ≡ total) }
{
    let form = read_form(feed)?;
    if form.is("full") {
        let sizes = read_full(alloc, feed, nlist, total)?;
        return Ok(sizes);
    }
    let sizes = read_sparse(alloc, feed, nlist, total)?;
    Ok(sizes)
}

#[tactic(auto, using(file_parts::proofs::FeedLemmas::field_gives))]
fn read_form<H: Shelf>(feed: &mut Feed<'_, H>) -> Result<Letters, PartError>
    requires { IsTrue (H.is_reading (shelf_of feed.old)) }
    ensures gives { GivesField H.contents (λ form. form) (bytes_field 4 form_checks)
        feed.old feed.new result }
    ensures shelf { StaysOver H.contents H.is_reading H.faults feed.old feed.new
        (IsErrOf result PartError.Failed) }
{
    let at = feed.at();
    let form = feed.letters()?;
    if !form.is("full") && !form.is("sprs") {
        return Err(PartError::bad(at, Reason::Fourcc));
    }
    Ok(form)
}

// ---- all sizes

// The sizes of all lists, with their count.
#[tactic(auto, using(file_parts::proofs::Reading::run_then))]
fn read_full<H: Shelf>(
    alloc: Global,
    feed: &mut Feed<'_, H>,
    nlist: u32,
    total: u64,
) -> Result<Vec<ListSize>, PartError>
    requires reading { IsTrue (H.is_reading (shelf_of feed.old)) }
    requires least { 1 ≤ nlist }
    requires most { nlist ≤ 4194304 }
    requires few { total < 2 ^ 32 }
    ensures gives { GivesField H.contents (λ sizes. sizes.items) (full_form nlist total)
        feed.old feed.new result }
    ensures shelf { StaysOver H.contents H.is_reading H.faults feed.old feed.new
        (IsErrOf result PartError.Failed) }
    ensures filled { IfOk result (λ sizes. AreFilled 0 nlist sizes.items) }
    ensures total { IfOk result (λ sizes. rows_in sizes.items ≡ total) }
{
    read_wanted(feed, nlist as u64, Reason::VectorSize)?;
    let sizes = read_full_sizes(alloc, feed, nlist, total)?;
    Ok(sizes)
}

fn read_full_sizes<H: Shelf>(
    alloc: Global,
    feed: &mut Feed<'_, H>,
    nlist: u32,
    total: u64,
) -> Result<Vec<ListSize>, PartError>
    requires reading { IsTrue (H.is_reading (shelf_of feed.old)) }
    requires least { 1 ≤ nlist }
    requires most { nlist ≤ 4194304 }
    requires few { total < 2 ^ 32 }
    ensures gives { GivesField H.contents (λ sizes. sizes.items)
        (filled_sizes nlist total nlist []) feed.old feed.new result }
    ensures shelf { StaysOver H.contents H.is_reading H.faults feed.old feed.new
        (IsErrOf result PartError.Failed) }
    ensures filled { IfOk result (λ sizes. AreFilled 0 nlist sizes.items) }
    ensures total { IfOk result (λ sizes. rows_in sizes.items ≡ total) }
{
    let mut sizes = Vec::new(alloc);
    let mut rows = 0;
    for list in 0..nlist {
        let size = read_full_size(feed, nlist, list, sizes.len() as u32, rows, total)?;
        note_size(&mut sizes, list, size as u32)?;
        rows += size;
    }
    Ok(sizes)
}

// The size of a list, after those of the lists before, of which so many are not empty and have so
// many rows together.
fn read_full_size<H: Shelf>(
    feed: &mut Feed<'_, H>,
    nlist: u32,
    list: u32,
    filled: u32,
    rows: u64,
    total: u64,
) -> Result<u64, PartError>
    requires reading { IsTrue (H.is_reading (shelf_of feed.old)) }
    requires below { list < nlist }
    requires most { nlist ≤ 4194304 }
    requires filled { filled ≤ list }
    requires rows { rows ≤ total }
    ensures gives { (before : List ℕ) → length before ≡ list → count_by (nat_lt 0) before ≡ filled
        → sum before ≡ rows
        → GivesField H.contents (λ n. n)
        (number 8 (full_size_checks nlist total (nlist - (list + 1)) before))
        feed.old feed.new result }
    ensures shelf { StaysOver H.contents H.is_reading H.faults feed.old feed.new
        (IsErrOf result PartError.Failed) }
    ensures within { IfOk result (λ size. rows + size ≤ total) }
    ensures last { IfOk result (λ size. list + 1 ≡ nlist → rows + size ≡ total) }
{
    let at = feed.at();
    let size = feed.u64()?;
    if size > total - rows {
        return Err(PartError::bad(at, Reason::ListSizes));
    }
    let known = filled + u32::from(size > 0);
    if list + 1 == nlist && is_no_full_end(nlist, known, rows + size, total) {
        let back = 8 + 8 * u64::from(list);
        return Err(PartError::bad(at.saturating_sub(back), Reason::ListSizes));
    }
    Ok(size)
}

// Whether the sizes of all lists may not be these: so many lists that are not empty, with so many
// rows together.
fn is_no_full_end(nlist: u32, filled: u32, rows: u64, total: u64) -> bool
    ensures { result ≡ (not (rows == total) || nat_le filled (nlist / 2)) }
{
    rows != total || filled <= nlist / 2
}

// Notes the size of a list, where it is not empty.
fn note_size(sizes: &mut Vec<ListSize>, list: u32, size: u32) -> Result<(), AllocError>
    ensures { OnOk result (sizes.new.items ≡ (if size == 0 then sizes.old.items
        else sizes.old.items ++ record { list = list; size = size } ∷ [])) }
{
    if size == 0 {
        return Ok(());
    }
    make_room(sizes)?;
    sizes.push(ListSize { list, size })?;
    Ok(())
}

// ---- the sizes of lists that are not empty

// The lists that are not empty, with their sizes and the count.
#[tactic(auto, using(file_parts::proofs::Reading::run_then))]
fn read_sparse<H: Shelf>(
    alloc: Global,
    feed: &mut Feed<'_, H>,
    nlist: u32,
    total: u64,
) -> Result<Vec<ListSize>, PartError>
    requires reading { IsTrue (H.is_reading (shelf_of feed.old)) }
    requires most { nlist ≤ 4194304 }
    requires few { total < 2 ^ 32 }
    ensures gives { GivesField H.contents (λ sizes. sizes.items) (sparse_form nlist total)
        feed.old feed.new result }
    ensures shelf { StaysOver H.contents H.is_reading H.faults feed.old feed.new
        (IsErrOf result PartError.Failed) }
    ensures filled { IfOk result (λ sizes. AreFilled 0 nlist sizes.items) }
    ensures total { IfOk result (λ sizes. rows_in sizes.items ≡ total) }
{
    let count = read_pair_count(feed, nlist, total)?;
    let sizes = read_pairs(alloc, feed, nlist, total, count / 2)?;
    Ok(sizes)
}

#[tactic(auto, using(file_parts::proofs::FeedLemmas::checked_gives))]
fn read_pair_count<H: Shelf>(
    feed: &mut Feed<'_, H>,
    nlist: u32,
    total: u64,
) -> Result<u64, PartError>
    requires { IsTrue (H.is_reading (shelf_of feed.old)) }
    ensures gives { GivesField H.contents (λ n. n) (number 8 (sparse_count_checks nlist total))
        feed.old feed.new result }
    ensures shelf { StaysOver H.contents H.is_reading H.faults feed.old feed.new
        (IsErrOf result PartError.Failed) }
    ensures few { IfOk result (λ n. n / 2 ≤ nlist) }
    ensures none { IfOk result (λ n. n / 2 ≡ 0 → total ≡ 0) }
{
    let at = feed.at();
    let count = feed.u64()?;
    if count % 2 == 1 || count > 2 * (u64::from(nlist) / 2) {
        return Err(PartError::bad(at, Reason::VectorSize));
    }
    if count == 0 && total != 0 {
        return Err(PartError::bad(at, Reason::ListSizes));
    }
    Ok(count)
}

fn read_pairs<H: Shelf>(
    alloc: Global,
    feed: &mut Feed<'_, H>,
    nlist: u32,
    total: u64,
    pairs: u64,
) -> Result<Vec<ListSize>, PartError>
    requires reading { IsTrue (H.is_reading (shelf_of feed.old)) }
    requires most { nlist ≤ 4194304 }
    requires few { total < 2 ^ 32 }
    requires pairs { pairs ≤ nlist }
    requires none { pairs ≡ 0 → total ≡ 0 }
    ensures gives { GivesField H.contents (λ sizes. sizes.items)
        (sparse_sizes nlist total pairs []) feed.old feed.new result }
    ensures shelf { StaysOver H.contents H.is_reading H.faults feed.old feed.new
        (IsErrOf result PartError.Failed) }
    ensures filled { IfOk result (λ sizes. AreFilled 0 nlist sizes.items) }
    ensures total { IfOk result (λ sizes. rows_in sizes.items ≡ total) }
{
    let mut sizes = Vec::new(alloc);
    let mut next = 0;
    let mut rows = 0;
    for done in 0..pairs {
        let pair = read_pair(feed, nlist, total, pairs, done, next, rows)?;
        make_room(&mut sizes)?;
        sizes.push(pair)?;
        next = pair.list() + 1;
        rows += pair.size() as u64;
    }
    Ok(sizes)
}

// The pair of a list from `next` on and its size, after `done` out of so many pairs, which have so
// many rows together.
#[tactic(auto, using(file_parts::proofs::Reading::run_then))]
fn read_pair<H: Shelf>(
    feed: &mut Feed<'_, H>,
    nlist: u32,
    total: u64,
    pairs: u64,
    done: u64,
    next: u32,
    rows: u64,
) -> Result<ListSize, PartError>
    requires reading { IsTrue (H.is_reading (shelf_of feed.old)) }
    requires most { nlist ≤ 4194304 }
    requires few { total < 2 ^ 32 }
    requires done { done < pairs }
    requires pairs { pairs ≤ nlist }
    requires rows { rows ≤ total }
    ensures gives { (before : List ListSizeForm) → length before ≡ done → rows_in before ≡ rows
        → ((list : ℕ) → list_any (λ p. nat_le list p.list) before ≡ nat_lt list next)
        → GivesField H.contents (λ p. p) (list_pair nlist total (pairs - (done + 1)) before)
        feed.old feed.new result }
    ensures shelf { StaysOver H.contents H.is_reading H.faults feed.old feed.new
        (IsErrOf result PartError.Failed) }
    ensures least { IfOk result (λ p. next ≤ p.list) }
    ensures below { IfOk result (λ p. p.list < nlist) }
    ensures some { IfOk result (λ p. 0 < p.size) }
    ensures within { IfOk result (λ p. rows + p.size ≤ total) }
    ensures last { IfOk result (λ p. done + 1 ≡ pairs → rows + p.size ≡ total) }
{
    let list = read_list_number(feed, nlist, next)?;
    let size = read_pair_size(feed, total, pairs, done, rows)?;
    Ok(ListSize { list, size })
}

#[tactic(auto, using(file_parts::proofs::FeedLemmas::checked_gives))]
fn read_list_number<H: Shelf>(
    feed: &mut Feed<'_, H>,
    nlist: u32,
    next: u32,
) -> Result<u32, PartError>
    requires { IsTrue (H.is_reading (shelf_of feed.old)) }
    ensures gives { (before : List ListSizeForm)
        → ((list : ℕ) → list_any (λ p. nat_le list p.list) before ≡ nat_lt list next)
        → GivesField H.contents (λ n. n) (number 8 (list_checks nlist before))
        feed.old feed.new result }
    ensures shelf { StaysOver H.contents H.is_reading H.faults feed.old feed.new
        (IsErrOf result PartError.Failed) }
    ensures least { IfOk result (λ n. next ≤ n) }
    ensures below { IfOk result (λ n. n < nlist) }
{
    let at = feed.at();
    let list = feed.u64()?;
    if list >= u64::from(nlist) || list < u64::from(next) {
        return Err(PartError::bad(at, Reason::ListSizes));
    }
    Ok(list as u32)
}

#[tactic(auto, using(file_parts::proofs::FeedLemmas::checked_gives))]
fn read_pair_size<H: Shelf>(
    feed: &mut Feed<'_, H>,
    total: u64,
    pairs: u64,
    done: u64,
    rows: u64,
) -> Result<u32, PartError>
    requires reading { IsTrue (H.is_reading (shelf_of feed.old)) }
    requires few { total < 2 ^ 32 }
    requires done { done < pairs }
    requires pairs { pairs ≤ 4194304 }
    requires rows { rows ≤ total }
    ensures gives { (before : List ListSizeForm) → length before ≡ done → rows_in before ≡ rows
        → GivesField H.contents (λ n. n)
        (number 8 (sparse_size_checks total (pairs - (done + 1)) before))
        feed.old feed.new result }
    ensures shelf { StaysOver H.contents H.is_reading H.faults feed.old feed.new
        (IsErrOf result PartError.Failed) }
    ensures some { IfOk result (λ n. 0 < n) }
    ensures within { IfOk result (λ n. rows + n ≤ total) }
    ensures last { IfOk result (λ n. done + 1 ≡ pairs → rows + n ≡ total) }
{
    let at = feed.at();
    let size = feed.u64()?;
    if size == 0 || size > total - rows {
        return Err(PartError::bad(at, Reason::ListSizes));
    }
    if done + 1 == pairs && rows + size != total {
        let back = 16 + 16 * done;
        return Err(PartError::bad(at.saturating_sub(back), Reason::ListSizes));
    }
    Ok(size as u32)
}
