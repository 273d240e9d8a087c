ghost use Rattle.std.specs.Prelude.{◌≡◌, ◌+◌, ◌*◌, ◌/◌, ◌<◌, ◌≤◌, ◌++◌, ◌||◌, [], IfOk, IsErrOf, IsTrue};
ghost use Rattle.std.specs.Prelude.{OnOk, drop, false, is_some, length, map, true};
ghost use Rattle.std.specs.List.{All};
ghost use Rattle.bcodes.specs.Chunks.{chunks_of};
ghost use Rattle.bcodes.specs.Ranges.{load_limit};
ghost use Rattle.bcodes.specs.Value.{IsNumbering, IsPlace, row_of, weight};
ghost use Rattle.file_parts.specs.Fields.{bytes_field, no_check, repeated};
ghost use Rattle.file_parts.specs.Feeding.{GivesField, StaysOver, shelf_of};
ghost use Rattle.index_files.specs.FlatFormat.{is_inside};
ghost use Rattle.index_files.specs.IvfFormat.{list_rows, rows_in};
ghost use Rattle.index_files.specs.IvfSteps.{AreFilled, AreListRows, row_lists};

use crate::reading::flat::{PIECE, read_bytes};
use crate::reading::ivf::ids::{IdChecks, read_list_ids};
use crate::reading::ivf::sizes::ListSize;
use bcodes::{Dim, Plain, are_bytes};
use file_parts::{Feed, PartError};
use ivf_index::Ivf;
use outside::Shelf;
use std::alloc::{AllocError, Global};

/// Puts the rows of the lists of these sizes on an index that has none.
pub fn read_rows<H: Shelf>(
    alloc: Global,
    feed: &mut Feed<'_, H>,
    checks: &IdChecks,
    dim: Dim,
    sizes: &[ListSize],
    ivf: &mut Ivf<Plain>,
) -> Result<(), PartError>
    requires reading { IsTrue (H.is_reading (shelf_of feed.old)) }
    requires dim { ivf.old.dim ≡ dim.bits }
    requires none { ivf.old.rows ≡ [] }
    requires direct { ivf.old.direct ≡ false }
    requires filled { AreFilled 0 ivf.old.nlist sizes.now }
    requires trained { 0 < rows_in sizes.now → ivf.old.nlist ≤ length ivf.old.centroids }
    requires load { weight dim.bits 0 (rows_in sizes.now) (length ivf.old.centroids)
        ≤ load_limit }
    ensures gives { GivesField H.contents (λ _. ivf.new.rows)
        (row_lists checks.now (dim.bits / 8) sizes.now) feed.old feed.new result }
    ensures shelf { StaysOver H.contents H.is_reading H.faults feed.old feed.new
        (IsErrOf result PartError.Failed) }
    ensures ivf { ivf.new ≡ record ivf.old { rows = ivf.new.rows } }
    ensures count { OnOk result (length ivf.new.rows ≡ rows_in sizes.now) }
    ensures places { OnOk result ((is_inside checks.now.role || is_some checks.now.direct) ≡ true
        → All (λ row. IsPlace checks.now.count row.label) (map row_of ivf.new.rows)) }
    ensures numbered { OnOk result (is_some checks.now.direct ≡ true
        → rows_in sizes.now ≡ checks.now.count
        → IsNumbering (map (λ row. row.label) ivf.new.rows)) }
{
    for i in 0..sizes.len() {
        let p = sizes[i];
        read_list(alloc, feed, checks, dim, p.list(), p.size(), ivf)?;
    }
    Ok(())
}

// Puts the rows of a list, so many, behind those that there are.
fn read_list<H: Shelf>(
    alloc: Global,
    feed: &mut Feed<'_, H>,
    checks: &IdChecks,
    dim: Dim,
    list: u32,
    size: u32,
    ivf: &mut Ivf<Plain>,
) -> Result<(), PartError>
    requires reading { IsTrue (H.is_reading (shelf_of feed.old)) }
    requires exists { list < ivf.old.nlist }
    requires dim { ivf.old.dim ≡ dim.bits }
    requires direct { ivf.old.direct ≡ false }
    requires trained { ivf.old.nlist ≤ length ivf.old.centroids }
    requires load { weight dim.bits 0 (length ivf.old.rows + size) (length ivf.old.centroids)
        ≤ load_limit }
    ensures gives { GivesField H.contents (λ _. drop (length ivf.old.rows) ivf.new.rows)
        (list_rows checks.now.role (dim.bits / 8) checks.now.count checks.now.direct
        (record { list = list; size = size }))
        feed.old feed.new result }
    ensures shelf { StaysOver H.contents H.is_reading H.faults feed.old feed.new
        (IsErrOf result PartError.Failed) }
    ensures ivf { ivf.new ≡ record ivf.old { rows = ivf.new.rows } }
    ensures all { OnOk result (ivf.new.rows
        ≡ ivf.old.rows ++ drop (length ivf.old.rows) ivf.new.rows) }
    ensures read { OnOk result (AreListRows checks.now (dim.bits / 8)
        (record { list = list; size = size }) (drop (length ivf.old.rows) ivf.new.rows)) }
{
    let codes = read_codes(alloc, feed, dim.bytes(), size)?;
    let ids = read_list_ids(alloc, feed, checks, list, size)?;
    are_bytes(&codes);
    ivf.add_in(list, &ids, &codes)?;
    Ok(())
}

// So many codes of `size` bytes each, read in pieces of at most 65,536 bytes. They lie side by side.
fn read_codes<H: Shelf>(
    alloc: Global,
    feed: &mut Feed<'_, H>,
    size: usize,
    count: u32,
) -> Result<Vec<u8>, PartError>
    requires reading { IsTrue (H.is_reading (shelf_of feed.old)) }
    requires some { 0 < size }
    requires few { size ≤ 8192 }
    ensures gives { GivesField H.contents (λ codes. chunks_of size count codes.items)
        (repeated count (bytes_field size no_check)) feed.old feed.new result }
    ensures shelf { StaysOver H.contents H.is_reading H.faults feed.old feed.new
        (IsErrOf result PartError.Failed) }
    ensures count { IfOk result (λ codes. length codes.items ≡ count * size) }
{
    let most = (PIECE / size) as u32;
    let mut codes = Vec::new(alloc);
    let mut done = 0;
    while done < count {
        let n = (count - done).min(most);
        let bytes = read_bytes(alloc, feed, size, n as usize)?;
        join(&mut codes, bytes)?;
        done += n;
    }
    Ok(codes)
}

// Puts bytes behind others. The first are taken over as they are.
fn join(bytes: &mut Vec<u8>, more: Vec<u8>) -> Result<(), AllocError>
    ensures { OnOk result (bytes.new.items ≡ bytes.old.items ++ more.items) }
{
    if bytes.is_empty() {
        *bytes = more;
        return Ok(());
    }
    bytes.reserve_exact(more.len())?;
    bytes.extend_from_slice(&more)
}
