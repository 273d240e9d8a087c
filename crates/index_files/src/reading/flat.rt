ghost use Rattle.std.specs.Prelude.{◌≡◌, ◌+◌, ◌*◌, ◌/◌, ◌<◌, ◌≤◌, [], IfOk, IsErrOf, IsTrue};
ghost use Rattle.std.specs.Prelude.{OnOk, length, true};
ghost use Rattle.bcodes.specs.Chunks.{chunks_of};
ghost use Rattle.bcodes.specs.Ranges.{IsDim, load_limit};
ghost use Rattle.bcodes.specs.Value.{weight};
ghost use Rattle.file_parts.specs.Fields.{bytes_field, no_check, repeated};
ghost use Rattle.file_parts.specs.Feeding.{GivesField, StaysOver, shelf_of};
ghost use Rattle.file_parts.specs.Heads.{IsHead, view_head};
ghost use Rattle.index_files.specs.FlatFormat.{code_bytes_field, flat_body};

use bcodes::{Codes, Dim, Plain, Want, code_at};
use file_parts::{Feed, Head, PartError, Reason, Role};
use flat_index::Flat;
use outside::Shelf;
use std::alloc::Global;

// The most bytes of codes that are read at once, where a code has no more.
pub const PIECE: usize = 65_536;

// What follows the letters of a Flat.
#[tactic(auto, unfolding(crate::specs::FlatFormat::flat_body), using(file_parts::proofs::Reading::run_then))]
pub fn read_flat<H: Shelf>(
    alloc: Global,
    feed: &mut Feed<'_, H>,
    role: Role,
) -> Result<Flat<Plain>, PartError>
    requires { IsTrue (H.is_reading (shelf_of feed.old)) }
    ensures gives { GivesField H.contents (λ flat. flat) (flat_body role)
        feed.old feed.new result }
    ensures shelf { StaysOver H.contents H.is_reading H.faults feed.old feed.new
        (IsErrOf result PartError.Failed) }
    ensures fits { IfOk result (λ flat. IsHead role
        (record { dim = flat.dim; count = length flat.codes; flag = true })) }
{
    let head = feed.head(role)?;
    read_code_bytes(feed, head)?;
    let dim = dim_of(head.dim);
    let mut flat = Flat::new(alloc, dim)?;
    read_codes(alloc, feed, &mut flat, dim, head.count)?;
    Ok(flat)
}

pub fn dim_of(d: u32) -> Dim
    requires { IsDim d }
    ensures { result.bits ≡ d }
{
    match Dim::new(u64::from(d)) {
        Ok(dim) => dim,
        Err(_) => unreachable!(),
    }
}

#[tactic(auto, unfolding(crate::specs::FlatFormat::code_bytes_field), using(file_parts::proofs::FeedLemmas::checked_gives))]
pub fn read_code_bytes<H: Shelf>(feed: &mut Feed<'_, H>, head: Head) -> Result<u64, PartError>
    requires { IsTrue (H.is_reading (shelf_of feed.old)) }
    ensures gives { GivesField H.contents (λ n. n) (code_bytes_field (view_head head))
        feed.old feed.new result }
    ensures shelf { StaysOver H.contents H.is_reading H.faults feed.old feed.new
        (IsErrOf result PartError.Failed) }
{
    let at = feed.at();
    let size = feed.u64()?;
    if u128::from(size) != u128::from(head.count) * u128::from(head.dim / 8) {
        return Err(PartError::bad(at, Reason::VectorSize));
    }
    Ok(size)
}

// Appends so many codes to an index, piece by piece.
fn read_codes<H: Shelf>(
    alloc: Global,
    feed: &mut Feed<'_, H>,
    flat: &mut Flat<Plain>,
    dim: Dim,
    count: u64,
) -> Result<(), PartError>
    requires reading { IsTrue (H.is_reading (shelf_of feed.old)) }
    requires dim { flat.old.dim ≡ dim.bits }
    requires none { flat.old.codes ≡ [] }
    requires load { weight dim.bits 0 count 0 ≤ load_limit }
    ensures gives { GivesField H.contents (λ _. flat.new.codes)
        (repeated count (bytes_field (dim.bits / 8) no_check))
        feed.old feed.new result }
    ensures shelf { StaysOver H.contents H.is_reading H.faults feed.old feed.new
        (IsErrOf result PartError.Failed) }
    ensures dim { flat.new.dim ≡ dim.bits }
    ensures count { OnOk result (length flat.new.codes ≡ count) }
{
    let size = dim.bytes();
    let most = (PIECE / size) as u64;
    let mut done = 0;
    while done < count {
        let n = (count - done).min(most);
        let bytes = read_bytes(alloc, feed, size, n as usize)?;
        flat.append_bytes(n as usize, &bytes)?;
        done += n;
    }
    Ok(())
}

/// Reads `n` codes, of at most 65,536 bytes together.
pub fn read_piece<H: Shelf>(
    alloc: Global,
    feed: &mut Feed<'_, H>,
    dim: Dim,
    n: usize,
) -> Result<Codes, PartError>
    requires reading { IsTrue (H.is_reading (shelf_of feed.old)) }
    requires few { n * (dim.bits / 8) ≤ 65536 }
    ensures gives { GivesField H.contents (λ codes. codes.codes)
        (repeated n (bytes_field (dim.bits / 8) no_check))
        feed.old feed.new result }
    ensures shelf { StaysOver H.contents H.is_reading H.faults feed.old feed.new
        (IsErrOf result PartError.Failed) }
    ensures dim { IfOk result (λ codes. codes.dim ≡ dim.bits) }
    ensures count { IfOk result (λ codes. length codes.codes ≡ n) }
{
    let bytes = read_bytes(alloc, feed, dim.bytes(), n)?;
    let codes = codes_of(alloc, dim, n, &bytes)?;
    Ok(codes)
}

/// Reads `n` codes of `size` bytes each, of at most 65,536 bytes together. They lie side by side.
pub fn read_bytes<H: Shelf>(
    alloc: Global,
    feed: &mut Feed<'_, H>,
    size: usize,
    n: usize,
) -> Result<Vec<u8>, PartError>
    requires reading { IsTrue (H.is_reading (shelf_of feed.old)) }
    requires size { 0 < size }
    requires few { n * size ≤ 65536 }
    ensures gives { GivesField H.contents (λ bytes. chunks_of size n bytes.items)
        (repeated n (bytes_field size no_check))
        feed.old feed.new result }
    ensures shelf { StaysOver H.contents H.is_reading H.faults feed.old feed.new
        (IsErrOf result PartError.Failed) }
    ensures count { IfOk result (λ bytes. length bytes.items ≡ n * size) }
{
    let mut bytes = vec![in alloc; 0u8; n * size]?;
    read_records(feed, &mut bytes, n, size)?;
    Ok(bytes)
}

fn read_records<H: Shelf>(
    feed: &mut Feed<'_, H>,
    into: &mut [u8],
    n: usize,
    size: usize,
) -> Result<(), PartError>
    requires reading { IsTrue (H.is_reading (shelf_of feed.old)) }
    requires size { 0 < size }
    requires whole { length into.old ≡ n * size }
    ensures gives { GivesField H.contents (λ _. chunks_of size n into.new)
        (repeated n (bytes_field size no_check))
        feed.old feed.new result }
    ensures shelf { StaysOver H.contents H.is_reading H.faults feed.old feed.new
        (IsErrOf result PartError.Failed) }
{
    feed.records(into, size)?;
    Ok(())
}

fn codes_of(alloc: Global, dim: Dim, n: usize, bytes: &[u8]) -> Result<Codes, Want>
    requires { length bytes.now ≡ n * (dim.bits / 8) }
    ensures { IfOk result (λ codes. codes
        ≡ record { dim = dim.bits; codes = chunks_of (dim.bits / 8) n bytes.now }) }
{
    let mut codes = Codes::new(alloc, dim);
    for i in 0..n {
        codes.push(code_at(bytes, dim.bytes(), i))?;
    }
    Ok(codes)
}
