ghost use Rattle.std.specs.Prelude.{◌≤◌};

use file_parts::{Feed, Head, Header, PartError, Reason, Role, Store};
use outside::{MemShelf, Shelf, Trouble};
use std::alloc::{AllocError, Global};
use std::test::Fail;

/// A Flat of 8 bits that holds the one code `ab`.
const FLAT: &[u8] =
    b"IBxF\x08\0\0\0\x01\0\0\0\x01\0\0\0\0\0\0\0\x01\x01\0\0\0\x01\0\0\0\0\0\0\0\xab";

/// The offsets at which its fields begin.
const STARTS: [usize; 8] = [0, 4, 8, 12, 20, 21, 25, 33];

type Flat = Option<(Header, u64, u8)>;

// A shelf with the file `f` of these bytes.
fn shelf_with(alloc: Global, bytes: &[u8]) -> Result<MemShelf, AllocError> {
    let mut shelf = MemShelf::new(alloc);
    shelf.put("f", bytes)?;
    Ok(shelf)
}

// The header, the count and the code of the Flat in the file `f`.
fn read_flat<H: Shelf>(shelf: &mut H) -> Result<Flat, PartError> {
    if !shelf.open("f")? {
        return Ok(None);
    }
    let mut feed = Feed::new(shelf);
    if !feed.letters()?.is("IBxF") {
        return Ok(None);
    }
    let header = feed.header()?;
    let count = feed.u64()?;
    let code = feed.byte()?;
    feed.end()?;
    Ok(Some((header, count, code)))
}

// The same by single numbers.
fn read_numbers<H: Shelf>(shelf: &mut H) -> Result<Option<(u32, i32, i64, u64)>, PartError> {
    if !shelf.open("f")? {
        return Ok(None);
    }
    let mut feed = Feed::new(shelf);
    feed.letters()?;
    let d = feed.u32()?;
    let size = feed.i32()?;
    let count = feed.i64()?;
    feed.byte()?;
    feed.i32()?;
    let code_bytes = feed.u64()?;
    Ok(Some((d, size, count, code_bytes)))
}

fn read_head<H: Shelf>(shelf: &mut H, role: Role) -> Result<Option<Head>, PartError> {
    if !shelf.open("f")? {
        return Ok(None);
    }
    let mut feed = Feed::new(shelf);
    feed.letters()?;
    Ok(Some(feed.head(role)?))
}

// Fields of eight bytes behind the letters, and the offset after them.
fn read_records<H: Shelf>(
    shelf: &mut H,
    into: &mut [u8; 40],
    count: usize,
) -> Result<u64, PartError>
    requires { count ≤ 5 }
{
    if !shelf.open("f")? {
        return Ok(0);
    }
    let mut feed = Feed::new(shelf);
    feed.letters()?;
    feed.records(&mut into[..8 * count], 8)?;
    Ok(feed.at())
}

fn read_run<H: Shelf>(alloc: Global, shelf: &mut H, count: u64) -> Result<Vec<u8>, PartError> {
    if !shelf.open("f")? {
        return Ok(Vec::new(alloc));
    }
    let mut feed = Feed::new(shelf);
    let bytes = feed.run(alloc, count)?;
    feed.end()?;
    Ok(bytes)
}

fn write_flat<H: Shelf>(shelf: &mut H) -> Result<u64, Trouble> {
    shelf.create("f")?;
    let mut store = Store::new(shelf);
    store.bytes(b"IBxF")?;
    store.u32(8)?;
    store.i32(1)?;
    store.i64(1)?;
    store.byte(1)?;
    store.i32(1)?;
    store.u64(1)?;
    store.byte(0xab)?;
    let count = store.at();
    shelf.keep()?;
    Ok(count)
}

// What reading a Flat of these bytes gives.
fn flat_in(alloc: Global, bytes: &[u8]) -> Result<Result<Flat, PartError>, AllocError> {
    let mut shelf = shelf_with(alloc, bytes)?;
    Ok(read_flat(&mut shelf))
}

fn head_in(alloc: Global, role: Role) -> Result<Result<Option<Head>, PartError>, AllocError> {
    let mut shelf = shelf_with(alloc, FLAT)?;
    Ok(read_head(&mut shelf, role))
}

// Whether a run of so many bytes is the whole of a file of these.
fn is_run(alloc: Global, bytes: &[u8], count: u64) -> Result<bool, PartError> {
    let mut shelf = shelf_with(alloc, bytes)?;
    let run = read_run(alloc, &mut shelf, count)?;
    Ok(run.as_slice() == bytes)
}

#[test]
fn reads_fields(rt: HostRuntime) -> Result<(), Fail> {
    let header = Header {
        d: 8,
        code_size: 1,
        ntotal: 1,
        trained: true,
        metric: 1,
    };
    assert_eq!(rt; flat_in(rt.alloc(), FLAT)?, Ok(Some((header, 1, 0xab))));
    let mut shelf = shelf_with(rt.alloc(), FLAT)?;
    assert_eq!(rt; read_numbers(&mut shelf), Ok(Some((8, 1, 1, 1))));
    Ok(())
}

#[test]
fn writes_fields(rt: HostRuntime) -> Result<(), Fail> {
    for call in 0..10 {
        let mut shelf = MemShelf::new(rt.alloc());
        shelf.fail_at(call)?;
        assert_eq!(rt; write_flat(&mut shelf), Err(Trouble::Failed));
        assert_eq!(rt; shelf.get("f"), None);
        assert_eq!(rt; write_flat(&mut shelf), Ok(34));
        assert_eq!(rt; shelf.get("f"), Some(FLAT));
    }
    Ok(())
}

#[test]
fn names_the_first_field_that_is_missing(rt: HostRuntime) -> Result<(), Fail> {
    for len in 0..FLAT.len() {
        let start = STARTS.iter().rfind(|start| **start <= len);
        let at = start.copied().unwrap_or(0) as u64;
        let short = PartError::bad(at, Reason::Short);
        assert_eq!(rt;
            flat_in(rt.alloc(), &FLAT[..len])?,
            Err(short),
            "{len} bytes"
        );
    }
    let mut bytes = [0; 35];
    bytes[..34].copy_from_slice(FLAT);
    let trailing = PartError::bad(34, Reason::Trailing);
    assert_eq!(rt; flat_in(rt.alloc(), &bytes)?, Err(trailing));
    Ok(())
}

#[test]
fn names_the_first_fault_of_a_header(rt: HostRuntime) -> Result<(), Fail> {
    for (place, byte, at, reason) in [
        (4, 12, 4, Reason::Dim),
        (8, 2, 8, Reason::CodeSize),
        (19, 0x80, 12, Reason::Count),
        (17, 1, 12, Reason::Load),
        (20, 2, 20, Reason::Flag),
        (21, 2, 21, Reason::Metric),
    ] {
        let mut bytes = [0; 34];
        bytes.copy_from_slice(FLAT);
        bytes[place] = byte;
        assert_eq!(rt;
            flat_in(rt.alloc(), &bytes)?,
            Err(PartError::bad(at, reason))
        );
    }
    Ok(())
}

fn quantizer(nlist: u64, rows: u64, flag: bool) -> Role {
    Role::Quantizer {
        dim: 8,
        nlist,
        rows,
        flag,
    }
}

#[test]
fn tries_a_header_by_its_role(rt: HostRuntime) -> Result<(), Fail> {
    let head = Head {
        dim: 8,
        count: 1,
        flag: true,
    };
    for role in [Role::Within { dim: 8, count: 1 }, quantizer(2, 0, false)] {
        assert_eq!(rt; head_in(rt.alloc(), role)?, Ok(Some(head)));
    }
    for (role, at, reason) in [
        (Role::Within { dim: 16, count: 1 }, 4, Reason::Dim),
        (Role::Within { dim: 8, count: 2 }, 12, Reason::Count),
        (quantizer(2, 0, true), 12, Reason::Count),
        (quantizer(1, 1 << 26, true), 12, Reason::Load),
    ] {
        assert_eq!(rt; head_in(rt.alloc(), role)?, Err(PartError::bad(at, reason)));
    }
    Ok(())
}

#[test]
fn reads_many_bytes_at_once(rt: HostRuntime) -> Result<(), Fail> {
    let mut into = [0; 40];
    let mut shelf = shelf_with(rt.alloc(), FLAT)?;
    assert_eq!(rt; read_records(&mut shelf, &mut into, 3), Ok(28));
    let mut expected = [0; 40];
    expected[..24].copy_from_slice(&FLAT[4..28]);
    assert_eq!(rt; into, expected);
    let short = PartError::bad(28, Reason::Short);
    assert_eq!(rt; read_records(&mut shelf, &mut into, 4), Err(short));
    Ok(())
}

#[test]
fn makes_room_for_what_is_there(rt: HostRuntime) -> Result<(), Fail> {
    // Longer than what is read at once.
    let bytes = vec![in rt.alloc(); 7u8; 70_000]?;
    assert_eq!(rt; is_run(rt.alloc(), &bytes, 70_000), Ok(true));
    let trailing = PartError::bad(69_999, Reason::Trailing);
    assert_eq!(rt; is_run(rt.alloc(), &bytes, 69_999), Err(trailing));
    for count in [70_001, 1 << 63, u64::MAX] {
        let short = PartError::bad(0, Reason::Short);
        assert_eq!(rt; is_run(rt.alloc(), &bytes, count), Err(short));
    }
    Ok(())
}

#[test]
fn hands_on_a_failure(rt: HostRuntime) -> Result<(), Fail> {
    for call in 0..2 {
        let mut shelf = shelf_with(rt.alloc(), FLAT)?;
        shelf.fail_at(call)?;
        assert_eq!(rt; read_flat(&mut shelf), Err(PartError::Failed));
    }
    Ok(())
}
