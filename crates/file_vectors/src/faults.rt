// Loads of faulty files.
use crate::bytes::{DIRECT, FLAT, HASH, IVF, MAPPED, MULTI};
use crate::expect::expect_file;
use crate::runs::{check_script, shelf_with};
use faissb_core::Status;
use std::alloc::{AllocError, Global};
use std::process::Abort;
use std::test::Fail;

// The bytes from a place on replaced.
fn patched(alloc: Global, file: &[u8], at: usize, patch: &[u8]) -> Result<Vec<u8>, AllocError> {
    let mut bytes = Vec::from_slice(alloc, file.get(..at).unwrap_or(&[]))?;
    bytes.extend_from_slice(patch)?;
    let behind = at.saturating_add(patch.len());
    bytes.extend_from_slice(file.get(behind..).unwrap_or(&[]))?;
    Ok(bytes)
}

// The load of a file is refused by this reason and place.
fn check_fault<R: Abort>(rt: &R, alloc: Global, file: &[u8], fault: &str) -> Result<(), Fail> {
    let mut shelf = shelf_with(alloc, file)?;
    let replies = format!(in alloc; "refused file {fault}\n")?;
    check_script(
        rt,
        alloc,
        "load f\n",
        &mut shelf,
        replies.as_str(),
        Status::Refused,
    )?;
    expect_file(rt, &shelf, "f", Some(file));
    Ok(())
}

// Where the field begins that a front of so many bytes of a Flat lacks.
fn missing(len: usize) -> &'static str {
    match len {
        0..=3 => "short at 0",
        4..=7 => "short at 4",
        8..=11 => "short at 8",
        12..=19 => "short at 12",
        20 => "short at 20",
        21..=24 => "short at 21",
        25..=32 => "short at 25",
        33 => "short at 33",
        _ => "",
    }
}

#[test]
fn a_flat_that_is_cut_short(rt: HostRuntime) -> Result<(), Fail> {
    for len in 0..34 {
        let front = FLAT.get(..len).unwrap_or(&[]);
        check_fault(&rt, rt.alloc(), front, missing(len))?;
    }
    Ok(())
}

// A count that names more than the file holds takes no memory for it.
#[test]
fn a_flat_of_a_great_count(rt: HostRuntime) -> Result<(), Fail> {
    let count = b"\0\0\0\x02\0\0\0\0";
    let total = patched(rt.alloc(), FLAT, 12, count)?;
    let both = patched(rt.alloc(), &total, 25, count)?;
    check_fault(&rt, rt.alloc(), &both, "short at 34")
}

// A place in a file, the bytes from there on, and the fault.
struct Change(&'static [u8], usize, &'static [u8], &'static str);

static CHANGES: [Change; 30] = [
    Change(FLAT, 0, b"IBHf", "leftout at 0"),
    Change(FLAT, 0, b"IBxx", "fourcc at 0"),
    Change(FLAT, 4, b"\x0c\0\0\0", "dim at 4"),
    Change(FLAT, 8, b"\x02\0\0\0", "codesize at 8"),
    Change(FLAT, 12, b"\xff\xff\xff\xff\xff\xff\xff\xff", "count at 12"),
    Change(FLAT, 12, b"\0\0\0\0\0\x01\0\0", "load at 12"),
    Change(FLAT, 20, b"\x02", "flag at 20"),
    Change(FLAT, 21, b"\x02\0\0\0", "metric at 21"),
    Change(FLAT, 25, b"\x02\0\0\0\0\0\0\0", "vectorsize at 25"),
    Change(FLAT, 34, b"\0", "trailing at 34"),
    Change(HASH, 29, b"\x09\0\0\0", "number at 29"),
    Change(HASH, 53, b"\0\x06\x14", "padding at 53"),
    Change(HASH, 53, b"\0\x02\x04", "duplicatekey at 53"),
    Change(HASH, 53, b"\0\x06\0", "emptybucket at 53"),
    Change(HASH, 116, b"\x02\0", "wrongbucket at 116"),
    Change(MULTI, 37, b"\x02\0\0\0\0\0\0\0", "count at 37"),
    Change(MULTI, 76, b"\x03\0\0\0", "bits at 76"),
    Change(MULTI, 96, b"\x01S", "positions at 96"),
    Change(MULTI, 96, b"\x02\x93", "wrongbucket at 96"),
    Change(IVF, 53, b"\x01\0\0\0\0\0\0\0", "count at 53"),
    Change(IVF, 76, b"\x01", "vectorsize at 77"),
    Change(IVF, 85, b"il00", "leftout at 85"),
    Change(IVF, 109, b"\0\0\0\0\0\0\0\0", "listsizes at 109"),
    Change(IVF, 125, b"\x02\0\0\0\0\0\0\0", "listsizes at 125"),
    Change(
        DIRECT,
        85,
        b"\0\0\0\0\x01\0\0\0\0\0\0\0\0\0\0\0",
        "directmap at 150",
    ),
    Change(DIRECT, 150, b"\x02\0\0\0\0\0\0\0", "idrange at 150"),
    Change(DIRECT, 76, b"\x02", "leftout at 76"),
    Change(DIRECT, 76, b"\x03", "number at 76"),
    Change(MAPPED, 59, b"\x02\0\0\0\0\0\0\0", "vectorsize at 59"),
    Change(MAPPED, 25, b"IBM2", "leftout at 25"),
];

fn check_change<R: Abort>(rt: &R, alloc: Global, change: &Change) -> Result<(), Fail> {
    let changed = patched(alloc, change.0, change.1, change.2)?;
    check_fault(rt, alloc, &changed, change.3)
}

#[test]
fn a_changed_file_is_refused(rt: HostRuntime) -> Result<(), Fail> {
    for change in CHANGES.iter() {
        check_change(&rt, rt.alloc(), change)?;
    }
    Ok(())
}
