use crate::samples::{
    Change, DIRECT, DIRECT_FAULTS, FLAT, FLAT_FAULTS, HASH, HASH_FAULTS, IVF, IVF_FAULTS,
    MANY_FLAT, MANY_HASH, MANY_IVF, MANY_MULTI, MANY_POSITIONS, MAPPED, MAPPED_FAULTS, MULTI,
    MULTI_FAULTS, SAMPLES, WIDE, WIDE_FAULTS,
};
use any_index::AnyIndex;
use bcodes::BinaryIndex;
use file_parts::{FileFault, Reason};
use index_files::{LoadError, decode, encode};
use outside::{MemShelf, Shelf};
use std::alloc::{AllocError, Global};
use std::process::Abort;
use std::test::Fail;

// What a load of these bytes answers.
fn load(alloc: Global, bytes: &[u8]) -> Result<AnyIndex, LoadError> {
    let mut shelf = MemShelf::new(alloc);
    match shelf.put("f", bytes) {
        Ok(()) => {}
        Err(_) => return Err(LoadError::Memory),
    }
    match shelf.open("f") {
        Ok(true) => decode(alloc, &mut shelf),
        _ => Err(LoadError::Failed),
    }
}

// The bytes that an index is written as.
fn saved(alloc: Global, index: &AnyIndex) -> Result<Vec<u8>, Fail> {
    let mut shelf = MemShelf::new(alloc);
    encode(alloc, index, "f", &mut shelf)?;
    let bytes = shelf.get("f").unwrap_or(&[]);
    Ok(Vec::from_slice(alloc, bytes)?)
}

// The file of an index in an IDMap with these ids, by the file of the index.
fn mapped(alloc: Global, bytes: &[u8], ids: &[i64]) -> Result<Vec<u8>, AllocError> {
    let mut file = Vec::from_slice(alloc, b"IBMp")?;
    file.extend_from_slice(bytes.get(4..25).unwrap_or(&[]))?;
    file.extend_from_slice(bytes)?;
    file.extend_from_slice(&(ids.len() as u64).to_le_bytes())?;
    for id in ids {
        file.extend_from_slice(&id.to_le_bytes())?;
    }
    Ok(file)
}

// A file of an index of so many codes, which is written as the same bytes.
fn check_whole<R: Abort>(rt: &R, alloc: Global, bytes: &[u8], count: u64) -> Result<(), Fail> {
    let index = load(alloc, bytes)?;
    assert_eq!(rt; index.count(), count);
    assert_eq!(rt; saved(alloc, &index)?.as_slice(), bytes);
    Ok(())
}

// The bytes are no file, and this is their first fault.
fn check_fault<R: Abort>(
    rt: &R,
    alloc: Global,
    bytes: &[u8],
    at: u64,
    reason: Reason,
) -> Result<(), Fail> {
    let fault = LoadError::Bad(FileFault { at, reason });
    assert_eq!(rt; load(alloc, bytes).err(), Some(fault));
    Ok(())
}

// The last of these places that is not behind `n`.
fn field_at(starts: &[u64], n: u64) -> u64 {
    let mut at = 0;
    for &start in starts {
        if start <= n {
            at = start;
        }
    }
    at
}

// A file that ends early is short at the field that it does not hold whole, and no byte may follow
// a file.
fn check_ends<R: Abort>(rt: &R, alloc: Global, bytes: &[u8], starts: &[u64]) -> Result<(), Fail> {
    for n in 0..bytes.len() {
        let at = field_at(starts, n as u64);
        check_fault(rt, alloc, &bytes[..n], at, Reason::Short)?;
    }
    let mut longer = Vec::from_slice(alloc, bytes)?;
    longer.push(0)?;
    check_fault(rt, alloc, &longer, bytes.len() as u64, Reason::Trailing)
}

// Whether a file is accepted. It is then written as bytes that are accepted and written again.
fn is_accepted<R: Abort>(rt: &R, alloc: Global, bytes: &[u8]) -> Result<bool, Fail> {
    let index = match load(alloc, bytes) {
        Ok(index) => index,
        Err(_) => return Ok(false),
    };
    let once = saved(alloc, &index)?;
    let again = load(alloc, &once)?;
    assert_eq!(rt; saved(alloc, &again)?, once);
    Ok(true)
}

// How many of the files are accepted that have another byte in one place, each place and four bytes
// in turn.
fn count_accepted<R: Abort>(rt: &R, alloc: Global, bytes: &[u8]) -> Result<u32, Fail> {
    let mut count = 0u32;
    for place in 0..bytes.len() {
        for byte in [0, 1, 0x7f, 0xff] {
            let mut changed = Vec::from_slice(alloc, bytes)?;
            changed[place] = byte;
            if is_accepted(rt, alloc, &changed)? {
                count = count.saturating_add(1);
            }
        }
    }
    Ok(count)
}

// The file with each change has this fault.
fn check_changes<R: Abort>(
    rt: &R,
    alloc: Global,
    bytes: &[u8],
    changes: &[Change<'_>],
) -> Result<(), Fail> {
    for &(place, new, at, reason) in changes {
        assert!(rt; place <= bytes.len());
        assert!(rt; new.len() <= bytes.len() - place);
        let mut changed = Vec::from_slice(alloc, bytes)?;
        changed[place..place + new.len()].copy_from_slice(new);
        check_fault(rt, alloc, &changed, at, reason)?;
    }
    Ok(())
}

#[test]
fn whole_files_are_read_and_written_again(rt: HostRuntime) -> Result<(), Fail> {
    for sample in SAMPLES {
        check_whole(&rt, rt.alloc(), sample.bytes, sample.count)?;
    }
    check_whole(&rt, rt.alloc(), WIDE, 3)?;
    for bytes in [HASH, MULTI] {
        let file = mapped(rt.alloc(), bytes, &[-1, 5, i64::MIN])?;
        check_whole(&rt, rt.alloc(), &file, 3)?;
    }
    let file = mapped(rt.alloc(), DIRECT, &[-1, i64::MIN])?;
    check_whole(&rt, rt.alloc(), &file, 2)
}

#[test]
fn a_file_ends_where_it_must(rt: HostRuntime) -> Result<(), Fail> {
    for sample in SAMPLES {
        check_ends(&rt, rt.alloc(), sample.bytes, sample.starts)?;
    }
    Ok(())
}

#[test]
fn a_changed_byte_is_a_fault_or_another_file(rt: HostRuntime) -> Result<(), Fail> {
    for sample in SAMPLES {
        let accepted = count_accepted(&rt, rt.alloc(), sample.bytes)?;
        assert_eq!(rt; accepted, sample.accepted);
    }
    Ok(())
}

// The last two lines are labels that an index may have alone, and not under outer ids.
#[test]
fn the_first_fault_is_named(rt: HostRuntime) -> Result<(), Fail> {
    check_changes(&rt, rt.alloc(), FLAT, FLAT_FAULTS)?;
    check_changes(&rt, rt.alloc(), HASH, HASH_FAULTS)?;
    check_changes(&rt, rt.alloc(), MULTI, MULTI_FAULTS)?;
    check_changes(&rt, rt.alloc(), WIDE, WIDE_FAULTS)?;
    check_changes(&rt, rt.alloc(), IVF, IVF_FAULTS)?;
    check_changes(&rt, rt.alloc(), DIRECT, DIRECT_FAULTS)?;
    check_changes(&rt, rt.alloc(), MAPPED, MAPPED_FAULTS)?;
    let hash = mapped(rt.alloc(), HASH, &[7, 8, 9])?;
    check_changes(
        &rt,
        rt.alloc(),
        &hash,
        &[(89, b"\x03", 89, Reason::IdRange)],
    )?;
    let ivf = mapped(rt.alloc(), IVF, &[7])?;
    check_changes(
        &rt,
        rt.alloc(),
        &ivf,
        &[(159, b"\x01", 159, Reason::IdRange)],
    )
}

#[test]
fn many_codes_are_read_in_pieces(rt: HostRuntime) -> Result<(), Fail> {
    let mut flat = Vec::from_slice(rt.alloc(), MANY_FLAT)?;
    flat.resize(80_033, 0)?;
    check_whole(&rt, rt.alloc(), &flat, 40_000)?;
    let mut ivf = Vec::from_slice(rt.alloc(), MANY_IVF)?;
    ivf.resize(400_125, 0)?;
    check_whole(&rt, rt.alloc(), &ivf, 40_000)?;
    let mut hash = Vec::from_slice(rt.alloc(), MANY_HASH)?;
    hash.resize(320_064, 0)?;
    hash.extend_from_slice(b"\x80\x38\x01\0\0\0\0\0")?;
    hash.resize(400_072, 0)?;
    check_whole(&rt, rt.alloc(), &hash, 40_000)?;
    let mut multi = Vec::from_slice(rt.alloc(), MANY_MULTI)?;
    multi.resize(80_058, 0)?;
    multi.extend_from_slice(MANY_POSITIONS)?;
    for position in 0..40_000u16 {
        multi.extend_from_slice(&position.to_le_bytes())?;
    }
    check_whole(&rt, rt.alloc(), &multi, 40_000)
}
