use bit_strings::{BitReader, BitWriter, Short};
use std::alloc::{AllocError, Global};
use std::process::Abort;
use std::test::Fail;

// The packed bytes bit by bit.
fn plain(alloc: Global, numbers: &[(u64, u32)]) -> Result<Vec<u8>, AllocError> {
    let mut bytes: Vec<u8> = Vec::new(alloc);
    let mut bit = 0u32;
    for (x, n) in numbers {
        for t in 0..*n {
            if bit == 0 {
                bytes.push(0)?;
            }
            if let Some(last) = bytes.last_mut() {
                *last |= ((x.wrapping_shr(t) % 2) as u8).wrapping_shl(bit);
            }
            bit = bit.wrapping_add(1) % 8;
        }
    }
    Ok(bytes)
}

// Packs numbers that fit their widths, and reads them again.
fn check(
    rt: &impl Abort,
    alloc: Global,
    numbers: &[(u64, u32)],
    expected: &[u8],
) -> Result<(), Fail> {
    let mut room = 20_000;
    let mut writer = BitWriter::new(alloc, room)?;
    for (x, n) in numbers {
        assert!(rt; *n <= 64 && u64::from(*n) <= room);
        assert!(rt; u128::from(*x) < 1 << *n);
        writer.write(*x, *n);
        room -= u64::from(*n);
    }
    let packed = writer.finish();
    assert_eq!(rt; packed.as_slice(), expected);
    let mut reader = BitReader::new(expected);
    for (x, n) in numbers {
        assert!(rt; *n <= 64);
        assert_eq!(rt; reader.read(*n), Ok(*x));
    }
    assert!(rt; reader.rest_is_zero());
    assert_eq!(rt; reader.read(8), Err(Short));
    Ok(())
}

#[test]
fn packs_buckets_as_a_file_does(rt: HostRuntime) -> Result<(), Fail> {
    check(
        &rt,
        rt.alloc(),
        &[(0, 8), (2, 2), (1, 8), (1, 2)],
        &[0x00, 0x06, 0x04],
    )?;
    check(
        &rt,
        rt.alloc(),
        &[(1, 8), (3, 2), (0, 2), (1, 2), (2, 2)],
        &[0x01, 0x93],
    )?;
    Ok(())
}

#[test]
fn packs_numbers_of_all_widths(rt: HostRuntime) -> Result<(), Fail> {
    let mut numbers = Vec::new(rt.alloc());
    for i in 0..300u32 {
        let n = i.wrapping_mul(37) % 65;
        let mixed = u64::from(i).wrapping_mul(0x9E37_79B9_7F4A_7C15);
        numbers.push((mixed.checked_shr(64u32.wrapping_sub(n)).unwrap_or(0), n))?;
    }
    let expected = plain(rt.alloc(), &numbers)?;
    check(&rt, rt.alloc(), &numbers, &expected)?;
    Ok(())
}

#[test]
fn tells_what_is_left(rt: HostRuntime) {
    let mut reader = BitReader::new(&[0x80, 0x01]);
    assert_eq!(rt; reader.read(17), Err(Short));
    assert_eq!(rt; reader.read(8), Ok(0x80));
    assert!(rt; !reader.rest_is_zero());
    assert_eq!(rt; reader.read(1), Ok(1));
    assert!(rt; reader.rest_is_zero());
    assert_eq!(rt; reader.read(7), Ok(0));
    assert_eq!(rt; (reader.read(0), reader.read(1)), (Ok(0), Err(Short)));
}
