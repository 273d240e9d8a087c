ghost use Rattle.std.specs.Prelude.{◌≡◌, ◌≤◌, IfOk};

use crate::made::hit;
use bcodes::{Addable, BinaryIndex, Codes, Dim, DirectError, Hit, Meter, Plain, Want};
use id_select::Selector;
use ivf_index::{CentroidError, Ivf};
use std::alloc::Global;
use std::process::Abort;
use std::test::Fail;

// Codes of 8 bits, a byte each.
fn codes_of(alloc: Global, dim: Dim, bytes: &[u8]) -> Result<Codes, Want>
    requires { dim.bits ≡ 8 }
    ensures { IfOk result (λ codes. codes.dim ≡ 8) }
{
    let mut codes = Codes::new(alloc, dim);
    for byte in bytes {
        codes.push(&[*byte])?;
    }
    Ok(codes)
}

// Gives a centroid to a small index.
fn give<R: Abort>(rt: &R, index: &mut Ivf<Plain>, byte: u8) -> Result<(), CentroidError> {
    assert!(rt; index.dim().bits() == 8);
    assert!(rt; index.nlist() == 2);
    assert!(rt; index.count() < 100);
    match index.give_centroid(&[byte]) {
        Ok(()) => Ok(()),
        Err(error) => Err(error),
    }
}

// Adds codes to a small index.
fn add<R: Abort>(
    rt: &R,
    alloc: Global,
    index: &mut Ivf<Plain>,
    labels: &[i64],
    bytes: &[u8],
) -> Result<(), Want> {
    assert!(rt; index.dim().bits() == 8);
    let codes = codes_of(alloc, index.dim(), bytes)?;
    assert!(rt; labels.len() == codes.len());
    assert!(rt; codes.len() < 100);
    assert!(rt; index.count() < 100);
    assert!(rt; index.held() == 2);
    assert!(rt; index.trained());
    assert!(rt; index.takes_ids());
    index.add_all(labels, &codes, &mut Meter::new(Plain))?;
    Ok(())
}

// Adds codes to a list of a small index.
fn add_in<R: Abort>(
    rt: &R,
    index: &mut Ivf<Plain>,
    list: u32,
    labels: &[i64],
    codes: &[u8],
) -> Result<(), Want> {
    assert!(rt; index.dim().bits() == 8);
    assert!(rt; labels.len() == codes.len());
    assert!(rt; labels.len() < 100);
    assert!(rt; index.count() < 100);
    assert!(rt; index.nlist() == 2);
    assert!(rt; index.held() == 2);
    assert!(rt; list < 2);
    assert!(rt; !index.direct());
    index.add_in(list, labels, codes)?;
    Ok(())
}

// Gives an index the centroids 00 and ff, and no third.
fn train<R: Abort>(rt: &R, index: &mut Ivf<Plain>) -> Result<(), Fail> {
    give(rt, index, 0x00)?;
    assert!(rt; !index.trained());
    give(rt, index, 0xff)?;
    assert_eq!(rt; give(rt, index, 0x0f), Err(CentroidError::Full));
    Ok(())
}

// A search gives these hits, and reads so many codes.
fn check_search<R: Abort>(
    rt: &R,
    alloc: Global,
    index: &Ivf<Plain>,
    byte: u8,
    expected: &[Hit],
    looked: u64,
) -> Result<(), Fail> {
    assert!(rt; index.dim().bits() == 8);
    assert!(rt; index.trained());
    let mut meter = Meter::new(Plain);
    let hits = index.search(alloc, &[byte], 3, &mut meter)?;
    assert_eq!(rt; hits.as_slice(), expected);
    assert_eq!(rt; meter.lent(), looked);
    Ok(())
}

// A range search gives these hits, and reads so many codes.
fn check_range<R: Abort>(
    rt: &R,
    alloc: Global,
    index: &Ivf<Plain>,
    byte: u8,
    expected: &[Hit],
    looked: u64,
) -> Result<(), Fail> {
    assert!(rt; index.dim().bits() == 8);
    assert!(rt; index.trained());
    let mut meter = Meter::new(Plain);
    let hits = index.range(alloc, &[byte], 9, &mut meter)?;
    assert_eq!(rt; hits.as_slice(), expected);
    assert_eq!(rt; meter.lent(), looked);
    Ok(())
}

// Queries of one list and of both, and of one that has enough rows.
fn check_queries<R: Abort>(rt: &R, alloc: Global, index: &mut Ivf<Plain>) -> Result<(), Fail> {
    train(rt, index)?;
    add(rt, alloc, index, &[7, -2, 7], &[0x01, 0xfe, 0x03])?;
    let all = [hit(1, 7), hit(2, 7), hit(7, -2)];
    check_search(rt, alloc, index, 0x00, &all[..2], 4)?;
    index.set_nprobe(2);
    check_search(rt, alloc, index, 0x00, &all, 5)?;
    index.set_max_codes(2);
    check_range(rt, alloc, index, 0x00, &all[..2], 4)?;
    index.set_max_codes(3);
    check_range(rt, alloc, index, 0x00, &all, 5)
}

#[test]
fn queries_read_near_lists(rt: HostRuntime) -> Result<(), Fail> {
    let mut index = Ivf::new(rt.alloc(), Dim::new(8)?, 2)?;
    check_queries(&rt, rt.alloc(), &mut index)
}

// A direct map needs the labels 0, 1 and so on, and finds the codes by them.
fn check_direct<R: Abort>(rt: &R, alloc: Global, index: &mut Ivf<Plain>) -> Result<(), Fail> {
    train(rt, index)?;
    add(rt, alloc, index, &[1, 0], &[0xfe, 0x01])?;
    index.set_direct(true)?;
    assert!(rt; index.direct());
    assert!(rt; index.count() == 2);
    let mut meter = Meter::new(Plain);
    assert_eq!(rt; index.code_of(0, &mut meter), &[0x01][..]);
    assert_eq!(rt; index.code_of(1, &mut meter), &[0xfe][..]);
    assert_eq!(rt; meter.lent(), 2);
    assert_eq!(rt; (index.place(0), index.place(1)), (0, 4_294_967_296));
    assert_eq!(rt; index.quantizer().count(), 2);
    index.set_direct(false)?;
    add(rt, alloc, index, &[1], &[0x03])?;
    assert_eq!(rt; index.set_direct(true), Err(DirectError::NotSequential));
    Ok(())
}

#[test]
fn codes_are_found_by_labels(rt: HostRuntime) -> Result<(), Fail> {
    let mut index = Ivf::new(rt.alloc(), Dim::new(8)?, 2)?;
    check_direct(&rt, rt.alloc(), &mut index)
}

// Removes rows of an index that keeps no direct map.
fn remove<R: Abort>(rt: &R, index: &mut Ivf<Plain>, sel: &Selector) -> Result<u64, Want> {
    assert!(rt; !index.direct());
    let removed = index.remove(sel)?;
    Ok(removed)
}

// Rows leave both lists, and the next ones go behind those that stay.
fn check_removal<R: Abort>(rt: &R, alloc: Global, index: &mut Ivf<Plain>) -> Result<(), Fail> {
    train(rt, index)?;
    index.set_nprobe(2);
    add_in(rt, index, 1, &[5, -2], &[0x01, 0x03])?;
    add_in(rt, index, 0, &[5, 6], &[0x07, 0x0f])?;
    assert_eq!(rt; remove(rt, index, &Selector::all_but(alloc, &[-2, 6])?)?, 2);
    assert_eq!(rt; remove(rt, index, &Selector::range(-2, -2))?, 0);
    check_search(rt, alloc, index, 0x00, &[hit(2, -2), hit(4, 6)], 4)?;
    add(rt, alloc, index, &[1], &[0xff])?;
    assert!(rt; index.nlist() == 2);
    assert_eq!(rt; (index.list_len(0), index.list_len(1)), (1, 2));
    check_range(
        rt,
        alloc,
        index,
        0x00,
        &[hit(2, -2), hit(4, 6), hit(8, 1)],
        5,
    )
}

#[test]
fn rows_leave(rt: HostRuntime) -> Result<(), Fail> {
    let mut index = Ivf::new(rt.alloc(), Dim::new(8)?, 2)?;
    check_removal(&rt, rt.alloc(), &mut index)
}
