ghost use Rattle.std.specs.Prelude.{◌≡◌, ◌≤◌, length, IsTrue, OnOk};
ghost use Rattle.bcodes.specs.Value.{Bare, Flat as FlatForm, code_size, empty_flat, is_trained};
ghost use Rattle.bcodes.specs.Value.{labels_from};

use crate::made::hit;
use bcodes::{Addable, BinaryIndex, Codes, Dim, Hit, Meter, Plain, Want};
use flat_index::Flat;
use id_select::Selector;
use std::alloc::Global;
use std::process::Abort;
use std::test::Fail;

// Adds a few codes to an index that holds none.
fn fill<I: Addable<Led = Plain>>(index: &mut I, labels: &[i64], codes: &Codes) -> Result<(), Want>
    requires empty { I.value index.old ≡ Bare (FlatForm (empty_flat codes.now.dim)) }
    requires positions { labels.now ≡ labels_from 0 (length codes.now.codes) }
    requires few { length codes.now.codes ≤ 4 }
    ensures { OnOk result (I.value index.new ≡ Bare (FlatForm codes.now)) }
{
    let _dim = codes.dim();
    index.add_all(labels, codes, &mut Meter::new(Plain))?;
    Ok(())
}

// A search gives these hits, lends each code once and asks for no bucket.
fn check_search<I: BinaryIndex<Led = Plain>>(
    rt: &impl Abort,
    alloc: Global,
    index: &I,
    q: &[u8],
    k: u32,
    expected: &[Hit],
) -> Result<(), Fail>
    requires size { length q.now ≡ code_size (I.value index.now) }
    requires some { 1 ≤ k }
    requires is_trained { IsTrue (is_trained (I.value index.now)) }
{
    let mut meter = Meter::new(Plain);
    let hits = index.search(alloc, q, k, &mut meter)?;
    assert_eq!(rt; hits.as_slice(), expected);
    assert_eq!(rt; (meter.lent(), meter.asked()), (index.count(), 0));
    Ok(())
}

// A range search gives these hits, lends each code once and asks for no bucket.
fn check_range<I: BinaryIndex<Led = Plain>>(
    rt: &impl Abort,
    alloc: Global,
    index: &I,
    q: &[u8],
    radius: u32,
    expected: &[Hit],
) -> Result<(), Fail>
    requires size { length q.now ≡ code_size (I.value index.now) }
    requires is_trained { IsTrue (is_trained (I.value index.now)) }
{
    let mut meter = Meter::new(Plain);
    let hits = index.range(alloc, q, radius, &mut meter)?;
    assert_eq!(rt; hits.as_slice(), expected);
    assert_eq!(rt; (meter.lent(), meter.asked()), (index.count(), 0));
    Ok(())
}

#[test]
fn answers_over_four_codes(rt: HostRuntime) -> Result<(), Fail> {
    let dim = Dim::new(16)?;
    assert!(rt; dim.bytes() == 2);
    let mut codes = Codes::new(rt.alloc(), dim);
    codes.push(&[0x00, 0x00])?;
    codes.push(&[0x01, 0x00])?;
    codes.push(&[0x03, 0x00])?;
    codes.push(&[0xff, 0xff])?;
    let mut index = Flat::new(rt.alloc(), dim)?;
    fill(&mut index, &[0, 1, 2, 3], &codes)?;
    let q = [0x00, 0x00];
    let all = [hit(0, 0), hit(1, 1), hit(2, 2), hit(16, 3)];
    check_search(&rt, rt.alloc(), &index, &q, 2, &all[..2])?;
    check_search(&rt, rt.alloc(), &index, &q, 9, &all)?;
    check_range(&rt, rt.alloc(), &index, &q, 0, &all[..0])?;
    check_range(&rt, rt.alloc(), &index, &q, 1, &all[..1])?;
    check_range(&rt, rt.alloc(), &index, &q, 17, &all)?;
    let mut meter = Meter::new(Plain);
    assert_eq!(rt; index.code(3, &mut meter), &[0xff, 0xff][..]);
    assert_eq!(rt; (meter.lent(), meter.asked()), (1, 0));
    Ok(())
}

#[test]
fn equal_codes_go_by_label(rt: HostRuntime) -> Result<(), Fail> {
    let dim = Dim::new(16)?;
    assert!(rt; dim.bytes() == 2);
    let mut codes = Codes::new(rt.alloc(), dim);
    codes.push(&[0x01, 0x00])?;
    codes.push(&[0x01, 0x00])?;
    let mut index = Flat::new(rt.alloc(), dim)?;
    fill(&mut index, &[0, 1], &codes)?;
    check_search(&rt, rt.alloc(), &index, &[0, 0], 1, &[hit(1, 0)])
}

#[test]
fn an_empty_index_gives_nothing(rt: HostRuntime) -> Result<(), Fail> {
    let dim = Dim::new(16)?;
    assert!(rt; dim.bytes() == 2);
    let index = Flat::new(rt.alloc(), dim)?;
    check_search(&rt, rt.alloc(), &index, &[0, 0], 3, &[])?;
    check_range(&rt, rt.alloc(), &index, &[0, 0], 17, &[])
}

// More codes than are appended at a time, behind one that is there.
#[test]
fn codes_side_by_side_are_appended(rt: HostRuntime) -> Result<(), Fail> {
    let dim = Dim::new(16)?;
    let mut bytes = Vec::new(rt.alloc());
    for i in 0..600u16 {
        bytes.extend_from_slice(&i.to_le_bytes())?;
    }
    assert!(rt; dim.bytes() == 2 && bytes.len() == 1_200);
    let mut index = Flat::new(rt.alloc(), dim)?;
    index.append_bytes(1, &bytes[..2])?;
    assert!(rt; index.dim().bytes() == 2 && index.count() == 1);
    index.append_bytes(599, &bytes[2..])?;
    assert_eq!(rt; index.count(), 600);
    check_numbers(&rt, &index)
}

// The code at each position is the number of that position.
fn check_numbers(rt: &impl Abort, index: &Flat<Plain>) -> Result<(), Fail> {
    let mut meter = Meter::new(Plain);
    for position in 0..index.count() {
        let number = position.to_le_bytes();
        assert_eq!(rt; index.code(position, &mut meter), &number[..2]);
    }
    Ok(())
}

// The codes that stay close up, whichever of the others leave.
#[test]
fn codes_leave_and_close_up(rt: HostRuntime) -> Result<(), Fail> {
    let dim = Dim::new(16)?;
    assert!(rt; dim.bytes() == 2);
    let mut codes = Codes::new(rt.alloc(), dim);
    codes.push(&[0x00, 0x00])?;
    codes.push(&[0x01, 0x00])?;
    codes.push(&[0x03, 0x00])?;
    codes.push(&[0xff, 0xff])?;
    let mut index = Flat::new(rt.alloc(), dim)?;
    fill(&mut index, &[0, 1, 2, 3], &codes)?;
    let sel = Selector::listed(rt.alloc(), &[1, 7, 1])?;
    assert_eq!(rt; index.remove(&sel)?, 1);
    assert!(rt; index.dim().bytes() == 2);
    let q = [0x00, 0x00];
    let left = [hit(0, 0), hit(2, 1), hit(16, 2)];
    check_search(&rt, rt.alloc(), &index, &q, 9, &left)?;
    assert!(rt; index.count() == 3);
    index.keep(&[false, true, true]);
    assert!(rt; index.dim().bytes() == 2);
    check_range(&rt, rt.alloc(), &index, &q, 17, &[hit(2, 0), hit(16, 1)])?;
    assert_eq!(rt; index.remove(&Selector::range(0, 2))?, 2);
    assert_eq!(rt; index.count(), 0);
    Ok(())
}

// A code of zeros and one of ones, which differ in each bit.
fn check_far_ends(rt: &impl Abort, alloc: Global, bits: u64) -> Result<(), Fail> {
    let dim = Dim::new(bits)?;
    let zeros = vec![in alloc; 0x00; dim.bytes()]?;
    let ones = vec![in alloc; 0xff; dim.bytes()]?;
    let mut codes = Codes::new(alloc, dim);
    codes.push(&zeros)?;
    codes.push(&ones)?;
    let mut index = Flat::new(alloc, dim)?;
    fill(&mut index, &[0, 1], &codes)?;
    let expected = [hit(0, 0), hit(dim.bits(), 1)];
    check_search(rt, alloc, &index, &zeros, 2, &expected)
}

#[test]
fn sizes_with_kernels_of_their_own(rt: HostRuntime) -> Result<(), Fail> {
    for bits in [160, 264] {
        check_far_ends(&rt, rt.alloc(), bits)?;
    }
    Ok(())
}
