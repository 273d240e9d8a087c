ghost use Rattle.std.specs.Prelude.{◌≡◌, ◌/◌, ◌≤◌, [], length, IfOk, OnOk};
ghost use Rattle.bcodes.specs.Answers.{paired};

use crate::made::hit;
use bcodes::{Addable, BinaryIndex, Codes, Dim, Hit, Meter, Plain, Want};
use hash_index::Hash;
use std::alloc::Global;
use std::process::Abort;
use std::test::Fail;

// Adds a few codes to an index that holds none.
fn fill(index: &mut Hash<Plain>, labels: &[i64], codes: &Codes) -> Result<(), Want>
    requires empty { index.old.rows ≡ [] }
    requires same_dim { codes.now.dim ≡ index.old.dim }
    requires same_count { length labels.now ≡ length codes.now.codes }
    requires few { length codes.now.codes ≤ 4 }
    ensures { OnOk result (index.new
        ≡ record index.old { rows = paired labels.now codes.now.codes }) }
{
    let _dim = codes.dim();
    index.add_all(labels, codes, &mut Meter::new(Plain))?;
    Ok(())
}

// A search gives these hits, reads so many codes and asks so often for a bucket.
fn check_search(
    rt: &impl Abort,
    alloc: Global,
    index: &Hash<Plain>,
    q: &[u8],
    k: u32,
    expected: &[Hit],
    counts: (u64, u64),
) -> Result<(), Fail>
    requires size { length q.now ≡ index.now.dim / 8 }
    requires some { 1 ≤ k }
{
    let mut meter = Meter::new(Plain);
    let hits = index.search(alloc, q, k, &mut meter)?;
    assert_eq!(rt; hits.as_slice(), expected);
    assert_eq!(rt; (meter.lent(), meter.asked()), counts);
    Ok(())
}

// A range search gives these hits, reads so many codes and asks so often for a bucket.
fn check_range(
    rt: &impl Abort,
    alloc: Global,
    index: &Hash<Plain>,
    q: &[u8],
    radius: u32,
    expected: &[Hit],
    counts: (u64, u64),
) -> Result<(), Fail>
    requires { length q.now ≡ index.now.dim / 8 }
{
    let mut meter = Meter::new(Plain);
    let hits = index.range(alloc, q, radius, &mut meter)?;
    assert_eq!(rt; hits.as_slice(), expected);
    assert_eq!(rt; (meter.lent(), meter.asked()), counts);
    Ok(())
}

// An index of three codes.
fn index_of(
    alloc: Global,
    dim: Dim,
    b: u32,
    labels: &[i64],
    codes: (&[u8], &[u8], &[u8]),
) -> Result<Hash<Plain>, Want>
    requires b_least { 1 ≤ b }
    requires b_most { b ≤ 64 }
    requires b_within { b ≤ dim.bits }
    requires labels { length labels.now ≡ 3 }
    requires first { length codes.0.now ≡ dim.bits / 8 }
    requires second { length codes.1.now ≡ dim.bits / 8 }
    requires third { length codes.2.now ≡ dim.bits / 8 }
    ensures dim { IfOk result (λ index. index.dim ≡ dim.bits) }
    ensures b { IfOk result (λ index. index.b ≡ b) }
{
    let mut list = Codes::new(alloc, dim);
    list.push(codes.0)?;
    list.push(codes.1)?;
    list.push(codes.2)?;
    let mut index = Hash::new(alloc, dim, b)?;
    fill(&mut index, labels, &list)?;
    Ok(index)
}

#[test]
fn keys_of_eight_bits(rt: HostRuntime) -> Result<(), Fail> {
    let dim = Dim::new(16)?;
    assert!(rt; dim.bytes() == 2);
    let codes = (&[0x00, 0x00][..], &[0x00, 0x01][..], &[0x01, 0x00][..]);
    let mut index = index_of(rt.alloc(), dim, 8, &[0, 1, 2], codes)?;
    let all = [hit(0, 0), hit(1, 1), hit(1, 2)];
    check_range(&rt, rt.alloc(), &index, &[0, 0], 1, &all[..1], (2, 1))?;
    check_range(&rt, rt.alloc(), &index, &[0, 0], 2, &all[..2], (2, 1))?;
    check_search(&rt, rt.alloc(), &index, &[0, 0], 2, &all[..2], (2, 1))?;
    check_search(&rt, rt.alloc(), &index, &[0, 0], 1, &all[..1], (2, 1))?;
    index.set_nflip(1);
    check_range(&rt, rt.alloc(), &index, &[0, 0], 2, &all, (3, 2))
}

#[test]
fn keys_of_all_bits(rt: HostRuntime) -> Result<(), Fail> {
    let dim = Dim::new(64)?;
    assert!(rt; dim.bytes() == 8);
    let last = [0x01, 0x23, 0x45, 0x67, 0x89, 0xab, 0xcd, 0xef];
    let codes = (&[0x00; 8][..], &[0xff; 8][..], &last[..]);
    let mut index = index_of(rt.alloc(), dim, 64, &[0, 1, 2], codes)?;
    check_search(&rt, rt.alloc(), &index, &last, 1, &[hit(0, 2)], (1, 1))?;
    index.set_nflip(64);
    let all = [hit(0, 0), hit(32, 2), hit(64, 1)];
    check_range(&rt, rt.alloc(), &index, &[0; 8], 65, &all, (3, 3))
}

#[test]
fn buckets_are_looked_at_where_they_are_fewer(rt: HostRuntime) -> Result<(), Fail> {
    let dim = Dim::new(16)?;
    assert!(rt; dim.bytes() == 2);
    let codes = (&[0x00, 0x00][..], &[0x07, 0x00][..], &[0x00, 0x03][..]);
    let mut index = index_of(rt.alloc(), dim, 16, &[7, -3, 7], codes)?;
    index.set_nflip(2);
    let near = [hit(0, 7), hit(2, 7)];
    check_range(&rt, rt.alloc(), &index, &[0, 0], 17, &near, (2, 3))
}
