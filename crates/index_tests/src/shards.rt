ghost use Rattle.std.specs.Prelude.{◌≡◌, ◌≤◌, length, IfOk};

use crate::made::hit;
use bcodes::{BinaryIndex, Codes, Dim, Hit, Meter, Plain};
use flat_index::Flat;
use shard_set::Shards;
use std::alloc::Global;
use std::process::Abort;
use std::test::Fail;

// A shard of these codes.
fn shard_of(alloc: Global, dim: Dim, list: &[[u8; 2]]) -> Result<Flat<Plain>, Fail>
    requires two_bytes { dim.bits ≡ 16 }
    requires few { length list.now ≤ 1000 }
    ensures { IfOk result (λ f. (f.dim ≡ 16) × (length f.codes ≡ length list.now)) }
{
    let mut codes = Codes::new(alloc, dim);
    for code in list {
        codes.push(code)?;
    }
    let mut shard = Flat::new(alloc, dim)?;
    shard.append(&codes)?;
    Ok(shard)
}

fn add_shard(
    rt: &impl Abort,
    alloc: Global,
    shards: &mut Shards<Flat<Plain>>,
    list: &[[u8; 2]],
) -> Result<(), Fail> {
    let dim = shards.dim();
    assert!(rt; dim.bits() == 16 && list.len() <= 1000 && shards.count() <= 1000);
    shards.reserve(1)?;
    let shard = shard_of(alloc, dim, list)?;
    shards.push(shard);
    Ok(())
}

// A search gives these hits and compares each code once.
fn check_search(
    rt: &impl Abort,
    alloc: Global,
    shards: &Shards<Flat<Plain>>,
    k: u32,
    expected: &[Hit],
) -> Result<(), Fail>
    requires { 1 ≤ k }
{
    assert!(rt; shards.dim().bytes() == 2);
    let mut meter = Meter::new(Plain);
    let hits = shards.search(alloc, &[0x00, 0x00], k, &mut meter)?;
    assert_eq!(rt; hits.as_slice(), expected);
    assert_eq!(rt; meter.lent(), shards.count());
    Ok(())
}

// A range search gives these hits and compares each code once.
fn check_range(
    rt: &impl Abort,
    alloc: Global,
    shards: &Shards<Flat<Plain>>,
    radius: u32,
    expected: &[Hit],
) -> Result<(), Fail> {
    assert!(rt; shards.dim().bytes() == 2);
    let mut meter = Meter::new(Plain);
    let hits = shards.range(alloc, &[0x00, 0x00], radius, &mut meter)?;
    assert_eq!(rt; hits.as_slice(), expected);
    assert_eq!(rt; meter.lent(), shards.count());
    Ok(())
}

#[test]
fn two_shards(rt: HostRuntime) -> Result<(), Fail> {
    let alloc = rt.alloc();
    let mut shards = Shards::new(alloc, Dim::new(16)?);
    add_shard(&rt, alloc, &mut shards, &[[0x01, 0x00], [0x00, 0x00]])?;
    add_shard(&rt, alloc, &mut shards, &[[0x00, 0x00], [0xff, 0xff]])?;
    let all = [hit(0, 1), hit(0, 2), hit(1, 0), hit(16, 3)];
    check_search(&rt, alloc, &shards, 3, &all[..3])?;
    check_search(&rt, alloc, &shards, 9, &all)?;
    check_range(&rt, alloc, &shards, 1, &all[..2])?;
    check_range(&rt, alloc, &shards, 16, &all[..3])?;
    check_range(&rt, alloc, &shards, 17, &all)?;
    assert_eq!(rt; (shards.len(), shards.count()), (2, 4));
    Ok(())
}

#[test]
fn empty_shards(rt: HostRuntime) -> Result<(), Fail> {
    let alloc = rt.alloc();
    let mut shards = Shards::new(alloc, Dim::new(16)?);
    assert!(rt; shards.is_empty());
    check_search(&rt, alloc, &shards, 3, &[])?;
    check_range(&rt, alloc, &shards, 17, &[])?;
    add_shard(&rt, alloc, &mut shards, &[])?;
    check_search(&rt, alloc, &shards, 3, &[])?;
    add_shard(&rt, alloc, &mut shards, &[[0x03, 0x00], [0x07, 0x00]])?;
    add_shard(&rt, alloc, &mut shards, &[])?;
    add_shard(&rt, alloc, &mut shards, &[[0x01, 0x00]])?;
    assert!(rt; shards.len() == 4);
    assert_eq!(rt; (shards.get(1).count(), shards.get(3).count()), (2, 1));
    let all = [hit(1, 2), hit(2, 0), hit(3, 1)];
    check_search(&rt, alloc, &shards, 3, &all)?;
    check_range(&rt, alloc, &shards, 3, &all[..2])
}

#[test]
fn one_shard(rt: HostRuntime) -> Result<(), Fail> {
    let alloc = rt.alloc();
    let mut shards = Shards::new(alloc, Dim::new(16)?);
    add_shard(
        &rt,
        alloc,
        &mut shards,
        &[[0x07, 0x00], [0x00, 0x00], [0x01, 0x00]],
    )?;
    let all = [hit(0, 1), hit(1, 2), hit(3, 0)];
    check_search(&rt, alloc, &shards, 2, &all[..2])?;
    check_range(&rt, alloc, &shards, 4, &all)
}

#[test]
fn shards_of_one_code(rt: HostRuntime) -> Result<(), Fail> {
    let alloc = rt.alloc();
    let mut shards = Shards::new(alloc, Dim::new(16)?);
    for _ in 0..20 {
        add_shard(&rt, alloc, &mut shards, &[[0x01, 0x00]])?;
        add_shard(&rt, alloc, &mut shards, &[[0x00, 0x80]])?;
        add_shard(&rt, alloc, &mut shards, &[[0x00, 0x00]])?;
    }
    // Equal codes go by their labels.
    check_search(&rt, alloc, &shards, 3, &[hit(0, 2), hit(0, 5), hit(0, 8)])?;
    let mut meter = Meter::new(Plain);
    assert!(rt; shards.dim().bytes() == 2);
    let hits = shards.range(alloc, &[0x00, 0x00], 2, &mut meter)?;
    let mut expected = Vec::new(alloc);
    for i in 0..20u8 {
        expected.push(hit(0, 3 * i64::from(i) + 2))?;
    }
    for i in 0..20u8 {
        expected.push(hit(1, 3 * i64::from(i)))?;
        expected.push(hit(1, 3 * i64::from(i) + 1))?;
    }
    assert_eq!(rt; hits.as_slice(), &expected[..]);
    Ok(())
}
