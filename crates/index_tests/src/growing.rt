ghost use Rattle.std.specs.Prelude.{◌≡◌, ◌/◌, ◌*◌, ◌≤◌, length, IfOk};

use crate::made::codes_of;
use bcodes::{BinaryIndex, Codes, Dim, Meter, Plain, Want};
use flat_index::Flat;
use growing_probe::nearest;
use multi_hash::Multi;
use std::alloc::Global;
use std::process::Abort;
use std::test::Fail;

// For each `k`, the answer is that of a full scan, so many codes are read, and so many keys or
// buckets are looked at.
fn check(
    rt: &impl Abort,
    alloc: Global,
    indexes: (&Multi<Plain>, &Flat<Plain>),
    q: &[u8],
    cases: &[(u32, u64, u64)],
) -> Result<(), Fail> {
    let (multi, flat) = indexes;
    assert!(rt; q.len() == multi.dim().bytes() && q.len() == flat.dim().bytes());
    for (k, lent, asked) in cases {
        assert!(rt; *k >= 1);
        let mut meter = Meter::new(Plain);
        let hits = nearest(alloc, multi, q, *k, &mut meter)?;
        let scanned = flat.search(alloc, q, *k, &mut Meter::new(Plain))?;
        assert_eq!(rt; hits.as_slice(), scanned.as_slice(), "{k} nearest");
        assert_eq!(rt;
            (meter.lent(), meter.asked()),
            (*lent, *asked),
            "{k} nearest"
        );
    }
    Ok(())
}

fn flat_of(alloc: Global, codes: &Codes) -> Result<Flat<Plain>, Want>
    requires { length codes.now.codes ≤ 8 }
    ensures { IfOk result (λ flat. flat ≡ codes.now) }
{
    let mut flat = Flat::new(alloc, codes.dim())?;
    flat.append(codes)?;
    Ok(flat)
}

// A MultiHash of codes by `nhash` keys of `b` bits.
fn multi_of(alloc: Global, codes: &Codes, nhash: u32, b: u32) -> Result<Multi<Plain>, Want>
    requires few { length codes.now.codes ≤ 8 }
    requires nhash_least { 1 ≤ nhash }
    requires nhash_most { nhash ≤ 1024 }
    requires b_least { 1 ≤ b }
    requires b_most { b ≤ 64 }
    requires within { nhash * b ≤ codes.now.dim }
    ensures { IfOk result (λ multi. multi.b ≡ b) }
{
    // For the proof that the codes are no load.
    let _dim = codes.dim();
    let flat = flat_of(alloc, codes)?;
    let multi = Multi::over(alloc, flat, nhash, b, &mut Meter::new(Plain))?;
    Ok(multi)
}

// `check` of these codes under `nhash` keys of `b` bits, whatever `nflip` is.
fn check_codes(
    rt: &impl Abort,
    alloc: Global,
    maps: (u32, u32),
    codes: &[&[u8]],
    q: &[u8],
    cases: &[(u32, u64, u64)],
) -> Result<(), Fail> {
    let (nhash, b) = maps;
    let codes = codes_of(rt, alloc, q.len(), codes)?;
    assert!(rt; codes.len() <= 8 && nhash >= 1 && nhash <= 1024 && b >= 1 && b <= 64);
    assert!(rt; nhash * b <= codes.dim().bits());
    let flat = flat_of(alloc, &codes)?;
    let mut multi = multi_of(alloc, &codes, nhash, b)?;
    check(rt, alloc, (&multi, &flat), q, cases)?;
    multi.set_nflip(b);
    check(rt, alloc, (&multi, &flat), q, cases)
}

// The nearest code is met by its own key, and the other one by one flip.
#[test]
fn two_codes(rt: HostRuntime) -> Result<(), Fail> {
    let codes = [&[0x01, 0x00][..], &[0x01, 0x01]];
    check_codes(
        &rt,
        rt.alloc(),
        (2, 8),
        &codes,
        &[0, 0],
        &[(1, 1, 2), (2, 2, 5)],
    )
}

// The code that the first round meets is not the nearest one.
#[test]
fn a_nearer_code_of_a_later_round(rt: HostRuntime) -> Result<(), Fail> {
    let codes = [&[0x00, 0x07][..], &[0x01, 0x01], &[0xff, 0xff]];
    let cases = [(1, 2, 8), (2, 2, 8), (3, 3, 46)];
    check_codes(&rt, rt.alloc(), (2, 8), &codes, &[0, 0], &cases)
}

// Four equal codes under three maps, each read once, and one that differs from them in each bit.
#[test]
fn equal_codes_and_more_than_there_are(rt: HostRuntime) -> Result<(), Fail> {
    let far = &[0xfa, 0xfa, 0xfa][..];
    let near = &[0x05, 0x05, 0x05][..];
    let codes = [near, far, near, near, near];
    let cases = [(1, 4, 3), (2, 4, 3), (4, 4, 3), (5, 5, 48), (10, 5, 48)];
    check_codes(&rt, rt.alloc(), (3, 8), &codes, near, &cases)
}

#[test]
fn an_empty_index(rt: HostRuntime) -> Result<(), Fail> {
    check_codes(
        &rt,
        rt.alloc(),
        (2, 8),
        &[],
        &[0, 0],
        &[(1, 0, 0), (9, 0, 0)],
    )
}

#[test]
fn keys_of_one_bit_and_of_all(rt: HostRuntime) -> Result<(), Fail> {
    let codes = [&[0x00, 0x00][..], &[0xff, 0xff], &[0x0f, 0x00]];
    check_codes(
        &rt,
        rt.alloc(),
        (16, 1),
        &codes,
        &[0, 0],
        &[(1, 2, 16), (2, 2, 16), (3, 3, 32)],
    )?;
    let last = [0x01, 0x23, 0x45, 0x67, 0x89, 0xab, 0xcd, 0xef];
    let codes = [&[0x00; 8][..], &[0xff; 8], &last];
    let cases = [(1, 1, 1), (2, 2, 97), (3, 3, 191), (4, 3, 191)];
    check_codes(&rt, rt.alloc(), (1, 64), &codes, &[0; 8], &cases)
}

// Both chunks of each code differ from the query's in at least seven bits.
#[test]
fn a_query_far_from_every_code(rt: HostRuntime) -> Result<(), Fail> {
    let codes = [&[0x00, 0x00][..], &[0x01, 0x00], &[0x00, 0x80]];
    let cases = [(1, 2, 30), (2, 2, 30), (3, 3, 32)];
    check_codes(&rt, rt.alloc(), (2, 8), &codes, &[0xff, 0xff], &cases)
}
