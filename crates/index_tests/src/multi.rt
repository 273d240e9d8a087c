ghost use Rattle.std.specs.Prelude.{◌≡◌, ◌*◌, ◌/◌, ◌≤◌, length, IfOk};

use crate::made::{codes_of, hit};
use bcodes::{Addable, BinaryIndex, Codes, Dim, Hit, Meter, Plain, Want};
use flat_index::Flat;
use multi_hash::{Multi, Seen};
use std::alloc::Global;
use std::process::Abort;
use std::test::Fail;

// An index of at most four codes, to which they are added.
fn added(alloc: Global, codes: &Codes, nhash: u32, b: u32) -> Result<Multi<Plain>, Want>
    requires few { length codes.now.codes ≤ 4 }
    requires nhash_least { 1 ≤ nhash }
    requires nhash_most { nhash ≤ 1024 }
    requires b_least { 1 ≤ b }
    requires b_most { b ≤ 64 }
    requires within { nhash * b ≤ codes.now.dim }
{
    let labels = [0, 1, 2, 3];
    let mut index = Multi::new(alloc, codes.dim(), nhash, b)?;
    index.add_all(&labels[..codes.len()], codes, &mut Meter::new(Plain))?;
    Ok(index)
}

// An index of at most four codes, which stand in a Flat before.
fn over_flat(alloc: Global, codes: &Codes, nhash: u32, b: u32) -> Result<Multi<Plain>, Want>
    requires few { length codes.now.codes ≤ 4 }
    requires nhash_least { 1 ≤ nhash }
    requires nhash_most { nhash ≤ 1024 }
    requires b_least { 1 ≤ b }
    requires b_most { b ≤ 64 }
    requires within { nhash * b ≤ codes.now.dim }
{
    // For the proof that the codes are no load.
    let _dim = codes.dim();
    let mut flat = Flat::new(alloc, codes.dim())?;
    flat.append(codes)?;
    let index = Multi::over(alloc, flat, nhash, b, &mut Meter::new(Plain))?;
    Ok(index)
}

// An index of codes by `nhash` keys of `b` bits, as one of the two functions makes it.
fn index_of(
    rt: &impl Abort,
    alloc: Global,
    maps: (u32, u32),
    codes: &[&[u8]],
    is_over: bool,
) -> Result<Multi<Plain>, Fail> {
    let (nhash, b) = maps;
    let bytes = codes.first().map_or(2, |code| code.len());
    let codes = codes_of(rt, alloc, bytes, codes)?;
    assert!(rt; codes.len() <= 4 && nhash >= 1 && nhash <= 1024 && b >= 1 && b <= 64);
    assert!(rt; nhash * b <= codes.dim().bits());
    let index = if is_over {
        over_flat(alloc, &codes, nhash, b)?
    } else {
        added(alloc, &codes, nhash, b)?
    };
    Ok(index)
}

// A search gives these hits, reads so many codes and looks at so many keys or buckets.
fn check_search(
    rt: &impl Abort,
    alloc: Global,
    index: &Multi<Plain>,
    q: &[u8],
    k: u32,
    expected: &[Hit],
    counts: (u64, u64),
) -> Result<(), Fail>
    requires size { length q.now ≡ index.now.dim / 8 }
    requires some { 1 ≤ k }
{
    let mut meter = Meter::new(Plain);
    let hits = index.search(alloc, q, k, &mut meter)?;
    assert_eq!(rt; hits.as_slice(), expected, "{k} nearest");
    assert_eq!(rt; (meter.lent(), meter.asked()), counts, "{k} nearest");
    Ok(())
}

// A range search gives these hits, reads so many codes and looks at so many keys or buckets.
fn check_range(
    rt: &impl Abort,
    alloc: Global,
    index: &Multi<Plain>,
    q: &[u8],
    radius: u32,
    expected: &[Hit],
    counts: (u64, u64),
) -> Result<(), Fail>
    requires { length q.now ≡ index.now.dim / 8 }
{
    let mut meter = Meter::new(Plain);
    let hits = index.range(alloc, q, radius, &mut meter)?;
    assert_eq!(rt; hits.as_slice(), expected, "below {radius}");
    assert_eq!(rt; (meter.lent(), meter.asked()), counts, "below {radius}");
    Ok(())
}

// Queries with no flip, with one and with eight, of two keys of eight bits.
fn check_two_keys(rt: &impl Abort, alloc: Global, index: &mut Multi<Plain>) -> Result<(), Fail> {
    assert!(rt; index.dim().bytes() == 2 && index.b() == 8);
    let q = [0x00, 0x00];
    let all = [hit(1, 0), hit(2, 1), hit(16, 2)];
    check_search(rt, alloc, index, &q, 3, &all[..1], (1, 2))?;
    check_range(rt, alloc, index, &q, 1, &all[..0], (1, 2))?;
    check_range(rt, alloc, index, &q, 17, &all[..1], (1, 2))?;
    assert!(rt; index.bound() == 2);
    index.set_nflip(1);
    check_search(rt, alloc, index, &q, 1, &all[..1], (2, 5))?;
    check_range(rt, alloc, index, &q, 2, &all[..1], (2, 5))?;
    check_range(rt, alloc, index, &q, 3, &all[..2], (2, 5))?;
    assert!(rt; index.bound() == 4);
    index.set_nflip(8);
    check_range(rt, alloc, index, &q, 17, &all, (3, 5))
}

// Of three codes the first has a key of the query, the second is off by one bit in each of its two
// keys, and the last by all.
#[test]
fn answers_by_two_keys(rt: HostRuntime) -> Result<(), Fail> {
    for is_over in [false, true] {
        let codes = [&[0x01, 0x00][..], &[0x01, 0x01], &[0xff, 0xff]];
        let mut index = index_of(&rt, rt.alloc(), (2, 8), &codes, is_over)?;
        check_two_keys(&rt, rt.alloc(), &mut index)?;
    }
    Ok(())
}

// Under each map all codes stand in one bucket, and yet each is read once.
#[test]
fn equal_codes_are_read_once(rt: HostRuntime) -> Result<(), Fail> {
    let alloc = rt.alloc();
    let q = [0x05, 0x05, 0x05];
    let index = index_of(&rt, alloc, (3, 8), &[&q, &q, &q], false)?;
    assert!(rt; index.dim().bytes() == 3 && index.nhash() == 3);
    check_search(&rt, alloc, &index, &q, 2, &[hit(0, 0), hit(0, 1)], (3, 3))?;
    for map in 0..3 {
        assert!(rt; index.buckets(map) == 1);
        assert_eq!(rt; index.bucket_key(map, 0), 0x05);
        assert!(rt; index.bucket_len(map, 0) == 3);
        assert_eq!(rt; index.positions(map, 0, 0), &[0, 1, 2][..]);
    }
    Ok(())
}

// One bucket has all codes, and their number is a power of two.
#[test]
fn names_the_first_wide_bucket(rt: HostRuntime) -> Result<(), Fail> {
    let (a, b, c) = (&[0x01, 0x05][..], &[0x02, 0x05][..], &[0x02, 0x06][..]);
    let rows: [(&[&[u8]], Option<(u32, u64)>); 6] = [
        (&[], None),
        (&[a], Some((0, 1))),
        (&[a, b], Some((1, 2))),
        (&[a, c], None),
        (&[a, a, a], None),
        (&[c, b, b, c], Some((0, 4))),
    ];
    for (codes, expected) in rows {
        let index = index_of(&rt, rt.alloc(), (2, 8), codes, true)?;
        let wide = index.wide_bucket().map(|wide| (wide.map, wide.size));
        assert_eq!(rt; wide, expected, "{} codes", codes.len());
    }
    Ok(())
}

#[test]
fn finds_buckets_by_their_keys(rt: HostRuntime) -> Result<(), Fail> {
    let codes = [&[0x01, 0x00][..], &[0x01, 0x01], &[0xff, 0xff]];
    let index = index_of(&rt, rt.alloc(), (2, 8), &codes, false)?;
    assert!(rt; index.nhash() == 2);
    let mut meter = Meter::new(Plain);
    let rows = [
        (0, 0x01, Some(0)),
        (0, 0xff, Some(1)),
        (0, 0x00, None),
        (1, 0x00, Some(0)),
        (1, 0x01, Some(1)),
        (1, 0xff, Some(2)),
    ];
    for (map, key, place) in rows {
        assert!(rt; map < 2);
        assert_eq!(rt;
            index.find(map, key, &mut meter),
            place,
            "map {map}, key {key}"
        );
    }
    assert_eq!(rt; (meter.lent(), meter.asked()), (0, 6));
    assert!(rt; index.count() == 3);
    assert_eq!(rt; index.code(2, &mut meter), &[0xff, 0xff][..]);
    assert_eq!(rt; (meter.lent(), meter.asked()), (1, 6));
    assert_eq!(rt; index.storage().count(), 3);
    Ok(())
}

// Positions of three pages, some met twice: each is new the first time alone.
#[test]
fn marks_positions_of_several_pages_once(rt: HostRuntime) -> Result<(), Fail> {
    let alloc = rt.alloc();
    let mut seen = Seen::new(alloc, 10_000)?;
    for (position, fresh) in [
        (9_999, true),
        (0, true),
        (63, true),
        (64, true),
        (0, false),
        (4_095, true),
        (4_096, true),
        (9_999, false),
        (8_191, true),
        (8_192, true),
        (4_096, false),
        (64, false),
    ] {
        assert!(rt; position < 10_000);
        assert_eq!(rt; seen.contains(position), !fresh, "{position}");
        assert_eq!(rt; seen.insert(position), fresh, "{position}");
    }
    let mut met = 0u64;
    for position in 0..10_000 {
        if seen.contains(position) {
            met = met.wrapping_add(1);
        }
    }
    assert_eq!(rt; met, 8);
    Ok(())
}
