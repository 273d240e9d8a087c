use bcodes::{
    Codes, Dim, DimError, Hit, Hits, Meter, Plain, distance_plain, range_exact, search_exact,
};
use std::test::Fail;

#[test]
fn dims_are_whole_bytes(rt: HostRuntime) -> Result<(), Fail> {
    for (bits, bytes) in [(8, 1), (16, 2), (65536, 8192)] {
        assert_eq!(rt; Dim::new(bits)?.bytes(), bytes);
    }
    assert_eq!(rt; Dim::new(12), Err(DimError::NotMultipleOf8));
    assert_eq!(rt; Dim::new(65540), Err(DimError::NotMultipleOf8));
    assert_eq!(rt; Dim::new(0), Err(DimError::OutOfRange));
    assert_eq!(rt; Dim::new(65544), Err(DimError::OutOfRange));
    Ok(())
}

#[test]
fn distances_count_bits(rt: HostRuntime) {
    for (x, y, distance) in [
        ([0x00, 0x00], [0x00, 0x00], 0),
        ([0x01, 0x00], [0x00, 0x00], 1),
        ([0x03, 0x00], [0x00, 0x00], 2),
        ([0xff, 0xff], [0x00, 0x00], 16),
        ([0x0f, 0x80], [0xff, 0x00], 5),
    ] {
        assert_eq!(rt; distance_plain(&x, &y), distance, "{x:?} {y:?}");
    }
}

#[test]
fn codes_are_kept_in_order(rt: HostRuntime) -> Result<(), Fail> {
    let dim = Dim::new(16)?;
    let mut codes = Codes::new(rt.alloc(), dim);
    assert!(rt; dim.bytes() == 2);
    assert!(rt; codes.is_empty());
    codes.push(&[1, 2])?;
    codes.push(&[3, 4])?;
    codes.push(&[5, 6])?;
    assert!(rt; codes.len() == 3);
    assert!(rt; !codes.is_empty());
    assert_eq!(rt; codes.get(0), [1, 2].as_slice());
    assert_eq!(rt; codes.get(2), [5, 6].as_slice());
    Ok(())
}

#[test]
fn hits_are_relabelled(rt: HostRuntime) -> Result<(), Fail> {
    let mut hits = Hits::new(rt.alloc());
    assert!(rt; hits.is_empty());
    hits.reserve(2)?;
    hits.push(Hit {
        distance: 3,
        label: 0,
    });
    hits.push(Hit {
        distance: 4,
        label: 1,
    });
    hits.relabel(1, -7);
    assert_eq!(rt;
        hits.as_slice(),
        [
            Hit {
                distance: 3,
                label: 0
            },
            Hit {
                distance: 4,
                label: -7
            }
        ]
        .as_slice()
    );
    Ok(())
}

#[test]
fn marks_and_meters(rt: HostRuntime) -> Result<(), Fail> {
    let mut meter = Meter::new(Plain);
    meter.raise_lent(2);
    meter.raise_lent(u64::MAX);
    meter.raise_asked(3);
    assert_eq!(rt; (meter.lent(), meter.asked()), (u64::MAX, 3));
    // A Hash of 8 bits has the bound 1, and meets two of three rows.
    assert_eq!(rt; range_exact(2, 0, 3, 1, 1), true);
    assert_eq!(rt; range_exact(2, 0, 3, 1, 2), false);
    let mut hits = Hits::new(rt.alloc());
    hits.reserve(1)?;
    hits.push(Hit {
        distance: 0,
        label: 0,
    });
    assert_eq!(rt; search_exact(2, 0, 3, 1, 1, &hits), true);
    assert_eq!(rt; search_exact(2, 0, 3, 1, 2, &hits), false);
    assert_eq!(rt; search_exact(2, 0, 3, 1, 0, &Hits::new(rt.alloc())), false);
    Ok(())
}
