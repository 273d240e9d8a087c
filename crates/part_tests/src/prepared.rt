use bcodes::{Dim, distance_plain};
use kernel_table::{Kernel, Prepared};
use std::process::Abort;
use std::test::Fail;

// A code of ones and one whose last bit alone is set, against a query of zeros.
fn check<K: Kernel>(rt: &impl Abort, kernel: &K, query: &[u8]) {
    let size = kernel.size();
    assert_eq!(rt; query.len(), size);
    let mut run = [0; 2 * 8192];
    run[..size].fill(0xff);
    run[2 * size - 1] = 0x80;
    let (ones, last) = run[..2 * size].split_at(size);
    let mut out = [0; 2];
    kernel.scan(&run[..2 * size], &mut out);
    assert_eq!(rt; out, [8 * size as u32, 1], "at {size}");
    assert_eq!(rt;
        kernel.distance(ones),
        distance_plain(ones, query),
        "at {size}"
    );
    assert_eq!(rt;
        kernel.distance(last),
        distance_plain(last, query),
        "at {size}"
    );
}

#[test]
fn every_code_size_counts_the_differing_bits(rt: HostRuntime) -> Result<(), Fail> {
    let zeros = [0; 8192];
    for size in (1..=80u64).chain([512, 8192]) {
        assert!(rt; size <= 8192);
        let dim = Dim::new(8 * size)?;
        let query = &zeros[..dim.bytes()];
        check(&rt, &Prepared::new(dim, query), query);
    }
    Ok(())
}
