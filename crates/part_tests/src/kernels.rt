use hamming_kernels::{General, Half, Kernel, Twenty, Words};
use std::process::Abort;

// A code of ones and one whose last bit alone is set, against a query of zeros.
fn check<K: Kernel>(rt: &impl Abort, kernel: &K) {
    let size = kernel.size();
    assert!(rt; size <= 67);
    let mut run = [0; 134];
    run[..size].fill(0xff);
    run[2 * size - 1] = 0x80;
    let mut out = [0; 2];
    kernel.scan(&run[..2 * size], &mut out);
    assert_eq!(rt; out, [8 * size as u32, 1]);
    assert_eq!(rt; kernel.distance(&run[size..2 * size]), 1);
}

#[test]
fn kernels_count_differing_bits(rt: HostRuntime) {
    let zeros = [0; 67];
    check(&rt, &Half::prepare(&zeros[..4]));
    check(&rt, &Words::<2>::prepare(&zeros[..16]));
    check(&rt, &Twenty::prepare(&zeros[..20]));
    for size in 1..=67 {
        check(&rt, &General::prepare(&zeros[..size]));
    }
}
