use bcodes::chunk;

// The key bit by bit.
fn plain(x: &[u8], from: usize, b: u32) -> u64 {
    let mut key = 0u64;
    for t in 0..b {
        let j = from.wrapping_add(t as usize);
        let byte = x.get(j / 8).copied().unwrap_or(0);
        key |= u64::from(byte >> (j % 8) & 1).wrapping_shl(t);
    }
    key
}

#[test]
fn chunks_at_every_place_of_codes_of_a_few_bytes(rt: HostRuntime) {
    let code = [
        0x35, 0xc2, 0x0f, 0x99, 0xe1, 0x58, 0x7d, 0xb6, 0x03, 0xfe, 0x41, 0xaa, 0x80,
    ];
    for size in [1, 2, 3, 7, 8, 9, 10, 13] {
        let x = &code[..size];
        for b in 1..=64u32 {
            let chunks = 8 * size as u32 / b;
            for i in 0..chunks {
                assert!(rt; (i + 1) * b <= 8 * size as u32);
                let expected = plain(x, i as usize * b as usize, b);
                assert_eq!(rt;
                    chunk(x, i, b),
                    expected,
                    "chunk {i} of {b} bits of {size} bytes"
                );
            }
        }
    }
}
