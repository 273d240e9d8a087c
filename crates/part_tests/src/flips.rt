ghost use Rattle.std.specs.Prelude.{◌≤◌};

use flip_walk::{Flips, patterns};
use std::process::Abort;

// Whether a walk gives the numbers below 2^b that have from `least` to `most` one bits, by levels.
fn check(rt: &impl Abort, mut walk: Flips, b: u32, least: u32, most: u32) -> u128
    requires { b ≤ 12 }
{
    let mut count = 0u128;
    for ones in least..=most {
        for x in 0..1u64 << b {
            if x.count_ones() == ones {
                assert_eq!(rt; walk.next(), Some(x), "{ones} of {b} bits");
                count = count.wrapping_add(1);
            }
        }
    }
    assert_eq!(rt; walk.next(), None, "after {most} of {b} bits");
    assert_eq!(rt; walk.next(), None, "after {most} of {b} bits");
    count
}

#[test]
fn walks_as_a_plain_enumeration(rt: HostRuntime) {
    for b in 1..=12 {
        for nflip in 0..=b {
            let count = check(&rt, Flips::new(b, nflip), b, 0, nflip);
            assert_eq!(rt; patterns(b, nflip), count);
            check(&rt, Flips::exactly(b, nflip), b, nflip, nflip);
        }
    }
}

#[test]
fn walks_over_sixty_four_bits(rt: HostRuntime) {
    let mut two = Flips::new(64, 2);
    let mut count = 0u128;
    let mut last = 0;
    for _ in 0..u64::MAX {
        match two.next() {
            None => break,
            Some(x) => last = x,
        }
        count = count.wrapping_add(1);
    }
    assert_eq!(rt; count, 1 + 64 + 2016);
    assert_eq!(rt; patterns(64, 2), count);
    assert_eq!(rt; last, 3 << 62);
    assert_eq!(rt; patterns(64, 64), 1 << 64);
    let mut all = Flips::exactly(64, 64);
    assert_eq!(rt; (all.next(), all.next()), (Some(u64::MAX), None));
    let mut most = Flips::exactly(64, 63);
    assert_eq!(rt; most.next(), Some(u64::MAX >> 1));
    assert_eq!(rt; most.next(), Some(u64::MAX ^ 1 << 62));
}
