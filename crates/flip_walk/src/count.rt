ghost use Rattle.std.specs.Prelude.{◌≡◌, ◌≤◌, length};
ghost use Rattle.flip_walk.specs.Patterns.{flips};

/// The number of patterns of at most `nflip` flips among `b` bits, which `Flips::new` walks over.
/// It is a sum of binomial coefficients, at most 2^64.
pub fn patterns(b: u32, nflip: u32) -> u128
    requires some { 1 ≤ b }
    requires most { b ≤ 64 }
    requires flips_most { nflip ≤ b }
    ensures { result ≡ length (flips b nflip) }
{
    let mut with_ones: u128 = 1;
    let mut sum: u128 = 1;
    for i in 0..nflip {
        with_ones = with_ones * u128::from(b - i) / u128::from(i + 1);
        sum += with_ones;
    }
    sum
}
