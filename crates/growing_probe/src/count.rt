ghost use Rattle.std.specs.Prelude.{◌≡◌, ◌≤◌, length};
ghost use Rattle.flip_walk.specs.Patterns.{with_ones};

use flip_walk::patterns;

/// The number of patterns of exactly `flips` flips among `b` bits.
pub fn patterns_of(b: u32, flips: u32) -> u128
    requires some { 1 ≤ b }
    requires most { b ≤ 64 }
    requires flips_most { flips ≤ b }
    ensures { result ≡ length (with_ones b flips) }
{
    if flips == 0 {
        1
    } else {
        patterns(b, flips) - patterns(b, flips - 1)
    }
}
