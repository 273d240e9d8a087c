ghost use Rattle.std.specs.Prelude.{◌≡◌, ◌≤◌, ◌⊎◌, slice_index, SomeIndex};
ghost use Rattle.std.specs.List.{All};

/// So many distances are looked at together.
pub const RUN: usize = 32;

/// The least of some distances, by a loop that the compiler turns into vectors. Of none it is the
/// greatest number.
#[inline]
pub fn least(distances: &[u32]) -> u32
    ensures below { All (λ d. result ≤ d) distances.now }
    ensures reached { (result ≡ u32.MAX)
        ⊎ SomeIndex distances.now (λ i. slice_index distances.now i ≡ result) }
{
    let mut least = u32::MAX;
    for distance in distances {
        least = least.min(*distance);
    }
    least
}
