ghost use Rattle.std.specs.Prelude.{◌≡◌, ◌+◌, ◌-◌, ◌/◌, ◌%◌, ◌^◌, ◌<◌, ◌≤◌, [], ◌∷◌, Some};
ghost use Rattle.std.specs.Prelude.{MatchOption};
ghost use Rattle.flip_walk.specs.Patterns.{flips, with_ones, HasEachOnce};
ghost use Rattle.flip_walk.specs.Walk.{IsLast, IsNext, IsWalk, still_to_come};

use std::marker::Model;

/// A walk over patterns of flips among the `b` bits of a key: numbers below 2^b, whose one bits say
/// which bits of the key are flipped. Patterns with fewer flips come first, and among those with
/// equally many the lesser number. It is seen as the list of the patterns that are still to come.
///
/// Faiss's `FlipEnumerator` (`IndexBinaryHash.cpp`) gives the same patterns. No call allocates.
#[derive(Debug, Drop)]
pub struct Flips {
    b: u32,
    nflip: u32,
    place: Place,
}

/// Where a walk stands: at the next pattern, which has so many one bits, or after the last.
#[derive(Clone, Copy, Debug)]
struct Place {
    ones: u32,
    pattern: Option<u64>,
}

impl Model for Flips {
    ghost use Rattle.std.specs.Prelude.{ℕ, List};
    ghost use Rattle.flip_walk.specs.Walk.{still_to_come, IsWalk};

    ghost Value = { List ℕ };

    ghost view = { λ f. still_to_come f.b f.nflip f.place.ones f.place.pattern };

    ghost invariant = { λ f. IsWalk f.b f.nflip f.place.ones f.place.pattern };
}

impl Flips {
    /// The patterns of at most `nflip` flips among `b` bits.
    pub fn new(b: u32, nflip: u32) -> Flips
        requires some { 1 ≤ b }
        requires most { b ≤ 64 }
        requires flips_most { nflip ≤ b }
        ensures value { result ≡ flips b nflip }
        ensures each_once { HasEachOnce b nflip result }
    {
        Flips {
            b,
            nflip,
            place: Place {
                ones: 0,
                pattern: Some(0),
            },
        }
    }

    /// The patterns of exactly `f` flips among `b` bits. The walk starts at the least of them.
    pub fn exactly(b: u32, f: u32) -> Flips
        requires some { 1 ≤ b }
        requires most { b ≤ 64 }
        requires flips_most { f ≤ b }
        ensures { result ≡ with_ones b f }
    {
        Flips {
            b,
            nflip: f,
            place: Place {
                ones: f,
                pattern: Some(lowest(f)),
            },
        }
    }

    /// The next pattern, and `None` exactly after the last.
    pub fn next(&mut self) -> Option<u64>
        ensures { MatchOption result
            ((self.old ≡ []) × (self.new ≡ []))
            (λ pattern. self.old ≡ pattern ∷ self.new) }
    {
        let pattern = match self.place.pattern {
            None => return None,
            Some(pattern) => pattern,
        };
        self.place = after(self.b, self.nflip, self.place.ones, pattern);
        Some(pattern)
    }
}

// The place after pattern `x`, which has so many one bits.
fn after(b: u32, nflip: u32, ones: u32, x: u64) -> Place
    requires { IsWalk b nflip ones (Some x) }
    ensures walk { IsWalk b nflip result.ones result.pattern }
    ensures rest { still_to_come b nflip ones (Some x)
        ≡ x ∷ still_to_come b nflip result.ones result.pattern }
{
    match following(x, b) {
        Some(y) => Place {
            ones,
            pattern: Some(y),
        },
        None => {
            if ones < nflip {
                Place {
                    ones: ones + 1,
                    pattern: Some(lowest(ones + 1)),
                }
            } else {
                Place {
                    ones,
                    pattern: None,
                }
            }
        }
    }
}

// The next number below 2^b with as many one bits as x: the lowest run of ones loses all but its
// highest to the bottom, and the highest moves up by one place.
fn following(x: u64, b: u32) -> Option<u64>
    requires some { 1 ≤ b }
    requires most { b ≤ 64 }
    requires below { x < 2 ^ b }
    ensures { MatchOption result (IsLast b x) (IsNext b x) }
{
    if x == 0 {
        return None;
    }
    let zeros = zeros_below(x);
    let run = run_of_ones(x >> zeros);
    if zeros + run == b {
        None
    } else {
        Some(x + power(zeros) + (power(run - 1) - 1))
    }
}

// The number of zeros below the lowest one.
fn zeros_below(x: u64) -> u32
    requires { 0 < x }
    ensures most { result < 64 }
    ensures zeros { x % 2 ^ result ≡ 0 }
    ensures end { x / 2 ^ result % 2 ≡ 1 }
{
    x.trailing_zeros()
}

// The number of ones below the lowest zero.
fn run_of_ones(x: u64) -> u32
    requires { x % 2 ≡ 1 }
    ensures least { 1 ≤ result }
    ensures most { result ≤ 64 }
    ensures run { x % 2 ^ result ≡ 2 ^ result - 1 }
    ensures end { x / 2 ^ result % 2 ≡ 0 }
{
    if x == u64::MAX { 64 } else { x.trailing_ones() }
}

fn power(k: u32) -> u64
    requires { k < 64 }
    ensures { result ≡ 2 ^ k }
{
    1 << k
}

// The lowest number with n one bits.
fn lowest(n: u32) -> u64
    requires { n ≤ 64 }
    ensures { result ≡ 2 ^ n - 1 }
{
    if n == 64 { u64::MAX } else { power(n) - 1 }
}
