use std::marker::Model;

/// The numbers of buckets of an index, one for each map from keys to codes. They are seen as a
/// list.
#[derive(Debug, Drop)]
pub struct Counts {
    numbers: Vec<u64>,
}

impl Model for Counts {
    ghost use Rattle.std.specs.Prelude.{ℕ, List};

    ghost Value = { List ℕ };

    ghost view = { λ c. c.numbers.items };
}

impl Counts {
    ghost use Rattle.std.specs.Prelude.{◌≡◌};

    pub(crate) fn new(numbers: Vec<u64>) -> Counts
        ensures { result ≡ numbers.items }
    {
        Counts { numbers }
    }

    /// The numbers, in the order of the maps.
    pub fn as_slice(&self) -> &[u64]
        ensures { result.now ≡ self.now }
    {
        &self.numbers
    }
}
