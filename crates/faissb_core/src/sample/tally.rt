ghost use Rattle.std.specs.Prelude.{◌≡◌, ◌+◌, ◌<◌, ◌^◌};

// What range searches are answered, all together.
#[derive(Clone, Copy, Debug)]
pub struct Tally {
    pub hits: u128,
    pub looked: u128,
    pub exact: u32,
}

impl Tally {
    pub fn new() -> Tally
        ensures { result ≡ record { hits = 0; looked = 0; exact = 0 } }
    {
        Tally {
            hits: 0,
            looked: 0,
            exact: 0,
        }
    }

    pub fn add(&mut self, other: Tally)
        requires hits { self.old.hits + other.hits < 2 ^ 128 }
        requires looked { self.old.looked + other.looked < 2 ^ 128 }
        requires exact { self.old.exact + other.exact < 2 ^ 32 }
        ensures { self.new ≡ record {
          hits = self.old.hits + other.hits;
          looked = self.old.looked + other.looked;
          exact = self.old.exact + other.exact;
        } }
    {
        self.hits += other.hits;
        self.looked += other.looked;
        self.exact += other.exact;
    }
}
