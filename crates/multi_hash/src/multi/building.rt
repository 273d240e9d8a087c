ghost use Rattle.std.specs.Prelude.{◌≡◌, ◌+◌, ◌*◌, ◌<◌, ◌≤◌, length, map, IfOk};
ghost use Rattle.std.specs.List.{All};
ghost use Rattle.bcodes.specs.Ranges.{load_limit};
ghost use Rattle.bcodes.specs.Value.{weight};
ghost use Rattle.key_buckets.specs.Keys.{key_in};
ghost use Rattle.key_buckets.specs.Room.{keys_named};

use crate::multi::Multi;
use crate::place::place_named;
use crate::tables::empty_tables;
use bcodes::{Ledger, Want};
use code_pool::Pool;
use flat_index::Flat;
use key_buckets::KeyTable;
use std::alloc::Global;
use std::marker::Model;

/// A MultiHash over the codes of a Flat whose maps are made one after the other, by a caller who
/// knows which codes share a bucket.
///
/// It is seen as the MultiHash that is made, with `nflip` 0, and the number of its maps that are
/// made.
#[derive(Drop)]
pub struct Building<L: Ledger> {
    alloc: Global,
    storage: Flat<L>,
    b: u32,
    maps: Vec<KeyTable>,
    made: usize,
    keys: u32,
    buckets: Pool<L>,
}

impl<L: Ledger> Model for Building<L> {
    ghost use Rattle.std.specs.Prelude.{length};
    ghost use Rattle.multi_hash.specs.Partly.{IsPartly, PartlyMade};

    ghost Value = { PartlyMade };

    ghost view = { λ m. record {
      whole = record {
        dim = m.storage.dim;
        nhash = length m.maps.items;
        b = m.b;
        nflip = 0;
        codes = m.storage.codes;
      };
      made = m.made;
    } };

    ghost invariant = { λ m.
        IsPartly m.storage.dim m.b m.made m.keys m.storage.codes m.maps.items m.buckets };
}

impl<L: Ledger> Building<L> {
    /// A MultiHash of the codes of a Flat by `nhash` keys of `b` bits, none of whose maps is made.
    ///
    /// # Errors
    ///
    /// If memory runs out. The Flat is then gone.
    pub fn new(alloc: Global, flat: Flat<L>, nhash: u32, b: u32) -> Result<Building<L>, Want>
        requires nhash_least { 1 ≤ nhash }
        requires nhash_most { nhash ≤ 1024 }
        requires b_least { 1 ≤ b }
        requires b_most { b ≤ 64 }
        requires within { nhash * b ≤ flat.dim }
        requires load { weight flat.dim nhash (length flat.codes) 0 ≤ load_limit }
        ensures { IfOk result (λ building. building ≡ record {
          whole = record { dim = flat.dim; nhash = nhash; b = b; nflip = 0; codes = flat.codes };
          made = 0;
        }) }
    {
        let maps = empty_tables(alloc, nhash)?;
        Ok(Building {
            alloc,
            storage: flat,
            b,
            maps,
            made: 0,
            keys: 0,
            buckets: Pool::new(alloc, 0),
        })
    }

    /// The number of maps that there will be.
    pub fn nhash(&self) -> u32
        ensures { result ≡ self.now.whole.nhash }
    {
        self.maps.len() as u32
    }

    /// The number of bits of a key.
    pub fn b(&self) -> u32
        ensures value { result ≡ self.now.whole.b }
        ensures least { 1 ≤ result }
        ensures most { result ≤ 64 }
        ensures within { self.now.whole.nhash * result ≤ self.now.whole.dim }
    {
        self.b
    }

    /// The number of maps that are made, which is the number of the next.
    pub fn made(&self) -> u32
        ensures { result ≡ self.now.made }
    {
        self.made as u32
    }

    /// The Flat in which the codes stand, each at its position.
    pub fn storage(&self) -> &Flat<L>
        ensures { result.now
            ≡ record { dim = self.now.whole.dim; codes = self.now.whole.codes } }
    {
        &self.storage
    }

    /// Makes the next map, where the code at each position has the key of this number among `keys`.
    /// No key is computed, and each is looked up once.
    ///
    /// # Errors
    ///
    /// If memory runs out. The MultiHash is then gone.
    pub fn with_map(self, keys: &[u64], numbers: &[u32]) -> Result<Building<L>, Want>
        requires next { self.made < self.whole.nhash }
        requires known { All (λ n. n < length keys.now) numbers.now }
        requires keys { keys_named keys.now numbers.now
            ≡ map (key_in self.made self.whole.b) self.whole.codes }
        ensures { IfOk result (λ building.
            building ≡ record self { made = self.made + 1 }) }
    {
        let Building {
            alloc,
            storage,
            b,
            mut maps,
            made,
            keys: used,
            mut buckets,
        } = self;
        let keys = place_named(
            alloc,
            &mut maps,
            made,
            &mut buckets,
            &storage,
            b,
            used,
            keys,
            numbers,
        )?;
        Ok(Building {
            alloc,
            storage,
            b,
            maps,
            made: made + 1,
            keys,
            buckets,
        })
    }

    /// The MultiHash, all of whose maps are made.
    pub fn finish(self) -> Multi<L>
        requires { self.made ≡ self.whole.nhash }
        ensures { result ≡ self.whole }
    {
        Multi {
            alloc: self.alloc,
            storage: self.storage,
            b: self.b,
            nflip: 0,
            maps: self.maps,
            keys: self.keys,
            buckets: self.buckets,
        }
    }
}
