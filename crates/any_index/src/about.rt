ghost use Rattle.std.specs.Prelude.{◌≡◌, length, map, IfOk};
ghost use Rattle.std.specs.List.{range_with_len};
ghost use Rattle.multi_hash.specs.Maps.{map_keys};
ghost use Rattle.any_index.specs.Kinds.{inner_value};
ghost use Rattle.any_index.specs.About.{about, buckets_of, is_direct, max_codes_of, nflip_of};
ghost use Rattle.any_index.specs.About.{nprobe_of};

use crate::{AnyIndex, Counts, InnerIndex};
use bcodes::{BinaryIndex, Plain, Want};
use factory_text::Spec;
use multi_hash::Multi;
use std::alloc::Global;

/// What an index is and how it is set. A number that its kind lacks is 0.
#[derive(Debug, Drop)]
pub struct About {
    /// The Spec by which an index of this kind is made.
    pub spec: Spec,
    /// The bits of a code.
    pub bits: u32,
    /// The number of codes.
    pub total: u64,
    /// Whether codes can be added.
    pub trained: bool,
    /// The number of lists that a query of an IVF looks into.
    pub nprobe: u64,
    /// The number of rows after which a query of an IVF reads no further list.
    pub max_codes: u64,
    /// Whether an IVF keeps a direct map.
    pub direct: bool,
    /// The number of centroids of an IVF.
    pub held: u32,
    /// In how many bits a key may differ from the query's.
    pub nflip: u32,
    /// The greatest radius at which every range search is exact.
    pub bound: u64,
    /// The number of buckets of each map from keys to codes: one number for a Hash, one for each
    /// map of a MultiHash, and none for the other kinds.
    pub buckets: Counts,
}

impl AnyIndex {
    /// What the index is and how it is set.
    ///
    /// # Errors
    ///
    /// If memory runs out.
    pub fn about(&self, alloc: Global) -> Result<About, Want>
        ensures { IfOk result (λ told. told ≡ about self.now) }
    {
        let buckets = self.inner().buckets(alloc)?;
        Ok(About {
            spec: self.spec(),
            bits: self.dim().bits(),
            total: self.count(),
            trained: self.trained(),
            nprobe: self.inner().nprobe(),
            max_codes: self.inner().max_codes(),
            direct: self.inner().direct(),
            held: self.held(),
            nflip: self.inner().nflip(),
            bound: self.bound(),
            buckets,
        })
    }
}

// A number that the kind lacks is 0.
impl InnerIndex {
    fn nprobe(&self) -> u64
        ensures { result ≡ nprobe_of (inner_value self.now) }
    {
        match self {
            InnerIndex::Ivf(index) => index.nprobe(),
            InnerIndex::Flat(_) | InnerIndex::Hash(_) | InnerIndex::Multi(_) => 0,
        }
    }

    fn max_codes(&self) -> u64
        ensures { result ≡ max_codes_of (inner_value self.now) }
    {
        match self {
            InnerIndex::Ivf(index) => index.max_codes(),
            InnerIndex::Flat(_) | InnerIndex::Hash(_) | InnerIndex::Multi(_) => 0,
        }
    }

    fn direct(&self) -> bool
        ensures { result ≡ is_direct (inner_value self.now) }
    {
        match self {
            InnerIndex::Ivf(index) => index.direct(),
            InnerIndex::Flat(_) | InnerIndex::Hash(_) | InnerIndex::Multi(_) => false,
        }
    }

    fn nflip(&self) -> u32
        ensures { result ≡ nflip_of (inner_value self.now) }
    {
        match self {
            InnerIndex::Hash(index) => index.nflip(),
            InnerIndex::Multi(index) => index.nflip(),
            InnerIndex::Flat(_) | InnerIndex::Ivf(_) => 0,
        }
    }

    fn buckets(&self, alloc: Global) -> Result<Counts, Want>
        ensures { IfOk result (λ counts. counts ≡ buckets_of (inner_value self.now)) }
    {
        match self {
            InnerIndex::Flat(_) | InnerIndex::Ivf(_) => Ok(Counts::new(Vec::new(alloc))),
            InnerIndex::Hash(index) => {
                let numbers = vec![in alloc; index.buckets() as u64; 1]?;
                Ok(Counts::new(numbers))
            }
            InnerIndex::Multi(index) => {
                let numbers = buckets_of_maps(alloc, index)?;
                Ok(Counts::new(numbers))
            }
        }
    }
}

fn buckets_of_maps(alloc: Global, index: &Multi<Plain>) -> Result<Vec<u64>, Want>
    ensures { IfOk result (λ numbers. numbers.items
        ≡ map (λ i. length (map_keys index.now i)) (range_with_len 0 index.now.nhash)) }
{
    let mut numbers = Vec::new(alloc);
    for map in 0..index.nhash() {
        numbers.push(index.buckets(map) as u64)?;
    }
    Ok(numbers)
}
