use bcodes::{
    Addable, BinaryIndex, Codes, Dim, DirectError, Hits, KeySettings, ListSettings, Meter, Plain,
    Want,
};
use factory_text::Kind;
use flat_index::Flat;
use hash_index::Hash;
use id_select::{KeepPositions, Selector};
use ivf_index::Ivf;
use multi_hash::Multi;
use std::alloc::Global;

/// An index of one of the kinds that label their own codes, over the ledger `Plain`.
#[derive(Drop)]
pub enum InnerIndex {
    /// The codes are compared one by one.
    Flat(Flat<Plain>),
    /// The codes are on inverted lists.
    Ivf(Ivf<Plain>),
    /// The codes are in buckets by one key.
    Hash(Hash<Plain>),
    /// The codes are in buckets by several keys each.
    Multi(Multi<Plain>),
}

// What a call on the index inside gives, whatever its kind.
macro_rules! with_kind {
    ($inner:expr, $index:ident => $call:expr) => {
        match $inner {
            InnerIndex::Flat($index) => $call,
            InnerIndex::Ivf($index) => $call,
            InnerIndex::Hash($index) => $call,
            InnerIndex::Multi($index) => $call,
        }
    };
}

impl InnerIndex {
    ghost use Rattle.std.specs.Prelude.{◌≡◌, ◌+◌, IfOk, IsSome, OnErr, OnOk, Some};
    ghost use Rattle.bcodes.specs.Value.{Bare, count_of_inner};
    ghost use Rattle.id_select.specs.Removal.{removed};
    ghost use Rattle.any_index.specs.Kinds.{inner_value};
    ghost use Rattle.any_index.specs.Specs.{held_inner, kind_of};

    /// The kind, with its numbers.
    pub fn kind(&self) -> Kind
        ensures { result ≡ kind_of (inner_value self.now) }
    {
        match self {
            InnerIndex::Flat(_) => Kind::Flat,
            InnerIndex::Ivf(index) => Kind::Ivf(index.nlist()),
            InnerIndex::Hash(index) => Kind::Hash(index.b()),
            InnerIndex::Multi(index) => Kind::Multi(index.nhash(), index.b()),
        }
    }

    /// The number of centroids, which only an IVF has.
    pub fn held(&self) -> u32
        ensures { result ≡ held_inner (inner_value self.now) }
    {
        match self {
            InnerIndex::Ivf(index) => index.held(),
            InnerIndex::Flat(_) | InnerIndex::Hash(_) | InnerIndex::Multi(_) => 0,
        }
    }

    /// Removes the rows whose labels are chosen, and gives how many these were.
    ///
    /// # Errors
    ///
    /// If memory runs out. The index is then as before.
    pub fn remove(&mut self, sel: &Selector) -> Result<u64, Want>
        requires removes { IsSome (removed sel.now (Bare (inner_value self.old))) }
        ensures ok { OnOk result (removed sel.now (Bare (inner_value self.old))
            ≡ Some (Bare (inner_value self.new))) }
        ensures count { IfOk result (λ n. count_of_inner (inner_value self.new) + n
            ≡ count_of_inner (inner_value self.old)) }
        ensures err { OnErr result (inner_value self.new ≡ inner_value self.old) }
    {
        match self {
            InnerIndex::Flat(index) => index.remove(sel),
            InnerIndex::Ivf(index) => index.remove(sel),
            InnerIndex::Hash(_) | InnerIndex::Multi(_) => unreachable!(),
        }
    }
}

/// Every call is handed on to the index of the kind.
impl BinaryIndex for InnerIndex {
    ghost use Rattle.bcodes.specs.Value.{Bare};
    ghost use Rattle.any_index.specs.Kinds.{inner_value};

    type Led = Plain;

    ghost value = { λ i. Bare (inner_value i) };

    fn dim(&self) -> Dim {
        with_kind!(self, index => index.dim())
    }

    fn count(&self) -> u64 {
        with_kind!(self, index => index.count())
    }

    fn trained(&self) -> bool {
        with_kind!(self, index => index.trained())
    }

    fn fixed(&self) -> u64 {
        with_kind!(self, index => index.fixed())
    }

    fn bound(&self) -> u64 {
        with_kind!(self, index => index.bound())
    }

    fn search(
        &self,
        alloc: Global,
        q: &[u8],
        k: u32,
        meter: &mut Meter<Plain>,
    ) -> Result<Hits, Want> {
        with_kind!(self, index => index.search(alloc, q, k, meter))
    }

    fn range(
        &self,
        alloc: Global,
        q: &[u8],
        radius: u32,
        meter: &mut Meter<Plain>,
    ) -> Result<Hits, Want> {
        with_kind!(self, index => index.range(alloc, q, radius, meter))
    }
}

/// Every call is handed on to the index of the kind.
impl Addable for InnerIndex {
    fn takes_ids(&self) -> bool {
        with_kind!(self, index => index.takes_ids())
    }

    fn add_all(
        &mut self,
        labels: &[i64],
        codes: &Codes,
        meter: &mut Meter<Plain>,
    ) -> Result<(), Want> {
        with_kind!(self, index => index.add_all(labels, codes, meter))
    }
}

/// The settings of an IVF. An index of another kind stays as it is.
impl ListSettings for InnerIndex {
    fn set_nprobe(&mut self, n: u64) {
        if let InnerIndex::Ivf(index) = self {
            index.set_nprobe(n);
        }
    }

    fn set_max_codes(&mut self, n: u64) {
        if let InnerIndex::Ivf(index) = self {
            index.set_max_codes(n);
        }
    }

    #[tactic(auto, unfolding(bcodes::specs::Answers::after_centroids))]
    fn give_all(&mut self, codes: &Codes) -> Result<(), Want> {
        match self {
            InnerIndex::Ivf(index) => ListSettings::give_all(index, codes),
            InnerIndex::Flat(_) | InnerIndex::Hash(_) | InnerIndex::Multi(_) => Ok(()),
        }
    }

    fn set_direct(&mut self, on: bool) -> Result<(), DirectError> {
        match self {
            InnerIndex::Ivf(index) => ListSettings::set_direct(index, on),
            InnerIndex::Flat(_) | InnerIndex::Hash(_) | InnerIndex::Multi(_) => Ok(()),
        }
    }
}

/// The setting of a Hash or a MultiHash. An index of another kind stays as it is.
impl KeySettings for InnerIndex {
    fn set_nflip(&mut self, n: u32) {
        match self {
            InnerIndex::Hash(index) => KeySettings::set_nflip(index, n),
            InnerIndex::Multi(index) => KeySettings::set_nflip(index, n),
            InnerIndex::Flat(_) | InnerIndex::Ivf(_) => {}
        }
    }
}

/// Codes leave a Flat. No other kind closes up.
impl KeepPositions for InnerIndex {
    fn keep(&mut self, flags: &[bool]) {
        match self {
            InnerIndex::Flat(index) => index.keep(flags),
            InnerIndex::Ivf(_) | InnerIndex::Hash(_) | InnerIndex::Multi(_) => unreachable!(),
        }
    }
}
