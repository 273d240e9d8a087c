ghost use Rattle.std.specs.Prelude.{◌≡◌, ℕ, ◌+◌, ◌^◌, ◌<◌, ◌≤◌, ◌↔◌, map, true, false, [], ◌∷◌, length};
ghost use Rattle.std.specs.Prelude.{None, Some, Err, IfOk, IfSome, IsNone, IsOk, IsSome};
ghost use Rattle.std.specs.Prelude.{IsTrue, OnOk, OnErr, is_some};
ghost use Rattle.std.specs.List.{All};
ghost use Rattle.bcodes.specs.Ranges.{load_limit, raised};
ghost use Rattle.bcodes.specs.Value.{Bare, IdMap, IvfValue, IsNumbering, IsPlace, ids_of};
ghost use Rattle.bcodes.specs.Value.{inner_of, count_of, count_of_inner, dim_of, is_trained};
ghost use Rattle.bcodes.specs.Value.{labels_from, load_of, rows_of_inner, takes_ids};
ghost use Rattle.bcodes.specs.Settings.{ivf_in, key_bits, multi_in, needs_ids, with_ivf, with_nflip};
ghost use Rattle.bcodes.specs.Answers.{after_add, after_centroids, relabelled};
ghost use Rattle.id_select.specs.Removal.{removed};
ghost use Rattle.id_select.specs.declared.selector.Selector.{Selector};
ghost use Rattle.any_index.specs.Kinds.{inner_value};
ghost use Rattle.any_index.specs.Specs.{held_of, prefix_of_name, spec_of};
ghost use Rattle.any_index.specs.Labels.{code_labelled, finds_labels, outer_label};

use crate::InnerIndex;
use bcodes::{
    Addable, BinaryIndex, Codes, Dim, DirectError, Hits, KeySettings, ListSettings, MapName, Meter,
    Plain, Want,
};
use factory_text::{Prefix, Spec};
use id_map::{IdMapped, count_up};
use id_select::Selector;
use multi_hash::Multi;
use std::alloc::Global;
use std::marker::Model;

/// An index of any kind, plain or under outer ids. It is seen as its value.
///
/// Its queries hand on the caller's meter. Its adds make one of their own, which nobody reads.
pub struct AnyIndex {
    held: Held,
}

// Written out, so that it is proved here once and not again wherever an index is dropped.
impl Drop for AnyIndex {
    fn drop(self) {
        let AnyIndex { held: _held } = self;
    }
}

#[derive(Drop)]
enum Held {
    Plain(InnerIndex),
    Mapped(IdMapped<InnerIndex>),
}

impl Model for AnyIndex {
    ghost use Rattle.bcodes.specs.Value.{IndexValue};
    ghost use Rattle.any_index.specs.Held.{index_value};

    ghost Value = { IndexValue };

    ghost view = { λ a. index_value a.held };
}

// What a call on the index gives, with outer ids or without.
macro_rules! with_held {
    ($any:expr, $index:ident => $call:expr) => {
        match $any {
            Held::Plain($index) => $call,
            Held::Mapped($index) => $call,
        }
    };
}

impl AnyIndex {
    /// A plain index. Takes no memory.
    pub fn plain(inner: InnerIndex) -> AnyIndex
        ensures { result ≡ Bare (inner_value inner) }
    {
        AnyIndex {
            held: Held::Plain(inner),
        }
    }

    /// An index under outer ids, with an id for each position. The labels of the index inside are
    /// its positions, in any order.
    ///
    /// # Errors
    ///
    /// If memory runs out. The index inside is then dropped.
    pub fn mapped(
        alloc: Global,
        name: MapName,
        inner: InnerIndex,
        ids: &[i64],
    ) -> Result<AnyIndex, Want>
        requires count { length ids.now ≡ count_of_inner (inner_value inner) }
        requires places { All (λ row. IsPlace (count_of_inner (inner_value inner)) row.label)
            (rows_of_inner (inner_value inner)) }
        ensures { IfOk result (λ index. index ≡ IdMap name (inner_value inner) ids.now) }
    {
        let index = IdMapped::with(alloc, name, inner, ids)?;
        Ok(AnyIndex {
            held: Held::Mapped(index),
        })
    }

    /// The index itself, or the one under its outer ids.
    pub fn inner(&self) -> &InnerIndex
        ensures { inner_value result.now ≡ inner_of self.now }
    {
        match &self.held {
            Held::Plain(index) => index,
            Held::Mapped(index) => index.inner(),
        }
    }

    /// The Spec by which an index of this kind is made.
    pub fn spec(&self) -> Spec
        ensures { result ≡ spec_of self.now }
    {
        let prefix = match &self.held {
            Held::Plain(_) => Prefix::Plain,
            Held::Mapped(index) => prefix_of_name(index.name()),
        };
        Spec {
            prefix,
            kind: self.inner().kind(),
        }
    }

    /// The number of centroids: 0 for the kinds other than IVF.
    pub fn held(&self) -> u32
        ensures { result ≡ held_of self.now }
    {
        self.inner().held()
    }

    /// Whether codes are added under outer ids alone.
    pub fn needs_ids(&self) -> bool
        ensures { result ≡ needs_ids self.now }
    {
        match &self.held {
            Held::Plain(_) => false,
            Held::Mapped(_) => true,
        }
    }

    /// Whether codes are added under ids: as outer ids, or as the labels that a plain IVF without a
    /// direct map and a plain Hash take.
    pub fn takes_ids(&self) -> bool
        ensures { result ≡ takes_ids self.now }
    {
        with_held!(&self.held, index => index.takes_ids())
    }

    /// Appends all of the codes in order, or none of them. Their labels count up from the count.
    ///
    /// # Errors
    ///
    /// If memory runs out. The index is then as before.
    pub fn add(&mut self, alloc: Global, codes: &Codes) -> Result<(), Want>
        requires plain { needs_ids self.old ≡ false }
        requires is_trained { IsTrue (is_trained self.old) }
        requires same_dim { codes.now.dim ≡ dim_of self.old }
        requires load { let labels = labels_from (count_of self.old) (length codes.now.codes) in
            load_of (after_add self.old labels codes.now.codes) ≤ load_limit }
        ensures ok { let labels = labels_from (count_of self.old) (length codes.now.codes) in
            OnOk result (self.new ≡ after_add self.old labels codes.now.codes) }
        ensures err { OnErr result (self.new ≡ self.old) }
    {
        let labels = count_up(alloc, self.count() as usize, codes.len())?;
        self.add_labelled(&labels, codes)?;
        Ok(())
    }

    /// Appends all of the codes in order, each under its id, or none of them.
    ///
    /// # Errors
    ///
    /// If memory runs out. The index is then as before.
    pub fn add_ids(&mut self, ids: &[i64], codes: &Codes) -> Result<(), Want>
        requires takes_ids { IsTrue (takes_ids self.old) }
        requires same_count { length ids.now ≡ length codes.now.codes }
        requires is_trained { IsTrue (is_trained self.old) }
        requires same_dim { codes.now.dim ≡ dim_of self.old }
        requires load { load_of (after_add self.old ids.now codes.now.codes) ≤ load_limit }
        ensures ok { OnOk result (self.new ≡ after_add self.old ids.now codes.now.codes) }
        ensures err { OnErr result (self.new ≡ self.old) }
    {
        self.add_labelled(ids, codes)?;
        Ok(())
    }

    fn add_labelled(&mut self, labels: &[i64], codes: &Codes) -> Result<(), Want>
        requires positions { takes_ids self.old ≡ false
            → labels.now ≡ labels_from (count_of self.old) (length codes.now.codes) }
        requires same_count { length labels.now ≡ length codes.now.codes }
        requires is_trained { IsTrue (is_trained self.old) }
        requires same_dim { codes.now.dim ≡ dim_of self.old }
        requires load { load_of (after_add self.old labels.now codes.now.codes) ≤ load_limit }
        ensures ok { OnOk result (self.new ≡ after_add self.old labels.now codes.now.codes) }
        ensures err { OnErr result (self.new ≡ self.old) }
    {
        let mut meter = Meter::new(Plain);
        with_held!(&mut self.held, index => index.add_all(labels, codes, &mut meter))
    }

    /// Appends all of the centroids, or none.
    ///
    /// # Errors
    ///
    /// If memory runs out. The index is then as before.
    #[tactic(auto, unfolding(bcodes::specs::Answers::after_centroids))]
    pub fn give_all(&mut self, codes: &Codes) -> Result<(), Want>
        requires is_ivf { IsSome (ivf_in self.old) }
        requires same_dim { codes.now.dim ≡ dim_of self.old }
        requires few { (v : IvfValue) → ivf_in self.old ≡ Some v
            → length v.centroids + length codes.now.codes ≤ v.nlist }
        requires load { load_of (after_centroids self.old codes.now.codes) ≤ load_limit }
        ensures ok { OnOk result (self.new ≡ after_centroids self.old codes.now.codes) }
        ensures err { OnErr result (self.new ≡ self.old) }
    {
        with_held!(&mut self.held, index => index.give_all(codes))
    }

    /// Sets the number of inverted lists that a query of an IVF reads at most.
    pub fn set_nprobe(&mut self, n: u64)
        requires is_ivf { IsSome (ivf_in self.old) }
        requires least { 1 ≤ n }
        requires most { n < 2 ^ 63 }
        ensures { (v : IvfValue) → ivf_in self.old ≡ Some v
            → self.new ≡ with_ivf (record v { nprobe = n }) self.old }
    {
        with_held!(&mut self.held, index => index.set_nprobe(n));
    }

    /// Sets the number of rows after which a query of an IVF reads no further list. 0 is no limit.
    pub fn set_max_codes(&mut self, n: u64)
        requires is_ivf { IsSome (ivf_in self.old) }
        requires most { n < 2 ^ 63 }
        ensures { (v : IvfValue) → ivf_in self.old ≡ Some v
            → self.new ≡ with_ivf (record v { max_codes = n }) self.old }
    {
        with_held!(&mut self.held, index => index.set_max_codes(n));
    }

    /// Keeps a direct map of an IVF from inner labels to rows, or gives it up, which takes no
    /// memory.
    ///
    /// # Errors
    ///
    /// `NotSequential` exactly where a map is asked for and the inner labels are not the numbers
    /// below their count, each once; `Memory` if memory runs out, which may come in its place. The
    /// index is then as before.
    pub fn set_direct(&mut self, on: bool) -> Result<(), DirectError>
        requires is_ivf { IsSome (ivf_in self.old) }
        ensures ok { OnOk result ((v : IvfValue) → ivf_in self.old ≡ Some v
            → self.new ≡ with_ivf (record v { direct = on }) self.old) }
        ensures err { OnErr result (self.new ≡ self.old) }
        ensures only { result ≡ Err DirectError.NotSequential
            → (v : IvfValue) → ivf_in self.old ≡ Some v
            → (on ≡ true) × ¬ IsNumbering (map (λ row. row.label) v.rows) }
        ensures numbered { on ≡ true
            → OnOk result ((v : IvfValue) → ivf_in self.old ≡ Some v
            → IsNumbering (map (λ row. row.label) v.rows)) }
        ensures off { on ≡ false → IsOk result }
    {
        with_held!(&mut self.held, index => index.set_direct(on))
    }

    /// Sets in how many bits the key of a bucket of a Hash or a MultiHash may differ from the
    /// query's key.
    pub fn set_nflip(&mut self, n: u32)
        requires has_keys { IsSome (key_bits self.old) }
        requires most { (b : ℕ) → key_bits self.old ≡ Some b → n ≤ b }
        ensures { self.new ≡ with_nflip n self.old }
    {
        with_held!(&mut self.held, index => index.set_nflip(n));
    }

    /// Whether rows can be removed: from a plain Flat, from a plain IVF without a direct map, and
    /// from a Flat under outer ids.
    pub fn removes_rows(&self) -> bool
        ensures { (s : Selector) → result ≡ is_some (removed s self.now) }
    {
        match self.inner() {
            InnerIndex::Flat(_) => true,
            InnerIndex::Ivf(index) => !self.needs_ids() && !index.direct(),
            InnerIndex::Hash(_) | InnerIndex::Multi(_) => false,
        }
    }

    /// Removes the rows that are chosen, by their outer ids where the index has them and else by
    /// their labels, and gives how many these were. The codes of a Flat close up.
    ///
    /// # Errors
    ///
    /// If memory runs out. The index is then as before.
    pub fn remove(&mut self, sel: &Selector) -> Result<u64, Want>
        requires removes { IsSome (removed sel.now self.old) }
        ensures ok { OnOk result (removed sel.now self.old ≡ Some self.new) }
        ensures count { IfOk result (λ n. count_of self.new + n ≡ count_of self.old) }
        ensures err { OnErr result (self.new ≡ self.old) }
    {
        // For the proof that there are as many outer ids as rows: the value is legal.
        let _dim = self.dim();
        with_held!(&mut self.held, index => index.remove(sel))
    }

    /// The code of the row with a label, in a plain Flat or in a plain IVF with a direct map. It
    /// is the one code of the list. The meter's `lent` rises by 1.
    ///
    /// # Errors
    ///
    /// If memory runs out. The meter's `lent` has then risen by at most 1.
    pub fn reconstruct(
        &self,
        alloc: Global,
        label: u64,
        meter: &mut Meter<Plain>,
    ) -> Result<Codes, Want>
        requires finds { finds_labels self.now ≡ Some true }
        requires within { label < count_of self.now }
        ensures ok { IfOk result (λ codes. codes
            ≡ record { dim = dim_of self.now; codes = code_labelled self.now label ∷ [] }) }
        ensures lent { OnOk result (meter.new.lent ≡ raised meter.old.lent 1) }
        ensures lent_least { meter.old.lent ≤ meter.new.lent }
        ensures lent_most { meter.new.lent ≤ meter.old.lent + 1 }
        ensures asked { meter.new.asked ≡ meter.old.asked }
    {
        let mut codes = Codes::new(alloc, self.dim());
        codes.push(self.labelled(label, meter))?;
        Ok(codes)
    }

    fn labelled(&self, label: u64, meter: &mut Meter<Plain>) -> &[u8]
        requires finds { finds_labels self.now ≡ Some true }
        requires within { label < count_of self.now }
        ensures code { result.now ≡ code_labelled self.now label }
        ensures lent { meter.new ≡ record meter.old { lent = raised meter.old.lent 1 } }
    {
        match self.inner() {
            InnerIndex::Flat(index) => index.code(label, meter),
            InnerIndex::Ivf(index) => index.code_of(label, meter),
            InnerIndex::Hash(_) | InnerIndex::Multi(_) => unreachable!(),
        }
    }

    /// The MultiHash that the index is, or that stands under its outer ids, if it is one.
    pub fn as_multi(&self) -> Option<&Multi<Plain>>
        ensures none { IsNone result ↔ (multi_in self.now ≡ None) }
        ensures some { IfSome result (λ multi. multi_in self.now ≡ Some multi.now) }
    {
        match self.inner() {
            InnerIndex::Multi(index) => Some(index),
            InnerIndex::Flat(_) | InnerIndex::Ivf(_) | InnerIndex::Hash(_) => None,
        }
    }

    /// The outer ids, in the order of the positions: none where the index has no outer ids.
    pub fn ids(&self) -> &[i64]
        ensures { result.now ≡ ids_of self.now }
    {
        match &self.held {
            Held::Plain(_) => &[],
            Held::Mapped(index) => index.ids(),
        }
    }

    /// The outer id of an inner label, or the label itself where there are no outer ids.
    pub fn outer(&self, label: i64) -> i64
        requires { IsPlace (count_of self.now) label }
        ensures { result ≡ outer_label self.now label }
    {
        match &self.held {
            Held::Plain(_) => label,
            Held::Mapped(index) => index.outer(label),
        }
    }

    /// Puts outer ids in place of the inner labels of hits, where the index has outer ids.
    pub fn put_outer(&self, hits: &mut Hits)
        requires { All (λ h. IsPlace (count_of self.now) h.label) hits.old.items }
        ensures { hits.new.items ≡ relabelled self.now hits.old.items }
    {
        match &self.held {
            Held::Plain(_) => {}
            Held::Mapped(index) => index.put_outer(hits),
        }
    }
}

/// Every call is handed on to the index, with its outer ids where it has them.
impl BinaryIndex for AnyIndex {
    type Led = Plain;

    ghost value = { λ a. a };

    fn dim(&self) -> Dim {
        with_held!(&self.held, index => index.dim())
    }

    fn count(&self) -> u64 {
        with_held!(&self.held, index => index.count())
    }

    fn trained(&self) -> bool {
        with_held!(&self.held, index => index.trained())
    }

    fn fixed(&self) -> u64 {
        with_held!(&self.held, index => index.fixed())
    }

    fn bound(&self) -> u64 {
        with_held!(&self.held, index => index.bound())
    }

    fn search(
        &self,
        alloc: Global,
        q: &[u8],
        k: u32,
        meter: &mut Meter<Plain>,
    ) -> Result<Hits, Want> {
        with_held!(&self.held, index => index.search(alloc, q, k, meter))
    }

    fn range(
        &self,
        alloc: Global,
        q: &[u8],
        radius: u32,
        meter: &mut Meter<Plain>,
    ) -> Result<Hits, Want> {
        with_held!(&self.held, index => index.range(alloc, q, radius, meter))
    }
}

fn prefix_of_name(name: MapName) -> Prefix
    ensures { result ≡ prefix_of_name name }
{
    match name {
        MapName::Map => Prefix::Map,
        MapName::Map2 => Prefix::Map2,
    }
}
