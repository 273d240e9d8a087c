ghost use Rattle.std.specs.Prelude.{◌≡◌, ◌+◌, ◌^◌, ◌<◌, ◌≤◌, pos, nat_abs, map, true, false, [], length};
ghost use Rattle.std.specs.Prelude.{slice_index_or, Some, Err, IfOk, IsOk, IsSome, OnOk, OnErr};
ghost use Rattle.std.specs.List.{All};
ghost use Rattle.bcodes.specs.Ranges.{load_limit};
ghost use Rattle.bcodes.specs.Value.{Bare, IdMap, Ivf, IvfValue, IsNumbering, IsPlace, inner_of};
ghost use Rattle.bcodes.specs.Value.{count_of, count_of_inner, rows_of, dim_of_inner, load_of_inner};
ghost use Rattle.bcodes.specs.Settings.{ivf_in_inner, needs_ids};
ghost use Rattle.bcodes.specs.Answers.{given_inner, outer};
ghost use Rattle.id_select.specs.Removal.{flat_in_inner, removed};

use crate::labels::{append_ids, count_up, put_ids, retain_ids};
use bcodes::{
    Addable, BinaryIndex, Codes, Dim, DirectError, Hits, KeySettings, ListSettings, MapName, Meter,
    Want,
};
use id_select::{KeepPositions, Selector};
use std::alloc::Global;
use std::marker::Model;

/// An index whose codes are known by outer ids, Faiss's `IndexBinaryIDMap` and
/// `IndexBinaryIDMap2` (`IndexIDMap.h`), which differ in their names alone.
///
/// It is seen as its name, the value of the index inside and the ids, one for each code in the
/// order in which they were added. The index inside labels its codes by their positions. Ids may
/// come twice and may be negative.
#[derive(Drop)]
pub struct IdMapped<I: Addable> {
    alloc: Global,
    name: MapName,
    inner: I,
    ids: Vec<i64>,
}

impl<I: Addable> Model for IdMapped<I> {
    ghost use Rattle.bcodes.specs.Value.{inner_of};
    ghost use Rattle.id_map.specs.Mapped.{MappedValue};
    ghost use Rattle.id_map.specs.Inside.{IsMapped};

    ghost Value = { MappedValue };

    ghost view = { λ m. record {
      name = m.name;
      inner = inner_of (I.value m.inner);
      ids = m.ids.items;
    } };

    ghost invariant = { λ m. IsMapped (I.value m.inner) m.ids.items };
}

impl<I: Addable> IdMapped<I> {
    /// An index over one without codes. Takes no memory.
    pub fn new(alloc: Global, name: MapName, inner: I) -> IdMapped<I>
        requires empty { count_of (I.value inner) ≡ 0 }
        requires bare { needs_ids (I.value inner) ≡ false }
        ensures { result ≡ record { name = name; inner = inner_of (I.value inner); ids = [] } }
    {
        IdMapped {
            alloc,
            name,
            inner,
            ids: Vec::new(alloc),
        }
    }

    /// The name under which the ids are kept.
    pub fn name(&self) -> MapName
        ensures { result ≡ self.now.name }
    {
        self.name
    }

    /// The index inside.
    pub fn inner(&self) -> &I
        ensures { I.value result.now ≡ Bare self.now.inner }
    {
        &self.inner
    }

    /// The ids, in the order of the positions.
    pub fn ids(&self) -> &[i64]
        ensures { result.now ≡ self.now.ids }
    {
        &self.ids
    }

    /// The id of an inner label.
    pub fn outer(&self, label: i64) -> i64
        requires { IsPlace (count_of_inner self.now.inner) label }
        ensures { result ≡ slice_index_or self.now.ids (nat_abs label) (pos 0) }
    {
        self.ids[label as usize]
    }

    /// Puts outer ids in place of the inner labels of hits.
    pub fn put_outer(&self, hits: &mut Hits)
        requires { All (λ h. IsPlace (count_of_inner self.now.inner) h.label) hits.old.items }
        ensures { hits.new.items ≡ map (outer self.now.ids) hits.old.items }
    {
        put_ids(hits, &self.ids);
    }
}

impl<I: Addable + Drop> IdMapped<I> {
    /// An index over one whose labels are its positions, in any order, with an id for each
    /// position.
    ///
    /// # Errors
    ///
    /// If memory runs out. The index inside is then dropped.
    pub fn with(alloc: Global, name: MapName, inner: I, ids: &[i64]) -> Result<IdMapped<I>, Want>
        requires count { length ids.now ≡ count_of (I.value inner) }
        requires places { All (λ row. IsPlace (count_of (I.value inner)) row.label)
            (rows_of (I.value inner)) }
        requires bare { needs_ids (I.value inner) ≡ false }
        ensures { IfOk result (λ m. m
            ≡ record { name = name; inner = inner_of (I.value inner); ids = ids.now }) }
    {
        let mut kept = Vec::with_capacity(alloc, ids.len())?;
        append_ids(&mut kept, ids);
        Ok(IdMapped {
            alloc,
            name,
            inner,
            ids: kept,
        })
    }
}

/// A query is one of the index inside. Its answer is put in order there, and then each label gives
/// way to its id.
impl<I: Addable> BinaryIndex for IdMapped<I> {
    type Led = I::Led;

    ghost value = { λ m. IdMap m.name m.inner m.ids };

    fn dim(&self) -> Dim {
        self.inner.dim()
    }

    fn count(&self) -> u64 {
        self.inner.count()
    }

    fn trained(&self) -> bool {
        self.inner.trained()
    }

    fn fixed(&self) -> u64 {
        self.inner.fixed()
    }

    fn bound(&self) -> u64 {
        self.inner.bound()
    }

    fn search(
        &self,
        alloc: Global,
        q: &[u8],
        k: u32,
        meter: &mut Meter<I::Led>,
    ) -> Result<Hits, Want> {
        let mut hits = self.inner.search(alloc, q, k, meter)?;
        put_ids(&mut hits, &self.ids);
        Ok(hits)
    }

    fn range(
        &self,
        alloc: Global,
        q: &[u8],
        radius: u32,
        meter: &mut Meter<I::Led>,
    ) -> Result<Hits, Want> {
        let mut hits = self.inner.range(alloc, q, radius, meter)?;
        put_ids(&mut hits, &self.ids);
        Ok(hits)
    }
}

/// The labels of an add are the ids. The index inside takes the codes under the positions that
/// follow.
impl<I: Addable> Addable for IdMapped<I> {
    fn takes_ids(&self) -> bool {
        true
    }

    fn add_all(
        &mut self,
        ids: &[i64],
        codes: &Codes,
        meter: &mut Meter<I::Led>,
    ) -> Result<(), Want> {
        let labels = count_up(self.alloc, self.ids.len(), ids.len())?;
        // Room for the ids comes first, so that nothing can fail once the codes are in.
        self.ids.reserve(ids.len())?;
        self.inner.add_all(&labels, codes, meter)?;
        append_ids(&mut self.ids, ids);
        Ok(())
    }
}

/// Codes leave a Flat under outer ids together with their ids.
impl<I: KeepPositions> IdMapped<I> {
    /// Removes the codes whose ids are chosen, and these ids, and gives how many codes left. The
    /// codes inside close up.
    ///
    /// # Errors
    ///
    /// If memory runs out. The index is then as before.
    pub fn remove(&mut self, sel: &Selector) -> Result<u64, Want>
        requires is_flat { IsSome (flat_in_inner self.old.inner) }
        ensures ok { OnOk result (removed sel.now (IdMap self.old.name self.old.inner self.old.ids)
            ≡ Some (IdMap self.new.name self.new.inner self.new.ids)) }
        ensures count { IfOk result (λ n. length self.new.ids + n ≡ length self.old.ids) }
        ensures err { OnErr result (self.new ≡ self.old) }
    {
        let count = self.ids.len();
        let flags = sel.flags(self.alloc, &self.ids)?;
        self.inner.keep(&flags);
        retain_ids(&mut self.ids, sel);
        Ok((count - self.ids.len()) as u64)
    }
}

/// The settings of an IVF under outer ids. Each is handed on to the IVF, and leaves the name and
/// the ids.
impl<I: ListSettings> IdMapped<I> {
    /// Sets the number of inverted lists that a query reads at most.
    pub fn set_nprobe(&mut self, n: u64)
        requires is_ivf { IsSome (ivf_in_inner self.old.inner) }
        requires least { 1 ≤ n }
        requires most { n < 2 ^ 63 }
        ensures { (v : IvfValue) → ivf_in_inner self.old.inner ≡ Some v
            → self.new ≡ record self.old { inner = Ivf (record v { nprobe = n }) } }
    {
        self.inner.set_nprobe(n);
    }

    /// Sets the number of rows after which a query reads no further list. 0 is no limit.
    pub fn set_max_codes(&mut self, n: u64)
        requires is_ivf { IsSome (ivf_in_inner self.old.inner) }
        requires most { n < 2 ^ 63 }
        ensures { (v : IvfValue) → ivf_in_inner self.old.inner ≡ Some v
            → self.new ≡ record self.old { inner = Ivf (record v { max_codes = n }) } }
    {
        self.inner.set_max_codes(n);
    }

    /// Appends all of the centroids, or none.
    ///
    /// # Errors
    ///
    /// If memory runs out. The index is then as before.
    pub fn give_all(&mut self, codes: &Codes) -> Result<(), Want>
        requires same_dim { codes.now.dim ≡ dim_of_inner self.old.inner }
        requires few { (v : IvfValue) → ivf_in_inner self.old.inner ≡ Some v
            → length v.centroids + length codes.now.codes ≤ v.nlist }
        requires load { load_of_inner (given_inner self.old.inner codes.now.codes) ≤ load_limit }
        ensures ok { OnOk result (self.new
            ≡ record self.old { inner = given_inner self.old.inner codes.now.codes }) }
        ensures err { OnErr result (self.new ≡ self.old) }
    {
        self.inner.give_all(codes)?;
        Ok(())
    }

    /// Keeps a direct map from inner labels to rows, or gives it up, which takes no memory.
    ///
    /// # Errors
    ///
    /// `NotSequential` exactly where a map is asked for and the inner labels are not the numbers
    /// below their count, each once; `Memory` if memory runs out, which may come in its place. The
    /// index is then as before.
    pub fn set_direct(&mut self, on: bool) -> Result<(), DirectError>
        requires is_ivf { IsSome (ivf_in_inner self.old.inner) }
        ensures ok { OnOk result ((v : IvfValue) → ivf_in_inner self.old.inner ≡ Some v
            → self.new ≡ record self.old { inner = Ivf (record v { direct = on }) }) }
        ensures err { OnErr result (self.new ≡ self.old) }
        ensures only { result ≡ Err DirectError.NotSequential
            → (v : IvfValue) → ivf_in_inner self.old.inner ≡ Some v
            → (on ≡ true) × ¬ IsNumbering (map (λ row. row.label) v.rows) }
        ensures numbered { on ≡ true
            → OnOk result ((v : IvfValue) → ivf_in_inner self.old.inner ≡ Some v
            → IsNumbering (map (λ row. row.label) v.rows)) }
        ensures off { on ≡ false → IsOk result }
    {
        match self.inner.set_direct(on) {
            Ok(()) => Ok(()),
            Err(error) => Err(error),
        }
    }
}

/// The setting of a Hash or a MultiHash under outer ids. It leaves the name and the ids.
impl<I: KeySettings> KeySettings for IdMapped<I> {
    fn set_nflip(&mut self, n: u32) {
        self.inner.set_nflip(n);
    }
}
