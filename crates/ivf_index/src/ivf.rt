ghost use Rattle.std.specs.Prelude.{◌≡◌, ◌*◌, ◌/◌, ◌+◌, ◌^◌, ◌<◌, ◌≤◌, ◌↔◌, [], ◌∷◌, ◌++◌, false};
ghost use Rattle.std.specs.Prelude.{true, length, map, min, slice_index_or, replicate, Some};
ghost use Rattle.std.specs.Prelude.{Err, IsOk};
ghost use Rattle.std.specs.Prelude.{IsTrue, IfOk, OnOk, OnErr};
ghost use Rattle.std.specs.List.{All};
ghost use Rattle.bcodes.specs.Ranges.{load_limit, raised};
ghost use Rattle.bcodes.specs.Value.{empty_ivf, is_trained, labels_from, weight, IsLegalIvf};
ghost use Rattle.bcodes.specs.Value.{IsNumbering, Ivf as IvfForm, Bare};
ghost use Rattle.bcodes.specs.Answers.{best, looked, near, paired, within};
ghost use Rattle.bcodes.specs.Chunks.{chunks_of};
ghost use Rattle.ivf_index.specs.Direct.{IsPlaced};
ghost use Rattle.ivf_index.specs.Table.{on_list, put_row, put_rows};
ghost use Rattle.ivf_index.specs.Found.{code_labelled};
ghost use Rattle.code_pool.specs.Lists.{IsRun, no_list};
ghost use Rattle.id_select.specs.Removal.{removed};

use crate::CentroidError;
use crate::direct_map::{DirectMap, entry_of, map_of, reserve_places};
use crate::entry::place_of;
use crate::keep::keep_lists;
use crate::list_flags::{ListFlags, flag_lists};
use crate::near::near_lists;
use crate::nearest::nearest_lists;
use crate::order_flags::flag_order;
use crate::put::put_all;
use bcodes::{
    Addable, BinaryIndex, Codes, Dim, DirectError, Hits, Ledger, ListSettings, Meter, Want,
};
use code_pool::{Pool, Run};
use flat_index::Flat;
use id_select::Selector;
use list_scan::{range_lists, search_lists};
use row_lists::{put_on_one, reserve_each};
use std::alloc::Global;
use std::marker::Model;

/// An index of codes on inverted lists, each code on the list of its nearest centroid, Faiss's
/// `IndexBinaryIVF` (`IndexBinaryIVF.h`).
///
/// It is seen as its settings, its centroids and its rows. A row is a label, a code of `dim` bits
/// and the number of its list; rows stand in the order of addition. The quantizer is a `Flat` of
/// the centroids, one for each of the `nlist` lists, and codes are added once all of them are
/// given. Among centroids at one distance the one of the lowest number is nearest.
///
/// Rows stand in a pool with one list a centroid, and a second pool, of codes of 0 bytes, has the
/// list number of each row. Codes are read under the caller's meter alone.
#[derive(Drop)]
pub struct Ivf<L: Ledger> {
    alloc: Global,
    dim: Dim,
    nlist: u32,
    nprobe: u64,
    max_codes: u64,
    direct: Option<DirectMap>,
    quantizer: Flat<L>,
    order: Pool<L>,
    lists: Pool<L>,
}

impl<L: Ledger> Model for Ivf<L> {
    ghost use Rattle.bcodes.specs.Value.{IvfValue};
    ghost use Rattle.ivf_index.specs.Direct.{entries_of, has_map};
    ghost use Rattle.ivf_index.specs.Inside.{rows_in_order, IsIvf};

    ghost Value = { IvfValue };

    ghost view = { λ i. record {
      dim = i.dim.bits;
      nlist = i.nlist;
      nprobe = i.nprobe;
      max_codes = i.max_codes;
      direct = has_map (entries_of i.direct);
      centroids = i.quantizer.codes;
      rows = rows_in_order i.order i.lists;
    } };

    ghost invariant = { λ i. IsIvf i.dim.bits i.nlist i.nprobe i.max_codes (entries_of i.direct)
        i.quantizer i.order i.lists };
}

impl<L: Ledger> Ivf<L> {
    /// An index of `nlist` lists, without centroids or codes. A query looks into one list, and
    /// there is no limit on its rows. `Want` says that memory ran out.
    pub fn new(alloc: Global, dim: Dim, nlist: u32) -> Result<Ivf<L>, Want>
        requires least { 1 ≤ nlist }
        requires most { nlist ≤ 4194304 }
        ensures { IfOk result (λ i. i ≡ empty_ivf dim.bits nlist) }
    {
        let quantizer = Flat::new(alloc, dim)?;
        let mut order = Pool::new(alloc, 0);
        order.open_list()?;
        let lists = open_lists(alloc, dim, nlist)?;
        Ok(Ivf {
            alloc,
            dim,
            nlist,
            nprobe: 1,
            max_codes: 0,
            direct: None,
            quantizer,
            order,
            lists,
        })
    }

    /// The number of lists.
    pub fn nlist(&self) -> u32
        ensures { result ≡ self.now.nlist }
    {
        self.nlist
    }

    /// The number of lists that a query looks into, where there are that many.
    pub fn nprobe(&self) -> u64
        ensures { result ≡ self.now.nprobe }
    {
        self.nprobe
    }

    /// The number of rows after which a query takes no further list, or 0 where there is no limit.
    pub fn max_codes(&self) -> u64
        ensures { result ≡ self.now.max_codes }
    {
        self.max_codes
    }

    /// The number of centroids that were given.
    pub fn held(&self) -> u32
        ensures value { result ≡ length self.now.centroids }
        ensures most { result ≤ self.now.nlist }
    {
        self.quantizer.count() as u32
    }

    /// Sets the number of lists that a query looks into. It may be more than there are.
    pub fn set_nprobe(&mut self, n: u64)
        requires least { 1 ≤ n }
        requires most { n < 2 ^ 63 }
        ensures { self.new ≡ record self.old { nprobe = n } }
    {
        self.nprobe = n;
    }

    /// Sets the number of rows after which a query takes no further list. 0 is no limit.
    pub fn set_max_codes(&mut self, n: u64)
        requires { n < 2 ^ 63 }
        ensures { self.new ≡ record self.old { max_codes = n } }
    {
        self.max_codes = n;
    }

    /// Appends all of the centroids. `Want` says that memory ran out, and leaves the index as it
    /// was.
    pub fn give_all(&mut self, codes: &Codes) -> Result<(), Want>
        requires same_dim { codes.now.dim ≡ self.old.dim }
        requires few { length self.old.centroids + length codes.now.codes ≤ self.old.nlist }
        requires load { weight self.old.dim 0 (length self.old.rows)
            (length self.old.centroids + length codes.now.codes) ≤ load_limit }
        ensures ok { OnOk result (self.new
            ≡ record self.old { centroids = self.old.centroids ++ codes.now.codes }) }
        ensures err { OnErr result (self.new ≡ self.old) }
    {
        self.quantizer.append(codes)?;
        Ok(())
    }

    /// Appends a centroid.
    ///
    /// # Errors
    ///
    /// `Full` exactly where `nlist` centroids are held; `Memory` if memory runs out. The index is
    /// then as before.
    pub fn give_centroid(&mut self, code: &[u8]) -> Result<(), CentroidError>
        requires size { length code.now ≡ self.old.dim / 8 }
        requires load { length self.old.centroids < self.old.nlist
            → weight self.old.dim 0 (length self.old.rows) (length self.old.centroids + 1)
            ≤ load_limit }
        ensures ok { OnOk result (self.new
            ≡ record self.old { centroids = self.old.centroids ++ code.now ∷ [] }) }
        ensures full { (result ≡ Err CentroidError.Full)
            ↔ (length self.old.centroids ≡ self.old.nlist) }
        ensures err { OnErr result (self.new ≡ self.old) }
    {
        if self.held() == self.nlist() {
            return Err(CentroidError::Full);
        }
        match self.give_one(code) {
            Ok(()) => Ok(()),
            Err(_) => Err(CentroidError::Memory),
        }
    }

    fn give_one(&mut self, code: &[u8]) -> Result<(), Want>
        requires size { length code.now ≡ self.old.dim / 8 }
        requires few { length self.old.centroids < self.old.nlist }
        requires load { weight self.old.dim 0 (length self.old.rows) (length self.old.centroids + 1)
            ≤ load_limit }
        ensures ok { OnOk result (self.new
            ≡ record self.old { centroids = self.old.centroids ++ code.now ∷ [] }) }
        ensures err { OnErr result (self.new ≡ self.old) }
    {
        let mut codes = Codes::new(self.alloc, self.dim);
        codes.push(code)?;
        self.give_all(&codes)?;
        Ok(())
    }

    // Puts rows on the lists of these numbers. All room is made first, so an error leaves the index
    // as it was.
    fn put(&mut self, numbers: &[u32], labels: &[i64], codes: &Codes) -> Result<(), Want>
        requires same_labels { length labels.now ≡ length codes.now.codes }
        requires same_numbers { length numbers.now ≡ length codes.now.codes }
        requires known { All (λ n. n < self.old.nlist) numbers.now }
        requires is_trained { length self.old.centroids ≡ self.old.nlist }
        requires same_dim { codes.now.dim ≡ self.old.dim }
        requires positions { self.old.direct ≡ true
            → labels.now ≡ labels_from (length self.old.rows) (length codes.now.codes) }
        requires load { weight self.old.dim 0 (length self.old.rows + length codes.now.codes)
            (length self.old.centroids) ≤ load_limit }
        ensures ok { OnOk result (self.new ≡ record self.old {
          rows = self.old.rows
              ++ put_rows numbers.now (paired labels.now codes.now.codes);
        }) }
        ensures err { OnErr result (self.new ≡ self.old) }
    {
        self.order.reserve(0, codes.len())?;
        reserve_each(self.alloc, &mut self.lists, numbers)?;
        reserve_places(&mut self.direct, numbers.len())?;
        put_all(
            &mut self.order,
            &mut self.lists,
            &mut self.direct,
            numbers,
            labels,
            codes,
        );
        Ok(())
    }

    /// Appends rows to a named list, whatever its centroid, as a file does that was read. Their
    /// codes lie side by side. It keeps no direct map. `Want` says that memory ran out, and leaves
    /// the index as it was.
    pub fn add_in(&mut self, list: u32, labels: &[i64], codes: &[u8]) -> Result<(), Want>
        requires exists { list < self.old.nlist }
        requires whole { length codes.now ≡ length labels.now * (self.old.dim / 8) }
        requires is_trained { IsTrue (is_trained (Bare (IvfForm self.old))) }
        requires direct { self.old.direct ≡ false }
        requires load { weight self.old.dim 0 (length self.old.rows + length labels.now)
            (length self.old.centroids) ≤ load_limit }
        ensures ok { OnOk result (self.new ≡ record self.old {
          rows = self.old.rows ++ map (put_row list)
              (paired labels.now (chunks_of (self.old.dim / 8) (length labels.now) codes.now));
        }) }
        ensures err { OnErr result (self.new ≡ self.old) }
    {
        // For the proof that all centroids are held: the fields tell that there are no more than
        // lists.
        let _ = &self.quantizer;
        let count = labels.len();
        let size = self.dim.bytes();
        self.order.reserve(0, count)?;
        self.lists.reserve(list, count)?;
        put_on_one(&mut self.order, &mut self.lists, list, labels, codes, size);
        Ok(())
    }

    /// Removes the rows whose labels are chosen, and gives how many these were. The others keep
    /// their labels, their lists and their order. It does not work with a direct map.
    ///
    /// # Errors
    ///
    /// If memory runs out. The index is then as before.
    pub fn remove(&mut self, sel: &Selector) -> Result<u64, Want>
        requires direct { self.old.direct ≡ false }
        ensures ok { OnOk result
            (removed sel.now (Bare (IvfForm self.old)) ≡ Some (Bare (IvfForm self.new))) }
        ensures count { IfOk result (λ n. length self.new.rows + n ≡ length self.old.rows) }
        ensures err { OnErr result (self.new ≡ self.old) }
    {
        let count = self.order.len(0);
        let ListFlags { flags, mut starts } = flag_lists(self.alloc, &self.lists, count, sel)?;
        let order = flag_order(self.alloc, &self.order, &flags, &mut starts)?;
        // Behind their starts now stand the ends of the lists' flags. From here on nothing fails.
        keep_lists(&mut self.lists, &flags, &starts);
        self.order.keep_rows(0, &order);
        Ok((count - self.order.len(0)) as u64)
    }

    /// The quantizer, which holds the centroids in their order.
    pub fn quantizer(&self) -> &Flat<L>
        ensures { result.now ≡ record { dim = self.now.dim; codes = self.now.centroids } }
    {
        &self.quantizer
    }

    /// The bytes of centroid `i`. The meter's `lent` rises by 1.
    pub fn centroid(&self, i: u32, meter: &mut Meter<L>) -> &[u8]
        requires { i < length self.now.centroids }
        ensures code { result.now ≡ slice_index_or self.now.centroids i [] }
        ensures lent { meter.new ≡ record meter.old { lent = raised meter.old.lent 1 } }
    {
        self.quantizer.code(u64::from(i), meter)
    }

    /// The number of rows of a list.
    pub fn list_len(&self, list: u32) -> usize
        requires { list < self.now.nlist }
        ensures { result ≡ length (on_list self.now.rows list) }
    {
        self.lists.len(list)
    }

    /// Lends rows of a list from place `from` on, without copying: at least one and at most
    /// `RUN_ROWS`, which need not be all that are left. The meter's `lent` rises by their number.
    pub fn list_lend(&self, list: u32, from: usize, meter: &mut Meter<L>) -> Run<'_>
        requires exists { list < self.now.nlist }
        requires within { from < length (on_list self.now.rows list) }
        ensures run { IsRun (on_list self.now.rows list) from (self.now.dim / 8)
            result.labels.now result.codes.now }
        ensures lent { meter.new
            ≡ record meter.old { lent = raised meter.old.lent (length result.labels.now) } }
        ensures rises { meter.old.lent ≤ meter.new.lent }
    {
        self.lists.lend(list, from, meter)
    }

    /// The code of the row with a label, which the direct map finds without a walk. The meter's
    /// `lent` rises by 1.
    pub fn code_of(&self, label: u64, meter: &mut Meter<L>) -> &[u8]
        requires direct { self.now.direct ≡ true }
        requires within { label < length self.now.rows }
        ensures code { result.now ≡ code_labelled self.now.rows label }
        ensures lent { meter.new ≡ record meter.old { lent = raised meter.old.lent 1 } }
    {
        let (list, offset) = place_of(self.place(label));
        self.lists.lend_one(list, offset, meter).codes
    }

    /// The entry of a label in the direct map: the number of its row's list times 2^32, plus the
    /// row's place on that list.
    pub fn place(&self, label: u64) -> u64
        requires direct { self.now.direct ≡ true }
        requires within { label < length self.now.rows }
        ensures { IsPlaced (on_list self.now.rows) self.now.nlist label result }
    {
        entry_of(&self.direct, label)
    }

    /// Keeps a direct map from labels to rows, or gives it up, which takes no memory. A map is made
    /// in one pass over the labels.
    ///
    /// # Errors
    ///
    /// `NotSequential` exactly where a map is asked for and the labels are not the numbers below
    /// their count, each once; `Memory` if memory runs out, which may come in its place. The index
    /// is then as before.
    pub fn set_direct(&mut self, on: bool) -> Result<(), DirectError>
        ensures ok { OnOk result (self.new ≡ record self.old { direct = on }) }
        ensures err { OnErr result (self.new ≡ self.old) }
        ensures only { result ≡ Err DirectError.NotSequential
            → (on ≡ true) × ¬ IsNumbering (map (λ row. row.label) self.old.rows) }
        ensures numbered { on ≡ true
            → OnOk result (IsNumbering (map (λ row. row.label) self.old.rows)) }
        ensures off { on ≡ false → IsOk result }
    {
        if !on {
            self.direct = None;
            return Ok(());
        }
        let count = self.order.len(0);
        match map_of(self.alloc, &self.lists, count) {
            Ok(map) => {
                self.direct = Some(map);
                Ok(())
            }
            Err(error) => Err(error),
        }
    }

    /// Whether a direct map is kept.
    pub fn direct(&self) -> bool
        ensures { result ≡ self.now.direct }
    {
        self.direct.is_some()
    }

    // The lists that a query reads. It compares all centroids.
    fn probed(&self, alloc: Global, q: &[u8], meter: &mut Meter<L>) -> Result<Vec<u32>, Want>
        requires size { length q.now ≡ self.now.dim / 8 }
        requires is_trained { IsTrue (is_trained (Bare (IvfForm self.now))) }
        ensures near { IfOk result (λ lists. lists.items ≡ near self.now q.now) }
        ensures known { IfOk result (λ lists. All (λ l. l < self.now.nlist) lists.items) }
        ensures lent { OnOk result (meter.new.lent ≡ raised meter.old.lent self.now.nlist) }
        ensures lent_least { meter.old.lent ≤ meter.new.lent }
        ensures lent_most { meter.new.lent ≤ meter.old.lent + self.now.nlist }
        ensures asked { meter.new.asked ≡ meter.old.asked }
    {
        let probes = lesser(self.nprobe, self.nlist);
        let near = near_lists(
            alloc,
            &self.quantizer,
            &self.lists,
            probes,
            self.max_codes,
            q,
            meter,
        )?;
        Ok(near)
    }
}

/// A query compares all centroids, and then the rows of the lists whose centroids are nearest: the
/// first `nprobe` of them, cut behind the list with which they have `max_codes` rows. `fixed` is
/// the number of lists, and `bound` is 0. An IVF is trained where it has a centroid for each list.
impl<L: Ledger> BinaryIndex for Ivf<L> {
    type Led = L;

    ghost value = { λ i. Bare (IvfForm i) };

    fn dim(&self) -> Dim {
        // For the proof that the value is legal: these tell that centroids and rows are codes.
        let _dim = self.quantizer.dim();
        let _lists = self.lists.lists();
        self.dim
    }

    fn count(&self) -> u64 {
        self.order.len(0) as u64
    }

    fn trained(&self) -> bool {
        u64::from(self.nlist) <= self.quantizer.count()
    }

    fn fixed(&self) -> u64 {
        u64::from(self.nlist)
    }

    fn bound(&self) -> u64 {
        0
    }

    /// The `k` nearest of the rows that the query meets, by distance and then by label. No bucket
    /// is looked up, so the meter's `asked` stays.
    fn search(&self, alloc: Global, q: &[u8], k: u32, meter: &mut Meter<L>) -> Result<Hits, Want>
        requires code_size { length q.now ≡ self.now.dim / 8 }
        requires k_positive { 1 ≤ k }
        requires is_trained { IsTrue (is_trained (Bare (IvfForm self.now))) }
        ensures ok { IfOk result (λ hits. hits.items ≡ best (Bare (IvfForm self.now)) q.now k) }
        ensures lent { OnOk result (meter.new.lent
            ≡ raised meter.old.lent (looked (Bare (IvfForm self.now)) q.now)) }
        ensures lent_least { meter.old.lent ≤ meter.new.lent }
        ensures lent_most { meter.new.lent
            ≤ meter.old.lent + looked (Bare (IvfForm self.now)) q.now }
        ensures asked { meter.new.asked ≡ meter.old.asked }
    {
        let near = self.probed(alloc, q, meter)?;
        let hits = search_lists(alloc, &self.lists, &near, self.dim, q, k, meter)?;
        Ok(hits)
    }

    /// The rows that the query meets whose distance is strictly below `radius`, by distance and
    /// then by label. The meter's `asked` stays, as in `search`.
    fn range(
        &self,
        alloc: Global,
        q: &[u8],
        radius: u32,
        meter: &mut Meter<L>,
    ) -> Result<Hits, Want>
        requires code_size { length q.now ≡ self.now.dim / 8 }
        requires is_trained { IsTrue (is_trained (Bare (IvfForm self.now))) }
        ensures ok { IfOk result (λ hits. hits.items
            ≡ within (Bare (IvfForm self.now)) q.now radius) }
        ensures lent { OnOk result (meter.new.lent
            ≡ raised meter.old.lent (looked (Bare (IvfForm self.now)) q.now)) }
        ensures lent_least { meter.old.lent ≤ meter.new.lent }
        ensures lent_most { meter.new.lent
            ≤ meter.old.lent + looked (Bare (IvfForm self.now)) q.now }
        ensures asked { meter.new.asked ≡ meter.old.asked }
    {
        let near = self.probed(alloc, q, meter)?;
        let hits = range_lists(alloc, &self.lists, &near, self.dim, q, radius, meter)?;
        Ok(hits)
    }
}

/// A code goes to the end of the list of its nearest centroid. Labels are the caller's, except
/// where a direct map is kept, which every add keeps up.
impl<L: Ledger> Addable for Ivf<L> {
    fn takes_ids(&self) -> bool {
        self.direct.is_none()
    }

    fn add_all(&mut self, labels: &[i64], codes: &Codes, meter: &mut Meter<L>) -> Result<(), Want> {
        let numbers = nearest_lists(self.alloc, &self.quantizer, codes, meter)?;
        self.put(&numbers, labels, codes)?;
        Ok(())
    }
}

/// An IVF is the one whose settings these are.
impl<L: Ledger> ListSettings for Ivf<L> {
    fn set_nprobe(&mut self, n: u64) {
        self.nprobe = n;
    }

    fn set_max_codes(&mut self, n: u64) {
        self.max_codes = n;
    }

    fn give_all(&mut self, codes: &Codes) -> Result<(), Want> {
        Ivf::give_all(self, codes)?;
        Ok(())
    }

    fn set_direct(&mut self, on: bool) -> Result<(), DirectError> {
        match Ivf::set_direct(self, on) {
            Ok(()) => Ok(()),
            Err(error) => Err(error),
        }
    }
}

// The number of lists that a query looks into.
fn lesser(nprobe: u64, nlist: u32) -> u32
    ensures { result ≡ min nprobe nlist }
{
    nprobe.min(u64::from(nlist)) as u32
}

// A pool of `n` empty lists.
fn open_lists<L: Ledger>(alloc: Global, dim: Dim, n: u32) -> Result<Pool<L>, Want>
    requires { n ≤ 4194304 }
    ensures { IfOk result (λ p. p
        ≡ record { code_size = dim.bits / 8; lists = replicate n no_list; free = 0 }) }
{
    let mut lists = Pool::new(alloc, dim.bytes());
    for _ in 0..n {
        lists.open_list()?;
    }
    Ok(lists)
}
