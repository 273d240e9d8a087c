ghost use Rattle.std.specs.Prelude.{◌≡◌, ◌+◌, ◌*◌, ◌/◌, ◌^◌, ◌<◌, ◌≤◌, [], ◌++◌, length, map};
ghost use Rattle.std.specs.Prelude.{slice_index_or, Some, IfOk, OnOk, OnErr};
ghost use Rattle.std.specs.List.{items_where_true};
ghost use Rattle.bcodes.specs.Chunks.{chunks_of};
ghost use Rattle.bcodes.specs.Ranges.{load_limit, raised};
ghost use Rattle.bcodes.specs.Value.{Flat as FlatForm, Bare, labels_from, numbered, weight};
ghost use Rattle.bcodes.specs.Answers.{best, looked, within};
ghost use Rattle.code_pool.specs.Lists.{IsRun, list_at};
ghost use Rattle.id_select.specs.Removal.{removed, stays};

use bcodes::{Addable, BinaryIndex, Codes, Dim, Hits, Ledger, Meter, Want};
use code_pool::{Pool, Run};
use hit_lists::{BestK, RangeHits};
use id_select::{KeepPositions, Selector};
use kernel_table::Prepared;
use list_scan::{offer_list, offer_list_below, room_for_scan};
use std::alloc::Global;
use std::marker::Model;

/// An index of codes under their positions 0, 1, 2 and so on, Faiss's `IndexBinaryFlat`
/// (`IndexBinaryFlat.h`).
///
/// It is seen as a list of codes of `dim` bits. Every query compares every code, so no answer
/// misses one. The codes stand on list 0 of a pool over the ledger `L`, and are read under the
/// caller's meter alone. The index never exceeds the load limit.
#[derive(Drop)]
pub struct Flat<L: Ledger> {
    alloc: Global,
    dim: Dim,
    pool: Pool<L>,
}

impl<L: Ledger> Model for Flat<L> {
    ghost use Rattle.bcodes.specs.Value.{CodeList};
    ghost use Rattle.flat_index.specs.Inside.{codes_in, IsFlat};

    ghost Value = { CodeList };

    ghost view = { λ f. record { dim = f.dim.bits; codes = codes_in f.pool } };

    ghost invariant = { λ f. IsFlat f.dim.bits f.pool };
}

impl<L: Ledger> Flat<L> {
    /// An index of codes of `dim` bits, without any yet. `Want` says that memory ran out.
    pub fn new(alloc: Global, dim: Dim) -> Result<Flat<L>, Want>
        ensures { IfOk result (λ f. f ≡ record { dim = dim.bits; codes = [] }) }
    {
        let mut pool = Pool::new(alloc, dim.bytes());
        pool.open_list()?;
        Ok(Flat { alloc, dim, pool })
    }

    /// The bytes of the code at position `p`, which is its inner label. The meter's `lent` rises by
    /// 1.
    pub fn code(&self, p: u64, meter: &mut Meter<L>) -> &[u8]
        requires { p < length self.now.codes }
        ensures code { result.now ≡ slice_index_or self.now.codes p [] }
        ensures lent { meter.new ≡ record meter.old { lent = raised meter.old.lent 1 } }
    {
        self.pool.lend_one(0, p as usize, meter).codes
    }

    /// Lends codes from position `from` on, without copying: at least one and at most `RUN_ROWS`,
    /// which need not be all that are left. The meter's `lent` rises by their number.
    pub fn lend(&self, from: u64, meter: &mut Meter<L>) -> Run<'_>
        requires { from < length self.now.codes }
        ensures run { IsRun (numbered 0 self.now.codes) from (self.now.dim / 8)
            result.labels.now result.codes.now }
        ensures lent { meter.new
            ≡ record meter.old { lent = raised meter.old.lent (length result.labels.now) } }
        ensures rises { meter.old.lent ≤ meter.new.lent }
    {
        self.pool.lend(0, from as usize, meter)
    }

    /// Appends all codes under the positions that follow, as `add_all` does but without a meter.
    /// `Want` says that memory ran out, and leaves the index as it was.
    pub fn append(&mut self, codes: &Codes) -> Result<(), Want>
        requires same_dim { codes.now.dim ≡ self.old.dim }
        requires load { weight self.old.dim 0 (length self.old.codes + length codes.now.codes) 0
            ≤ load_limit }
        ensures ok { OnOk result (self.new
            ≡ record self.old { codes = self.old.codes ++ codes.now.codes }) }
        ensures err { OnErr result (self.new ≡ self.old) }
    {
        let count = self.pool.len(0);
        self.pool.reserve(0, codes.len())?;
        append_all(&mut self.pool, count, codes);
        Ok(())
    }

    /// Appends the `n` codes that lie side by side in `bytes`, under the positions that follow.
    /// `Want` says that memory ran out, and leaves the index as it was.
    pub fn append_bytes(&mut self, n: usize, bytes: &[u8]) -> Result<(), Want>
        requires whole { length bytes.now ≡ n * (self.old.dim / 8) }
        requires load { weight self.old.dim 0 (length self.old.codes + n) 0 ≤ load_limit }
        ensures ok { OnOk result (self.new ≡ record self.old {
          codes = self.old.codes ++ chunks_of (self.old.dim / 8) n bytes.now;
        }) }
        ensures err { OnErr result (self.new ≡ self.old) }
    {
        let count = self.pool.len(0);
        self.pool.reserve(0, n)?;
        append_all_bytes(&mut self.pool, count, self.dim.bytes(), n, bytes);
        Ok(())
    }

    /// Removes the codes whose positions are chosen, and gives how many these were. The others take
    /// the positions 0, 1, 2 and so on, in their order.
    ///
    /// # Errors
    ///
    /// If memory runs out. The index is then as before.
    pub fn remove(&mut self, sel: &Selector) -> Result<u64, Want>
        ensures ok { OnOk result
            (removed sel.now (Bare (FlatForm self.old)) ≡ Some (Bare (FlatForm self.new))) }
        ensures count { IfOk result (λ n. length self.new.codes + n ≡ length self.old.codes) }
        ensures err { OnErr result (self.new ≡ self.old) }
    {
        let count = self.count();
        let flags = position_flags(self.alloc, sel, count)?;
        Flat::keep(self, &flags);
        Ok(count - self.count())
    }

    /// Keeps the codes whose flags are true. They take the positions 0, 1, 2 and so on, in their
    /// order. It takes no memory.
    pub fn keep(&mut self, flags: &[bool])
        requires { length flags.now ≡ length self.old.codes }
        ensures { self.new
            ≡ record self.old { codes = items_where_true flags.now self.old.codes } }
    {
        self.pool.keep_rows(0, flags);
        self.pool.number_rows(0);
    }
}

/// Codes are compared in the order of their positions. A query compares no centroids and probes
/// every code whatever its distance, so `fixed` and `bound` are 0. A Flat index is trained from the
/// start.
impl<L: Ledger> BinaryIndex for Flat<L> {
    type Led = L;

    ghost value = { λ f. Bare (FlatForm f) };

    fn dim(&self) -> Dim {
        // For the proof that the value is legal: the pool tells that the rows' codes are bytes.
        let _count = self.pool.len(0);
        self.dim
    }

    fn count(&self) -> u64 {
        self.pool.len(0) as u64
    }

    fn trained(&self) -> bool {
        true
    }

    fn fixed(&self) -> u64 {
        0
    }

    fn bound(&self) -> u64 {
        0
    }

    /// The `k` nearest codes, by distance and then by position. No bucket is looked up, so the
    /// meter's `asked` stays.
    fn search(&self, alloc: Global, q: &[u8], k: u32, meter: &mut Meter<L>) -> Result<Hits, Want>
        requires size { length q.now ≡ self.now.dim / 8 }
        requires some { 1 ≤ k }
        ensures ok { IfOk result (λ hits. hits.items ≡ best (Bare (FlatForm self.now)) q.now k) }
        ensures lent { OnOk result (meter.new.lent
            ≡ raised meter.old.lent (looked (Bare (FlatForm self.now)) q.now)) }
        ensures lent_least { meter.old.lent ≤ meter.new.lent }
        ensures lent_most { meter.new.lent
            ≤ meter.old.lent + looked (Bare (FlatForm self.now)) q.now }
        ensures asked { meter.new.asked ≡ meter.old.asked }
    {
        let count = self.pool.len(0);
        let kernel = Prepared::new(self.dim, q);
        let mut best = BestK::new(alloc, self.dim, k, count as u64)?;
        let mut distances = room_for_scan(alloc, count)?;
        offer_list(&self.pool, 0, &mut best, &kernel, &mut distances, meter);
        Ok(best.into_hits())
    }

    /// The codes whose distance is strictly below `radius`, by distance and then by position. The
    /// meter's `asked` stays, as in `search`.
    fn range(
        &self,
        alloc: Global,
        q: &[u8],
        radius: u32,
        meter: &mut Meter<L>,
    ) -> Result<Hits, Want>
        requires size { length q.now ≡ self.now.dim / 8 }
        ensures ok { IfOk result (λ hits. hits.items
            ≡ within (Bare (FlatForm self.now)) q.now radius) }
        ensures lent { OnOk result (meter.new.lent
            ≡ raised meter.old.lent (looked (Bare (FlatForm self.now)) q.now)) }
        ensures lent_least { meter.old.lent ≤ meter.new.lent }
        ensures lent_most { meter.new.lent
            ≤ meter.old.lent + looked (Bare (FlatForm self.now)) q.now }
        ensures asked { meter.new.asked ≡ meter.old.asked }
    {
        let count = self.pool.len(0);
        let kernel = Prepared::new(self.dim, q);
        let mut found = RangeHits::new(alloc);
        let mut distances = room_for_scan(alloc, count)?;
        offer_list_below(
            &self.pool,
            0,
            &mut found,
            radius,
            &kernel,
            &mut distances,
            meter,
        )?;
        Ok(found.into_hits())
    }
}

/// A code's inner label is its position, so the caller chooses none. `add_all` is `append`.
impl<L: Ledger> Addable for Flat<L> {
    fn takes_ids(&self) -> bool {
        false
    }

    fn add_all(
        &mut self,
        labels: &[i64],
        codes: &Codes,
        _meter: &mut Meter<L>,
    ) -> Result<(), Want> {
        self.append(codes)?;
        Ok(())
    }
}

/// Codes leave by their positions, as with `Flat::keep`.
impl<L: Ledger> KeepPositions for Flat<L> {
    fn keep(&mut self, flags: &[bool]) {
        Flat::keep(self, flags);
    }
}

// A flag for each of the first `count` positions, true for those that are not chosen.
fn position_flags(alloc: Global, sel: &Selector, count: u64) -> Result<Vec<bool>, Want>
    requires { count < 2 ^ 63 }
    ensures { IfOk result (λ flags. flags.items ≡ map (stays sel.now) (labels_from 0 count)) }
{
    let mut flags = Vec::with_capacity(alloc, count as usize)?;
    for position in 0..count {
        flags.push_reserved(!sel.has(position as i64));
    }
    Ok(flags)
}

// Appends codes under their positions to list 0, which has `count` rows and room for the codes.
fn append_all<L: Ledger>(pool: &mut Pool<L>, count: usize, codes: &Codes)
    requires one { 0 < length pool.old.lists }
    requires count { count ≡ length (list_at pool.old 0).rows }
    requires few { count + length codes.now.codes < 2 ^ 31 }
    requires size { pool.old.code_size ≡ codes.now.dim / 8 }
    requires room { length codes.now.codes ≤ (list_at pool.old 0).spare }
    ensures rows { (list_at pool.new 0).rows
        ≡ (list_at pool.old 0).rows ++ numbered count codes.now.codes }
    ensures lists { length pool.new.lists ≡ length pool.old.lists }
    ensures size { pool.new.code_size ≡ pool.old.code_size }
{
    for i in 0..codes.len() {
        pool.push(0, (count + i) as i64, codes.get(i));
    }
}

// The most codes that are appended at a time. Their labels stand on the stack.
const PART_ROWS: usize = 256;

// Appends n codes of `size` bytes that lie side by side, under their positions, to list 0, which
// has `count` rows and room for the codes.
fn append_all_bytes<L: Ledger>(
    pool: &mut Pool<L>,
    count: usize,
    size: usize,
    n: usize,
    bytes: &[u8],
)
    requires one { 0 < length pool.old.lists }
    requires count { count ≡ length (list_at pool.old 0).rows }
    requires few { count + n < 2 ^ 31 }
    requires size { pool.old.code_size ≡ size }
    requires some { 1 ≤ size }
    requires whole { length bytes.now ≡ n * size }
    requires room { n ≤ (list_at pool.old 0).spare }
    ensures rows { (list_at pool.new 0).rows
        ≡ (list_at pool.old 0).rows ++ numbered count (chunks_of size n bytes.now) }
    ensures lists { length pool.new.lists ≡ length pool.old.lists }
    ensures size { pool.new.code_size ≡ pool.old.code_size }
{
    let mut labels = [0; PART_ROWS];
    let mut done = 0;
    while done < n {
        let more = (n - done).min(PART_ROWS);
        let part = &mut labels[..more];
        count_up(part, count + done);
        let codes = &bytes[done * size..(done + more) * size];
        pool.push_run(
            0,
            Run {
                labels: part,
                codes,
            },
        );
        done += more;
    }
}

// Fills a slice with the numbers from `first` on.
fn count_up(labels: &mut [i64], first: usize)
    requires { first + length labels.old < 2 ^ 63 }
    ensures { labels.new ≡ labels_from first (length labels.old) }
{
    for (i, label) in labels.iter_mut().enumerate() {
        *label = (first + i) as i64;
    }
}
