ghost use Rattle.std.specs.Prelude.{◌≡◌, ℕ, ◌+◌, ◌*◌, ◌/◌, ◌^◌, ◌<◌, ◌≤◌, [], ◌∷◌, ◌++◌, length};
ghost use Rattle.std.specs.Prelude.{map, take, drop, slice_set, IsOk, IfOk, OnOk, OnErr, sum_by};
ghost use Rattle.std.specs.List.{All};
ghost use Rattle.bcodes.specs.Ranges.{raised};
ghost use Rattle.code_pool.specs.Lists.{IsPart, IsPoolRow, IsReserved, IsRun, IsTaken, blocks_of};
ghost use Rattle.code_pool.specs.Lists.{further, label_of, list_at, no_list, row_at, rows_in};
ghost use Rattle.code_pool.specs.Lists.{with_kept, with_list, with_row, with_rows, with_spare};
ghost use Rattle.code_pool.specs.Lists.{cut_to, given, taken};
ghost use Rattle.code_pool.specs.Positions.{with_positions};

use crate::blocks::{BLOCK_ROWS, Blocks, MOST_BLOCKS};
use crate::keep::move_kept;
use crate::number::number_list;
use crate::room::Room;
use crate::rows::Rows;
use crate::run::Run;
use crate::walk::Walk;
use bcodes::{Ledger, Meter, Want};
use std::alloc::Global;
use std::marker::{Model, PhantomData};

/// Lists of rows, each a label and a code of `code_size` bytes, whose codes are counted as they are
/// read.
///
/// A list goes by its number; lists are numbered from 0 in the order in which they are opened. A
/// list has room for `spare` more rows, and a row is pushed only into such room. A pool does the
/// work of Faiss's `InvertedLists` (`invlists/InvertedLists.h`), of its hash buckets and of its
/// arrays of codes.
///
/// All rows stand in one region, in blocks of 4 rows. A block belongs to one list or is free, and a
/// block that a list gives back serves any other. No list has a table of its own: as far as its
/// blocks stand side by side from the first on, each is found at once, and any other from the last
/// block in a number of steps logarithmic in the length of the list. A `walk` over a whole list
/// takes a number of steps linear in its length.
///
/// The only way to a stored code is to borrow it by `lend`, by `lend_one` or by `lend` of a `walk`,
/// all of which raise the meter's `lent`. A pool holds no value of its ledger `L`, so it cannot make
/// a meter of its own.
#[derive_where(Debug)]
pub struct Pool<L: Ledger> {
    rows: Rows,
    blocks: Blocks,
    ledger: PhantomData<L>,
}

// Written out, so that it is proved here once and not again wherever one is dropped.
impl<L: Ledger> Drop for Pool<L> {
    fn drop(self) {
        let Pool {
            rows: _rows,
            blocks: _blocks,
            ledger: _ledger,
        } = self;
    }
}

impl<L: Ledger> Model for Pool<L> {
    ghost use Rattle.code_pool.specs.Lists.{PoolLists};
    ghost use Rattle.code_pool.specs.Inside.{IsPool, pool_in};

    ghost Value = { PoolLists };

    ghost view = { λ p. pool_in p.rows p.blocks };

    ghost invariant = { λ p. IsPool p.rows p.blocks };
}

impl<L: Ledger> Pool<L> {
    /// A pool without lists, for codes of `code_size` bytes. A size of 0 makes lists of labels
    /// alone. It takes no memory.
    pub fn new(alloc: Global, code_size: usize) -> Pool<L>
        requires { code_size ≤ 8192 }
        ensures { result ≡ record { code_size = code_size; lists = []; free = 0 } }
    {
        Pool {
            rows: Rows::new(alloc, code_size),
            blocks: Blocks::new(alloc),
            ledger: PhantomData,
        }
    }

    /// The number of lists.
    pub fn lists(&self) -> u32
        ensures value { result ≡ length self.now.lists }
        ensures few { result ≤ 2 ^ 31 }
        ensures rows { (list : ℕ)
            → All (IsPoolRow self.now.code_size) (list_at self.now list).rows }
    {
        let _rows = self.rows.len();
        self.blocks.lists() as u32
    }

    /// Opens an empty list, and gives its number. `Want` says that memory ran out, and leaves the
    /// pool as it was.
    pub fn open_list(&mut self) -> Result<u32, Want>
        requires { length self.old.lists < 2 ^ 31 }
        ensures number { IfOk result (λ list. list ≡ length self.old.lists) }
        ensures ok { OnOk result (self.new
            ≡ record self.old { lists = self.old.lists ++ no_list ∷ [] }) }
        ensures err { OnErr result (self.new ≡ self.old) }
    {
        let list = self.blocks.lists() as u32;
        self.blocks.open()?;
        Ok(list)
    }

    /// How many blocks the lists have, and how many are free.
    pub fn room(&self) -> Room
        ensures used { result.used ≡ sum_by blocks_of self.now.lists }
        ensures free { result.free ≡ self.now.free }
    {
        let free = self.blocks.free();
        Room {
            used: (self.blocks.all() - free) as u64,
            free: free as u64,
        }
    }

    /// The number of blocks that a list has.
    pub fn blocks(&self, list: u32) -> u64
        requires { list < length self.now.lists }
        ensures value { result ≡ blocks_of (list_at self.now list) }
        ensures whole { 4 * result
            ≡ length (list_at self.now list).rows + (list_at self.now list).spare }
    {
        self.blocks.count(list) as u64
    }

    /// Makes room for at least `n` more rows of a list.
    ///
    /// It takes the blocks that are missing, free ones first; where those suffice it takes no
    /// memory and succeeds. `Want` says that memory ran out, and leaves the pool as it was.
    pub fn reserve(&mut self, list: u32, n: usize) -> Result<(), Want>
        requires exists { list < length self.old.lists }
        requires few { length (list_at self.old list).rows + n < 2 ^ 31 }
        ensures ok { OnOk result (IsReserved self.old self.new list n) }
        ensures blocks { OnOk result (IsTaken self.old self.new list n) }
        ensures within { further (list_at self.old list) n ≤ self.old.free → IsOk result }
        ensures err { OnErr result (self.new ≡ self.old) }
    {
        let wanted = blocks_for(self.len(list) + n);
        let needed = wanted.saturating_sub(self.blocks(list) as usize);
        let again = needed.min(self.room().free as usize);
        self.add_blocks(list, needed - again)?;
        self.take_blocks(list, again);
        Ok(())
    }

    // Gives a list n new blocks. All tables grow before any block is given, so that an error leaves
    // the lists as they were.
    fn add_blocks(&mut self, list: u32, n: usize) -> Result<(), Want>
        requires exists { list < length self.old.lists }
        requires few { n ≤ 2 ^ 31 }
        ensures ok { OnOk result (self.new ≡ with_spare self.old list (4 * n)) }
        ensures none { n ≡ 0 → IsOk result }
        ensures err { OnErr result (self.new ≡ self.old) }
    {
        let all = self.blocks.all() + n;
        if all > MOST_BLOCKS {
            return Err(Want);
        }
        let rows = (all * BLOCK_ROWS).max(self.rows.len());
        self.rows.grow(rows)?;
        self.blocks.grow(list, n)?;
        Ok(())
    }

    // Gives a list a free block.
    fn take_block(&mut self, list: u32)
        requires exists { list < length self.old.lists }
        requires some { 0 < self.old.free }
        ensures { self.new ≡ taken self.old list 1 }
    {
        self.blocks.take(list);
    }

    // Gives a list n free blocks.
    fn take_blocks(&mut self, list: u32, n: usize)
        requires exists { list < length self.old.lists }
        requires some { n ≤ self.old.free }
        ensures { self.new ≡ taken self.old list n }
    {
        for taken in 0..n {
            self.take_block(list);
        }
    }

    // Takes a block from a list, which then is free.
    fn give_block(&mut self, list: u32)
        requires exists { list < length self.old.lists }
        requires spare { 4 ≤ (list_at self.old list).spare }
        ensures { self.new ≡ given self.old list 1 }
    {
        self.blocks.give(list);
    }

    // Takes n blocks from a list, which then are free.
    fn give_blocks(&mut self, list: u32, n: u64)
        requires exists { list < length self.old.lists }
        requires spare { 4 * n ≤ (list_at self.old list).spare }
        ensures { self.new ≡ given self.old list n }
    {
        for given in 0..n {
            self.give_block(list);
        }
    }

    // Leaves the first `len` rows of a list.
    fn cut(&mut self, list: u32, len: usize)
        requires exists { list < length self.old.lists }
        requires within { len ≤ length (list_at self.old list).rows }
        ensures { self.new ≡ with_list self.old list (cut_to (list_at self.old list) len) }
    {
        self.blocks.set_len(list, len);
    }

    /// Appends a row to a list that has room for it. It takes no memory.
    pub fn push(&mut self, list: u32, label: i64, code: &[u8])
        requires exists { list < length self.old.lists }
        requires room { 0 < (list_at self.old list).spare }
        requires size { length code.now ≡ self.old.code_size }
        ensures { self.new ≡ with_list self.old list
            (with_row (list_at self.old list) (record { label = label; code = code.now })) }
    {
        let at = self.blocks.add_row(list);
        self.rows.write(at, label, code);
    }

    /// Appends the rows of a run to a list that has room for them, as `push` does one by one. It
    /// takes no memory.
    pub fn push_run(&mut self, list: u32, run: Run<'_>)
        requires exists { list < length self.old.lists }
        requires room { length run.labels.now ≤ (list_at self.old list).spare }
        requires whole { length run.codes.now ≡ length run.labels.now * self.old.code_size }
        ensures { self.new ≡ with_list self.old list (with_rows (list_at self.old list)
            (rows_in self.old.code_size run.entry.labels.now run.entry.codes.now)) }
    {
        let mut done = 0;
        while done < run.labels.len() {
            done += self.push_part(list, run, done);
        }
    }

    // Appends rows of a run to a list, from place `from` of the run on: as many as stand side by
    // side with the next row of the list. It gives their number.
    fn push_part(&mut self, list: u32, run: Run<'_>, from: usize) -> usize
        requires exists { list < length self.old.lists }
        requires from { from < length run.labels.now }
        requires room { length run.labels.now ≤ from + (list_at self.old list).spare }
        requires whole { length run.codes.now ≡ length run.labels.now * self.old.code_size }
        ensures some { 1 ≤ result }
        ensures within { from + result ≤ length run.entry.labels.now }
        ensures rows { self.new ≡ with_list self.old list (with_rows (list_at self.old list)
            (take result (drop from
            (rows_in self.old.code_size run.entry.labels.now run.entry.codes.now)))) }
    {
        let stretch = self.blocks.add_rows(list, run.labels.len() - from);
        self.rows
            .write_run(stretch.from, run.part(from, stretch.rows));
        stretch.rows
    }

    /// The number of rows of a list.
    pub fn len(&self, list: u32) -> usize
        requires { list < length self.now.lists }
        ensures value { result ≡ length (list_at self.now list).rows }
        ensures rows { All (IsPoolRow self.now.code_size) (list_at self.now list).rows }
    {
        let _rows = self.rows.len();
        self.blocks.len(list)
    }

    /// Lends rows of a list from place `from` on, without copying: at least one and at most
    /// `RUN_ROWS`, which need not be all that are left. The meter's `lent` rises by their number.
    pub fn lend(&self, list: u32, from: usize, meter: &mut Meter<L>) -> Run<'_>
        requires exists { list < length self.now.lists }
        requires within { from < length (list_at self.now list).rows }
        ensures run { IsRun (list_at self.now list).rows from self.now.code_size
            result.labels.now result.codes.now }
        ensures lent { meter.new
            ≡ record meter.old { lent = raised meter.old.lent (length result.labels.now) } }
        ensures rises { meter.old.lent ≤ meter.new.lent }
    {
        let part = self.blocks.stretch(list, from);
        let run = self.rows.run(part.from, part.rows);
        meter.raise_lent(run.labels.len() as u64);
        run
    }

    /// Lends the row at place `at` of a list. The meter's `lent` rises by 1.
    pub fn lend_one(&self, list: u32, at: usize, meter: &mut Meter<L>) -> Run<'_>
        requires exists { list < length self.now.lists }
        requires within { at < length (list_at self.now list).rows }
        ensures label { result.labels.now ≡ (row_at (list_at self.now list) at).label ∷ [] }
        ensures code { result.codes.now ≡ (row_at (list_at self.now list) at).code }
        ensures lent { meter.new ≡ record meter.old { lent = raised meter.old.lent 1 } }
        ensures rises { meter.old.lent ≤ meter.new.lent }
    {
        let place = self.blocks.place(list, at);
        meter.raise_lent(1);
        self.rows.run(place, 1)
    }

    /// Labels of a list from place `from` on: at least one, which need not be all that are left. No
    /// code is read, so there is no meter.
    pub fn labels(&self, list: u32, from: usize) -> &[i64]
        requires exists { list < length self.now.lists }
        requires within { from < length (list_at self.now list).rows }
        ensures { IsPart (map label_of (list_at self.now list).rows) from result.now }
    {
        let part = self.blocks.stretch(list, from);
        self.rows.labels(part.from, part.rows)
    }

    /// A walk over the rows of a list, from the first on.
    pub fn walk(&self, list: u32) -> Walk<'_, L>
        requires { list < length self.now.lists }
        ensures { result ≡ record {
          code_size = self.now.code_size;
          rows = (list_at self.now list).rows;
          at = 0;
        } }
    {
        Walk::new(&self.rows, &self.blocks, list)
    }

    /// Keeps the rows of a list whose flags are true, in their order, and frees the blocks that
    /// these do not need. It takes no memory.
    pub fn keep_rows(&mut self, list: u32, keep: &[bool])
        requires exists { list < length self.old.lists }
        requires flags { length keep.now ≡ length (list_at self.old list).rows }
        ensures lists { self.new.lists
            ≡ slice_set self.old.lists list (with_kept (list_at self.old list) keep.now) }
        ensures code_size { self.new.code_size ≡ self.old.code_size }
        ensures free { self.new.free + blocks_of (list_at self.new list)
            ≡ self.old.free + blocks_of (list_at self.old list) }
    {
        let kept = move_kept(&mut self.rows, &self.blocks, list, keep);
        self.cut(list, kept);
        let needed = blocks_for(kept) as u64;
        self.give_blocks(list, self.blocks(list) - needed);
    }

    /// Gives the rows of a list the labels 0, 1, 2 and so on, in their order. It takes no memory.
    pub fn number_rows(&mut self, list: u32)
        requires { list < length self.old.lists }
        ensures { self.new ≡ with_list self.old list (with_positions (list_at self.old list)) }
    {
        number_list(&mut self.rows, &self.blocks, list);
    }

    /// Empties a list and frees its blocks. The list stays open. It takes no memory.
    pub fn give_back(&mut self, list: u32)
        requires { list < length self.old.lists }
        ensures lists { self.new.lists ≡ slice_set self.old.lists list no_list }
        ensures code_size { self.new.code_size ≡ self.old.code_size }
        ensures free { self.new.free ≡ self.old.free + blocks_of (list_at self.old list) }
    {
        self.cut(list, 0);
        self.give_blocks(list, self.blocks(list));
    }

    /// Empties every list and frees all blocks. The lists stay open. It takes no memory.
    pub fn clear(&mut self)
        ensures lists { self.new.lists ≡ map (λ _. no_list) self.old.lists }
        ensures code_size { self.new.code_size ≡ self.old.code_size }
        ensures free { self.new.free ≡ self.old.free + sum_by blocks_of self.old.lists }
    {
        for list in 0..self.lists() {
            self.give_back(list);
        }
    }
}

// The number of blocks that rows need.
fn blocks_for(rows: usize) -> usize
    ensures { result ≡ (rows + 3) / 4 }
{
    rows / BLOCK_ROWS + usize::from(rows % BLOCK_ROWS > 0)
}
