ghost use Rattle.std.specs.Prelude.{◌≡◌, ◌+◌, ◌-◌, ◌*◌, ◌/◌, ◌<◌, ◌≤◌, ◌^◌, ◌∷◌, ◌++◌, [], length};
ghost use Rattle.std.specs.Prelude.{slice_index, IsOk, IsTrue, OnOk, OnErr, sum_by, ◌↔◌, ◌⊎◌};
ghost use Rattle.code_pool.specs.Lists.{run_rows};
ghost use Rattle.code_pool.specs.Chains.{GoesOn, IsAhead, IsApart, IsFront, IsLongest, IsStretch};
ghost use Rattle.code_pool.specs.Chains.{IsTied};
ghost use Rattle.code_pool.specs.Chains.{chain_at};
ghost use Rattle.code_pool.specs.Chains.{count_of, empty_chain, list_of, place_of, with_len};
ghost use Rattle.code_pool.specs.Chains.{with_moved, with_new};

use crate::ahead::{AHEAD_BLOCKS, Ahead};
use crate::beside::Beside;
use crate::chain::Chain;
use crate::front::Front;
use crate::run::RUN_ROWS;
use crate::stretch::Stretch;
use crate::tables::Tables;
use std::alloc::{AllocError, Global};
use std::marker::Model;

/// The rows of a block.
pub const BLOCK_ROWS: usize = 4;

/// The most blocks that there can be.
pub const MOST_BLOCKS: usize = 4_294_967_294;

/// Blocks by their numbers, each of one chain: that of a list, or the chain of the free blocks.
///
/// Clauses see each chain as the numbers of its blocks. A list also keeps its front, and where it
/// has room for a row the block where its next row goes.
#[derive(Debug, Drop)]
pub struct Blocks {
    tables: Tables,
    free: Chain,
    lists: Vec<Chain>,
    next: Vec<u32>,
    fronts: Vec<Front>,
}

impl Model for Blocks {
    ghost use Rattle.std.specs.Prelude.{◌∷◌, length, map};
    ghost use Rattle.code_pool.specs.Chains.{BlockChains};
    ghost use Rattle.code_pool.specs.Linked.{held_by, IsIndexed};

    ghost Value = { BlockChains };

    ghost view = { λ b. record {
      all = length b.tables.before.items;
      chains = map (held_by b.tables.before.items) (b.free ∷ b.lists.items);
    } };

    ghost invariant = { λ b. IsIndexed b.tables.before.items b.tables.jump.items
        b.tables.place.items (b.free ∷ b.lists.items) b.next.items b.fronts.items };
}

impl Blocks {
    /// No blocks and no lists. It takes no memory.
    pub fn new(alloc: Global) -> Blocks
        ensures { result ≡ record { all = 0; chains = empty_chain ∷ [] } }
    {
        Blocks {
            tables: Tables {
                before: Vec::new(alloc),
                jump: Vec::new(alloc),
                place: Vec::new(alloc),
            },
            free: Chain::EMPTY,
            lists: Vec::new(alloc),
            next: Vec::new(alloc),
            fronts: Vec::new(alloc),
        }
    }

    /// The number of lists.
    pub fn lists(&self) -> usize
        ensures value { result + 1 ≡ length self.now.chains }
        ensures few { result ≤ 2 ^ 31 }
        ensures apart { IsApart self.now }
    {
        self.lists.len()
    }

    /// Opens an empty list. An error leaves all as it was.
    pub fn open(&mut self) -> Result<(), AllocError>
        requires { length self.old.chains ≤ 2 ^ 31 }
        ensures ok { OnOk result (self.new
            ≡ record self.old { chains = self.old.chains ++ empty_chain ∷ [] }) }
        ensures err { OnErr result (self.new ≡ self.old) }
    {
        self.next.reserve(1)?;
        self.fronts.reserve(1)?;
        self.lists.push(Chain::EMPTY)?;
        self.next.push_reserved(0);
        self.fronts.push_reserved(Front::NONE);
        Ok(())
    }

    /// The number of all blocks.
    pub fn all(&self) -> usize
        ensures value { result ≡ self.now.all }
        ensures few { result ≤ 4294967294 }
        ensures total { sum_by count_of self.now.chains ≡ self.now.all }
        ensures apart { IsApart self.now }
    {
        self.tables.before.len()
    }

    /// The number of free blocks.
    pub fn free(&self) -> usize
        ensures { result ≡ length (chain_at self.now 0).blocks }
    {
        self.free.blocks as usize
    }

    /// The number of blocks of a list.
    pub fn count(&self, list: u32) -> usize
        requires { list + 1 < length self.now.chains }
        ensures { result ≡ length (list_of self.now list).blocks }
    {
        self.lists[list as usize].blocks as usize
    }

    /// The number of rows of a list.
    pub fn len(&self, list: u32) -> usize
        requires { list + 1 < length self.now.chains }
        ensures value { result ≡ (list_of self.now list).len }
        ensures apart { IsApart self.now }
    {
        self.lists[list as usize].len
    }

    /// Gives a list another number of rows.
    pub fn set_len(&mut self, list: u32, len: usize)
        requires { list + 1 < length self.old.chains }
        ensures { self.new ≡ with_len self.old list len }
    {
        let next = self.block_at(list, len / BLOCK_ROWS);
        self.next[list as usize] = next;
        let chain = &mut self.lists[list as usize];
        chain.len = len;
    }

    /// Counts one more row of a list, in the room that it has, and gives its place among the rows
    /// of all blocks.
    pub fn add_row(&mut self, list: u32) -> usize
        requires exists { list + 1 < length self.old.chains }
        requires room { (list_of self.old list).len < 4 * length (list_of self.old list).blocks }
        ensures place { result ≡ place_of (list_of self.old list).blocks
            (list_of self.old list).len }
        ensures chains { self.new ≡ with_len self.old list ((list_of self.old list).len + 1) }
        ensures apart { IsApart self.old }
    {
        let len = self.len(list);
        let block = self.next[list as usize];
        let next = self.block_behind(list, len, block);
        self.next[list as usize] = next;
        let chain = &mut self.lists[list as usize];
        chain.len = len + 1;
        block as usize * BLOCK_ROWS + len % BLOCK_ROWS
    }

    /// Counts as many of n more rows of a list as stand side by side with its next row, in the
    /// room that it has, and gives where they stand.
    pub fn add_rows(&mut self, list: u32, n: usize) -> Stretch
        requires exists { list + 1 < length self.old.chains }
        requires some { 1 ≤ n }
        requires room { (list_of self.old list).len + n
            ≤ 4 * length (list_of self.old list).blocks }
        ensures some { 1 ≤ result.rows }
        ensures most { result.rows ≤ n }
        ensures beside { IsStretch (list_of self.old list).blocks (list_of self.old list).len
            result.from result.rows }
        ensures chains { self.new
            ≡ with_len self.old list ((list_of self.old list).len + result.rows) }
        ensures apart { IsApart self.old }
    {
        let len = self.len(list);
        let block = self.next[list as usize];
        let most = n / BLOCK_ROWS + 2;
        let beside = self.side_by_side(list, len / BLOCK_ROWS, block, most);
        let before = len % BLOCK_ROWS;
        let rows = (beside.count * BLOCK_ROWS - before).min(n);
        self.set_len(list, len + rows);
        Stretch {
            from: beside.first * BLOCK_ROWS + before,
            rows,
        }
    }

    // The block of row `at + 1` of a list, where it has one, by that of row `at`.
    fn block_behind(&self, list: u32, at: usize, block: u32) -> u32
        requires exists { list + 1 < length self.now.chains }
        requires within { at / 4 < length (list_of self.now list).blocks }
        requires here { block ≡ slice_index (list_of self.now list).blocks (at / 4) }
        ensures { (at + 1) / 4 < length (list_of self.now list).blocks
            → result ≡ slice_index (list_of self.now list).blocks ((at + 1) / 4) }
    {
        let place = at / BLOCK_ROWS;
        if at % BLOCK_ROWS + 1 < BLOCK_ROWS {
            block
        } else if self.goes_on(list, place, block) {
            block + 1
        } else {
            self.block_at(list, place + 1)
        }
    }

    // Whether the list of a block goes on in the block of the next number. `at` is its place there.
    fn goes_on(&self, list: u32, at: usize, block: u32) -> bool
        requires exists { list + 1 < length self.now.chains }
        requires within { at < length (list_of self.now list).blocks }
        requires here { block ≡ slice_index (list_of self.now list).blocks at }
        ensures on { IsTrue result ↔ GoesOn (list_of self.now list).blocks at block }
        ensures few { IsTrue result → block + 1 < 2 ^ 32 }
    {
        let next = block as usize + 1;
        let before = &self.tables.before;
        next < before.len() && before[next] == block
    }

    // The block at a place of a list, or any where it has fewer blocks.
    fn block_at(&self, list: u32, at: usize) -> u32
        requires { list + 1 < length self.now.chains }
        ensures { at < length (list_of self.now list).blocks
            → result ≡ slice_index (list_of self.now list).blocks at }
    {
        if at < self.count(list) {
            self.find(list, at) as u32
        } else {
            0
        }
    }

    // The front of a list.
    fn front(&self, list: u32) -> Front
        requires { list + 1 < length self.now.chains }
        ensures value { IsFront (list_of self.now list).blocks result.first result.blocks }
        ensures few { 0 < result.blocks → result.first + result.blocks ≤ 2 ^ 32 }
        ensures held { length (list_of self.now list).blocks < 2 ^ 32 }
        ensures apart { IsApart self.now }
    {
        self.fronts[list as usize]
    }

    // The block at a place of a list.
    fn find(&self, list: u32, at: usize) -> usize
        requires exists { list + 1 < length self.now.chains }
        requires within { at < length (list_of self.now list).blocks }
        ensures value { result ≡ slice_index (list_of self.now list).blocks at }
        ensures few { result < 2 ^ 32 }
        ensures held { length (list_of self.now list).blocks < 2 ^ 32 }
        ensures apart { IsApart self.now }
    {
        let front = self.front(list);
        if at < front.blocks as usize {
            front.first as usize + at
        } else {
            self.find_by_jumps(list, at)
        }
    }

    // The block at a place of a list, from the list's last block on.
    fn find_by_jumps(&self, list: u32, at: usize) -> usize
        requires exists { list + 1 < length self.now.chains }
        requires within { at < length (list_of self.now list).blocks }
        ensures value { result ≡ slice_index (list_of self.now list).blocks at }
        ensures few { result < 2 ^ 32 }
    {
        let tables = &self.tables;
        let mut block = self.lists[list as usize].last;
        while tables.place[block as usize] as usize > at {
            let over = tables.jump[block as usize];
            block = if tables.place[over as usize] as usize >= at {
                over
            } else {
                tables.before[block as usize]
            };
        }
        block as usize
    }

    // A block at a place of a list, and how many of the list's blocks from it on follow one
    // another by their numbers, if at most `most`.
    fn side_by_side(&self, list: u32, at: usize, block: u32, most: usize) -> Beside
        requires exists { list + 1 < length self.now.chains }
        requires within { at < length (list_of self.now list).blocks }
        requires here { block ≡ slice_index (list_of self.now list).blocks at }
        requires some { 1 ≤ most }
        ensures first { result.first ≡ slice_index (list_of self.now list).blocks at }
        ensures few { result.first + result.count ≤ 2 ^ 32 }
        ensures some { 1 ≤ result.count }
        ensures most { result.count ≤ most }
        ensures within { at + result.count ≤ length (list_of self.now list).blocks }
        ensures tied { IsTied (list_of self.now list).blocks at result.count }
        ensures longest { (result.count ≡ most) ⊎ ¬ (GoesOn (list_of self.now list).blocks
            (at + result.count - 1) (result.first + result.count - 1)) }
    {
        let end = most.min(self.count(list) - at);
        let front = self.front(list);
        let mut count = (front.blocks as usize).saturating_sub(at).min(end).max(1);
        let mut last = block + (count - 1) as u32;
        while count < end && self.goes_on(list, at + count - 1, last) {
            count += 1;
            last += 1;
        }
        Beside {
            first: block as usize,
            count,
        }
    }

    /// Where the rows of a list from `from` on stand: all up to the first that does not stand
    /// behind the one before it, or `RUN_ROWS` if those are more.
    pub fn stretch(&self, list: u32, from: usize) -> Stretch
        requires exists { list + 1 < length self.now.chains }
        requires within { from < (list_of self.now list).len }
        requires held { (list_of self.now list).len ≤ 4 * length (list_of self.now list).blocks }
        ensures some { 1 ≤ result.rows }
        ensures most { result.rows ≤ run_rows }
        ensures within { from + result.rows ≤ (list_of self.now list).len }
        ensures beside { IsStretch (list_of self.now list).blocks from result.from result.rows }
        ensures longest { IsLongest (list_of self.now list) from result.from result.rows }
        ensures apart { IsApart self.now }
    {
        let block = self.find(list, from / BLOCK_ROWS) as u32;
        self.stretch_from(list, from, block)
    }

    /// `stretch` for a walk forward, which keeps in `ahead` the blocks that were looked up last.
    pub fn stretch_ahead(&self, list: u32, from: usize, ahead: &mut Ahead) -> Stretch
        requires exists { list + 1 < length self.now.chains }
        requires within { from < (list_of self.now list).len }
        requires held { (list_of self.now list).len ≤ 4 * length (list_of self.now list).blocks }
        requires ahead { IsAhead (list_of self.now list).blocks ahead.old.first ahead.old.count
            ahead.old.numbers }
        ensures some { 1 ≤ result.rows }
        ensures most { result.rows ≤ run_rows }
        ensures within { from + result.rows ≤ (list_of self.now list).len }
        ensures few { from + result.rows < 2 ^ 64 }
        ensures beside { IsStretch (list_of self.now list).blocks from result.from result.rows }
        ensures longest { IsLongest (list_of self.now list) from result.from result.rows }
        ensures ahead { IsAhead (list_of self.now list).blocks ahead.new.first ahead.new.count
            ahead.new.numbers }
        ensures apart { IsApart self.now }
    {
        let block = self.find_ahead(list, from / BLOCK_ROWS, ahead);
        self.stretch_from(list, from, block)
    }

    // The block at a place of a list. Where it is neither in the front nor among those that were
    // looked up last, it is looked up together with those behind it.
    fn find_ahead(&self, list: u32, at: usize, ahead: &mut Ahead) -> u32
        requires exists { list + 1 < length self.now.chains }
        requires within { at < length (list_of self.now list).blocks }
        requires ahead { IsAhead (list_of self.now list).blocks ahead.old.first ahead.old.count
            ahead.old.numbers }
        ensures value { result ≡ slice_index (list_of self.now list).blocks at }
        ensures ahead { IsAhead (list_of self.now list).blocks ahead.new.first ahead.new.count
            ahead.new.numbers }
    {
        let front = self.front(list);
        if at < front.blocks as usize {
            return front.first + at as u32;
        }
        if at < ahead.first || at - ahead.first >= ahead.count {
            self.look_ahead(list, at, ahead);
        }
        ahead.numbers[at - ahead.first]
    }

    // Looks up the blocks of a list from a place on, as many as there is room for: the last of them
    // by jumps, and from there each by a step back.
    fn look_ahead(&self, list: u32, at: usize, ahead: &mut Ahead)
        requires exists { list + 1 < length self.now.chains }
        requires within { at < length (list_of self.now list).blocks }
        ensures first { ahead.new.first ≡ at }
        ensures some { 1 ≤ ahead.new.count }
        ensures ahead { IsAhead (list_of self.now list).blocks ahead.new.first ahead.new.count
            ahead.new.numbers }
    {
        let count = AHEAD_BLOCKS.min(self.count(list) - at);
        let mut i = count - 1;
        let mut block = self.find(list, at + i) as u32;
        ahead.numbers[i] = block;
        while i > 0 {
            i -= 1;
            block = self.tables.before[block as usize];
            ahead.numbers[i] = block;
        }
        ahead.first = at;
        ahead.count = count;
    }

    // `stretch` by the block in which row `from` stands.
    fn stretch_from(&self, list: u32, from: usize, block: u32) -> Stretch
        requires exists { list + 1 < length self.now.chains }
        requires within { from < (list_of self.now list).len }
        requires held { (list_of self.now list).len ≤ 4 * length (list_of self.now list).blocks }
        requires here { block ≡ slice_index (list_of self.now list).blocks (from / 4) }
        ensures some { 1 ≤ result.rows }
        ensures most { result.rows ≤ run_rows }
        ensures within { from + result.rows ≤ (list_of self.now list).len }
        ensures few { from + result.rows < 2 ^ 64 }
        ensures beside { IsStretch (list_of self.now list).blocks from result.from result.rows }
        ensures longest { IsLongest (list_of self.now list) from result.from result.rows }
        ensures apart { IsApart self.now }
    {
        let beside = self.side_by_side(list, from / BLOCK_ROWS, block, RUN_ROWS / BLOCK_ROWS + 1);
        let before = from % BLOCK_ROWS;
        let rows = beside.count * BLOCK_ROWS - before;
        Stretch {
            from: beside.first * BLOCK_ROWS + before,
            rows: rows.min(self.len(list) - from).min(RUN_ROWS),
        }
    }

    /// The place of a row of a list among the rows of all blocks.
    pub fn place(&self, list: u32, at: usize) -> usize
        requires exists { list + 1 < length self.now.chains }
        requires within { at < (list_of self.now list).len }
        requires held { (list_of self.now list).len ≤ 4 * length (list_of self.now list).blocks }
        ensures value { result ≡ place_of (list_of self.now list).blocks at }
        ensures apart { IsApart self.now }
    {
        self.find(list, at / BLOCK_ROWS) * BLOCK_ROWS + at % BLOCK_ROWS
    }

    /// `place` for a walk forward, as `stretch_ahead`.
    pub fn place_ahead(&self, list: u32, at: usize, ahead: &mut Ahead) -> usize
        requires exists { list + 1 < length self.now.chains }
        requires within { at < (list_of self.now list).len }
        requires held { (list_of self.now list).len ≤ 4 * length (list_of self.now list).blocks }
        requires ahead { IsAhead (list_of self.now list).blocks ahead.old.first ahead.old.count
            ahead.old.numbers }
        ensures value { result ≡ place_of (list_of self.now list).blocks at }
        ensures ahead { IsAhead (list_of self.now list).blocks ahead.new.first ahead.new.count
            ahead.new.numbers }
        ensures apart { IsApart self.now }
    {
        let _apart = self.len(list);
        self.find_ahead(list, at / BLOCK_ROWS, ahead) as usize * BLOCK_ROWS + at % BLOCK_ROWS
    }

    /// Appends `n` new blocks to a list, in the order of their numbers. An error leaves all as it
    /// was.
    pub fn grow(&mut self, list: u32, n: usize) -> Result<(), AllocError>
        requires exists { list + 1 < length self.old.chains }
        requires few { self.old.all + n ≤ 4294967294 }
        requires held { (list_of self.old list).len ≤ 4 * length (list_of self.old list).blocks }
        ensures ok { OnOk result (self.new ≡ with_new self.old (list + 1) n) }
        ensures err { OnErr result (self.new ≡ self.old) }
        ensures none { n ≡ 0 → IsOk result }
    {
        let first = self.tables.before.len();
        self.tables.extend(n)?;
        let next = next_with(
            self.lists[list as usize],
            self.next[list as usize],
            first as u32,
        );
        self.next[list as usize] = next;
        let blocks = self.lists[list as usize].blocks;
        let front = self.fronts[list as usize].with_blocks(blocks, first as u32, n as u32);
        self.fronts[list as usize] = front;
        for block in first..first + n {
            let to = self.lists[list as usize];
            self.lists[list as usize] = self.tables.longer(block as u32, to);
        }
        Ok(())
    }

    /// Moves a block from the chain of free blocks to a list.
    pub fn take(&mut self, list: u32)
        requires exists { list + 1 < length self.old.chains }
        requires some { 0 < length (chain_at self.old 0).blocks }
        requires held { (list_of self.old list).len ≤ 4 * length (list_of self.old list).blocks }
        ensures { self.new ≡ with_moved self.old 0 (list + 1) }
    {
        let from = self.free;
        let to = self.lists[list as usize];
        let next = next_with(to, self.next[list as usize], from.last);
        self.next[list as usize] = next;
        let front = self.fronts[list as usize].with_blocks(to.blocks, from.last, 1);
        self.fronts[list as usize] = front;
        self.free = self.tables.shorter(from);
        self.lists[list as usize] = self.tables.longer(from.last, to);
    }

    /// Moves a block from a list to the chain of free blocks.
    pub fn give(&mut self, list: u32)
        requires exists { list + 1 < length self.old.chains }
        requires some { 0 < length (list_of self.old list).blocks }
        ensures { self.new ≡ with_moved self.old (list + 1) 0 }
    {
        let from = self.lists[list as usize];
        let to = self.free;
        let front = self.fronts[list as usize].without_last(from.blocks);
        self.fronts[list as usize] = front;
        self.lists[list as usize] = self.tables.shorter(from);
        self.free = self.tables.longer(from.last, to);
    }
}

// The block where the next row of a list goes once it has one more block, where its rows fit those
// that it has.
fn next_with(chain: Chain, next: u32, block: u32) -> u32
    ensures room { chain.len / 4 < chain.blocks → result ≡ next }
    ensures full { chain.blocks ≤ chain.len / 4 → result ≡ block }
{
    if chain.len / BLOCK_ROWS < chain.blocks as usize {
        next
    } else {
        block
    }
}
