ghost use Rattle.std.specs.Prelude.{◌≡◌, ◌+◌, ◌-◌, ◌<◌, ◌≤◌, ◌^◌, ◌++◌, length, slice_index};
ghost use Rattle.std.specs.Prelude.{slice_set, if◌then◌else◌, is_ok, IsOk, vec_len, vec_capacity};
ghost use Rattle.std.specs.Prelude.{replicate};
ghost use Rattle.code_pool.specs.Linked.{with_last, without_last};
ghost use Rattle.code_pool.specs.Chains.{IsEnd, before_of, jump_of};

use crate::chain::Chain;
use std::alloc::AllocError;

/// What is known of each block, by its number: the block before it in its chain, an earlier block
/// of the chain to jump to, and its place in the chain. The first block of a chain has itself as
/// both.
#[derive(Debug, Drop)]
pub struct Tables {
    pub before: Vec<u32>,
    pub jump: Vec<u32>,
    pub place: Vec<u32>,
}

impl Tables {
    /// A chain without its last block.
    pub fn shorter(&self, chain: Chain) -> Chain
        requires some { 0 < chain.blocks }
        requires last { chain.last < length self.now.before.items }
        ensures { result ≡ without_last self.now.before.items chain }
    {
        Chain {
            last: self.before[chain.last as usize],
            blocks: chain.blocks - 1,
            len: chain.len,
        }
    }

    /// A chain with one more block, whose entries it writes.
    ///
    /// A block jumps to the one before it, or twice as far where the two jumps before went equally
    /// far. So every block is found in few jumps, as in a skew-binary list.
    pub fn longer(&mut self, block: u32, chain: Chain) -> Chain
        requires block { block < length self.old.before.items }
        requires jumps { length self.old.jump.items ≡ length self.old.before.items }
        requires places { length self.old.place.items ≡ length self.old.before.items }
        requires few { chain.blocks + 1 < 2 ^ 32 }
        requires end { 0 < chain.blocks
            → IsEnd self.old.jump.items self.old.place.items chain.last }
        ensures before { self.new.before.items
            ≡ slice_set self.old.before.items block (before_of chain.blocks chain.last block) }
        ensures jump { self.new.jump.items ≡ slice_set self.old.jump.items block
            (jump_of self.old.jump.items self.old.place.items chain.blocks chain.last block) }
        ensures place { self.new.place.items ≡ slice_set self.old.place.items block chain.blocks }
        ensures chain { result ≡ with_last chain block }
    {
        let at = block as usize;
        if chain.blocks == 0 {
            self.before[at] = block;
            self.jump[at] = block;
        } else {
            let last = chain.last as usize;
            let near = self.jump[last];
            let far = self.jump[near as usize];
            let so_far = self.place[near as usize];
            if self.place[last] - so_far == so_far - self.place[far as usize] {
                self.jump[at] = far;
            } else {
                self.jump[at] = chain.last;
            }
            self.before[at] = chain.last;
        }
        self.place[at] = chain.blocks;
        Chain {
            last: block,
            blocks: chain.blocks + 1,
            len: chain.len,
        }
    }

    /// Makes entries for `n` more blocks, which nobody reads before they are written. An error
    /// leaves the entries as they were.
    pub fn extend(&mut self, n: usize) -> Result<(), AllocError>
        requires few { length self.old.before.items + n < 2 ^ 32 }
        requires jumps { length self.old.jump.items ≡ length self.old.before.items }
        requires places { length self.old.place.items ≡ length self.old.before.items }
        ensures before { self.new.before.items ≡ (if is_ok result then
            self.old.before.items ++ replicate n 0 else self.old.before.items) }
        ensures jump { self.new.jump.items ≡ (if is_ok result then
            self.old.jump.items ++ replicate n 0 else self.old.jump.items) }
        ensures place { self.new.place.items ≡ (if is_ok result then
            self.old.place.items ++ replicate n 0 else self.old.place.items) }
        ensures none { n ≡ 0 → IsOk result }
    {
        self.before.reserve(n)?;
        self.jump.reserve(n)?;
        self.place.reserve(n)?;
        let all = self.before.len() + n;
        resize(&mut self.before, all);
        resize(&mut self.jump, all);
        resize(&mut self.place, all);
        Ok(())
    }
}

// Makes a table `n` entries long, in the room that it has.
fn resize(table: &mut Vec<u32>, n: usize)
    requires more { vec_len table.old ≤ n }
    requires room { n ≤ vec_capacity table.old }
    ensures { table.new.items ≡ table.old.items ++ replicate (n - length table.old.items) 0 }
{
    match table.resize(n, 0) {
        Ok(()) => {}
        Err(_) => unreachable!(),
    }
}
