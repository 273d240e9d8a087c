ghost use Rattle.std.specs.Prelude.{◌≡◌, ℕ, ◌+◌, ◌<◌, ◌≤◌, ◌⊎◌, [], ◌∷◌, ◌++◌, length, take, true};
ghost use Rattle.std.specs.Prelude.{IfOk, slice_index, slice_index_or};
ghost use Rattle.std.specs.List.Sorted.{IsPermutation};
ghost use Rattle.std.specs.BinaryHeap.{heap_items, heap_len, heap_capacity, KeepsHeap};
ghost use Rattle.bcodes.specs.Hits.{in_order, is_above, no_hit};
ghost use Rattle.hit_lists.specs.Chains.{IsTable, IsTableBut, IsEmptyTable, IsFilling, IsFull};
ghost use Rattle.hit_lists.specs.Chains.{IsLast, last_hit, distance_at, seat_cmp};

use crate::seat::Seat;
use bcodes::{Hit, Want};
use std::alloc::Global;
use std::collections::BinaryHeap;

/// The kept hits in slots, with a chain of slots and its length for each distance.
///
/// A slot stands on the chain of its hit's distance, above those that came earlier. While fewer
/// than k hits are kept, `limit` is the number of bits. From then on it is the greatest distance of
/// a kept hit, and the slots at that distance stand in the heap `top` instead of on a chain. Its
/// first seat has the greatest label, so that slot is the next to be taken over.
#[derive(Debug, Drop)]
pub struct SlotTable {
    pub hits: Vec<Hit>,
    // For each slot the one below it on its chain.
    pub next: Vec<u32>,
    // For each distance the uppermost slot of its chain, and the length of the chain.
    pub heads: Vec<u32>,
    pub counts: Vec<u32>,
    pub top: BinaryHeap<Seat>,
    pub limit: u32,
    // The number of hits that there is room for.
    pub room: u32,
}

impl SlotTable {
    // An empty table for `room` hits on codes of so many bits.
    pub fn new(alloc: Global, bits: u32, room: u32) -> Result<SlotTable, Want>
        ensures { IfOk result (IsEmptyTable bits room) }
    {
        let hits = Vec::with_capacity(alloc, room as usize)?;
        let next = Vec::with_capacity(alloc, room as usize)?;
        let heads = vec![in alloc; 0; bits as usize + 1]?;
        let counts = vec![in alloc; 0; bits as usize + 1]?;
        let top = BinaryHeap::with_capacity(alloc, room as usize)?;
        Ok(SlotTable {
            hits,
            next,
            heads,
            counts,
            top,
            limit: bits,
            room,
        })
    }

    // Keeps the first `k` of the kept hits and this one.
    pub fn offer(&mut self, hit: Hit, k: u32)
        requires table { IsTable self.old }
        requires stage { IsFilling self.old k ⊎ IsFull self.old k }
        requires room { (length self.old.hits.items < self.old.room)
            ⊎ (length self.old.hits.items ≡ k) }
        requires within { hit.distance ≤ self.old.limit }
        ensures table { IsTable self.new }
        ensures stage { IsFilling self.new k ⊎ IsFull self.new k }
        ensures hits { in_order self.new.hits.items
            ≡ take k (in_order (hit ∷ in_order self.old.hits.items)) }
        ensures chains { length self.new.counts.items ≡ length self.old.counts.items }
        ensures room { self.new.room ≡ self.old.room }
    {
        let kept = self.hits.len();
        let k = k as usize;
        if kept == k {
            if self.has_after(hit) {
                self.replace(hit);
            }
        } else {
            self.add(hit);
            if kept + 1 == k {
                self.lower();
            }
        }
    }

    // Puts a hit into a slot of its own.
    fn add(&mut self, hit: Hit)
        requires table { IsTable self.old }
        requires room { length self.old.hits.items < self.old.room }
        requires no_seats { length (heap_items self.old.top) ≡ 0 }
        requires within { hit.distance ≤ self.old.limit }
        ensures table { IsTable self.new }
        ensures hits { self.new.hits.items ≡ self.old.hits.items ++ hit ∷ [] }
        ensures no_seats { length (heap_items self.new.top) ≡ 0 }
        ensures limit { self.new.limit ≡ self.old.limit }
        ensures chains { length self.new.counts.items ≡ length self.old.counts.items }
        ensures room { self.new.room ≡ self.old.room }
    {
        let slot = self.hits.len() as u32;
        self.hits.push_reserved(hit);
        self.next.push_reserved(0);
        self.link(slot, hit.distance);
    }

    // Whether the last hit in order comes after this one.
    fn has_after(&self, hit: Hit) -> bool
        requires table { IsTable self.now }
        requires no_chain { slice_index self.now.counts.items self.now.limit ≡ 0 }
        requires some_seat { 0 < length (heap_items self.now.top) }
        ensures is { result
            ≡ is_above (last_hit self.now.hits.items (heap_items self.now.top)) hit }
        ensures last { IsLast
            (last_hit self.now.hits.items (heap_items self.now.top)) self.now.hits.items }
    {
        match self.top.peek() {
            Some(last) => hit < self.hits[last.slot as usize],
            None => false,
        }
    }

    // Puts a hit into the slot of the last hit in order.
    fn replace(&mut self, hit: Hit)
        requires table { IsTable self.old }
        requires no_chain { slice_index self.old.counts.items self.old.limit ≡ 0 }
        requires some_seat { 0 < length (heap_items self.old.top) }
        requires within { hit.distance ≤ self.old.limit }
        requires before { is_above
            (last_hit self.old.hits.items (heap_items self.old.top)) hit ≡ true }
        ensures table { IsTable self.new }
        ensures hits { in_order self.new.hits.items
            ≡ take (length self.old.hits.items) (in_order (hit ∷ in_order self.old.hits.items)) }
        ensures as_many { length self.new.hits.items ≡ length self.old.hits.items }
        ensures no_chain { slice_index self.new.counts.items self.new.limit ≡ 0 }
        ensures some_seat { 0 < length (heap_items self.new.top) }
        ensures chains { length self.new.counts.items ≡ length self.old.counts.items }
        ensures room { self.new.room ≡ self.old.room }
    {
        if let Some(last) = self.top.pop() {
            let slot = last.slot;
            self.hits[slot as usize] = hit;
            if hit.distance == self.limit {
                self.seat(hit, slot);
            } else {
                self.link(slot, hit.distance);
                if self.top.is_empty() {
                    self.lower();
                }
            }
        }
    }

    // Lowers the limit to the greatest distance of a hit, and seats the slots of its chain.
    pub fn lower(&mut self)
        requires table { IsTable self.old }
        requires some { 0 < length self.old.hits.items }
        requires no_seats { length (heap_items self.old.top) ≡ 0 }
        ensures table { IsTable self.new }
        ensures hits { self.new.hits.items ≡ self.old.hits.items }
        ensures no_chain { slice_index self.new.counts.items self.new.limit ≡ 0 }
        ensures some_seat { 0 < length (heap_items self.new.top) }
        ensures chains { length self.new.counts.items ≡ length self.old.counts.items }
        ensures room { self.new.room ≡ self.old.room }
    {
        while self.counts[self.limit as usize] == 0 {
            self.limit -= 1;
        }
        while self.counts[self.limit as usize] > 0 {
            self.lift();
        }
    }

    // Moves the uppermost slot of the chain at the limit to the seats.
    fn lift(&mut self)
        requires table { IsTable self.old }
        requires chain { 0 < slice_index self.old.counts.items self.old.limit }
        ensures table { IsTable self.new }
        ensures hits { self.new.hits.items ≡ self.old.hits.items }
        ensures limit { self.new.limit ≡ self.old.limit }
        ensures fewer { slice_index self.new.counts.items self.new.limit
            < slice_index self.old.counts.items self.old.limit }
        ensures some_seat { 0 < length (heap_items self.new.top) }
        ensures chains { length self.new.counts.items ≡ length self.old.counts.items }
        ensures room { self.new.room ≡ self.old.room }
    {
        let at = self.limit as usize;
        let slot = self.heads[at];
        let hit = self.hits[slot as usize];
        self.heads[at] = self.next[slot as usize];
        self.counts[at] -= 1;
        self.seat(hit, slot);
    }

    // Gives the slot of a hit a seat, for which there is room.
    fn seat(&mut self, hit: Hit, slot: u32)
        requires { heap_len self.old.top < heap_capacity self.old.top }
        ensures seats { IsPermutation
            (record { label = hit.label; slot = slot } ∷ heap_items self.old.top)
            (heap_items self.new.top) }
        ensures heap { KeepsHeap seat_cmp (heap_items self.old.top) (heap_items self.new.top) }
        ensures capacity { heap_capacity self.old.top ≤ heap_capacity self.new.top }
        ensures rest { self.new ≡ record self.old { top = self.new.top } }
    {
        let label = hit.label;
        match self.top.push(Seat { label, slot }) {
            Ok(()) => {}
            Err(_) => unreachable!(),
        }
    }

    // Puts a slot that stands nowhere on the chain of its distance.
    fn link(&mut self, slot: u32, distance: u32)
        requires table { IsTableBut slot self.old }
        requires at { distance_at self.old.hits.items slot ≡ distance }
        requires within { distance ≤ self.old.limit }
        requires free { (distance < self.old.limit) ⊎ (length (heap_items self.old.top) ≡ 0) }
        ensures table { IsTable self.new }
        ensures hits { self.new.hits.items ≡ self.old.hits.items }
        ensures seats { heap_items self.new.top ≡ heap_items self.old.top }
        ensures limit { self.new.limit ≡ self.old.limit }
        ensures others { distance < self.old.limit
            → slice_index self.new.counts.items self.old.limit
            ≡ slice_index self.old.counts.items self.old.limit }
        ensures chains { length self.new.counts.items ≡ length self.old.counts.items }
        ensures room { self.new.room ≡ self.old.room }
    {
        let at = distance as usize;
        self.next[slot as usize] = self.heads[at];
        self.heads[at] = slot;
        self.counts[at] += 1;
    }
}
