ghost use Rattle.std.specs.Prelude.{◌≡◌, ◌≢◌, ℕ, ◌+◌, ◌<◌, ◌≤◌, ◌^◌, length, slice_index, IfOk, OnOk};
ghost use Rattle.std.specs.List.{All};
ghost use Rattle.std.specs.List.Sorted.{IsNonDecreasing};
ghost use Rattle.code_pool.specs.Lists.{list_at};
ghost use Rattle.flip_walk.specs.Patterns.{times};
ghost use Rattle.row_lists.specs.Room.{HasRoomFor, KeepRoom, SameRows};

use bcodes::{Ledger, Want};
use code_pool::Pool;
use std::alloc::Global;

/// Makes room on the lists of these numbers, for one more row a number. Lists that are not among
/// them cost nothing.
///
/// # Errors
///
/// If memory runs out. As on success, no row has moved, and no other list has lost room.
pub fn reserve_each<L: Ledger>(
    alloc: Global,
    lists: &mut Pool<L>,
    numbers: &[u32],
) -> Result<(), Want>
    requires known { All (λ n. n < length lists.old.lists) numbers.now }
    requires few { (l : ℕ) → length (list_at lists.old l).rows + length numbers.now < 2 ^ 31 }
    ensures room { OnOk result (HasRoomFor numbers.now lists.new) }
    ensures same { SameRows lists.old lists.new }
    ensures others { KeepRoom numbers.now lists.old lists.new }
{
    let span = span_of(numbers);
    if span.len <= numbers.len().saturating_mul(DENSE) {
        reserve_counted(alloc, lists, numbers, span)
    } else {
        reserve_in_order(alloc, lists, numbers)
    }
}

// Numbers are counted in a table of all numbers of their span where it has at most so many for each
// of them. Else they are sorted, so that a few of them cost no look at all lists between.
const DENSE: usize = 4;

// Some neighbouring numbers of lists.
#[derive(Clone, Copy)]
struct Span {
    first: u32,
    len: usize,
}

// The least span that has these numbers.
fn span_of(numbers: &[u32]) -> Span
    ensures least { All (λ n. result.first ≤ n) numbers.now }
    ensures most { All (λ n. n < result.first + result.len) numbers.now }
    ensures small { result.first + result.len ≤ 2 ^ 32 }
{
    let mut first = u32::MAX;
    let mut last = 0;
    for number in numbers {
        first = first.min(*number);
        last = last.max(*number);
    }
    Span {
        first,
        len: (last as usize + 1).saturating_sub(first as usize),
    }
}

// `reserve_each` of numbers in a span, each of which is counted.
fn reserve_counted<L: Ledger>(
    alloc: Global,
    lists: &mut Pool<L>,
    numbers: &[u32],
    span: Span,
) -> Result<(), Want>
    requires least { All (λ n. span.first ≤ n) numbers.now }
    requires most { All (λ n. n < span.first + span.len) numbers.now }
    requires small { span.first + span.len ≤ 2 ^ 32 }
    requires known { All (λ n. n < length lists.old.lists) numbers.now }
    requires few { (l : ℕ) → length (list_at lists.old l).rows + length numbers.now < 2 ^ 31 }
    ensures room { OnOk result (HasRoomFor numbers.now lists.new) }
    ensures same { SameRows lists.old lists.new }
    ensures others { KeepRoom numbers.now lists.old lists.new }
{
    let counts = counts_of(alloc, numbers, span)?;
    for at in 0..counts.len() {
        if counts[at] > 0 {
            lists.reserve(span.first + at as u32, counts[at] as usize)?;
        }
    }
    Ok(())
}

// How often each number of a span occurs.
fn counts_of(alloc: Global, numbers: &[u32], span: Span) -> Result<Vec<u32>, Want>
    requires least { All (λ n. span.first ≤ n) numbers.now }
    requires most { All (λ n. n < span.first + span.len) numbers.now }
    requires few { length numbers.now < 2 ^ 31 }
    ensures count { IfOk result (λ counts. length counts.items ≡ span.len) }
    ensures each { IfOk result (λ counts. (at : ℕ) → at < span.len
        → slice_index counts.items at ≡ times (span.first + at) numbers.now) }
{
    let mut counts = vec![in alloc; 0; span.len]?;
    for number in numbers {
        counts[(number - span.first) as usize] += 1;
    }
    Ok(counts)
}

// `reserve_each` of numbers that are sorted first.
fn reserve_in_order<L: Ledger>(
    alloc: Global,
    lists: &mut Pool<L>,
    numbers: &[u32],
) -> Result<(), Want>
    requires known { All (λ n. n < length lists.old.lists) numbers.now }
    requires few { (l : ℕ) → length (list_at lists.old l).rows + length numbers.now < 2 ^ 31 }
    ensures room { OnOk result (HasRoomFor numbers.now lists.new) }
    ensures same { SameRows lists.old lists.new }
    ensures others { KeepRoom numbers.now lists.old lists.new }
{
    let mut sorted = numbers.to_vec(alloc)?;
    sorted.sort_unstable();
    reserve_sorted(lists, &sorted)?;
    Ok(())
}

// `reserve_each` of numbers in order.
fn reserve_sorted<L: Ledger>(lists: &mut Pool<L>, sorted: &[u32]) -> Result<(), Want>
    requires sorted { IsNonDecreasing sorted.now }
    requires known { All (λ n. n < length lists.old.lists) sorted.now }
    requires few { (l : ℕ) → length (list_at lists.old l).rows + length sorted.now < 2 ^ 31 }
    ensures room { OnOk result (HasRoomFor sorted.now lists.new) }
    ensures same { SameRows lists.old lists.new }
    ensures others { KeepRoom sorted.now lists.old lists.new }
{
    let mut at = 0;
    while at < sorted.len() {
        let end = end_of_run(sorted, at);
        lists.reserve(sorted[at], end - at)?;
        at = end;
    }
    Ok(())
}

// The end of the numbers that equal the one at a place.
fn end_of_run(numbers: &[u32], at: usize) -> usize
    requires { at < length numbers.now }
    ensures more { at < result }
    ensures within { result ≤ length numbers.now }
    ensures same { (k : ℕ) → at ≤ k → k < result
        → slice_index numbers.now k ≡ slice_index numbers.now at }
    ensures end { result < length numbers.now
        → slice_index numbers.now result ≢ slice_index numbers.now at }
{
    let mut end = at + 1;
    while end < numbers.len() && numbers[end] == numbers[at] {
        end += 1;
    }
    end
}
