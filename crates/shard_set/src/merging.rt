ghost use Rattle.std.specs.Prelude.{◌≡◌, ◌+◌, ◌-◌, ◌^◌, ◌<◌, ◌≤◌, ◌++◌, true, false};
ghost use Rattle.std.specs.Prelude.{length, map, take, IfOk};
ghost use Rattle.std.specs.List.{All};
ghost use Rattle.bcodes.specs.Hits.{in_order};
ghost use Rattle.bcodes.specs.Value.{IsPlace};
ghost use Rattle.shard_set.specs.Joined.{moved_hit};
ghost use Rattle.shard_set.specs.Merged.{IsNext};

use bcodes::{Hit, Hits, Want};
use std::alloc::Global;

/// The answer of some shards with that of the next one, whose labels go up by `before`: the first
/// `most` of all hits.
pub fn with_answer(
    alloc: Global,
    answer: Hits,
    mut next: Hits,
    before: u64,
    most: usize,
) -> Result<Hits, Want>
    requires answer_in_order { in_order answer.items ≡ answer.items }
    requires answer_within { length answer.items ≤ most }
    requires next_in_order { in_order next.items ≡ next.items }
    requires few { before < 2 ^ 31 }
    requires places { All (λ h. IsPlace (2 ^ 31 - before) h.label) next.items }
    ensures { IfOk result (λ hits. hits.items
        ≡ take most (in_order (answer.items ++ map (moved_hit before) next.items))) }
{
    if next.is_empty() {
        return Ok(answer);
    }
    move_labels(&mut next, before);
    let hits = merge(alloc, answer.as_slice(), next.as_slice(), most)?;
    Ok(hits)
}

// The labels go up by `before`.
fn move_labels(hits: &mut Hits, before: u64)
    requires few { before < 2 ^ 31 }
    requires places { All (λ h. IsPlace (2 ^ 31 - before) h.label) hits.old.items }
    ensures { hits.new.items ≡ map (moved_hit before) hits.old.items }
{
    for i in 0..hits.len() {
        let label = hits.as_slice()[i].label;
        hits.relabel(i, label + before as i64);
    }
}

// The first `most` hits of two lists that are in order.
fn merge(alloc: Global, left: &[Hit], right: &[Hit], most: usize) -> Result<Hits, Want>
    requires left { in_order left.now ≡ left.now }
    requires right { in_order right.now ≡ right.now }
    ensures { IfOk result (λ hits. hits.items ≡ take most (in_order (left.now ++ right.now))) }
{
    let count = (left.len() + right.len()).min(most);
    let mut hits = Hits::new(alloc);
    hits.reserve(count)?;
    let mut l = 0;
    let mut r = 0;
    while hits.len() < count {
        if is_left_next(&left[l..], &right[r..]) {
            hits.push(left[l]);
            l += 1;
        } else {
            hits.push(right[r]);
            r += 1;
        }
    }
    Ok(hits)
}

// Whether the left list has the first of all hits.
fn is_left_next(left: &[Hit], right: &[Hit]) -> bool
    requires some { 0 < length left.now + length right.now }
    requires left { in_order left.now ≡ left.now }
    requires right { in_order right.now ≡ right.now }
    ensures left { result ≡ true → IsNext left.now right.now }
    ensures right { result ≡ false → IsNext right.now left.now }
{
    match (left.first(), right.first()) {
        (Some(l), Some(r)) => l <= r,
        (Some(_), None) => true,
        (None, _) => false,
    }
}
