ghost use Rattle.std.specs.Prelude.{◌≡◌, ◌+◌, ◌^◌, ◌<◌, ◌≤◌, ◌++◌, length, map, vec_len};
ghost use Rattle.std.specs.Prelude.{vec_capacity, FitsSigned, IfOk};
ghost use Rattle.std.specs.Int.{w64};
ghost use Rattle.std.specs.List.{All, filter};
ghost use Rattle.bcodes.specs.Value.{IsPlace, labels_from};
ghost use Rattle.bcodes.specs.Answers.{outer};
ghost use Rattle.id_select.specs.Removal.{stays};

use bcodes::{Hits, Want};
use id_select::Selector;
use std::alloc::Global;

/// The `n` labels from `from` on. `Want` says that memory ran out.
pub fn count_up(alloc: Global, from: usize, n: usize) -> Result<Vec<i64>, Want>
    requires { from + n < 2 ^ 63 }
    ensures { IfOk result (λ labels. labels.items ≡ labels_from from n) }
{
    let mut labels = Vec::with_capacity(alloc, n)?;
    for i in 0..n {
        labels.push((from + i) as i64)?;
    }
    Ok(labels)
}

/// Appends ids in room that was made for them.
pub fn append_ids(ids: &mut Vec<i64>, more: &[i64])
    requires { vec_len ids.old + length more.now ≤ vec_capacity ids.old }
    ensures items { ids.new.items ≡ ids.old.items ++ more.now }
    ensures fit { All (FitsSigned w64) more.now }
{
    for id in more {
        match ids.push(*id) {
            Ok(()) => {}
            Err(_) => unreachable!(),
        }
    }
}

/// Keeps the ids that are not chosen, in their order.
pub fn retain_ids(ids: &mut Vec<i64>, sel: &Selector)
    ensures { ids.new.items ≡ filter (stays sel.now) ids.old.items }
{
    ids.retain(|id| !sel.has(*id));
}

/// Puts the id at its place in place of each label.
pub fn put_ids(hits: &mut Hits, ids: &[i64])
    requires { All (λ h. IsPlace (length ids.now) h.label) hits.old.items }
    ensures { hits.new.items ≡ map (outer ids.now) hits.old.items }
{
    for i in 0..hits.len() {
        let label = hits.as_slice()[i].label;
        hits.relabel(i, ids[label as usize]);
    }
}
