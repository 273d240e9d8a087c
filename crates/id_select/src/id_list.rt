ghost use Rattle.std.specs.Prelude.{◌≡◌, IfOk};
ghost use Rattle.std.specs.List.{list_any};
ghost use Rattle.std.specs.List.Sorted.{IsPermutation};
ghost use Rattle.std.specs.Ordering.{int_eq};

use bcodes::Want;
use std::alloc::Global;
use std::marker::Model;

/// Ids among which others are looked up. It is seen as the ids in ascending order.
#[derive(Debug, Drop)]
pub struct IdList {
    ascending: Vec<i64>,
}

impl Model for IdList {
    ghost use Rattle.std.specs.Prelude.{ℤ, List};
    ghost use Rattle.std.specs.List.Sorted.{IsSorted};
    ghost use Rattle.std.specs.Ordering.{int_cmp};

    ghost Value = { List ℤ };

    ghost view = { λ l. l.ascending.items };

    ghost invariant = { λ l. IsSorted int_cmp l.ascending.items };
}

impl IdList {
    /// A copy of some ids. `Want` says that memory ran out.
    pub fn new(alloc: Global, ids: &[i64]) -> Result<IdList, Want>
        ensures { IfOk result (λ list. IsPermutation ids.now list) }
    {
        let mut ascending = Vec::from_slice(alloc, ids)?;
        ascending.sort_unstable();
        Ok(IdList { ascending })
    }

    /// Whether an id is among them. It is found by halving, and no memory is taken.
    pub fn contains(&self, id: i64) -> bool
        ensures { result ≡ list_any (int_eq id) self.now }
    {
        self.ascending.binary_search(&id).is_ok()
    }
}
