ghost use Rattle.std.specs.Prelude.{◌≡◌, ◌+◌, ◌≤◌, ◌++◌, length, map, vec_capacity, vec_len, IfOk};
ghost use Rattle.id_select.specs.Removal.{ChoosesAs, is_chosen, stays};

use crate::IdList;
use bcodes::Want;
use std::alloc::Global;

/// Which rows are chosen, by their ids: the labels of a Flat or of an IVF, and the outer ids of an
/// index that has these.
#[derive(Debug, Drop)]
pub enum Selector {
    /// The ids of a list, Faiss's `IDSelectorBatch`.
    Listed(IdList),
    /// All ids but those of a list.
    AllBut(IdList),
    /// The ids from the first on and below the second, Faiss's `IDSelectorRange`.
    Between(i64, i64),
}

impl Selector {
    /// Chooses the ids of a list, in which one may come twice.
    ///
    /// # Errors
    ///
    /// If memory runs out.
    pub fn listed(alloc: Global, ids: &[i64]) -> Result<Selector, Want>
        ensures { IfOk result (λ s. ChoosesAs (Selector.Listed ids.now) s) }
    {
        let list = IdList::new(alloc, ids)?;
        Ok(Selector::Listed(list))
    }

    /// Chooses all ids but those of a list, in which one may come twice.
    ///
    /// # Errors
    ///
    /// If memory runs out.
    pub fn all_but(alloc: Global, ids: &[i64]) -> Result<Selector, Want>
        ensures { IfOk result (λ s. ChoosesAs (Selector.AllBut ids.now) s) }
    {
        let list = IdList::new(alloc, ids)?;
        Ok(Selector::AllBut(list))
    }

    /// Chooses the ids from `from` on and below `to`: none where `to` is not above `from`. It takes
    /// no memory.
    pub fn range(from: i64, to: i64) -> Selector
        ensures { result ≡ Selector.Between from to }
    {
        Selector::Between(from, to)
    }

    /// A flag for each id, true for those that are not chosen.
    ///
    /// # Errors
    ///
    /// If memory runs out.
    pub fn flags(&self, alloc: Global, ids: &[i64]) -> Result<Vec<bool>, Want>
        ensures { IfOk result (λ flags. flags.items ≡ map (stays self.now) ids.now) }
    {
        ids.iter().map(|id| !self.has(*id)).collect(alloc)
    }

    /// Appends a flag for each id, as `flags` gives it, in room that was made for them.
    pub fn push_flags(&self, ids: &[i64], flags: &mut Vec<bool>)
        requires { vec_len flags.old + length ids.now ≤ vec_capacity flags.old }
        ensures items { flags.new.items ≡ flags.old.items ++ map (stays self.now) ids.now }
        ensures capacity { vec_capacity flags.new ≡ vec_capacity flags.old }
    {
        for id in ids {
            flags.push_reserved(!self.has(*id));
        }
    }

    /// Whether an id is chosen. It takes no memory.
    pub fn has(&self, id: i64) -> bool
        ensures { result ≡ is_chosen self.now id }
    {
        match self {
            Selector::Listed(list) => list.contains(id),
            Selector::AllBut(list) => !list.contains(id),
            Selector::Between(from, to) => *from <= id && id < *to,
        }
    }
}
