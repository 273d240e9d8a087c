ghost use Rattle.std.specs.Prelude.{◌≡◌, ◌<◌, ◌∷◌, ◌++◌, [], ℕ, List, length, None, replicate};
ghost use Rattle.std.specs.Prelude.{Some, IfOk, slice_index_or, slice_set};
ghost use Rattle.key_buckets.specs.Direct.{AreDirect, no_list};
ghost use Rattle.key_buckets.specs.Keys.{list_of};

use bcodes::Want;
use std::alloc::Global;
use std::marker::Model;

/// What stands for no list.
const NO_LIST: u32 = u32::MAX;

/// The lists of all keys below some number, each at the place that its key numbers.
#[derive(Drop)]
pub struct Direct {
    lists: Vec<u32>,
}

impl Model for Direct {
    ghost use Rattle.std.specs.Prelude.{ℕ, List, Option, map};
    ghost use Rattle.key_buckets.specs.Direct.{shown};

    ghost Value = { List (Option ℕ) };

    ghost view = { λ d. map shown d.lists.items };
}

impl Direct {
    /// No places. It takes no memory.
    pub fn new(alloc: Global) -> Direct
        ensures { result ≡ [] }
    {
        Direct {
            lists: Vec::new(alloc),
        }
    }

    /// So many keys, none of which has a list.
    pub fn with_len(alloc: Global, n: usize) -> Result<Direct, Want>
        ensures { IfOk result (λ direct. direct ≡ replicate n None) }
    {
        let lists = no_lists(alloc, n)?;
        Ok(Direct { lists })
    }

    /// The number of places.
    pub fn len(&self) -> usize
        ensures { result ≡ length self.now }
    {
        self.lists.len()
    }

    /// The list of a key, or `None` where it has none.
    pub fn list(&self, key: usize) -> Option<u32>
        requires { key < length self.now }
        ensures { result ≡ slice_index_or self.now key None }
    {
        let list = self.lists[key];
        if list == NO_LIST { None } else { Some(list) }
    }

    /// Gives a key a list.
    pub fn set(&mut self, key: usize, list: u32)
        requires within { key < length self.old }
        requires list { list < no_list }
        ensures { self.new ≡ slice_set self.old key (Some list) }
    {
        self.lists[key] = list;
    }

    /// Leaves no places. It takes no memory.
    pub fn clear(&mut self)
        ensures { self.new ≡ [] }
    {
        self.lists.clear();
    }
}

fn no_lists(alloc: Global, n: usize) -> Result<Vec<u32>, Want>
    ensures { IfOk result (λ lists. lists.items ≡ replicate n no_list) }
{
    let lists = vec![in alloc; NO_LIST; n]?;
    Ok(lists)
}

/// Notes the list of one more key. No places are left where the list is the one number that stands
/// for no list.
pub fn note(direct: &mut Direct, key: u64, list: u32)
    ensures { (es : List (ℕ × ℕ)) → list_of es key ≡ None → AreDirect es direct.old
        → AreDirect (es ++ (key, list) ∷ []) direct.new }
{
    if list == NO_LIST {
        direct.clear();
    } else if key < direct.len() as u64 {
        direct.set(key as usize, list);
    }
}
