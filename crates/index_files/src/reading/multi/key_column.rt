ghost use Rattle.std.specs.Prelude.{◌≡◌, ◌<◌, [], ◌∷◌, ◌++◌, length, slice_index_or, IfOk, OnOk};

use bcodes::Want;
use std::alloc::Global;
use std::marker::Model;

/// Keys by position. The first ones, as far as they fit in two bytes each, take two bytes each, so
/// that more of them stand in the processor's caches where positions come in no order.
#[derive(Drop)]
pub struct KeyColumn {
    narrow: Vec<u16>,
    // The keys from the first on that does not fit.
    wide: Vec<u64>,
}

impl Model for KeyColumn {
    ghost use Rattle.std.specs.Prelude.{ℕ, List, ◌++◌};

    ghost Value = { List ℕ };

    ghost view = { λ k. k.narrow.items ++ k.wide.items };
}

impl KeyColumn {
    /// No keys, with room for `n` narrow ones.
    ///
    /// # Errors
    ///
    /// If memory runs out.
    pub fn with_capacity(alloc: Global, n: usize) -> Result<KeyColumn, Want>
        ensures { IfOk result (λ keys. keys ≡ []) }
    {
        let narrow = Vec::with_capacity(alloc, n)?;
        Ok(KeyColumn {
            narrow,
            wide: Vec::new(alloc),
        })
    }

    /// The number of keys.
    pub fn len(&self) -> usize
        ensures { result ≡ length self.now }
    {
        self.narrow.len() + self.wide.len()
    }

    /// The key at a position.
    pub fn get(&self, position: usize) -> u64
        requires { position < length self.now }
        ensures { result ≡ slice_index_or self.now position 0 }
    {
        if position < self.narrow.len() {
            u64::from(self.narrow[position])
        } else {
            self.wide[position - self.narrow.len()]
        }
    }

    /// Appends a key.
    ///
    /// # Errors
    ///
    /// If memory runs out.
    pub fn push(&mut self, key: u64) -> Result<(), Want>
        ensures { OnOk result (self.new ≡ self.old ++ key ∷ []) }
    {
        match u16::try_from(key) {
            Ok(key) if self.wide.is_empty() => self.narrow.push(key)?,
            _ => self.wide.push(key)?,
        }
        Ok(())
    }
}
