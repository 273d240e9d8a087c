ghost use Rattle.std.specs.Prelude.{◌≡◌, ◌+◌, ◌*◌, ◌/◌, ◌≤◌, [], ◌∷◌, ◌++◌, length};
ghost use Rattle.std.specs.Prelude.{IfOk, IsErrOf, IsTrue, OnOk};
ghost use Rattle.bcodes.specs.Bits.{key as key_of};
ghost use Rattle.bcodes.specs.Ranges.{load_limit};
ghost use Rattle.bcodes.specs.Value.{weight};
ghost use Rattle.file_parts.specs.Feeding.{GivesField, StaysOver, shelf_of};
ghost use Rattle.index_files.specs.HashFormat.{bucket_code};
ghost use Rattle.index_files.specs.HashReading.{joined};

use crate::reading::flat::PIECE;
use bcodes::{Dim, Plain, Want, chunk};
use file_parts::{Feed, PartError, Reason};
use hash_index::Hash;
use outside::Shelf;
use std::alloc::Global;
use std::marker::Model;

/// Rows of one bucket that were read and wait to be put into a Hash, many by one call. A code is
/// read into a buffer first, and becomes a row once it has its id.
#[derive(Drop)]
pub struct Gathered {
    dim: Dim,
    b: u32,
    // The key of all rows.
    key: u64,
    // The most rows that wait, whose codes have at most 65,536 bytes.
    most: usize,
    ids: Vec<i64>,
    // The codes, side by side.
    codes: Vec<u8>,
    code: Vec<u8>,
}

impl Model for Gathered {
    ghost use Rattle.std.specs.Prelude.{◌≡◌, ◌*◌, ◌/◌, length};
    ghost use Rattle.bcodes.specs.Answers.{paired};
    ghost use Rattle.bcodes.specs.Chunks.{chunks_of};
    ghost use Rattle.hash_index.specs.Keys.{HaveKey};
    ghost use Rattle.index_files.specs.HashReading.{GatheredRows};

    ghost Value = { GatheredRows };

    ghost view = { λ g. record {
      dim = g.dim.bits;
      b = g.b;
      key = g.key;
      code = g.code.items;
      rows = paired g.ids.items
          (chunks_of (g.dim.bits / 8) (length g.ids.items) g.codes.items);
    } };

    ghost invariant = { λ g. (length g.codes.items ≡ length g.ids.items * (g.dim.bits / 8))
        × (length g.code.items ≡ g.dim.bits / 8)
        × HaveKey g.b g.key
        (chunks_of (g.dim.bits / 8) (length g.ids.items) g.codes.items) };
}

impl Gathered {
    /// No rows, for an index of codes of `dim` bits by keys of `b` bits.
    ///
    /// # Errors
    ///
    /// If memory runs out.
    #[tactic(auto, unfolding(bcodes::specs::Chunks::chunks_of))]
    pub fn new(alloc: Global, dim: Dim, b: u32) -> Result<Gathered, Want>
        ensures dim { IfOk result (λ gathered. gathered.dim ≡ dim.bits) }
        ensures b { IfOk result (λ gathered. gathered.b ≡ b) }
    {
        let code = vec![in alloc; 0u8; dim.bytes()]?;
        Ok(Gathered {
            dim,
            b,
            key: 0,
            most: PIECE / dim.bytes(),
            ids: Vec::new(alloc),
            codes: Vec::new(alloc),
            code,
        })
    }

    /// Begins a bucket that has this key, and drops rows that are still here.
    #[tactic(auto, unfolding(bcodes::specs::Chunks::chunks_of))]
    pub fn begin(&mut self, key: u64)
        ensures { self.new ≡ record self.old { key = key; rows = [] } }
    {
        self.ids.clear();
        self.codes.clear();
        self.key = key;
    }

    /// Reads a code that has the key of the bucket into the buffer.
    ///
    /// # Errors
    ///
    /// `Bad` with `WrongBucket` at the code's first byte if it has another key, and else as
    /// [`Feed::bytes`].
    #[tactic(auto, unfolding(crate::specs::HashFormat::bucket_code), using(file_parts::proofs::FeedLemmas::field_gives))]
    pub fn read_code<H: Shelf>(&mut self, feed: &mut Feed<'_, H>) -> Result<(), PartError>
        requires reading { IsTrue (H.is_reading (shelf_of feed.old)) }
        requires b_least { 1 ≤ self.old.b }
        requires b_most { self.old.b ≤ 64 }
        requires b_within { self.old.b ≤ 8 * (self.old.dim / 8) }
        ensures gives { GivesField H.contents (λ _. self.new.code)
            (bucket_code (self.old.dim / 8) self.old.b self.old.key) feed.old feed.new result }
        ensures shelf { StaysOver H.contents H.is_reading H.faults feed.old feed.new
            (IsErrOf result PartError.Failed) }
        ensures key { OnOk result (key_of self.new.code 0 self.old.b ≡ self.old.key) }
        ensures rest { self.new ≡ record self.old { code = self.new.code } }
    {
        let at = feed.at();
        feed.bytes(&mut self.code)?;
        if chunk(&self.code, 0, self.b) != self.key {
            return Err(PartError::bad(at, Reason::WrongBucket));
        }
        Ok(())
    }

    /// Puts the code of the buffer, which has the key of the bucket, behind the others under this
    /// id.
    ///
    /// # Errors
    ///
    /// If memory runs out.
    pub fn push(&mut self, id: i64) -> Result<(), Want>
        requires { key_of self.old.code 0 self.old.b ≡ self.old.key }
        ensures { OnOk result (self.new ≡ record self.old {
          rows = self.old.rows ++ record { label = id; code = self.old.code } ∷ [];
        }) }
    {
        // Room for the id first, so that no code stands without one.
        self.ids.reserve(1)?;
        self.codes.extend_from_slice(&self.code)?;
        self.ids.push_reserved(id);
        Ok(())
    }

    /// Puts the rows into an index if there is no room for one more.
    ///
    /// # Errors
    ///
    /// If memory runs out.
    pub fn put_if_full(&mut self, hash: &mut Hash<Plain>) -> Result<(), Want>
        requires dim { self.old.dim ≡ hash.old.dim }
        requires b { self.old.b ≡ hash.old.b }
        requires load { weight hash.old.dim 1 (length hash.old.rows + length self.old.rows) 0
            ≤ load_limit }
        ensures same { OnOk result (joined self.new hash.new ≡ joined self.old hash.old) }
        ensures rest { OnOk result (self.new ≡ record self.old { rows = self.new.rows }) }
    {
        if self.ids.len() >= self.most {
            self.put_into(hash)?;
        }
        Ok(())
    }

    /// Puts the rows behind those that an index has. None are left here.
    ///
    /// # Errors
    ///
    /// If memory runs out.
    #[tactic(auto, unfolding(bcodes::specs::Chunks::chunks_of))]
    pub fn put_into(&mut self, hash: &mut Hash<Plain>) -> Result<(), Want>
        requires dim { self.old.dim ≡ hash.old.dim }
        requires b { self.old.b ≡ hash.old.b }
        requires load { weight hash.old.dim 1 (length hash.old.rows + length self.old.rows) 0
            ≤ load_limit }
        ensures hash { OnOk result (hash.new ≡ joined self.old hash.old) }
        ensures none { OnOk result (self.new ≡ record self.old { rows = [] }) }
    {
        hash.add_bucket(self.key, &self.ids, &self.codes)?;
        self.ids.clear();
        self.codes.clear();
        Ok(())
    }
}
