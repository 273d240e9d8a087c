ghost use Rattle.std.specs.Prelude.{◌≡◌, ◌+◌, ◌*◌, ◌<◌, ◌≤◌, ◌++◌, [], length, map, take, IfOk, OnOk};
ghost use Rattle.std.specs.Prelude.{slice_index_or};
ghost use Rattle.bcodes.specs.Bits.{key};
ghost use Rattle.code_pool.specs.Lists.{rows_in};
ghost use Rattle.key_buckets.specs.Keys.{key_in};
ghost use Rattle.multi_hash.specs.Inside.{row_key};

use crate::reading::multi::key_column::KeyColumn;
use bcodes::{BinaryIndex, Meter, Plain, Want, chunk, code_at};
use code_pool::Run;
use flat_index::Flat;
use std::alloc::Global;
use std::marker::Model;

/// The codes of a storage with their keys under one map of a MultiHash. Each key is computed once,
/// in the order of the positions, since a bucket names positions from all over the storage.
#[derive(Drop)]
pub struct Keyed<'s> {
    storage: &'s Flat<Plain>,
    number: u32,
    b: u32,
    keys: KeyColumn,
}

impl<'s> Model for Keyed<'s> {
    ghost use Rattle.std.specs.Prelude.{◌≡◌, map};
    ghost use Rattle.index_files.specs.MapReading.{KeyedCodes};
    ghost use Rattle.key_buckets.specs.Keys.{key_in};

    ghost Value = { KeyedCodes };

    ghost view = { λ k. record { codes = k.storage.now.codes; number = k.number; b = k.b } };

    ghost invariant = { λ k. k.keys ≡ map (key_in k.number k.b) k.storage.now.codes };
}

impl Keyed<'_> {
    /// The keys of `b` bits of all codes under the map of this number.
    pub fn new(alloc: Global, storage: &Flat<Plain>, number: u32, b: u32) -> Result<Keyed<'_>, Want>
        requires b_least { 1 ≤ b }
        requires b_most { b ≤ 64 }
        requires within { (number + 1) * b ≤ storage.now.dim }
        ensures { IfOk result (λ k. k
            ≡ record { codes = storage.now.codes; number = number; b = b }) }
    {
        let keys = keys_under(alloc, storage, number, b)?;
        Ok(Keyed {
            storage,
            number,
            b,
            keys,
        })
    }

    /// The number of codes.
    pub fn len(&self) -> usize
        ensures { result ≡ length self.now.codes }
    {
        self.keys.len()
    }

    /// The bits of a key.
    pub fn b(&self) -> u32
        ensures { result ≡ self.now.b }
    {
        self.b
    }

    /// The key of the code at a position.
    pub fn key(&self, position: usize) -> u64
        requires { position < length self.now.codes }
        ensures { result ≡ key (slice_index_or self.now.codes position [])
            (self.now.number * self.now.b) self.now.b }
    {
        self.keys.get(position)
    }
}

fn keys_under(alloc: Global, storage: &Flat<Plain>, number: u32, b: u32) -> Result<KeyColumn, Want>
    requires b_least { 1 ≤ b }
    requires b_most { b ≤ 64 }
    requires within { (number + 1) * b ≤ storage.now.dim }
    ensures { IfOk result (λ keys. keys ≡ map (key_in number b) storage.now.codes) }
{
    let size = storage.dim().bytes();
    let count = storage.count();
    // Nobody asks what reading a file reads of its own codes.
    let mut meter = Meter::new(Plain);
    let mut keys = KeyColumn::with_capacity(alloc, count as usize)?;
    let mut from = 0;
    while from < count {
        let run = storage.lend(from, &mut meter);
        push_keys(&mut keys, run, size, number, b)?;
        from += run.labels.len() as u64;
    }
    Ok(keys)
}

// Appends the keys of the codes of a run.
fn push_keys(
    keys: &mut KeyColumn,
    run: Run<'_>,
    size: usize,
    number: u32,
    b: u32,
) -> Result<(), Want>
    requires b_least { 1 ≤ b }
    requires b_most { b ≤ 64 }
    requires size_least { 1 ≤ size }
    requires within { (number + 1) * b ≤ 8 * size }
    requires whole { length run.codes.now ≡ length run.labels.now * size }
    ensures { OnOk result (keys.new ≡ keys.old
        ++ map (row_key number b) (rows_in size run.entry.labels.now run.entry.codes.now)) }
{
    for at in 0..run.labels.len() {
        keys.push(chunk(code_at(run.codes, size, at), number, b))?;
    }
    Ok(())
}
