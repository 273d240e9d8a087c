ghost use Rattle.std.specs.Prelude.{◌≡◌, ℕ, ◌+◌, ◌-◌, ◌*◌, ◌<◌, ◌≤◌, ◌^◌, [], ◌∷◌, ◌++◌, length};
ghost use Rattle.std.specs.Prelude.{map, take, drop, slice_index, slice_set, vec_len, vec_capacity};
ghost use Rattle.std.specs.Prelude.{replicate, FitsSigned, IsOk, OnOk, OnErr};
ghost use Rattle.std.specs.Int.{w64};
ghost use Rattle.std.specs.List.{All};
ghost use Rattle.code_pool.specs.Lists.{IsPoolRow, label_of, row_in, row_of, rows_in, with_run};

use crate::run::Run;
use std::alloc::{AllocError, Global};
use std::marker::Model;

/// Rows by their places: their labels, and the bytes of their codes one after the other.
#[derive(Debug, Drop)]
pub struct Rows {
    code_size: usize,
    labels: Vec<i64>,
    codes: Vec<u8>,
}

impl Model for Rows {
    ghost use Rattle.code_pool.specs.Lists.{SizedRows, rows_in};
    ghost use Rattle.code_pool.specs.Inside.{IsRows};

    ghost Value = { SizedRows };

    ghost view = { λ r. record {
      code_size = r.code_size;
      rows = rows_in r.code_size r.labels.items r.codes.items;
    } };

    ghost invariant = { λ r. IsRows r.code_size r.labels.items r.codes.items };
}

impl Rows {
    /// No rows. It takes no memory.
    pub fn new(alloc: Global, code_size: usize) -> Rows
        ensures { result ≡ record { code_size = code_size; rows = [] } }
    {
        Rows {
            code_size,
            labels: Vec::new(alloc),
            codes: Vec::new(alloc),
        }
    }

    /// The number of rows.
    pub fn len(&self) -> usize
        ensures value { result ≡ length self.now.rows }
        ensures rows { All (IsPoolRow self.now.code_size) self.now.rows }
    {
        are_bytes(&self.codes);
        self.labels.len()
    }

    /// Makes them `n` rows. Nobody reads a new row before it is written. An error leaves all as it
    /// was.
    pub fn grow(&mut self, n: usize) -> Result<(), AllocError>
        requires more { length self.old.rows ≤ n }
        requires few { n * self.old.code_size < 2 ^ 63 }
        ensures ok { OnOk result (length self.new.rows ≡ n) }
        ensures rows { take (length self.old.rows) self.new.rows ≡ self.old.rows }
        ensures size { self.new.code_size ≡ self.old.code_size }
        ensures err { OnErr result (self.new ≡ self.old) }
        ensures none { n ≡ length self.old.rows → IsOk result }
    {
        if n == self.labels.len() {
            return Ok(());
        }
        let more = n - self.labels.len();
        self.labels.reserve(more)?;
        self.codes.reserve(more * self.code_size)?;
        fill(&mut self.labels, n, 0);
        fill_bytes(&mut self.codes, n * self.code_size);
        Ok(())
    }

    /// Writes the row at a place.
    pub fn write(&mut self, at: usize, label: i64, code: &[u8])
        requires within { at < length self.old.rows }
        requires size { length code.now ≡ self.old.code_size }
        ensures { self.new
            ≡ record self.old { rows = slice_set self.old.rows at (row_of label code.now) } }
    {
        write_code(&mut self.codes, self.labels.len(), self.code_size, at, code);
        self.labels[at] = label;
    }

    /// Writes the rows of a run, from a place on.
    pub fn write_run(&mut self, at: usize, run: Run<'_>)
        requires within { at + length run.labels.now ≤ length self.old.rows }
        requires whole { length run.codes.now ≡ length run.labels.now * self.old.code_size }
        ensures { self.new ≡ record self.old {
          rows = with_run self.old.rows at
              (rows_in self.old.code_size run.entry.labels.now run.entry.codes.now);
        } }
    {
        write_bytes(&mut self.codes, at * self.code_size, run.codes);
        write_labels(&mut self.labels, at, run.labels);
    }

    /// Copies the row at one place to another.
    pub fn copy(&mut self, from: usize, to: usize)
        requires from { from < length self.old.rows }
        requires to { to < length self.old.rows }
        ensures { self.new
            ≡ record self.old { rows = slice_set self.old.rows to (row_in self.old from) } }
    {
        copy_code(&mut self.codes, self.labels.len(), self.code_size, from, to);
        let label = self.labels[from];
        self.labels[to] = label;
    }

    /// Gives the row at a place another label.
    pub fn relabel(&mut self, at: usize, label: i64)
        requires { at < length self.old.rows }
        ensures { self.new ≡ record self.old {
          rows = slice_set self.old.rows at (row_of label (row_in self.old at).code);
        } }
    {
        self.labels[at] = label;
    }

    /// The `n` rows from place `from` on, without copying.
    pub fn run(&self, from: usize, n: usize) -> Run<'_>
        requires { from + n ≤ length self.now.rows }
        ensures labels { length result.labels.now ≡ n }
        ensures codes { length result.codes.now ≡ n * self.now.code_size }
        ensures rows { rows_in self.now.code_size result.labels.now result.codes.now
            ≡ take n (drop from self.now.rows) }
    {
        run_of(&self.labels, &self.codes, self.code_size, from, n)
    }

    /// The labels of the `n` rows from place `from` on.
    pub fn labels(&self, from: usize, n: usize) -> &[i64]
        requires { from + n ≤ length self.now.rows }
        ensures { result.now ≡ take n (drop from (map label_of self.now.rows)) }
    {
        labels_of(&self.labels, from, n)
    }
}

// The n rows from place `from` on.
fn run_of<'a>(
    labels: &'a [i64],
    codes: &'a [u8],
    code_size: usize,
    from: usize,
    n: usize,
) -> Run<'a>
    requires within { from + n ≤ length labels.now }
    requires whole { length codes.now ≡ length labels.now * code_size }
    ensures labels { result.labels.now ≡ take n (drop from labels.now) }
    ensures codes { result.codes.now ≡ take (n * code_size) (drop (from * code_size) codes.now) }
{
    let start = from * code_size;
    Run {
        labels: &labels[from..from + n],
        codes: &codes[start..start + n * code_size],
    }
}

// The n labels from place `from` on.
fn labels_of(labels: &[i64], from: usize, n: usize) -> &[i64]
    requires { from + n ≤ length labels.now }
    ensures { result.now ≡ take n (drop from labels.now) }
{
    &labels[from..from + n]
}

// Writes the code of the row at a place among so many rows.
fn write_code(codes: &mut Vec<u8>, rows: usize, code_size: usize, at: usize, code: &[u8])
    requires within { at < rows }
    requires whole { length codes.old.items ≡ rows * code_size }
    requires size { length code.now ≡ code_size }
    ensures { codes.new.items ≡ take (at * code_size) codes.old.items
        ++ (code.now ++ drop (at * code_size + code_size) codes.old.items) }
{
    let start = at * code_size;
    codes[start..start + code_size].copy_from_slice(code);
}

// Writes bytes from a place on.
fn write_bytes(bytes: &mut Vec<u8>, at: usize, new: &[u8])
    requires { at + length new.now ≤ length bytes.old.items }
    ensures { bytes.new.items ≡ take at bytes.old.items
        ++ (new.now ++ drop (at + length new.now) bytes.old.items) }
{
    bytes[at..at + new.len()].copy_from_slice(new);
}

// Writes labels from a place on. One by one, so that each is known to fit.
fn write_labels(labels: &mut Vec<i64>, at: usize, new: &[i64])
    requires { at + length new.now ≤ length labels.old.items }
    ensures items { labels.new.items ≡ take at labels.old.items
        ++ (new.now ++ drop (at + length new.now) labels.old.items) }
    ensures fit { All (FitsSigned w64) new.now }
{
    for i in 0..new.len() {
        labels[at + i] = new[i];
    }
}

// Copies the code of the row at one place to another.
fn copy_code(codes: &mut Vec<u8>, rows: usize, code_size: usize, from: usize, to: usize)
    requires from { from < rows }
    requires to { to < rows }
    requires whole { length codes.old.items ≡ rows * code_size }
    ensures { codes.new.items ≡ take (to * code_size) codes.old.items
        ++ (take code_size (drop (from * code_size) codes.old.items)
        ++ drop (to * code_size + code_size) codes.old.items) }
{
    let start = from * code_size;
    codes.copy_within(start..start + code_size, to * code_size);
}

// The zeros that a table of bytes is filled with, so many at a time.
const ZEROS: [u8; 4_096] = [0; 4_096];

// Makes a table of bytes n long, in the room that it has. It copies zeros, since `resize` writes
// them one by one.
fn fill_bytes(bytes: &mut Vec<u8>, n: usize)
    requires more { vec_len bytes.old ≤ n }
    requires room { n ≤ vec_capacity bytes.old }
    ensures { bytes.new.items
        ≡ bytes.old.items ++ replicate (n - length bytes.old.items) 0 }
{
    while bytes.len() < n {
        let more = (n - bytes.len()).min(ZEROS.len());
        match bytes.extend_from_slice(&ZEROS[..more]) {
            Ok(()) => {}
            Err(_) => unreachable!(),
        }
    }
}

// Makes a table n entries long, in the room that it has.
fn fill<T: Copy>(entries: &mut Vec<T>, n: usize, entry: T)
    requires more { vec_len entries.old ≤ n }
    requires room { n ≤ vec_capacity entries.old }
    ensures { entries.new.items
        ≡ entries.old.items ++ replicate (n - length entries.old.items) entry }
{
    match entries.resize(n, entry) {
        Ok(()) => {}
        Err(_) => unreachable!(),
    }
}

// For proofs: bytes are below 256.
fn are_bytes(bytes: &[u8])
    ensures { (i : ℕ) → slice_index bytes.now i < 2 ^ 8 }
{}
