ghost use Rattle.std.specs.Prelude.{◌≡◌, ◌+◌, ◌*◌, ◌<◌, ◌≤◌, ◌++◌, [], IsTrue, length, min};
ghost use Rattle.std.specs.List.{All};
ghost use Rattle.code_pool.specs.Lists.{rows_in};
ghost use Rattle.list_scan.specs.Batches.{IsScannable, rows_of_runs};
ghost use Rattle.list_scan.specs.Visited.{scan_rows};

use code_pool::Run;
use std::marker::Model;

/// The most runs that wait together.
const BATCH_RUNS: usize = 32;

/// Runs that were lent and wait to be scanned, of codes of `size` bytes. Each has room for the
/// distances that are worked on at a time, where that room is `room`.
#[derive(Drop)]
pub struct Batch<'a> {
    size: usize,
    room: usize,
    runs: [Run<'a>; BATCH_RUNS],
    count: usize,
}

impl<'a> Model for Batch<'a> {
    ghost use Rattle.std.specs.Prelude.{take};
    ghost use Rattle.list_scan.specs.Batches.{IsBatch, WaitingRows, rows_of_runs};

    ghost Value = { WaitingRows };

    ghost view = { λ b. record {
      size = b.size;
      room = b.room;
      count = b.count;
      rows = rows_of_runs b.size (take b.count b.runs);
    } };

    ghost invariant = { λ b. IsBatch b.size b.room b.runs b.count };
}

impl<'a> Batch<'a> {
    /// No runs.
    pub fn new(size: usize, room: usize) -> Batch<'a>
        ensures { result ≡ record { size = size; room = room; count = 0; rows = [] } }
    {
        let none = Run {
            labels: &[],
            codes: &[],
        };
        Batch {
            size,
            room,
            runs: [none; BATCH_RUNS],
            count: 0,
        }
    }

    /// Whether no more runs fit.
    pub fn is_full(&self) -> bool
        ensures { ¬ (IsTrue result) → self.now.count < 32 }
    {
        self.count == BATCH_RUNS
    }

    /// Puts a run last.
    pub fn push(&mut self, run: Run<'a>)
        requires fits { self.old.count < 32 }
        requires whole { length run.codes.now ≡ length run.labels.now * self.old.size }
        requires written { min (length run.labels.now) scan_rows ≤ self.old.room }
        ensures size { self.new.size ≡ self.old.size }
        ensures room { self.new.room ≡ self.old.room }
        ensures rows { self.new.rows
            ≡ self.old.rows ++ rows_in self.old.size run.entry.labels.now run.entry.codes.now }
    {
        self.runs[self.count] = run;
        self.count += 1;
    }

    /// The runs, in the order in which they came.
    pub fn runs(&self) -> &[Run<'a>]
        ensures rows { rows_of_runs self.now.size result.now ≡ self.now.rows }
        ensures each { All (IsScannable self.now.size self.now.room) result.now }
    {
        &self.runs[..self.count]
    }

    /// Takes all runs out.
    pub fn clear(&mut self)
        ensures { self.new ≡ record self.old { count = 0; rows = [] } }
    {
        self.count = 0;
    }
}
