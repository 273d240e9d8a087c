ghost use Rattle.std.specs.Prelude.{◌≡◌, ◌+◌, ◌<◌, ◌≤◌, length, map};
ghost use Rattle.bcodes.specs.Ranges.{raised};
ghost use Rattle.code_pool.specs.Inside.{IsPool, walk_in};
ghost use Rattle.code_pool.specs.Lists.{IsPart, IsRun, label_of};

use crate::ahead::Ahead;
use crate::blocks::Blocks;
use crate::rows::Rows;
use crate::run::Run;
use bcodes::{Ledger, Meter};
use std::marker::{Model, PhantomData};

/// A walk over the rows of one list of a pool, from the first on.
///
/// It lends what `Pool::lend` and `Pool::labels` lend, but does not look for each block anew from
/// the end of the list, so a walk over a whole list costs a number of steps linear in its length.
#[derive(Drop)]
pub struct Walk<'a, L: Ledger> {
    rows: &'a Rows,
    blocks: &'a Blocks,
    list: u32,
    at: usize,
    ahead: Ahead,
    ledger: PhantomData<L>,
}

impl<'a, L: Ledger> Model for Walk<'a, L> {
    ghost use Rattle.code_pool.specs.Lists.{RowWalk};
    ghost use Rattle.code_pool.specs.Inside.{IsWalk, walk_in};

    ghost Value = { RowWalk };

    ghost view = { λ w. walk_in w.rows.now w.blocks.now w.list w.at };

    ghost invariant = { λ w. IsWalk w.rows.now w.blocks.now w.list
        w.ahead.first w.ahead.count w.ahead.numbers };
}

impl<'a, L: Ledger> Walk<'a, L> {
    /// A walk over the rows of a list, before the first of them.
    pub(crate) fn new(rows: &'a Rows, blocks: &'a Blocks, list: u32) -> Walk<'a, L>
        requires pool { IsPool rows.now blocks.now }
        requires exists { list + 1 < length blocks.now.chains }
        ensures { result ≡ walk_in rows.now blocks.now list 0 }
    {
        Walk {
            rows,
            blocks,
            list,
            at: 0,
            ahead: Ahead::NONE,
            ledger: PhantomData,
        }
    }

    /// How many rows of the list lie behind.
    pub fn at(&self) -> usize
        ensures { result ≡ self.now.at }
    {
        self.at
    }

    /// Lends the rows that follow, without copying, and goes past them: at least one and at most
    /// `RUN_ROWS`, which need not be all that are left. The meter's `lent` rises by their number.
    pub fn lend(&mut self, meter: &mut Meter<L>) -> Run<'a>
        requires { self.old.at < length self.old.rows }
        ensures run { IsRun self.old.rows self.old.at self.old.code_size
            result.labels.now result.codes.now }
        ensures past { self.new
            ≡ record self.old { at = self.old.at + length result.labels.now } }
        ensures lent { meter.new
            ≡ record meter.old { lent = raised meter.old.lent (length result.labels.now) } }
        ensures rises { meter.old.lent ≤ meter.new.lent }
    {
        let part = self
            .blocks
            .stretch_ahead(self.list, self.at, &mut self.ahead);
        let run = self.rows.run(part.from, part.rows);
        meter.raise_lent(run.labels.len() as u64);
        self.at += part.rows;
        run
    }

    /// Labels of the rows that follow: at least one, which need not be all that are left. It goes
    /// past them. No code is read, so there is no meter.
    pub fn labels(&mut self) -> &'a [i64]
        requires { self.old.at < length self.old.rows }
        ensures part { IsPart (map label_of self.old.rows) self.old.at result.now }
        ensures past { self.new ≡ record self.old { at = self.old.at + length result.now } }
    {
        let part = self
            .blocks
            .stretch_ahead(self.list, self.at, &mut self.ahead);
        self.at += part.rows;
        self.rows.labels(part.from, part.rows)
    }
}
