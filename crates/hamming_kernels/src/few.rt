ghost use Rattle.std.specs.Prelude.{◌≡◌, ◌+◌, ◌*◌, ◌<◌, ◌≤◌, length};

use crate::kernel::Kernel;
use crate::rest::{WORD, differing_in_last};
use crate::words::Words;
use std::marker::Model;

/// A query of `W` whole words, from 1 to 8 of them, and of less than a word more, which it borrows.
/// Since `W` is known when the code is compiled, a scan keeps the words in registers. Clauses see
/// its bytes.
#[derive(Debug, Drop)]
pub(crate) struct Few<'q, const W: usize> {
    front: Words<W>,
    bytes: &'q [u8],
}

impl<'q, const W: usize> Model for Few<'q, W> {
    ghost use Rattle.std.specs.Prelude.{◌≡◌, ℕ, List, ◌+◌, ◌*◌, ◌<◌, ◌≤◌, length, take};

    ghost Value = { List ℕ };

    ghost view = { λ q. q.bytes.now };

    ghost invariant = { λ q. (1 ≤ W) × (W ≤ 8) × (8 * W ≤ length q.bytes.now)
        × (length q.bytes.now < 8 * W + 8) × (q.front ≡ take (8 * W) q.bytes.now) };
}

impl<const W: usize> Few<'_, W> {
    /// Prepares a query.
    pub(crate) fn prepare(q: &[u8]) -> Few<'_, W>
        requires at_least { 1 ≤ W }
        requires at_most { W ≤ 8 }
        requires words { 8 * W ≤ length q.now }
        requires no_more { length q.now < 8 * W + 8 }
        ensures { result ≡ q.now }
    {
        Few {
            front: Words::prepare(&q[..WORD * W]),
            bytes: q,
        }
    }
}

impl<const W: usize> Kernel for Few<'_, W> {
    ghost query = { λ q. q };

    fn size(&self) -> usize {
        self.bytes.len()
    }

    fn distance(&self, code: &[u8]) -> u32 {
        let in_words = self.front.distance(&code[..WORD * W]);
        in_words + differing_in_last(code, self.bytes, code.len() % WORD)
    }
}
