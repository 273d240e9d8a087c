ghost use Rattle.std.specs.Prelude.{◌≡◌, ◌*◌, ◌≤◌, length, map};
ghost use Rattle.bcodes.specs.Bits.{dist};
ghost use Rattle.bcodes.specs.Chunks.{chunks_of};

use crate::few::Few;
use crate::kernel::Kernel;
use crate::lanes::{PART, differing_in_parts};
use crate::rest::{WORD, differing_in_last, differing_in_words};
use bcodes::code_at;
use std::marker::Model;

const WORDS_A_PART: usize = PART / WORD;

/// A query of any code size from 1 to 8,192 bytes, which it borrows: Faiss's
/// `HammingComputerDefault`. It compares 32 bytes at a time, then 8 bytes at a time, and then the
/// last few. Clauses see its bytes.
#[derive(Debug, Drop)]
pub struct General<'q> {
    bytes: &'q [u8],
}

impl<'q> Model for General<'q> {
    ghost use Rattle.std.specs.Prelude.{ℕ, List, ◌≤◌, length};

    ghost Value = { List ℕ };

    ghost view = { λ q. q.bytes.now };

    ghost invariant = { λ q. (1 ≤ length q.bytes.now) × (length q.bytes.now ≤ 8192) };
}

impl General<'_> {
    /// Prepares a query of 1 to 8,192 bytes.
    pub fn prepare(q: &[u8]) -> General<'_>
        requires at_least { 1 ≤ length q.now }
        requires at_most { length q.now ≤ 8192 }
        ensures { result ≡ q.now }
    {
        General { bytes: q }
    }
}

impl Kernel for General<'_> {
    ghost query = { λ q. q };

    fn size(&self) -> usize {
        self.bytes.len()
    }

    fn distance(&self, code: &[u8]) -> u32 {
        let size = code.len();
        let parts = size / PART;
        let words = size / WORD;
        differing_in_parts(code, self.bytes, parts)
            + differing_in_words(code, self.bytes, WORDS_A_PART * parts, words)
            + differing_in_last(code, self.bytes, size % WORD)
    }

    // Codes of up to 8 words and a part of one are compared by a loop for their number of words.
    fn scan(&self, run: &[u8], out: &mut [u32]) {
        match self.bytes.len() / WORD {
            1 => Few::<1>::prepare(self.bytes).scan(run, out),
            2 => Few::<2>::prepare(self.bytes).scan(run, out),
            3 => Few::<3>::prepare(self.bytes).scan(run, out),
            4 => Few::<4>::prepare(self.bytes).scan(run, out),
            5 => Few::<5>::prepare(self.bytes).scan(run, out),
            6 => Few::<6>::prepare(self.bytes).scan(run, out),
            7 => Few::<7>::prepare(self.bytes).scan(run, out),
            8 => Few::<8>::prepare(self.bytes).scan(run, out),
            _ => scan_each(self, run, out),
        }
    }
}

// Compares each code by itself.
fn scan_each(kernel: &General<'_>, run: &[u8], out: &mut [u32])
    requires { length run.now ≡ length kernel.now * length out.old }
    ensures { out.new ≡ map (λ code. dist code kernel.now)
        (chunks_of (length kernel.now) (length out.old) run.now) }
{
    let size = kernel.size();
    for (i, distance) in out.iter_mut().enumerate() {
        *distance = kernel.distance(code_at(run, size, i));
    }
}
