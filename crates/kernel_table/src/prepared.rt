ghost use Rattle.std.specs.Prelude.{◌≡◌, ◌/◌, length};

use bcodes::Dim;
use hamming_kernels::{General, Half, Kernel, Twenty, Words};
use std::marker::Model;

/// A query with the kernel for its code size: words for 4, 8, 16, 20, 32 and 64 bytes, and
/// `General` for every other size, as Faiss's `dispatch_HammingComputer` chooses. Clauses see the
/// query's bytes.
#[derive(Debug, Drop)]
pub struct Prepared<'q> {
    chosen: Chosen<'q>,
}

#[derive(Debug, Drop)]
enum Chosen<'q> {
    Half(Half),
    OneWord(Words<1>),
    TwoWords(Words<2>),
    Twenty(Twenty),
    FourWords(Words<4>),
    EightWords(Words<8>),
    General(General<'q>),
}

impl<'q> Model for Prepared<'q> {
    ghost use Rattle.std.specs.Prelude.{ℕ, List};

    ghost Value = { List ℕ };

    ghost use Rattle.kernel_table.specs.Query.{query_of};

    ghost view = { λ p. query_of p.chosen };
}

// What a call on the chosen kernel gives.
macro_rules! with_kernel {
    ($prepared:expr, $kernel:ident => $call:expr) => {
        match &$prepared.chosen {
            Chosen::Half($kernel) => $call,
            Chosen::OneWord($kernel) => $call,
            Chosen::TwoWords($kernel) => $call,
            Chosen::Twenty($kernel) => $call,
            Chosen::FourWords($kernel) => $call,
            Chosen::EightWords($kernel) => $call,
            Chosen::General($kernel) => $call,
        }
    };
}

impl Prepared<'_> {
    /// Prepares a query of as many bytes as a code of `dim` has. No call takes memory.
    pub fn new(dim: Dim, q: &[u8]) -> Prepared<'_>
        requires { length q.now ≡ dim.bits / 8 }
        ensures { result ≡ q.now }
    {
        let chosen = match dim.bytes() {
            4 => Chosen::Half(Half::prepare(q)),
            8 => Chosen::OneWord(Words::prepare(q)),
            16 => Chosen::TwoWords(Words::prepare(q)),
            20 => Chosen::Twenty(Twenty::prepare(q)),
            32 => Chosen::FourWords(Words::prepare(q)),
            64 => Chosen::EightWords(Words::prepare(q)),
            _ => Chosen::General(General::prepare(q)),
        };
        Prepared { chosen }
    }
}

impl Kernel for Prepared<'_> {
    ghost query = { λ p. p };

    fn size(&self) -> usize {
        with_kernel!(self, kernel => kernel.size())
    }

    fn distance(&self, code: &[u8]) -> u32 {
        with_kernel!(self, kernel => kernel.distance(code))
    }

    fn scan(&self, run: &[u8], out: &mut [u32]) {
        with_kernel!(self, kernel => kernel.scan(run, out))
    }
}
