ghost use Rattle.std.specs.Prelude.{◌≡◌, ◌++◌, [], Some, length, IfOk, OnOk, OnErr, IsOkUnless};

use crate::{Sink, Trouble};
use std::alloc::Global;
use std::marker::Model;

/// A sink in memory that never fails. Contracts see the bytes that it took.
#[derive(Debug, Drop)]
pub struct SureSink {
    bytes: Vec<u8>,
}

impl Model for SureSink {
    ghost use Rattle.std.specs.Prelude.{ℕ, List};

    ghost Value = { List ℕ };

    ghost view = { λ s. s.bytes.items };
}

impl SureSink {
    /// A sink that took nothing so far. It takes no memory.
    pub fn new(alloc: Global) -> SureSink
        ensures { result ≡ [] }
    {
        SureSink {
            bytes: Vec::new(alloc),
        }
    }

    /// The bytes that it took so far.
    pub fn as_slice(&self) -> &[u8]
        ensures { result.now ≡ self.now }
    {
        &self.bytes
    }
}

impl Sink for SureSink {
    ghost written = { λ s. Some s };

    ghost faults = { λ _. 0 };

    /// Takes the whole piece, or answers `Memory`.
    fn write(&mut self, piece: &[u8]) -> Result<usize, Trouble>
        ensures whole { IfOk result (λ n. n ≡ length piece.now) }
        ensures ok { OnOk result (self.new ≡ self.old ++ piece.now) }
        ensures memory_only { IsOkUnless result Trouble.Memory }
        ensures err { OnErr result (self.new ≡ self.old) }
    {
        self.bytes.extend_from_slice(piece)?;
        Ok(piece.len())
    }
}
