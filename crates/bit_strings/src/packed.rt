ghost use Rattle.std.specs.Prelude.{◌≡◌};

use std::marker::Model;

/// Bytes that packed numbers take. They are seen as a list.
#[derive(Debug, Drop)]
pub struct Packed {
    bytes: Vec<u8>,
}

impl Model for Packed {
    ghost use Rattle.std.specs.Prelude.{ℕ, List};

    ghost Value = { List ℕ };

    ghost view = { λ packed. packed.bytes.items };
}

impl Packed {
    pub(crate) fn new(bytes: Vec<u8>) -> Packed
        ensures { result ≡ bytes.items }
    {
        Packed { bytes }
    }

    /// The bytes.
    pub fn as_slice(&self) -> &[u8]
        ensures { result.now ≡ self.now }
    {
        &self.bytes
    }
}
