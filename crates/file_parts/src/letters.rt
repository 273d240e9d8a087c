ghost use Rattle.std.specs.Prelude.{◌≡◌, length};
ghost use Rattle.std.specs.Str.{bytes_eq};

use std::marker::Model;

/// Four letters, by which a file names what follows them. Contracts see the four bytes.
#[derive(Clone, Copy, Debug)]
pub struct Letters {
    bytes: [u8; 4],
}

impl Model for Letters {
    ghost use Rattle.std.specs.Prelude.{ℕ, List};

    ghost Value = { List ℕ };

    ghost view = { λ l. l.bytes };

    ghost inverse = { λ bytes. record { bytes = bytes } };
}

impl Letters {
    pub(crate) fn new(bytes: [u8; 4]) -> Letters
        ensures { result ≡ bytes }
    {
        Letters { bytes }
    }

    /// Whether these are the letters of this name, which has four bytes.
    pub fn is(&self, name: &str) -> bool
        requires { length name.now ≡ 4 }
        ensures { result ≡ bytes_eq self.now name.now }
    {
        self.bytes.as_slice() == name.as_bytes()
    }
}
