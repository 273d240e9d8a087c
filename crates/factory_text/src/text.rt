ghost use Rattle.std.specs.Prelude.{◌≡◌, string_bytes};

use std::marker::Model;

/// The text of a `Spec`. It is seen as its bytes.
#[derive(Debug, Drop)]
pub struct Text {
    written: String,
}

impl Model for Text {
    ghost use Rattle.std.specs.Prelude.{ℕ, List, string_bytes};

    ghost Value = { List ℕ };

    ghost view = { λ text. string_bytes text.written };
}

impl Text {
    pub(crate) fn new(written: String) -> Text
        ensures { result ≡ string_bytes written }
    {
        Text { written }
    }

    /// The text as a string slice.
    pub fn as_str(&self) -> &str
        ensures { result.now ≡ self.now }
    {
        &self.written
    }
}
