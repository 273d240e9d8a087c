ghost use Rattle.std.specs.Prelude.{◌≡◌};
ghost use Rattle.factory_text.specs.Printing.{fits};

use crate::{Kind, Spec};
use bcodes::Dim;

/// Whether codes of this many bits have the bits that the keys take: a Hash needs the `b` bits of
/// one key, a MultiHash the `nhash * b` bits of all its maps. The other kinds fit every `Dim`.
pub fn fits(spec: Spec, dim: Dim) -> bool
    ensures { result ≡ fits spec dim.bits }
{
    match spec.kind {
        Kind::Flat | Kind::Ivf(_) => true,
        Kind::Hash(b) => b <= dim.bits(),
        Kind::Multi(nhash, b) => u64::from(nhash) * u64::from(b) <= u64::from(dim.bits()),
    }
}
