ghost use Rattle.std.specs.Prelude.{◌≡◌, Ok, IfOk, string_bytes};
ghost use Rattle.factory_text.specs.Kinds.{HasLegalNumbers};
ghost use Rattle.factory_text.specs.Printing.{prefix_text, kind_text, spec_text};
ghost use Rattle.factory_text.specs.Reading.{read_spec};

use crate::{Kind, Prefix, Spec, Text};
use bcodes::Want;
use std::alloc::Global;

fn prefix_str(prefix: Prefix) -> &'static str
    ensures { result.now ≡ prefix_text prefix }
{
    match prefix {
        Prefix::Plain => "",
        Prefix::Map => "IDMap,",
        Prefix::Map2 => "IDMap2,",
    }
}

fn written(alloc: Global, spec: Spec) -> Result<String, Want>
    ensures { IfOk result (λ written. string_bytes written ≡ spec_text spec) }
{
    let prefix = prefix_str(spec.prefix);
    let written = match spec.kind {
        Kind::Flat => format!(in alloc; "{prefix}BFlat")?,
        Kind::Ivf(nlist) => format!(in alloc; "{prefix}BIVF{nlist}")?,
        Kind::Hash(b) => format!(in alloc; "{prefix}BHash{b}")?,
        Kind::Multi(nhash, b) => format!(in alloc; "{prefix}BHash{nhash}x{b}")?,
    };
    Ok(written)
}

/// The text of a `Spec`. Where its numbers are in their ranges, `read` gives the `Spec` back.
///
/// # Errors
///
/// If memory runs out.
pub fn print(alloc: Global, spec: Spec) -> Result<Text, Want>
    ensures text { IfOk result (λ text. text ≡ spec_text spec) }
    ensures read_back { HasLegalNumbers spec.kind
        → IfOk result (λ text. read_spec text ≡ Ok spec) }
{
    let written = written(alloc, spec)?;
    Ok(Text::new(written))
}
