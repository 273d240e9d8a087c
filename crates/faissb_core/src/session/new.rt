// The command `new`.
ghost use Rattle.std.specs.Prelude.{◌≡◌};
ghost use Rattle.faissb_core.specs.Machine.New.{new_index, word_of};
ghost use Rattle.faissb_core.specs.Session.Results.{Gives};

use super::halt::Halt;
use crate::{FactoryWord, Refusal};
use any_index::{AnyIndex, build};
use bcodes::{Dim, DimError};
use factory_text::{SpecError, fits, read_bytes};
use std::alloc::Global;

impl From<DimError> for Halt {
    ghost use Rattle.faissb_core.specs.declared.session.halt.Halt.TheVariants.{Refused};
    ghost use Rattle.faissb_core.specs.declared.reply.refusal.Refusal.TheVariants.{Dim as BadDim};

    ghost from_gives = { λ _ halt. halt ≡ Refused BadDim };

    fn from(_: DimError) -> Halt {
        Halt::Refused(Refusal::Dim)
    }
}

impl From<SpecError> for Halt {
    ghost use Rattle.faissb_core.specs.declared.session.halt.Halt.TheVariants.{Refused};
    ghost use Rattle.faissb_core.specs.declared.reply.refusal.Refusal.TheVariants.{Factory};
    ghost use Rattle.faissb_core.specs.Machine.New.{word_of};

    ghost from_gives = { λ error halt. halt ≡ Refused (Factory (word_of error)) };

    fn from(error: SpecError) -> Halt {
        Halt::Refused(Refusal::Factory(factory_word(error)))
    }
}

fn factory_word(error: SpecError) -> FactoryWord
    ensures { result ≡ word_of error }
{
    match error {
        SpecError::Unknown => FactoryWord::Unknown,
        SpecError::Number => FactoryWord::Number,
        SpecError::LeftOut => FactoryWord::LeftOut,
        SpecError::Nested => FactoryWord::Nested,
    }
}

/// An empty index of so many bits, as a factory text says.
pub fn new_index(alloc: Global, bits: u64, factory: &[u8]) -> Result<AnyIndex, Halt>
    ensures { Gives (λ index. index) (new_index bits factory.now) result }
{
    let dim = Dim::new(bits)?;
    let spec = read_bytes(factory)?;
    if !fits(spec, dim) {
        return Err(Refusal::Factory(FactoryWord::Misfit).into());
    }
    let index = build(alloc, spec, dim)?;
    Ok(index)
}
