// Commands on the files of a shelf.
ghost use Rattle.std.specs.Prelude.{◌≡◌, List, IsErrOf, is_some};
ghost use Rattle.bcodes.specs.Value.{IndexValue};
ghost use Rattle.outside.specs.Causes.{CountsFailure};
ghost use Rattle.faissb_core.specs.Language.Command.{Load, Save};
ghost use Rattle.faissb_core.specs.Language.Lines.{Whole};
ghost use Rattle.faissb_core.specs.Session.Applied.{Applies};
ghost use Rattle.faissb_core.specs.Session.Followed.{state_of};

use super::stop::Stop;
use crate::{Refusal, Reply};
use any_index::AnyIndex;
use bcodes::BinaryIndex;
use index_files::{LoadError, SaveError, decode, encode};
use outside::Shelf;
use std::alloc::Global;

/// The command `load`: the index of a file takes the place of the one before, which stays until the
/// new one is whole.
pub fn load<H: Shelf>(
    alloc: Global,
    index: &mut Option<AnyIndex>,
    name: &str,
    shelf: &mut H,
) -> Result<Reply, Stop>
    ensures applies { (shards : List IndexValue) → Applies (Whole (Load name.now))
        (state_of index.old shards) (state_of index.new shards)
        (H.contents shelf.old) (H.contents shelf.new) result }
    ensures tells { is_some (H.contents shelf.new) ≡ is_some (H.contents shelf.old) }
    ensures counts { CountsFailure (H.faults shelf.old) (H.faults shelf.new)
        (IsErrOf result Stop.ShelfFailed) }
{
    if !shelf.open(name)? {
        return Ok(Reply::Refused(Refusal::NoFile));
    }
    match decode(alloc, shelf) {
        Ok(loaded) => {
            let total = loaded.count();
            *index = Some(loaded);
            Ok(Reply::Loaded(total))
        }
        Err(LoadError::Bad(fault)) => Ok(Reply::Refused(Refusal::File(fault))),
        Err(LoadError::Failed) => Err(Stop::ShelfFailed),
        Err(LoadError::Memory) => Err(Stop::Memory),
    }
}

/// The command `save`.
pub fn save<H: Shelf>(
    alloc: Global,
    index: &Option<AnyIndex>,
    name: &str,
    shelf: &mut H,
) -> Result<Reply, Stop>
    ensures applies { (shards : List IndexValue) → Applies (Whole (Save name.now))
        (state_of index.now shards) (state_of index.now shards)
        (H.contents shelf.old) (H.contents shelf.new) result }
    ensures tells { is_some (H.contents shelf.new) ≡ is_some (H.contents shelf.old) }
    ensures counts { CountsFailure (H.faults shelf.old) (H.faults shelf.new)
        (IsErrOf result Stop.ShelfFailed) }
{
    let Some(index) = index else {
        return Ok(Reply::Refused(Refusal::NoIndex));
    };
    match encode(alloc, index, name, shelf) {
        Ok(len) => Ok(Reply::Saved(len)),
        Err(SaveError::BucketBits(wide)) => Ok(Reply::Refused(Refusal::BucketBits(wide))),
        Err(SaveError::Failed) => Err(Stop::ShelfFailed),
        Err(SaveError::Memory) => Err(Stop::Memory),
    }
}
