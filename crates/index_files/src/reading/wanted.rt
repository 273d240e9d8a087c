ghost use Rattle.std.specs.Prelude.{◌≡◌, IfOk, IsErrOf, IsTrue};
ghost use Rattle.file_parts.specs.Feeding.{GivesField, StaysOver, shelf_of};
ghost use Rattle.file_parts.specs.Fields.{must_be, number};

use file_parts::{Feed, PartError, Reason};
use outside::Shelf;

/// A number of eight bytes, of which one passes.
#[tactic(auto, using(file_parts::proofs::FeedLemmas::checked_gives))]
pub fn read_wanted<H: Shelf>(
    feed: &mut Feed<'_, H>,
    wanted: u64,
    reason: Reason,
) -> Result<u64, PartError>
    requires { IsTrue (H.is_reading (shelf_of feed.old)) }
    ensures gives { GivesField H.contents (λ n. n) (number 8 (must_be wanted reason))
        feed.old feed.new result }
    ensures shelf { StaysOver H.contents H.is_reading H.faults feed.old feed.new
        (IsErrOf result PartError.Failed) }
    ensures same { IfOk result (λ n. n ≡ wanted) }
{
    let at = feed.at();
    let n = feed.u64()?;
    if n != wanted {
        return Err(PartError::bad(at, reason));
    }
    Ok(n)
}
