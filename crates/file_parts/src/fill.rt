ghost use Rattle.std.specs.Prelude.{◌≡◌, ◌≤◌, IfOk, IsErrOf, IsTrue, length};
ghost use Rattle.outside.specs.Calls.{WhereTold};
ghost use Rattle.outside.specs.Causes.{CountsFailure};
ghost use Rattle.file_parts.specs.Ahead.{Fills};

use crate::ahead::Ahead;
use outside::{Shelf, Trouble};

/// Fills the buffer with the bytes that were read ahead, and then with those that are still to be
/// read. It gives the number of bytes, which is less than the buffer has only where the file ends.
pub(crate) fn fill<H: Shelf>(
    shelf: &mut H,
    ahead: &mut Ahead,
    into: &mut [u8],
) -> Result<usize, Trouble>
    requires { IsTrue (H.is_reading shelf.old) }
    ensures bound { IfOk result (λ n. n ≤ length into.old) }
    ensures contents { WhereTold (H.contents shelf.old) (H.contents shelf.new)
        (Fills ahead.old ahead.new into.new result) }
    ensures reading { H.is_reading shelf.new ≡ H.is_reading shelf.old }
    ensures cause { CountsFailure (H.faults shelf.old) (H.faults shelf.new)
        (IsErrOf result Trouble.Failed) }
{
    let mut got = 0;
    while got < into.len() {
        if !ahead.refill(shelf)? {
            return Ok(got);
        }
        got += ahead.take(&mut into[got..]);
    }
    Ok(got)
}
