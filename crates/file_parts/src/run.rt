ghost use Rattle.std.specs.Prelude.{◌≡◌, IfOk, IfSome, IsErrOf, IsTrue, vec_len};
ghost use Rattle.outside.specs.Calls.{WhereTold};
ghost use Rattle.outside.specs.Causes.{CountsFailure};
ghost use Rattle.file_parts.specs.Ahead.{GivesRun};

use crate::ahead::{Ahead, PIECE};
use crate::fill::fill;
use outside::{Shelf, Trouble};
use std::alloc::Global;

/// The next `count` bytes, or `None` where the file ends before. Room is made for at most [`PIECE`]
/// bytes at a time, each time after as many were read.
pub(crate) fn read_run<H: Shelf>(
    alloc: Global,
    shelf: &mut H,
    ahead: &mut Ahead,
    count: u64,
) -> Result<Option<Vec<u8>>, Trouble>
    requires { IsTrue (H.is_reading shelf.old) }
    ensures count { IfOk result (λ found. IfSome found (λ bytes. vec_len bytes ≡ count)) }
    ensures contents { WhereTold (H.contents shelf.old) (H.contents shelf.new)
        (GivesRun (λ bytes. bytes.items) ahead.old ahead.new count result) }
    ensures reading { H.is_reading shelf.new ≡ H.is_reading shelf.old }
    ensures cause { CountsFailure (H.faults shelf.old) (H.faults shelf.new)
        (IsErrOf result Trouble.Failed) }
{
    let mut bytes = Vec::new(alloc);
    let mut buffer = [0; PIECE];
    let mut left = count;
    while left > 0 {
        let len = left.min(PIECE as u64) as usize;
        let piece = &mut buffer[..len];
        if fill(shelf, ahead, piece)? < len {
            return Ok(None);
        }
        bytes.reserve_exact(len)?;
        bytes.extend_from_slice(piece)?;
        left -= len as u64;
    }
    Ok(Some(bytes))
}
