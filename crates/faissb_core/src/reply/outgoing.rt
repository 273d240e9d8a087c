// Text on its way out: whole pieces are sent, and less than a piece is held.
ghost use Rattle.std.specs.Prelude.{◌≡◌, ◌<◌, ◌≤◌, OnOk, IsErrOf, vec_len, drop};
ghost use Rattle.outside.specs.Causes.{HasCause};
ghost use Rattle.faissb_core.specs.Reply.Sent.{AppendsFront, SendsPieces, piece_len};

use super::send::send_piece;
use crate::PIECE;
use outside::{Sink, Trouble};

fn cut_front(held: &mut Vec<u8>, at: usize)
    requires { at ≤ vec_len held.old }
    ensures { held.new.items ≡ drop at held.old.items }
{
    held.copy_within(at.., 0);
    held.truncate(held.len() - at);
}

// Sends the pieces that are whole. Nothing is moved if none is.
pub fn send_pieces<K: Sink>(held: &mut Vec<u8>, out: &mut K) -> Result<(), Trouble>
    ensures ok { OnOk result (SendsPieces (K.written out.old) (K.written out.new)
        held.new.items held.old.items) }
    ensures less_than_piece { OnOk result (vec_len held.new < piece_len) }
    ensures front { AppendsFront (K.written out.old) (K.written out.new) held.old.items }
    ensures cause { HasCause (K.faults out.old) (K.faults out.new)
        (IsErrOf result Trouble.Failed) }
    ensures faultless { OnOk result (K.faults out.new ≡ K.faults out.old) }
    ensures memory_is_no_fault { IsErrOf result Trouble.Memory
        → K.faults out.new ≡ K.faults out.old }
{
    let mut at = 0;
    while held.len() - at >= PIECE {
        send_piece(out, &held[at..at + PIECE])?;
        at += PIECE;
    }
    if at > 0 {
        cut_front(held, at);
    }
    Ok(())
}
