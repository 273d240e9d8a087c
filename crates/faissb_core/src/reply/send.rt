// Bytes are sent whole, or an error stops them.
ghost use Rattle.std.specs.Prelude.{◌≡◌, ◌<◌, ◌≤◌, length, take, OnOk, IsErrOf};
ghost use Rattle.std.specs.Io.KnownBytes.{Appends};
ghost use Rattle.outside.specs.Causes.{HasCause};
ghost use Rattle.faissb_core.specs.Reply.Sent.{AppendsFront};

use outside::{Sink, Trouble};

// Offers again what a write did not take. An empty piece is not offered.
#[tactic(auto, using(crate::proofs::ReplyLemmas::SentLemmas::appends_take, crate::proofs::ReplyLemmas::SentLemmas::appends_so_far))]
pub fn send_piece<K: Sink>(out: &mut K, piece: &[u8]) -> Result<(), Trouble>
    ensures ok { OnOk result (Appends (K.written out.old) (K.written out.new) piece.now) }
    ensures front { AppendsFront (K.written out.old) (K.written out.new) piece.now }
    ensures cause { HasCause (K.faults out.old) (K.faults out.new)
        (IsErrOf result Trouble.Failed) }
    ensures faultless { OnOk result (K.faults out.new ≡ K.faults out.old) }
    ensures memory_is_no_fault { IsErrOf result Trouble.Memory
        → K.faults out.new ≡ K.faults out.old }
{
    let mut at = 0;
    while at < piece.len() {
        at += out.write(&piece[at..])?;
    }
    Ok(())
}
