// What a run holds between two reads.
ghost use Rattle.std.specs.Prelude.{is_some, ◌≡◌, ◌≤◌, ◌++◌, OnOk, OnErr, IsErrOf, length, take};
ghost use Rattle.std.specs.Prelude.{vec_len};
ghost use Rattle.outside.specs.Causes.{CountsFailure};
ghost use Rattle.outside.specs.Contents.{Files, Fits};
ghost use Rattle.faissb_core.specs.Language.Lines.{is_load};
ghost use Rattle.faissb_core.specs.Runs.Limits.{line_kept};
ghost use Rattle.faissb_core.specs.Runs.Progress.{nothing_held, hold, beside, fed_loads};
ghost use Rattle.faissb_core.specs.Runs.Progress.{last_loads};
ghost use Rattle.faissb_core.specs.Runs.Outcomes.{EndsLine, Feeds, Finishes};

use super::fault::Fault;
use crate::language::cut_at;
use crate::{Session, write_reply};
use outside::{Shelf, Sink};
use std::alloc::{AllocError, Global};
use std::marker::Model;

// One byte more than a line may have, so that a longer line is known as such.
const LINE_KEPT: usize = 1_048_577;

// Holds more of a line, but no more than is kept.
#[tactic(auto, using(crate::proofs::RunLemmas::Kept::extend_kept))]
fn extend_kept(line: &mut Vec<u8>, part: &[u8]) -> Result<(), AllocError>
    requires { vec_len line.old ≤ line_kept }
    ensures ok { OnOk result (line.new.items ≡ take line_kept (line.old.items ++ part.now)) }
    ensures line_fits { vec_len line.new ≤ line_kept }
    ensures err { OnErr result (line.new.items ≡ line.old.items) }
{
    let room = LINE_KEPT - line.len();
    line.extend_from_slice(&part[..part.len().min(room)])?;
    Ok(())
}

#[derive(Drop)]
pub struct Running {
    session: Session,
    line: Vec<u8>,
    refused: bool,
}

impl Model for Running {
    ghost use Rattle.std.specs.Prelude.{◌≤◌, vec_len};
    ghost use Rattle.faissb_core.specs.Runs.Limits.{line_kept};
    ghost use Rattle.faissb_core.specs.Runs.Progress.{Held};

    ghost Value = { Held };

    ghost view = { λ r. record { state = r.session; line = r.line.items; refused = r.refused } };

    ghost invariant = { λ r. vec_len r.line ≤ line_kept };
}

impl Running {
    pub fn new(alloc: Global) -> Running
        ensures { result ≡ nothing_held }
    {
        Running {
            session: Session::new(alloc),
            line: Vec::new(alloc),
            refused: false,
        }
    }

    // An `Err` changes nothing.
    fn hold(&mut self, part: &[u8]) -> Result<(), AllocError>
        ensures ok { OnOk result (self.new ≡ hold self.old part.now) }
        ensures line_fits { length self.new.line ≤ line_kept }
        ensures err { OnErr result (self.new ≡ self.old) }
    {
        extend_kept(&mut self.line, part)
    }

    // The held line has ended: it is applied and answered.
    fn end_line<H: Shelf, K: Sink>(
        &mut self,
        alloc: Global,
        out: &mut K,
        shelf: &mut H,
    ) -> Result<(), Fault>
        ensures line { (files : Files) → Fits files (H.contents shelf.old) (is_load self.old.line)
            → EndsLine (beside self.old files) self.new
            (record { written = K.written out.old; contents = H.contents shelf.old })
            (record { written = K.written out.new; contents = H.contents shelf.new }) result }
        ensures line_fits { OnOk result (length self.new.line ≤ line_kept) }
        ensures tells { is_some (H.contents shelf.new) ≡ is_some (H.contents shelf.old) }
        ensures shelf { CountsFailure (H.faults shelf.old) (H.faults shelf.new)
            (IsErrOf result Fault.Shelf) }
        ensures output { CountsFailure (K.faults out.old) (K.faults out.new)
            (IsErrOf result Fault.Output) }
    {
        let reply = self.session.apply(alloc, &self.line, shelf)?;
        self.line.clear();
        if reply.is_refused() {
            self.refused = true;
        }
        write_reply(alloc, &reply, out)?;
        Ok(())
    }

    // Goes on by more bytes of the script, and applies each line that ends in them.
    pub fn feed<H: Shelf, K: Sink>(
        &mut self,
        alloc: Global,
        bytes: &[u8],
        out: &mut K,
        shelf: &mut H,
    ) -> Result<(), Fault>
        ensures lines { (files : Files)
            → Fits files (H.contents shelf.old) (fed_loads (beside self.old files) bytes.now)
            → Feeds (beside self.old files) bytes.now self.new
            (record { written = K.written out.old; contents = H.contents shelf.old })
            (record { written = K.written out.new; contents = H.contents shelf.new }) result }
        ensures tells { is_some (H.contents shelf.new) ≡ is_some (H.contents shelf.old) }
        ensures shelf { CountsFailure (H.faults shelf.old) (H.faults shelf.new)
            (IsErrOf result Fault.Shelf) }
        ensures output { CountsFailure (K.faults out.old) (K.faults out.new)
            (IsErrOf result Fault.Output) }
    {
        // Opened, so that the line is known to fit.
        let _ = &self.line;
        let mut rest = bytes;
        while let Some((line, more)) = cut_at(rest, b'\n') {
            self.hold(line)?;
            self.end_line(alloc, out, shelf)?;
            rest = more;
        }
        self.hold(rest)?;
        Ok(())
    }

    // Applies the line that the end of the input ends, and says whether any line was refused.
    pub fn finish<H: Shelf, K: Sink>(
        &mut self,
        alloc: Global,
        out: &mut K,
        shelf: &mut H,
    ) -> Result<bool, Fault>
        ensures end { (files : Files) → Fits files (H.contents shelf.old) (last_loads self.old)
            → Finishes (beside self.old files)
            (record { written = K.written out.old; contents = H.contents shelf.old })
            (record { written = K.written out.new; contents = H.contents shelf.new }) result }
        ensures tells { is_some (H.contents shelf.new) ≡ is_some (H.contents shelf.old) }
        ensures shelf { CountsFailure (H.faults shelf.old) (H.faults shelf.new)
            (IsErrOf result Fault.Shelf) }
        ensures output { CountsFailure (K.faults out.old) (K.faults out.new)
            (IsErrOf result Fault.Output) }
    {
        if !self.line.is_empty() {
            self.end_line(alloc, out, shelf)?;
        }
        Ok(self.refused)
    }
}
