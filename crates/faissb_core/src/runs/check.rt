// The run of `check`.
ghost use Rattle.std.specs.Prelude.{◌≡◌, IfOk, is_some, string_bytes};
ghost use Rattle.outside.specs.Causes.{CountsFailure};
ghost use Rattle.faissb_core.specs.Machine.Script.{check_script};
ghost use Rattle.faissb_core.specs.Runs.CheckRun.{IsBytesRun};

use super::running::Running;
use super::script::end_run;
use super::status::Status;
use outside::{Shelf, Sink};
use std::alloc::{AllocError, Global};

// The lines that a check applies.
fn check_script(alloc: Global, name: &str) -> Result<String, AllocError>
    ensures { IfOk result (λ script. string_bytes script ≡ check_script name.now) }
{
    let script = format!(in alloc; "load {name}\nshow\n")?;
    Ok(script)
}

// Applies the lines of these bytes, from no index on.
fn run_bytes<K: Sink, H: Shelf>(alloc: Global, bytes: &[u8], out: &mut K, shelf: &mut H) -> Status
    ensures run { IsBytesRun result bytes.now
        (record { written = K.written out.old; contents = H.contents shelf.old })
        (record { written = K.written out.new; contents = H.contents shelf.new }) }
    ensures tells { is_some (H.contents shelf.new) ≡ is_some (H.contents shelf.old) }
    ensures output { CountsFailure (K.faults out.old) (K.faults out.new)
        (result ≡ Status.OutputFault) }
    ensures shelf { CountsFailure (H.faults shelf.old) (H.faults shelf.new)
        (result ≡ Status.ShelfFault) }
{
    let mut running = Running::new(alloc);
    if let Err(fault) = running.feed(alloc, bytes, out, shelf) {
        return Status::from(fault);
    }
    end_run(alloc, &mut running, out, shelf)
}

/// Loads the file of this name and shows the index, as a script of these two commands does.
#[tactic(auto, using(crate::proofs::RunLemmas::CheckRun::no_bytes))]
pub fn run_check<K: Sink, H: Shelf>(alloc: Global, name: &str, out: &mut K, shelf: &mut H) -> Status
    ensures run { IsBytesRun result (check_script name.now)
        (record { written = K.written out.old; contents = H.contents shelf.old })
        (record { written = K.written out.new; contents = H.contents shelf.new }) }
    ensures tells { is_some (H.contents shelf.new) ≡ is_some (H.contents shelf.old) }
    ensures output { CountsFailure (K.faults out.old) (K.faults out.new)
        (result ≡ Status.OutputFault) }
    ensures shelf { CountsFailure (H.faults shelf.old) (H.faults shelf.new)
        (result ≡ Status.ShelfFault) }
{
    match check_script(alloc, name) {
        Ok(script) => run_bytes(alloc, script.as_bytes(), out, shelf),
        Err(_) => Status::Memory,
    }
}
