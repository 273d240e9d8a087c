// The run of a script, and the top call.
ghost use Rattle.std.specs.Prelude.{◌≡◌, ◌≢◌, ◌<◌, ◌≤◌, ◌↔◌, ◌+◌, List, ℕ, None, Some, is_some};
ghost use Rattle.std.specs.Prelude.{length, map, string_bytes};
ghost use Rattle.std.specs.Io.KnownBytes.{Appends};
ghost use Rattle.outside.specs.Causes.{CountsFailure, Rose};
ghost use Rattle.outside.specs.Contents.{Files, HasFiles, Fits};
ghost use Rattle.faissb_core.specs.Language.Lines.{lines};
ghost use Rattle.faissb_core.specs.Machine.State.{start};
ghost use Rattle.faissb_core.specs.Language.Words.{Word};
ghost use Rattle.faissb_core.specs.Machine.Legal.{HoldBytes};
ghost use Rattle.faissb_core.specs.Machine.Script.{check_script, script_files, script_refuses};
ghost use Rattle.faissb_core.specs.Machine.Script.{script_text};
ghost use Rattle.faissb_core.specs.Machine.Sample.{sample_text};
ghost use Rattle.faissb_core.specs.Machine.Marked.{AllMarkedAreScans};
ghost use Rattle.faissb_core.specs.Machine.Marked.{AllWithinBoundAreExact};
ghost use Rattle.faissb_core.specs.Runs.Limits.{script_limit, read_limit};
ghost use Rattle.faissb_core.specs.Runs.Words.{run_of, Check, Sample, Script};
ghost use Rattle.faissb_core.specs.Runs.Statuses.{IsCutShort, status_for};
ghost use Rattle.faissb_core.specs.Runs.Progress.{beside, last_loads, nothing_held};
ghost use Rattle.faissb_core.specs.Runs.InputEnd.{IsEndStatus, EndLeaves};
ghost use Rattle.faissb_core.specs.Runs.ScriptRun.{IsScriptRun, IsPast, loads};
ghost use Rattle.faissb_core.specs.Runs.CheckRun.{IsBytesRun};
ghost use Rattle.faissb_core.specs.Runs.SampleRun.{SampleLeaves};

use super::check::run_check;
use super::running::Running;
use super::sample::run_sample;
use super::status::Status;
use super::words::{Run, read_run};
use outside::{Failed, Shelf, Sink, Source};
use std::alloc::Global;

// The most bytes of a script.
const SCRIPT_LIMIT: u64 = 1_073_741_824;

// The most bytes of one read.
const READ_LIMIT: usize = 65_536;

// The input has ended.
pub fn end_run<K: Sink, H: Shelf>(
    alloc: Global,
    running: &mut Running,
    out: &mut K,
    shelf: &mut H,
) -> Status
    ensures end { (files : Files) → Fits files (H.contents shelf.old) (last_loads running.old)
        → EndLeaves result (beside running.old files)
        (record { written = K.written out.old; contents = H.contents shelf.old })
        (record { written = K.written out.new; contents = H.contents shelf.new }) }
    ensures kind { IsEndStatus result }
    ensures tells { is_some (H.contents shelf.new) ≡ is_some (H.contents shelf.old) }
    ensures output { CountsFailure (K.faults out.old) (K.faults out.new)
        (result ≡ Status.OutputFault) }
    ensures shelf { CountsFailure (H.faults shelf.old) (H.faults shelf.new)
        (result ≡ Status.ShelfFault) }
{
    match running.finish(alloc, out, shelf) {
        Ok(false) => Status::Fine,
        Ok(true) => Status::Refused,
        Err(fault) => Status::from(fault),
    }
}

// Applies every line that the taken bytes hold whole before it reads again.
fn run_lines<S: Source, K: Sink, H: Shelf>(
    alloc: Global,
    running: &mut Running,
    buf: &mut [u8],
    script: &mut S,
    out: &mut K,
    shelf: &mut H,
) -> Status
    requires first { running.old ≡ nothing_held }
    requires room { length buf.old ≡ read_limit }
    ensures run { IsScriptRun result
        (record { left = S.left script.old; taken = S.taken script.old })
        (record { left = S.left script.new; taken = S.taken script.new })
        (record { written = K.written out.old; contents = H.contents shelf.old })
        (record { written = K.written out.new; contents = H.contents shelf.new }) }
    ensures tells { is_some (H.contents shelf.new) ≡ is_some (H.contents shelf.old) }
    ensures script { CountsFailure (S.faults script.old) (S.faults script.new)
        (result ≡ Status.ScriptFault) }
    ensures output { CountsFailure (K.faults out.old) (K.faults out.new)
        (result ≡ Status.OutputFault) }
    ensures shelf { CountsFailure (H.faults shelf.old) (H.faults shelf.new)
        (result ≡ Status.ShelfFault) }
{
    let mut count = 0;
    while count <= SCRIPT_LIMIT {
        let len = match script.read(buf) {
            Ok(0) => return end_run(alloc, running, out, shelf),
            Ok(len) => len,
            Err(Failed) => return Status::ScriptFault,
        };
        count += len as u64;
        if let Err(fault) = running.feed(alloc, &buf[..len], out, shelf) {
            return Status::from(fault);
        }
    }
    Status::TooLong
}

#[tactic(auto, using(crate::proofs::RunLemmas::ScriptRun::run_nothing))]
fn run_script<S: Source, K: Sink, H: Shelf>(
    alloc: Global,
    script: &mut S,
    out: &mut K,
    shelf: &mut H,
) -> Status
    ensures run { IsScriptRun result
        (record { left = S.left script.old; taken = S.taken script.old })
        (record { left = S.left script.new; taken = S.taken script.new })
        (record { written = K.written out.old; contents = H.contents shelf.old })
        (record { written = K.written out.new; contents = H.contents shelf.new }) }
    ensures not_usage { result ≢ Status.Usage }
    ensures tells { is_some (H.contents shelf.new) ≡ is_some (H.contents shelf.old) }
    ensures script { CountsFailure (S.faults script.old) (S.faults script.new)
        (result ≡ Status.ScriptFault) }
    ensures output { CountsFailure (K.faults out.old) (K.faults out.new)
        (result ≡ Status.OutputFault) }
    ensures shelf { CountsFailure (H.faults shelf.old) (H.faults shelf.new)
        (result ≡ Status.ShelfFault) }
{
    match vec![in alloc; 0u8; READ_LIMIT] {
        Ok(mut buf) => {
            let mut running = Running::new(alloc);
            run_lines(alloc, &mut running, &mut buf, script, out, shelf)
        }
        Err(_) => Status::Memory,
    }
}

/// Runs the program: all that it does, but for its exit status and the line of usage.
///
/// The words are those of the command line, without the program's name. The one word `script`
/// applies the lines of the source in order and writes the reply to each. A refused command changes
/// nothing, and the run goes on. The words `check NAME` apply the lines `load NAME` and `show`; the
/// source is not called. The words `sample SEED COUNT` ask an index of generated codes and write one
/// line of what that came to; the source and the shelf are not called. Any other words are answered
/// with [`Status::Usage`], and nothing is read or written.
///
/// One read takes at most 65,536 bytes, and every line that ends in them is applied and answered
/// before the next read. After more than 1,073,741,824 bytes nothing more is read.
///
/// # Errors
///
/// The run ends with the first read, write or call of the shelf that fails, or if memory runs out.
/// The status names the cause. All lines before it are then applied, and what was written of the
/// replies is a prefix of their text.
#[tactic(auto, using(crate::proofs::RunLemmas::Promises::marked_are_scans, crate::proofs::RunLemmas::Promises::within_bound_are_exact))]
pub fn run<S: Source, K: Sink, H: Shelf>(
    alloc: Global,
    words: &[String],
    script: &mut S,
    out: &mut K,
    shelf: &mut H,
) -> Status
    // Words that ask for no run are refused, and then nothing is touched.
    ensures usage { (result ≡ Status.Usage) ↔ (run_of (map string_bytes words.now) ≡ None) }
    ensures source_untouched { result ≡ Status.Usage → script.new ≡ script.old }
    ensures sink_untouched { result ≡ Status.Usage → out.new ≡ out.old }
    ensures shelf_untouched { result ≡ Status.Usage → shelf.new ≡ shelf.old }

    // What was taken, what was applied, and what was answered.
    ensures run { run_of (map string_bytes words.now) ≡ Some Script → IsScriptRun result
        (record { left = S.left script.old; taken = S.taken script.old })
        (record { left = S.left script.new; taken = S.taken script.new })
        (record { written = K.written out.old; contents = H.contents shelf.old })
        (record { written = K.written out.new; contents = H.contents shelf.new }) }
    ensures tells { is_some (H.contents shelf.new) ≡ is_some (H.contents shelf.old) }

    // The first failure ends the run: a count of faults rises only with the status of its device.
    ensures script { CountsFailure (S.faults script.old) (S.faults script.new)
        (result ≡ Status.ScriptFault) }
    ensures output { CountsFailure (K.faults out.old) (K.faults out.new)
        (result ≡ Status.OutputFault) }
    ensures shelf { CountsFailure (H.faults shelf.old) (H.faults shelf.new)
        (result ≡ Status.ShelfFault) }

    // A check applies its two lines, and does not call the source.
    ensures check { (name : Word) → run_of (map string_bytes words.now) ≡ Some (Check name)
        → IsBytesRun result (check_script name)
        (record { written = K.written out.old; contents = H.contents shelf.old })
        (record { written = K.written out.new; contents = H.contents shelf.new }) }
    ensures check_source { (name : Word) → run_of (map string_bytes words.now) ≡ Some (Check name)
        → script.new ≡ script.old }

    // A sample writes one line, and calls neither the source nor the shelf.
    ensures sample { (seed count : ℕ)
        → run_of (map string_bytes words.now) ≡ Some (Sample seed count)
        → SampleLeaves result (sample_text seed count) (K.written out.old) (K.written out.new) }
    ensures sample_source { (seed count : ℕ)
        → run_of (map string_bytes words.now) ≡ Some (Sample seed count)
        → script.new ≡ script.old }
    ensures sample_shelf { (seed count : ℕ)
        → run_of (map string_bytes words.now) ≡ Some (Sample seed count)
        → shelf.new ≡ shelf.old }

    // How much is read.
    ensures long { result ≡ Status.TooLong
        → IsPast script_limit (S.taken script.old) (S.taken script.new) }
    ensures short { S.taken script.old + script_limit < S.taken script.new → IsCutShort result }
    ensures reads { S.taken script.new ≤ S.taken script.old + script_limit + read_limit }

    // Each answer of the machine that is marked as exact is that of a full scan.
    ensures marked { (bytes : List ℕ) (files : Files) → HoldBytes files
        → AllMarkedAreScans start files (lines bytes) }

    // Each range search of a MultiHash up to its bound is marked as exact by the machine.
    ensures within_bound { (bytes : List ℕ) (files : Files)
        → AllWithinBoundAreExact start files (lines bytes) }

    // Where the objects tell and nothing fails, it is the plain machine. A shelf need not tell
    // where no line reads a file.
    ensures answers { (bytes : List ℕ) (files : Files)
        → run_of (map string_bytes words.now) ≡ Some Script
        → S.left script.old ≡ Some bytes → Fits files (H.contents shelf.old) (loads bytes)
        → length bytes ≤ script_limit
        → ¬ Rose (S.faults script.old) (S.faults script.new)
        → ¬ Rose (K.faults out.old) (K.faults out.new)
        → ¬ Rose (H.faults shelf.old) (H.faults shelf.new)
        → result ≢ Status.Memory
        → Appends (K.written out.old) (K.written out.new) (script_text bytes files)
        × HasFiles (script_files bytes files) (H.contents shelf.new)
        × (result ≡ status_for (script_refuses bytes files)) }

    // So it is with a check.
    ensures check_answers { (name : Word) (files : Files)
        → run_of (map string_bytes words.now) ≡ Some (Check name)
        → Fits files (H.contents shelf.old) (loads (check_script name))
        → ¬ Rose (K.faults out.old) (K.faults out.new)
        → ¬ Rose (H.faults shelf.old) (H.faults shelf.new)
        → result ≢ Status.Memory
        → Appends (K.written out.old) (K.written out.new) (script_text (check_script name) files)
        × HasFiles (script_files (check_script name) files) (H.contents shelf.new)
        × (result ≡ status_for (script_refuses (check_script name) files)) }

    // Where the sink does not fail and memory lasts, the line of a sample is written whole.
    ensures sample_answers { (seed count : ℕ)
        → run_of (map string_bytes words.now) ≡ Some (Sample seed count)
        → ¬ Rose (K.faults out.old) (K.faults out.new)
        → result ≢ Status.Memory
        → Appends (K.written out.old) (K.written out.new) (sample_text seed count)
        × (result ≡ Status.Fine) }
{
    match read_run(words) {
        Some(Run::Script) => run_script(alloc, script, out, shelf),
        Some(Run::Check(name)) => run_check(alloc, name, out, shelf),
        Some(Run::Sample(seed, count)) => run_sample(alloc, seed, count, out),
        None => Status::Usage,
    }
}
