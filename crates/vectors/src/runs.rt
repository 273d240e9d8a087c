// The run of one script.
ghost use Rattle.std.specs.Prelude.{◌≡◌, ◌≢◌, ◌≤◌, IfOk, length, string_bytes};
ghost use Rattle.outside.specs.Contents.{no_contents};
ghost use Rattle.faissb_core.specs.Machine.Script.{script_text, script_refuses};
ghost use Rattle.faissb_core.specs.Runs.Limits.{script_limit};
ghost use Rattle.faissb_core.specs.Runs.Statuses.{status_for};

use faissb_core::{Status, run};
use outside::{SureShelf, SureSink, SureSource};
use std::alloc::Global;
use std::test::Fail;

// The replies to a script, and how its run ends. No device fails here, so they are those of the
// plain machine if memory does not run out.
pub fn answer(alloc: Global, script: &[u8]) -> Result<(String, Status), Fail>
    ensures text { length script.now ≤ script_limit → IfOk result (λ answered.
        answered.1 ≢ Status.Memory
        → string_bytes answered.0 ≡ script_text script.now no_contents.files) }
    ensures status { length script.now ≤ script_limit → IfOk result (λ answered.
        answered.1 ≢ Status.Memory
        → answered.1 ≡ status_for (script_refuses script.now no_contents.files)) }
{
    let words = vec![in alloc; String::from_str(alloc, "script")?]?;
    let mut source = SureSource::new(alloc, script)?;
    let mut sink = SureSink::new(alloc);
    let mut shelf = SureShelf::new(alloc);
    let status = run(alloc, &words, &mut source, &mut sink, &mut shelf);
    let text = std::str::from_utf8(sink.as_slice())?;
    Ok((String::from_str(alloc, text)?, status))
}
