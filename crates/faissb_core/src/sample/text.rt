// The line that `sample` writes.
ghost use Rattle.std.specs.Prelude.{◌≡◌, ◌≤◌, IfOk, IsErrOf, OnOk, string_bytes};
ghost use Rattle.std.specs.Io.KnownBytes.{Appends};
ghost use Rattle.outside.specs.Causes.{HasCause};
ghost use Rattle.faissb_core.specs.Reply.Sent.{AppendsFront};
ghost use Rattle.faissb_core.specs.Machine.Sample.{sample_tally, sample_text, tally_line};

use super::index::sample_index;
use super::queries::{QUERIES, ask_all};
use super::tally::Tally;
use crate::reply::send_piece;
use outside::{Sink, Trouble};
use std::alloc::{AllocError, Global};

fn tally_line(alloc: Global, count: u64, tally: Tally) -> Result<String, AllocError>
    ensures { IfOk result (λ line. string_bytes line ≡ tally_line count 64 tally) }
{
    let Tally {
        hits,
        looked,
        exact,
    } = tally;
    let line = format!(in alloc;
        "sample codes {count} queries {QUERIES} hits {hits} looked {looked} exact {exact}\n"
    )?;
    Ok(line)
}

// The tally of the queries to the index of so many codes.
fn sample_tally(alloc: Global, seed: u64, count: u64) -> Result<Tally, AllocError>
    requires { count ≤ 1000000 }
    ensures { IfOk result (λ tally. tally ≡ sample_tally seed count) }
{
    let index = sample_index(alloc, seed, count)?;
    let tally = ask_all(alloc, &index, seed, count)?;
    Ok(tally)
}

// Asks an index of so many generated codes, and writes what that comes to.
#[tactic(auto, unfolding(crate::specs::Machine::Sample::sample_text))]
pub fn write_sample<K: Sink>(
    alloc: Global,
    seed: u64,
    count: u64,
    out: &mut K,
) -> Result<(), Trouble>
    requires { count ≤ 1000000 }
    ensures ok { OnOk result (Appends (K.written out.old) (K.written out.new)
        (sample_text seed count)) }
    ensures front { AppendsFront (K.written out.old) (K.written out.new)
        (sample_text seed count) }
    ensures cause { HasCause (K.faults out.old) (K.faults out.new)
        (IsErrOf result Trouble.Failed) }
    ensures faultless { OnOk result (K.faults out.new ≡ K.faults out.old) }
    ensures memory_is_no_fault { IsErrOf result Trouble.Memory
        → K.faults out.new ≡ K.faults out.old }
{
    let tally = sample_tally(alloc, seed, count)?;
    let line = tally_line(alloc, count, tally)?;
    send_piece(out, line.as_bytes())?;
    Ok(())
}
