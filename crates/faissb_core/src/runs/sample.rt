// The run of `sample`.
ghost use Rattle.std.specs.Prelude.{◌≡◌, ◌≤◌};
ghost use Rattle.outside.specs.Causes.{CountsFailure};
ghost use Rattle.faissb_core.specs.Machine.Sample.{sample_text};
ghost use Rattle.faissb_core.specs.Runs.SampleRun.{IsSampleStatus, SampleLeaves};

use super::fault::Fault;
use super::status::Status;
use crate::sample::write_sample;
use outside::Sink;
use std::alloc::Global;

pub fn run_sample<K: Sink>(alloc: Global, seed: u64, count: u64, out: &mut K) -> Status
    requires { count ≤ 1000000 }
    ensures run { SampleLeaves result (sample_text seed count)
        (K.written out.old) (K.written out.new) }
    ensures output { CountsFailure (K.faults out.old) (K.faults out.new)
        (result ≡ Status.OutputFault) }
    ensures kind { IsSampleStatus result }
{
    match write_sample(alloc, seed, count, out) {
        Ok(()) => Status::Fine,
        Err(trouble) => Status::from(Fault::from(trouble)),
    }
}
