// Runs of `sample`.
use crate::expect::{expect, expect_of};
use faissb_core::{Status, run};
use outside::{MemSink, SureShelf, SureSource};
use std::alloc::Global;
use std::process::Abort;
use std::test::Fail;

// A run under words that are parted by spaces. The source has a script, of which nothing is read.
fn sample_into(alloc: Global, words: &str, sink: &mut MemSink) -> Result<Status, Fail> {
    let mut list = Vec::new(alloc);
    for word in words.split(' ') {
        list.push(String::from_str(alloc, word)?)?;
    }
    let mut source = SureSource::new(alloc, b"new 8 BFlat\n")?;
    Ok(run(alloc, &list, &mut source, sink, &mut SureShelf::new(alloc)))
}

// Words, what a run under them writes, and how it ends.
//
// The lines of two runs were worked out from the generator by another program. Over one code, each
// query is that code with at most seven flips, of which the last key has at most one.
static SAMPLES: [(&str, &str, Status); 12] = [
    (
        "sample 1 1",
        "sample codes 1 queries 64 hits 64 looked 64 exact 64\n",
        Status::Fine,
    ),
    (
        "sample 9223372036854775807 64",
        "sample codes 64 queries 64 hits 64 looked 67 exact 64\n",
        Status::Fine,
    ),
    (
        "sample 1 100000",
        "sample codes 100000 queries 64 hits 64 looked 6702 exact 64\n",
        Status::Fine,
    ),
    (
        "sample 1 100000",
        "sample codes 100000 queries 64 hits 64 looked 6702 exact 64\n",
        Status::Fine,
    ),
    ("sample 1 0", "", Status::Usage),
    ("sample 1 1000001", "", Status::Usage),
    ("sample 01 5", "", Status::Usage),
    ("sample 9223372036854775808 5", "", Status::Usage),
    ("sample 1", "", Status::Usage),
    ("sample 1 5 5", "", Status::Usage),
    ("sample 1 +5", "", Status::Usage),
    ("sample  1", "", Status::Usage),
];

fn check_sample<R: Abort>(
    rt: &R,
    alloc: Global,
    words: &str,
    text: &str,
    status: Status,
) -> Result<(), Fail> {
    let mut sink = MemSink::new(alloc);
    let ended = sample_into(alloc, words, &mut sink)?;
    let written = std::str::from_utf8(sink.as_slice())?;
    expect_of(rt, (written, ended), (text, status), words);
    Ok(())
}

#[test]
fn samples_are_written(rt: HostRuntime) -> Result<(), Fail> {
    for (words, text, status) in SAMPLES.iter() {
        check_sample(&rt, rt.alloc(), words, text, *status)?;
    }
    Ok(())
}

#[test]
fn a_sink_that_fails_ends_a_sample(rt: HostRuntime) -> Result<(), Fail> {
    let mut sink = MemSink::new(rt.alloc());
    sink.fail_at(0)?;
    let status = sample_into(rt.alloc(), "sample 1 1", &mut sink)?;
    let written = std::str::from_utf8(sink.as_slice())?;
    expect(&rt, (written, status), ("", Status::OutputFault));
    Ok(())
}
