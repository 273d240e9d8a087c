// Lines that are applied one by one.
use faissb_core::{Refusal, Reply, Session, write_reply};
use outside::{MemSink, SureShelf};
use std::alloc::Global;
use std::process::Abort;
use std::test::Fail;

static LINES: [&str; 13] = [
    "new 8 BFlat",
    "add 0f ff",
    "# nothing",
    "range 5 00",
    "range 5 0",
    "new 8 IDMap,BIVF1",
    "centroids 00",
    "directmap on",
    "addids -7:0F",
    "search 1 00",
    "new 8 BFlat",
    "add 0F",
    "reconstruct 0",
];

const TEXT: &str = "ok\nadded 2 total 2\nhits 1 looked 2 exact\n0 4\nrefused code\n\
                    ok\ncentroids 1 of 1\nok\nadded 1 total 1\nhits 1 looked 2 exact\n-7 4\n\
                    ok\nadded 1 total 1\ncode 0f\nrefused load\n";

// Applies a line, and appends the reply to what was written.
fn apply(
    alloc: Global,
    session: &mut Session,
    shelf: &mut SureShelf,
    line: &str,
    sink: &mut MemSink,
) -> Result<(), Fail> {
    let reply = session.apply(alloc, line.as_bytes(), shelf)?;
    write_reply(alloc, &reply, sink)?;
    Ok(())
}

fn apply_all(alloc: Global, sink: &mut MemSink) -> Result<(), Fail> {
    let mut session = Session::new(alloc);
    let mut shelf = SureShelf::new(alloc);
    for line in LINES.iter() {
        apply(alloc, &mut session, &mut shelf, line, sink)?;
    }
    Ok(())
}

// The load limit takes a script of more than 189,000,000 bytes.
fn refuse_a_load(alloc: Global, sink: &mut MemSink) -> Result<(), Fail> {
    write_reply(alloc, &Reply::Refused(Refusal::Load), sink)?;
    Ok(())
}

fn expect_text<R: Abort>(rt: &R, sink: &MemSink) -> Result<(), Fail> {
    let text = std::str::from_utf8(sink.as_slice())?;
    assert_eq!(rt; text, TEXT);
    Ok(())
}

#[test]
fn lines_are_applied_one_by_one(rt: HostRuntime) -> Result<(), Fail> {
    let mut sink = MemSink::new(rt.alloc());
    apply_all(rt.alloc(), &mut sink)?;
    refuse_a_load(rt.alloc(), &mut sink)?;
    expect_text(&rt, &sink)
}
