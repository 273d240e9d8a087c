// Runs over devices that fail, and over reads and writes of all sizes.
ghost use Rattle.std.specs.Prelude.{◌<◌};

use crate::expect::{expect, expect_of};
use faissb_core::{Status, run, usage};
use outside::{Failed, MemSink, MemSource, Source, SureShelf};
use std::alloc::{AllocError, Global};
use std::process::Abort;
use std::test::Fail;

const SCRIPT: &str = "new 16 BFlat\nadd 0000 0100 0300 ffff\nsearch 2 0000\n";

const TEXT: &str = "ok\nadded 4 total 4\nhits 2 looked 4 exact\n0 0\n1 1\n";

/// A source that counts its reads, and keeps the size of the greatest buffer that it was handed.
#[derive(Debug, Drop)]
struct WatchedSource {
    inner: MemSource,
    reads: usize,
    greatest: usize,
}

impl WatchedSource {
    fn new(inner: MemSource) -> WatchedSource {
        WatchedSource {
            inner,
            reads: 0,
            greatest: 0,
        }
    }
}

impl Source for WatchedSource {
    ghost use Rattle.std.specs.Prelude.{Some};

    ghost left = { λ s. Some s.inner.left };

    ghost taken = { λ s. s.inner.taken };

    ghost faults = { λ s. s.inner.faults };

    fn read(&mut self, buf: &mut [u8]) -> Result<usize, Failed> {
        self.reads = self.reads.saturating_add(1);
        self.greatest = self.greatest.max(buf.len());
        self.inner.read(buf)
    }
}

// A run under words that are parted by spaces.
fn run_under<S: Source>(
    alloc: Global,
    words: &str,
    source: &mut S,
    sink: &mut MemSink,
) -> Result<Status, Fail> {
    let mut list = Vec::new(alloc);
    for word in words.split(' ') {
        list.push(String::from_str(alloc, word)?)?;
    }
    Ok(run(alloc, &list, source, sink, &mut SureShelf::new(alloc)))
}

// The most bytes of a read, and the numbers of the read and of the write that fail.
#[derive(Clone, Copy)]
struct Devices {
    most: usize,
    read: u64,
    write: u64,
}

// The number of no read and of no write.
const NEVER: u64 = u64::MAX;

// What is written of a script, and how its run ends.
fn answer_over(alloc: Global, devices: Devices, script: &str) -> Result<(String, Status), Fail>
    requires { 0 < devices.most }
{
    let mut source = MemSource::new(alloc, script.as_bytes())?;
    source.most(devices.most);
    source.fail_at(devices.read)?;
    let mut sink = MemSink::new(alloc);
    sink.fail_at(devices.write)?;
    let status = run_under(alloc, "script", &mut source, &mut sink)?;
    let text = std::str::from_utf8(sink.as_slice())?;
    Ok((String::from_str(alloc, text)?, status))
}

// What is written of the script of all these tests, and how its run ends.
fn check_over<R: Abort>(
    rt: &R,
    alloc: Global,
    devices: Devices,
    text: &str,
    status: Status,
) -> Result<(), Fail>
    requires { 0 < devices.most }
{
    let (written, ended) = answer_over(alloc, devices, SCRIPT)?;
    expect(rt, (written.as_str(), ended), (text, status));
    Ok(())
}

#[test]
fn answers_do_not_depend_on_the_reads(rt: HostRuntime) -> Result<(), Fail> {
    for most in [1, 2, 3, 17, 65_536] {
        let devices = Devices {
            most,
            read: NEVER,
            write: NEVER,
        };
        check_over(&rt, rt.alloc(), devices, TEXT, Status::Fine)?;
    }
    Ok(())
}

// The lines of the script have 13, 24 and 14 bytes. So reads of 3 bytes end them in reads 4, 12 and
// 16, from 0.
fn text_before_read(call: u64) -> &'static str {
    match call {
        0..=4 => "",
        5..=12 => "ok\n",
        13..=16 => "ok\nadded 4 total 4\n",
        _ => TEXT,
    }
}

#[test]
fn a_read_that_fails_ends_the_run(rt: HostRuntime) -> Result<(), Fail> {
    for read in 0..19 {
        // Read 17 meets the end of the script.
        let status = if read <= 17 {
            Status::ScriptFault
        } else {
            Status::Fine
        };
        let devices = Devices {
            most: 3,
            read,
            write: NEVER,
        };
        check_over(&rt, rt.alloc(), devices, text_before_read(read), status)?;
    }
    Ok(())
}

#[test]
fn a_write_that_fails_ends_the_run(rt: HostRuntime) -> Result<(), Fail> {
    for (write, status, text) in [
        (0, Status::OutputFault, ""),
        (1, Status::OutputFault, "ok\n"),
        (2, Status::OutputFault, "ok\nadded 4 total 4\n"),
        (3, Status::Fine, TEXT),
    ] {
        let devices = Devices {
            most: 65_536,
            read: NEVER,
            write,
        };
        check_over(&rt, rt.alloc(), devices, text, status)?;
    }
    Ok(())
}

// Twice the script. Its first 64 bytes are four whole lines, and its first 80 are them and a part
// of the fifth.
fn long_source(alloc: Global, most: usize) -> Result<WatchedSource, AllocError>
    requires { 0 < most }
{
    let script = format!(in alloc; "{SCRIPT}{SCRIPT}")?;
    let mut source = MemSource::new(alloc, script.as_bytes())?;
    source.most(most);
    Ok(WatchedSource::new(source))
}

// What is written of twice the script, how its run ends, and the number of its reads.
fn check_long<R: Abort>(
    rt: &R,
    alloc: Global,
    devices: Devices,
    expected: (&str, Status, usize),
) -> Result<(), Fail>
    requires { 0 < devices.most }
{
    let mut source = long_source(alloc, devices.most)?;
    source.inner.fail_at(devices.read)?;
    let mut sink = MemSink::new(alloc);
    sink.fail_at(devices.write)?;
    let status = run_under(alloc, "script", &mut source, &mut sink)?;
    let text = std::str::from_utf8(sink.as_slice())?;
    assert_eq!(rt; (text, status, source.reads), expected);
    Ok(())
}

#[test]
fn lines_are_answered_before_the_next_read(rt: HostRuntime) -> Result<(), Fail> {
    for most in [64, 80] {
        let devices = Devices {
            most,
            read: NEVER,
            write: 3,
        };
        check_long(&rt, rt.alloc(), devices, (TEXT, Status::OutputFault, 1))?;
    }
    let text = format!(in rt.alloc(); "{TEXT}ok\n")?;
    for most in [64, 80] {
        let devices = Devices {
            most,
            read: 1,
            write: NEVER,
        };
        check_long(
            &rt,
            rt.alloc(),
            devices,
            (text.as_str(), Status::ScriptFault, 2),
        )?;
    }
    Ok(())
}

// What is written of a script, how its run ends, and the greatest read of it.
fn check_greatest<R: Abort>(rt: &R, alloc: Global, script: &str) -> Result<(), Fail> {
    let mut source = WatchedSource::new(MemSource::new(alloc, script.as_bytes())?);
    let mut sink = MemSink::new(alloc);
    let status = run_under(alloc, "script", &mut source, &mut sink)?;
    let text = std::str::from_utf8(sink.as_slice())?;
    expect(rt, (text, status), (TEXT, Status::Fine));
    assert!(rt; source.greatest <= 65_536);
    Ok(())
}

#[test]
fn one_read_takes_at_most_65_536_bytes(rt: HostRuntime) -> Result<(), Fail> {
    let comment = "#".repeat(rt.alloc(), 200_000)?;
    let script = format!(in rt.alloc(); "{comment}\n{SCRIPT}")?;
    check_greatest(&rt, rt.alloc(), script.as_str())
}

// A run under words, of which the sink then has this text.
fn check_words<R: Abort>(
    rt: &R,
    alloc: Global,
    words: &str,
    devices: (&mut MemSource, &mut MemSink),
    expected: (&str, Status),
) -> Result<(), Fail> {
    let (source, sink) = devices;
    let status = run_under(alloc, words, source, sink)?;
    let text = std::str::from_utf8(sink.as_slice())?;
    expect_of(rt, (text, status), expected, words);
    Ok(())
}

fn run_without_words(alloc: Global, source: &mut MemSource, sink: &mut MemSink) -> Status {
    run(alloc, &[], source, sink, &mut SureShelf::new(alloc))
}

#[test]
fn wrong_words_touch_nothing(rt: HostRuntime) -> Result<(), Fail> {
    let mut source = MemSource::new(rt.alloc(), SCRIPT.as_bytes())?;
    let mut sink = MemSink::new(rt.alloc());
    let status = run_without_words(rt.alloc(), &mut source, &mut sink);
    assert!(rt; status == Status::Usage);
    for words in [
        "",
        "scrip",
        "Script",
        "script x",
        "script script",
        "check",
        "sample 1",
    ] {
        let devices = (&mut source, &mut sink);
        check_words(&rt, rt.alloc(), words, devices, ("", Status::Usage))?;
    }
    // The source still has the whole script.
    let devices = (&mut source, &mut sink);
    check_words(&rt, rt.alloc(), "script", devices, (TEXT, Status::Fine))
}

// What a search for 3,000 equal codes is answered, behind the answers to `new` and `add`.
fn long_text(alloc: Global) -> Result<String, AllocError> {
    let mut text = String::from_str(
        alloc,
        "ok\nadded 3000 total 3000\nhits 3000 looked 3000 exact\n",
    )?;
    for label in 0..3_000 {
        text.push_str(&format!(in alloc; "{label} 0\n")?)?;
    }
    Ok(text)
}

// A script of which a write fails: how it ends, and how much of the text was written.
fn check_cut<R: Abort>(
    rt: &R,
    alloc: Global,
    write: u64,
    texts: (&str, &str),
    expected: (Status, usize),
) -> Result<(), Fail> {
    let devices = Devices {
        most: 65_536,
        read: NEVER,
        write,
    };
    let (script, text) = texts;
    let (status, len) = expected;
    let (written, ended) = answer_over(alloc, devices, script)?;
    let front = text.get(..len).unwrap_or("");
    expect(rt, (written.as_str(), ended), (front, status));
    Ok(())
}

#[test]
fn a_long_reply_goes_out_in_pieces(rt: HostRuntime) -> Result<(), Fail> {
    let codes = " 00".repeat(rt.alloc(), 3_000)?;
    let script = format!(in rt.alloc(); "new 8 BFlat\nadd{codes}\nsearch 3000 00\n")?;
    let text = long_text(rt.alloc())?;
    assert!(rt; text.len() == 19_943);
    // The last reply has 19,918 bytes, behind 25 of the replies before it: two pieces of 8,192, and
    // the rest.
    for (write, status, len) in [
        (2, Status::OutputFault, 25),
        (3, Status::OutputFault, 8_217),
        (4, Status::OutputFault, 16_409),
        (5, Status::Fine, 19_943),
    ] {
        let texts = (script.as_str(), text.as_str());
        check_cut(&rt, rt.alloc(), write, texts, (status, len))?;
    }
    Ok(())
}

#[test]
fn statuses_and_usage(rt: HostRuntime) {
    for (status, code) in [
        (Status::Fine, 0),
        (Status::Refused, 1),
        (Status::Usage, 2),
        (Status::ScriptFault, 3),
        (Status::OutputFault, 4),
        (Status::ShelfFault, 5),
        (Status::Memory, 6),
        (Status::TooLong, 7),
    ] {
        assert_eq!(rt; status.code(), code);
    }
    assert_eq!(rt;
        usage(),
        "usage: faissb script | check NAME | sample SEED COUNT"
    );
}
