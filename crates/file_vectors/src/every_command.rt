// A script of every command, over devices of which one call fails.
ghost use Rattle.std.specs.Prelude.{◌<◌};

use crate::bytes::{DIRECT, FLAT, MULTI};
use crate::expect::{expect, expect_at, expect_file};
use crate::pairs::{Pair, replies_to, script_of};
use crate::short_sink::ShortSink;
use faissb_core::{Status, run};
use outside::{MemShelf, MemSink, MemSource, Sink, Source};
use std::alloc::{AllocError, Global};
use std::process::Abort;
use std::test::Fail;

// Each line with its reply.
static LINES: [Pair; 36] = [
    ("# files", ""),
    ("new 8 BFlat", "ok"),
    ("add ab 00", "added 2 total 2"),
    ("remove 1", "removed 1 total 1"),
    ("save a", "saved 34"),
    ("add 01 03", "added 2 total 3"),
    ("keep 0 2", "removed 1 total 2"),
    ("removerange 1 9", "removed 1 total 1"),
    ("load a", "loaded 1"),
    ("reconstruct 0", "code ab"),
    ("search 1 aa", "hits 1 looked 1 exact\n0 1"),
    ("shard", "shards 1 total 1"),
    ("new 8 BFlat", "ok"),
    ("add ff", "added 1 total 1"),
    ("shard", "shards 2 total 2"),
    ("shardsearch 1 ff", "hits 1 looked 2 exact\n1 0"),
    ("shardrange 1 ab", "hits 1 looked 2 exact\n0 0"),
    ("unshard", "ok"),
    ("new 8 BIVF2", "ok"),
    ("centroids 00 ff", "centroids 2 of 2"),
    ("addids 0:0f 1:ff", "added 2 total 2"),
    ("nprobe 1", "ok"),
    ("maxcodes 9", "ok"),
    ("directmap on", "ok"),
    ("save b", "saved 167"),
    ("new 16 BHash2x8", "ok"),
    ("nflip 1", "ok"),
    ("add 0100 0100 0100", "added 3 total 3"),
    ("nearest 1 0100", "hits 1 looked 3 exact\n0 0"),
    ("range 1 0100", "hits 3 looked 3 exact\n0 0\n1 0\n2 0"),
    (
        "show",
        "index BHash2x8\nd 16\ntotal 3\ntrained yes\nnhash 2\nb 8\nnflip 1\nbound 4\nbuckets 1 1",
    ),
    ("nflip 0", "ok"),
    ("save c", "saved 120"),
    ("load b", "loaded 2"),
    ("save a", "saved 167"),
    ("load none", "refused nofile"),
];

fn script(alloc: Global) -> Result<String, AllocError> {
    script_of(alloc, &LINES)
}

// The replies to the first lines.
fn replies(alloc: Global, lines: usize) -> Result<String, AllocError> {
    replies_to(alloc, &LINES, lines)
}

// The number of lines whose replies, in their order, stand whole in so many bytes.
fn lines_within(len: usize) -> usize {
    let mut total: usize = 0;
    let mut lines: usize = 0;
    for (_, reply) in LINES.iter() {
        if !reply.is_empty() {
            total = total.saturating_add(reply.len()).saturating_add(1);
        }
        if total <= len {
            lines = lines.saturating_add(1);
        }
    }
    lines
}

// The number of writes of at most so many bytes that all replies take.
fn writes_of(most: usize) -> usize
    requires { 0 < most }
{
    let mut writes: usize = 0;
    for (_, reply) in LINES.iter() {
        if !reply.is_empty() {
            writes = writes.saturating_add(reply.len().saturating_add(1).div_ceil(most));
        }
    }
    writes
}

// Checks that the files are those that the first lines leave.
fn check_files<R: Abort>(rt: &R, shelf: &MemShelf, lines: usize) {
    let applied = LINES.iter().take(lines);
    let saves = applied.filter(|pair| pair.0.starts_with("save")).count();
    let (a, b, c) = match saves {
        0 => (None, None, None),
        1 => (Some(FLAT), None, None),
        2 => (Some(FLAT), Some(DIRECT), None),
        3 => (Some(FLAT), Some(DIRECT), Some(MULTI)),
        _ => (Some(DIRECT), Some(DIRECT), Some(MULTI)),
    };
    expect_file(rt, shelf, "a", a);
    expect_file(rt, shelf, "b", b);
    expect_file(rt, shelf, "c", c);
}

fn run_over<S: Source, K: Sink>(
    alloc: Global,
    source: &mut S,
    sink: &mut K,
    shelf: &mut MemShelf,
) -> Result<Status, Fail> {
    let words = vec![in alloc; String::from_str(alloc, "script")?]?;
    Ok(run(alloc, &words, source, sink, shelf))
}

// The number of lines that end in the first bytes.
fn lines_in(script: &str, len: usize) -> usize {
    script.bytes().take(len).filter(|b| *b == b'\n').count()
}

// The replies are those to the first lines, and the files those that these leave.
fn check_lines<R: Abort>(
    rt: &R,
    alloc: Global,
    found: (&str, Status),
    shelf: &MemShelf,
    lines: usize,
    status: Status,
) -> Result<(), Fail> {
    let replies = replies(alloc, lines)?;
    expect(rt, found, (replies.as_str(), status), "every command");
    check_files(rt, shelf, lines);
    Ok(())
}

fn check_read<R: Abort>(rt: &R, alloc: Global, script: &str, call: usize) -> Result<(), Fail> {
    let mut source = MemSource::new(alloc, script.as_bytes())?;
    source.most(7);
    source.fail_at(call as u64)?;
    let mut sink = MemSink::new(alloc);
    let mut shelf = MemShelf::new(alloc);
    let status = run_over(alloc, &mut source, &mut sink, &mut shelf)?;
    let text = std::str::from_utf8(sink.as_slice())?;
    let lines = lines_in(script, call.saturating_mul(7));
    check_lines(
        rt,
        alloc,
        (text, status),
        &shelf,
        lines,
        Status::ScriptFault,
    )
}

// The lines that were read whole are applied and answered. The last read meets the end.
#[test]
fn any_read_may_fail(rt: HostRuntime) -> Result<(), Fail> {
    let script = script(rt.alloc())?;
    for call in 0..=script.len().div_ceil(7) {
        check_read(&rt, rt.alloc(), script.as_str(), call)?;
    }
    Ok(())
}

// A run of which the write of this number fails. Writes take so many bytes at most.
fn written(
    alloc: Global,
    script: &str,
    most: usize,
    call: u64,
    shelf: &mut MemShelf,
) -> Result<(String, Status), Fail> {
    let mut source = MemSource::new(alloc, script.as_bytes())?;
    let mut sink = ShortSink::failing(alloc, most, call)?;
    let status = run_over(alloc, &mut source, &mut sink, shelf)?;
    let text = std::str::from_utf8(sink.as_slice())?;
    Ok((String::from_str(alloc, text)?, status))
}

fn check_write<R: Abort>(
    rt: &R,
    alloc: Global,
    texts: (&str, &str),
    most: usize,
    call: usize,
) -> Result<(), Fail> {
    let (script, replies) = texts;
    let mut shelf = MemShelf::new(alloc);
    let (text, status) = written(alloc, script, most, call as u64, &mut shelf)?;
    let front = replies.get(..text.len()).unwrap_or("");
    expect_at(
        rt,
        (text.as_str(), status),
        (front, Status::OutputFault),
        call as u64,
    );
    assert!(rt; text.len() <= call.saturating_mul(most));
    check_files(rt, &shelf, lines_within(text.len()).saturating_add(1));
    Ok(())
}

// A front of the replies was written. The line of the next reply was applied, and no later one.
#[test]
fn any_write_may_fail(rt: HostRuntime) -> Result<(), Fail> {
    let script = script(rt.alloc())?;
    let text = replies(rt.alloc(), 36)?;
    for most in [1, 7] {
        for call in 0..writes_of(most) {
            let texts = (script.as_str(), text.as_str());
            check_write(&rt, rt.alloc(), texts, most, call)?;
        }
    }
    Ok(())
}

fn check_short<R: Abort>(rt: &R, alloc: Global, script: &str, most: usize) -> Result<(), Fail>
    requires { 0 < most }
{
    let mut shelf = MemShelf::new(alloc);
    let calls = writes_of(most) as u64;
    let (text, status) = written(alloc, script, most, calls, &mut shelf)?;
    check_lines(
        rt,
        alloc,
        (text.as_str(), status),
        &shelf,
        36,
        Status::Refused,
    )
}

#[test]
fn writes_may_be_short(rt: HostRuntime) -> Result<(), Fail> {
    let script = script(rt.alloc())?;
    for most in [1, 7, 8_192] {
        check_short(&rt, rt.alloc(), script.as_str(), most)?;
    }
    Ok(())
}

// A run of which the call of the shelf of this number fails, and whether it fails with it.
fn fails_at<R: Abort>(rt: &R, alloc: Global, script: &str, call: u64) -> Result<bool, Fail> {
    let mut source = MemSource::new(alloc, script.as_bytes())?;
    let mut sink = MemSink::new(alloc);
    let mut shelf = MemShelf::new(alloc);
    shelf.fail_at(call)?;
    let status = run_over(alloc, &mut source, &mut sink, &mut shelf)?;
    let text = std::str::from_utf8(sink.as_slice())?;
    let lines = lines_within(text.len());
    let fails = status == Status::ShelfFault;
    let expected = if fails { status } else { Status::Refused };
    check_lines(rt, alloc, (text, status), &shelf, lines, expected)?;
    let is_there = if fails {
        is_file_line(lines)
    } else {
        lines == 36
    };
    assert!(rt; is_there, "call {call}");
    Ok(fails)
}

// Whether the line of this number, from 0 on, is a save or a load.
fn is_file_line(number: usize) -> bool {
    let line = LINES.get(number).map_or("", |(line, _)| *line);
    line.starts_with("save") || line.starts_with("load")
}

// The lines before a save or a load were applied and answered, and it left the files.
#[test]
fn any_call_of_the_shelf_may_fail(rt: HostRuntime) -> Result<(), Fail> {
    let script = script(rt.alloc())?;
    let mut failing = 0;
    for call in 0..200 {
        if fails_at(&rt, rt.alloc(), script.as_str(), call)? {
            assert!(rt; call == failing, "calls past the last one fail nothing");
            failing += 1;
        }
    }
    // Each save has at least three calls, and each load that finds a file two.
    assert!(rt; failing >= 4 * 3 + 2 * 2 + 1);
    Ok(())
}
