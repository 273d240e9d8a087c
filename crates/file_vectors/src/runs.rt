// Runs over files in memory.
use crate::expect::expect;
use faissb_core::{Status, run};
use outside::{MemShelf, SureSink, SureSource};
use std::alloc::{AllocError, Global};
use std::process::Abort;
use std::test::Fail;

/// A shelf with one file, of the name `f`.
pub fn shelf_with(alloc: Global, bytes: &[u8]) -> Result<MemShelf, AllocError> {
    let mut shelf = MemShelf::new(alloc);
    shelf.put("f", bytes)?;
    Ok(shelf)
}

/// What a run under words that are parted by spaces answers, and how it ends.
pub fn answer_over(
    alloc: Global,
    words: &str,
    script: &[u8],
    shelf: &mut MemShelf,
) -> Result<(String, Status), Fail> {
    let mut list = Vec::new(alloc);
    for word in words.split(' ') {
        list.push(String::from_str(alloc, word)?)?;
    }
    let mut source = SureSource::new(alloc, script)?;
    let mut sink = SureSink::new(alloc);
    let status = run(alloc, &list, &mut source, &mut sink, shelf);
    let text = std::str::from_utf8(sink.as_slice())?;
    Ok((String::from_str(alloc, text)?, status))
}

/// Runs a script over a shelf.
pub(crate) fn check_script<R: Abort>(
    rt: &R,
    alloc: Global,
    script: &str,
    shelf: &mut MemShelf,
    replies: &str,
    status: Status,
) -> Result<(), Fail> {
    let (text, ended) = answer_over(alloc, "script", script.as_bytes(), shelf)?;
    expect(rt, (text.as_str(), ended), (replies, status), script);
    Ok(())
}
