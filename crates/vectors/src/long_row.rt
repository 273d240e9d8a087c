// Scripts too long to be written out, each with its replies.
use crate::expect::expect;
use crate::pieces::{Piece, text_of};
use crate::runs::answer;
use faissb_core::Status;
use std::alloc::Global;
use std::process::Abort;
use std::test::Fail;

pub struct LongRow {
    pub script: &'static [Piece],
    pub replies: &'static str,
    pub status: Status,
}

// A script is answered so.
pub fn check_script<R: Abort>(
    rt: &R,
    alloc: Global,
    script: &str,
    replies: &str,
    status: Status,
) -> Result<(), Fail> {
    let (text, ended) = answer(alloc, script.as_bytes())?;
    expect(rt, (text.as_str(), ended), (replies, status));
    Ok(())
}

pub fn check_long<R: Abort>(rt: &R, alloc: Global, rows: &[LongRow]) -> Result<(), Fail> {
    for row in rows {
        let script = text_of(alloc, row.script)?;
        check_script(rt, alloc, script.as_str(), row.replies, row.status)?;
    }
    Ok(())
}
