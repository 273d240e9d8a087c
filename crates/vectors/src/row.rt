// Scripts of a few lines, each line with its reply.
use crate::expect::expect_of;
use crate::runs::answer;
use faissb_core::Status;
use std::alloc::{AllocError, Global};
use std::process::Abort;
use std::test::Fail;

// The pairs are the lines of a script, each with its reply. A reply lacks its last line feed here,
// and a line that is empty or a comment has the empty reply.
pub struct Row {
    pub pairs: &'static [(&'static str, &'static str)],
    pub status: Status,
}

// Appends a line, with its line feed.
fn push_line(text: &mut String, line: &str) -> Result<(), AllocError> {
    text.push_str(line)?;
    text.push('\n')
}

impl Row {
    fn script(&self, alloc: Global) -> Result<String, AllocError> {
        let mut script = String::new(alloc);
        for (line, _) in self.pairs {
            push_line(&mut script, line)?;
        }
        Ok(script)
    }

    fn replies(&self, alloc: Global) -> Result<String, AllocError> {
        let mut replies = String::new(alloc);
        for (_, reply) in self.pairs {
            if !reply.is_empty() {
                push_line(&mut replies, reply)?;
            }
        }
        Ok(replies)
    }
}

fn check_row<R: Abort>(rt: &R, alloc: Global, row: &Row) -> Result<(), Fail> {
    let script = row.script(alloc)?;
    let replies = row.replies(alloc)?;
    let (text, status) = answer(alloc, script.as_bytes())?;
    expect_of(
        rt,
        (text.as_str(), status),
        (replies.as_str(), row.status),
        script.as_str(),
    );
    Ok(())
}

pub(crate) fn check_rows<R: Abort>(rt: &R, alloc: Global, rows: &[Row]) -> Result<(), Fail> {
    for row in rows {
        check_row(rt, alloc, row)?;
    }
    Ok(())
}
