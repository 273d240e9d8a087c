// A script over a shelf with one file or none.
use crate::expect::expect_file;
use crate::pairs::{Pair, replies_to, script_of};
use crate::runs::{check_script, shelf_with};
use crate::{loads, saves};
use faissb_core::Status;
use outside::MemShelf;
use std::alloc::{AllocError, Global};
use std::process::Abort;
use std::test::Fail;

// The file has the name `f`, before the script and after it.
pub struct FileRow {
    pub before: Option<&'static [u8]>,
    pub pairs: &'static [Pair],
    pub after: Option<&'static [u8]>,
    pub status: Status,
}

impl FileRow {
    fn shelf(&self, alloc: Global) -> Result<MemShelf, AllocError> {
        match self.before {
            Some(bytes) => shelf_with(alloc, bytes),
            None => Ok(MemShelf::new(alloc)),
        }
    }
}

fn check_row<R: Abort>(rt: &R, alloc: Global, row: &FileRow) -> Result<(), Fail> {
    let script = script_of(alloc, row.pairs)?;
    let replies = replies_to(alloc, row.pairs, row.pairs.len())?;
    let mut shelf = row.shelf(alloc)?;
    check_script(
        rt,
        alloc,
        script.as_str(),
        &mut shelf,
        replies.as_str(),
        row.status,
    )?;
    expect_file(rt, &shelf, "f", row.after);
    Ok(())
}

#[test]
fn files_are_saved_and_loaded(rt: HostRuntime) -> Result<(), Fail> {
    for rows in [saves::ROWS.as_slice(), loads::ROWS.as_slice()] {
        for row in rows {
            check_row(&rt, rt.alloc(), row)?;
        }
    }
    Ok(())
}
