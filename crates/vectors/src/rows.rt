// Scripts of a few lines, by what they are about.
mod codes;
mod factories;
mod growing;
mod hashes;
mod ids;
mod indexes;
mod lines;
mod lists;
mod maps;
mod numbers;
mod queries;
mod refusals;
mod removals;
mod sessions;
mod shards;
mod shows;

use crate::row::check_rows;
use std::test::Fail;

#[test]
fn rows_are_answered(rt: HostRuntime) -> Result<(), Fail> {
    for rows in [
        codes::ROWS.as_slice(),
        factories::ROWS.as_slice(),
        growing::ROWS.as_slice(),
        hashes::ROWS.as_slice(),
        ids::ROWS.as_slice(),
        indexes::ROWS.as_slice(),
        lines::ROWS.as_slice(),
        lists::ROWS.as_slice(),
        maps::ROWS.as_slice(),
        numbers::ROWS.as_slice(),
        queries::ROWS.as_slice(),
        refusals::ROWS.as_slice(),
        removals::ROWS.as_slice(),
        sessions::ROWS.as_slice(),
        shards::ROWS.as_slice(),
        shows::ROWS.as_slice(),
    ] {
        check_rows(&rt, rt.alloc(), rows)?;
    }
    Ok(())
}
