// Scripts that save, and the file that they leave.
use crate::bytes::{DIRECT, FLAT, HASH, IVF, MAPPED, MULTI};
use crate::expect::expect_file;
use crate::file_row::FileRow;
use crate::runs::{check_script, shelf_with};
use faissb_core::Status;
use outside::MemShelf;
use std::test::Fail;

pub static ROWS: [FileRow; 11] = [
    FileRow {
        before: None,
        pairs: &[
            ("new 8 BFlat", "ok"),
            ("add ab", "added 1 total 1"),
            ("save f", "saved 34"),
        ],
        after: Some(FLAT),
        status: Status::Fine,
    },
    FileRow {
        before: None,
        pairs: &[
            ("new 16 BHash8", "ok"),
            ("add 0000 0001 0100", "added 3 total 3"),
            ("save f", "saved 118"),
        ],
        after: Some(HASH),
        status: Status::Fine,
    },
    FileRow {
        before: None,
        pairs: &[
            ("new 16 BHash2x8", "ok"),
            ("add 0100 0100 0100", "added 3 total 3"),
            ("save f", "saved 120"),
        ],
        after: Some(MULTI),
        status: Status::Fine,
    },
    FileRow {
        before: None,
        pairs: &[
            ("new 8 BIVF2", "ok"),
            ("centroids 00 ff", "centroids 2 of 2"),
            ("add 0f", "added 1 total 1"),
            ("save f", "saved 142"),
        ],
        after: Some(IVF),
        status: Status::Fine,
    },
    FileRow {
        before: None,
        pairs: &[
            ("new 8 BIVF2", "ok"),
            ("centroids 00 ff", "centroids 2 of 2"),
            ("add 0f ff", "added 2 total 2"),
            ("directmap on", "ok"),
            ("save f", "saved 167"),
        ],
        after: Some(DIRECT),
        status: Status::Fine,
    },
    FileRow {
        before: None,
        pairs: &[
            ("new 8 IDMap,BFlat", "ok"),
            ("addids -1:ab", "added 1 total 1"),
            ("save f", "saved 75"),
        ],
        after: Some(MAPPED),
        status: Status::Fine,
    },
    // The next three files are those of indexes that never had the codes that were removed.
    FileRow {
        before: None,
        pairs: &[
            ("new 8 BFlat", "ok"),
            ("add 00 ab 01", "added 3 total 3"),
            ("remove 0 2", "removed 2 total 1"),
            ("save f", "saved 34"),
            ("load f", "loaded 1"),
            ("search 1 ab", "hits 1 looked 1 exact\n0 0"),
        ],
        after: Some(FLAT),
        status: Status::Fine,
    },
    FileRow {
        before: None,
        pairs: &[
            ("new 8 BIVF2", "ok"),
            ("centroids 00 ff", "centroids 2 of 2"),
            ("addids 7:00 0:0f 9:ff", "added 3 total 3"),
            ("keep 0", "removed 2 total 1"),
            ("save f", "saved 142"),
            ("load f", "loaded 1"),
        ],
        after: Some(IVF),
        status: Status::Fine,
    },
    FileRow {
        before: None,
        pairs: &[
            ("new 8 IDMap,BFlat", "ok"),
            ("addids 3:00 -1:ab", "added 2 total 2"),
            ("removerange 0 4", "removed 1 total 1"),
            ("save f", "saved 75"),
            ("load f", "loaded 1"),
        ],
        after: Some(MAPPED),
        status: Status::Fine,
    },
    // A bucket with all codes, whose number is a power of two, has no file.
    FileRow {
        before: None,
        pairs: &[
            ("new 16 BHash2x8", "ok"),
            ("add 0100", "added 1 total 1"),
            ("save f", "refused bucketbits 0 1"),
            ("add 0101", "added 1 total 2"),
            ("save f", "refused bucketbits 0 2"),
        ],
        after: None,
        status: Status::Refused,
    },
    // A load needs no index, and a save does.
    FileRow {
        before: None,
        pairs: &[("save f", "refused none"), ("load f", "refused nofile")],
        after: None,
        status: Status::Refused,
    },
];

#[test]
fn a_multi_hash_under_outer_ids_is_saved(rt: HostRuntime) -> Result<(), Fail> {
    let zeros = "00".repeat(rt.alloc(), 30)?;
    let ones = "ff".repeat(rt.alloc(), 32)?;
    let script = format!(in rt.alloc();
        "new 256 IDMap2,BHash16x16\naddids 1001:0000{zeros} 1002:ff00{zeros} 1003:{ones}\n\
         nflip 1\nrange 32 0000{zeros}\nsave f\nshow\n"
    )?;
    let replies = "ok\nadded 3 total 3\nok\nhits 2 looked 2 exact\n1001 0\n1002 8\nsaved 641\n\
                   index IDMap2,BHash16x16\nd 256\ntotal 3\ntrained yes\nnhash 16\nb 16\nnflip 1\n\
                   bound 32\nbuckets 3 2 2 2 2 2 2 2 2 2 2 2 2 2 2 2\n";
    let mut shelf = MemShelf::new(rt.alloc());
    check_script(
        &rt,
        rt.alloc(),
        script.as_str(),
        &mut shelf,
        replies,
        Status::Fine,
    )?;
    assert_eq!(rt; shelf.get("f").unwrap_or(&[]).len(), 641);
    Ok(())
}

// A save takes the place of the file of its name, and of no other. A name has at most 64 bytes.
#[test]
fn names_of_files(rt: HostRuntime) -> Result<(), Fail> {
    let name = "Az09._-x".repeat(rt.alloc(), 8)?;
    let script = format!(in rt.alloc();
        "new 8 BFlat\nadd ab\nsave f\nsave .f\nsave f/g\nsave\nsave {name}\nsave {name}x\n"
    )?;
    let replies = "ok\nadded 1 total 1\nsaved 34\nrefused line\nrefused line\nrefused line\n\
                   saved 34\nrefused line\n";
    let mut shelf = shelf_with(rt.alloc(), b"old")?;
    shelf.put("g", b"other")?;
    check_script(
        &rt,
        rt.alloc(),
        script.as_str(),
        &mut shelf,
        replies,
        Status::Refused,
    )?;
    expect_file(&rt, &shelf, "f", Some(FLAT));
    expect_file(&rt, &shelf, "g", Some(b"other"));
    expect_file(&rt, &shelf, name.as_str(), Some(FLAT));
    Ok(())
}
