// Scripts that load.
use crate::bytes::{DIRECT, FLAT, HASH, IVF, MAPPED, MULTI, TURNED};
use crate::file_row::FileRow;
use crate::pairs::Pair;
use faissb_core::Status;

const HASH_LINES: &[Pair] = &[
    ("load f", "loaded 3"),
    ("range 1 0000", "hits 1 looked 2 exact\n0 0"),
    ("range 2 0000", "hits 2 looked 2 partial\n0 0\n1 1"),
    ("search 2 0000", "hits 2 looked 2 partial\n0 0\n1 1"),
    ("search 1 0000", "hits 1 looked 2 exact\n0 0"),
    ("save f", "saved 118"),
];

// What is saved again is the file that was loaded, the free order of buckets included.
pub static ROWS: [FileRow; 9] = [
    FileRow {
        before: Some(FLAT),
        pairs: &[
            ("load f", "loaded 1"),
            ("search 1 ab", "hits 1 looked 1 exact\n0 0"),
            ("save f", "saved 34"),
        ],
        after: Some(FLAT),
        status: Status::Fine,
    },
    FileRow {
        before: Some(HASH),
        pairs: HASH_LINES,
        after: Some(HASH),
        status: Status::Fine,
    },
    FileRow {
        before: Some(TURNED),
        pairs: HASH_LINES,
        after: Some(TURNED),
        status: Status::Fine,
    },
    FileRow {
        before: Some(MULTI),
        pairs: &[
            ("load f", "loaded 3"),
            ("range 1 0100", "hits 3 looked 3 exact\n0 0\n1 0\n2 0"),
            ("save f", "saved 120"),
        ],
        after: Some(MULTI),
        status: Status::Fine,
    },
    FileRow {
        before: Some(IVF),
        pairs: &[
            ("load f", "loaded 1"),
            ("search 1 ff", "hits 0 looked 2 partial"),
            ("nprobe 2", "ok"),
            ("search 1 ff", "hits 1 looked 3 exact\n0 4"),
            ("nprobe 1", "ok"),
            ("save f", "saved 142"),
        ],
        after: Some(IVF),
        status: Status::Fine,
    },
    FileRow {
        before: Some(DIRECT),
        pairs: &[
            ("load f", "loaded 2"),
            ("reconstruct 0", "code 0f"),
            ("reconstruct 1", "code ff"),
            ("save f", "saved 167"),
        ],
        after: Some(DIRECT),
        status: Status::Fine,
    },
    FileRow {
        before: Some(MAPPED),
        pairs: &[
            ("load f", "loaded 1"),
            ("search 1 ab", "hits 1 looked 1 exact\n-1 0"),
            ("save f", "saved 75"),
        ],
        after: Some(MAPPED),
        status: Status::Fine,
    },
    // A limit on codes is in no file.
    FileRow {
        before: None,
        pairs: &[
            ("new 8 BIVF2", "ok"),
            ("centroids 00 ff", "centroids 2 of 2"),
            ("add 0f", "added 1 total 1"),
            ("maxcodes 1", "ok"),
            ("save f", "saved 142"),
            ("nprobe 2", "ok"),
            ("add ff", "added 1 total 2"),
            ("search 2 00", "hits 1 looked 3 partial\n0 4"),
            ("load f", "loaded 1"),
            ("nprobe 2", "ok"),
            ("add ff", "added 1 total 2"),
            ("search 2 00", "hits 2 looked 4 exact\n0 4\n1 8"),
        ],
        after: Some(IVF),
        status: Status::Fine,
    },
    // A load that is refused leaves the index.
    FileRow {
        before: Some(b"IBx"),
        pairs: &[
            ("new 16 BFlat", "ok"),
            ("add 0000 0100 0300 ffff", "added 4 total 4"),
            ("load a", "refused nofile"),
            ("load f", "refused file short at 0"),
            ("load", "refused line"),
            ("load .f", "refused line"),
            ("search 1 0000", "hits 1 looked 4 exact\n0 0"),
        ],
        after: Some(b"IBx"),
        status: Status::Refused,
    },
];
