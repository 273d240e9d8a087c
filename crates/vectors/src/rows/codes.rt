// Codes are read and added.
use crate::row::Row;
use faissb_core::Status;

pub static ROWS: [Row; 5] = [
    // The labels of a second `add` go on where those of the first ended.
    Row {
        pairs: &[
            ("new 8 BFlat", "ok"),
            ("add 01", "added 1 total 1"),
            ("add 03 00", "added 2 total 3"),
            ("search 3 03", "hits 3 looked 3 exact\n1 0\n0 1\n2 2"),
        ],
        status: Status::Fine,
    },
    // An `add` takes all of its codes or none.
    Row {
        pairs: &[
            ("new 8 BFlat", "ok"),
            ("add ab 0g", "refused code"),
            ("add ab 0", "refused code"),
            ("add ab 000", "refused code"),
            ("add ab", "added 1 total 1"),
            ("range 9 ab", "hits 1 looked 1 exact\n0 0"),
        ],
        status: Status::Refused,
    },
    // Digits of either case write the same code.
    Row {
        pairs: &[
            ("new 16 BFlat", "ok"),
            ("add ABcd abCD", "added 2 total 2"),
            ("range 1 AbCd", "hits 2 looked 2 exact\n0 0\n1 0"),
        ],
        status: Status::Fine,
    },
    // The bytes next to the digits are no digits.
    Row {
        pairs: &[
            ("new 8 BFlat", "ok"),
            ("add 0/", "refused code"),
            ("add 0:", "refused code"),
            ("add 0@", "refused code"),
            ("add 0G", "refused code"),
            ("add 0`", "refused code"),
            ("add 0g", "refused code"),
        ],
        status: Status::Refused,
    },
    // Each bit of a byte counts once, wherever it stands.
    Row {
        pairs: &[
            ("new 16 BFlat", "ok"),
            (
                "add 0000 0001 0002 0004 0008 0010 0020 0040 0080 0100 8000",
                "added 11 total 11",
            ),
            (
                "range 2 0000",
                "hits 11 looked 11 exact\n0 0\n1 1\n2 1\n3 1\n4 1\n5 1\n6 1\n7 1\n8 1\n9 1\n10 1",
            ),
            ("range 1 8000", "hits 1 looked 11 exact\n10 0"),
        ],
        status: Status::Fine,
    },
];
