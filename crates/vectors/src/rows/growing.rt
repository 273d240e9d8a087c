// Searches that allow as many flips as they need.
use crate::row::Row;
use faissb_core::Status;

pub static ROWS: [Row; 3] = [
    // A round of no flips, and one of one.
    Row {
        pairs: &[
            ("new 16 BHash2x8", "ok"),
            ("add 0100 0101", "added 2 total 2"),
            ("nearest 1 0000", "hits 1 looked 1 exact\n0 1"),
            ("nearest 2 0000", "hits 2 looked 2 exact\n0 1\n1 2"),
            ("search 2 0000", "hits 1 looked 1 partial\n0 1"),
        ],
        status: Status::Fine,
    },
    // Outer ids, and an index without codes.
    Row {
        pairs: &[
            ("new 8 IDMap2,BHash1x8", "ok"),
            ("nearest 1 00", "hits 0 looked 0 exact"),
            ("addids 7:01 -7:00 9:ff", "added 3 total 3"),
            ("nearest 9 00", "hits 3 looked 3 exact\n-7 0\n7 1\n9 8"),
            ("nearest 1 fe", "hits 1 looked 1 exact\n9 1"),
        ],
        status: Status::Fine,
    },
    // Its refusals, in their order.
    Row {
        pairs: &[
            ("nearest 0 0", "refused none"),
            ("new 16 BHash8", "ok"),
            ("nearest 0 00", "refused code"),
            ("nearest 0 0000", "refused kind"),
            ("new 16 BHash2x8", "ok"),
            ("nearest 0 0000", "refused value"),
            ("nearest 1048577 0000", "refused value"),
            ("nearest 1", "refused line"),
        ],
        status: Status::Refused,
    },
];
