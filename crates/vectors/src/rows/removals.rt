// Rows that are removed by their labels or ids.
use crate::row::Row;
use faissb_core::Status;

pub static ROWS: [Row; 4] = [
    // The codes of a Flat close up.
    Row {
        pairs: &[
            ("new 16 BFlat", "ok"),
            ("add 0000 0100 0300 ffff", "added 4 total 4"),
            ("remove 1 7 1", "removed 1 total 3"),
            ("search 9 0000", "hits 3 looked 3 exact\n0 0\n1 2\n2 16"),
            ("removerange 1 3", "removed 2 total 1"),
            ("add 0700", "added 1 total 2"),
            ("search 9 0000", "hits 2 looked 2 exact\n0 0\n1 3"),
            ("keep 5", "removed 2 total 0"),
        ],
        status: Status::Fine,
    },
    // Outer ids go with their codes.
    Row {
        pairs: &[
            ("new 16 IDMap,BFlat", "ok"),
            ("addids 7:0000 -3:0000 7:0100", "added 3 total 3"),
            ("remove 7", "removed 2 total 1"),
            ("removerange -3 -3", "removed 0 total 1"),
            ("search 3 0000", "hits 1 looked 1 exact\n-3 0"),
            ("removerange -3 -2", "removed 1 total 0"),
        ],
        status: Status::Fine,
    },
    // An IVF keeps labels, lists and order.
    Row {
        pairs: &[
            ("new 8 BIVF1", "ok"),
            ("centroids 00", "centroids 1 of 1"),
            ("addids 5:01 -2:03 5:07", "added 3 total 3"),
            ("keep -2", "removed 2 total 1"),
            ("add ff", "added 1 total 2"),
            ("search 3 00", "hits 2 looked 3 exact\n-2 2\n1 8"),
            ("directmap on", "refused sequential"),
            ("remove -2 1", "removed 2 total 0"),
            ("directmap on", "ok"),
            ("remove 1", "refused kind"),
        ],
        status: Status::Refused,
    },
    // Kinds that remove nothing, and lines that are no command.
    Row {
        pairs: &[
            ("remove 0", "refused none"),
            ("new 16 BHash8", "ok"),
            ("remove 0", "refused kind"),
            ("new 16 BHash2x8", "ok"),
            ("keep 0", "refused kind"),
            ("new 16 IDMap,BIVF1", "ok"),
            ("removerange 0 1", "refused kind"),
            ("remove", "refused line"),
            ("remove 1:0", "refused line"),
            ("removerange 1", "refused line"),
            ("removerange 1 2 3", "refused line"),
            ("keep 9223372036854775808", "refused line"),
        ],
        status: Status::Refused,
    },
];
