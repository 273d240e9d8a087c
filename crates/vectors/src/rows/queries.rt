// Searches and range searches.
use crate::row::Row;
use faissb_core::Status;

pub static ROWS: [Row; 7] = [
    // The two nearest of four.
    Row {
        pairs: &[
            ("new 16 BFlat", "ok"),
            ("add 0000 0100 0300 ffff", "added 4 total 4"),
            ("search 2 0000", "hits 2 looked 4 exact\n0 0\n1 1"),
        ],
        status: Status::Fine,
    },
    // Fewer codes than were asked for.
    Row {
        pairs: &[
            ("new 16 BFlat", "ok"),
            ("add 0000 0100 0300 ffff", "added 4 total 4"),
            (
                "search 9 0000",
                "hits 4 looked 4 exact\n0 0\n1 1\n2 2\n3 16",
            ),
        ],
        status: Status::Fine,
    },
    // A hit of a range search has a distance strictly below the radius.
    Row {
        pairs: &[
            ("new 16 BFlat", "ok"),
            ("add 0000 0100 0300 ffff", "added 4 total 4"),
            ("range 0 0000", "hits 0 looked 4 exact"),
            ("range 1 0000", "hits 1 looked 4 exact\n0 0"),
            ("range 2 0000", "hits 2 looked 4 exact\n0 0\n1 1"),
            ("range 16 0000", "hits 3 looked 4 exact\n0 0\n1 1\n2 2"),
            (
                "range 17 0000",
                "hits 4 looked 4 exact\n0 0\n1 1\n2 2\n3 16",
            ),
        ],
        status: Status::Fine,
    },
    // Of two equal codes the one with the lower label comes first.
    Row {
        pairs: &[
            ("new 16 BFlat", "ok"),
            ("add 0100 0100", "added 2 total 2"),
            ("search 1 0100", "hits 1 looked 2 exact\n0 0"),
            ("search 2 0100", "hits 2 looked 2 exact\n0 0\n1 0"),
        ],
        status: Status::Fine,
    },
    // Hits come by distance, whatever the order in which their codes were added.
    Row {
        pairs: &[
            ("new 8 BFlat", "ok"),
            ("add ff 7f 3f 1f 0f 07 03 01 00", "added 9 total 9"),
            ("search 3 00", "hits 3 looked 9 exact\n8 0\n7 1\n6 2"),
            ("search 3 ff", "hits 3 looked 9 exact\n0 0\n1 1\n2 2"),
            ("range 3 00", "hits 3 looked 9 exact\n8 0\n7 1\n6 2"),
        ],
        status: Status::Fine,
    },
    // If several codes tie for the last place, the lowest labels are kept.
    Row {
        pairs: &[
            ("new 8 BFlat", "ok"),
            ("add 03 05 01 09 02 00 06", "added 7 total 7"),
            ("search 1 00", "hits 1 looked 7 exact\n5 0"),
            ("search 2 00", "hits 2 looked 7 exact\n5 0\n2 1"),
            ("search 4 00", "hits 4 looked 7 exact\n5 0\n2 1\n4 1\n0 2"),
            (
                "search 5 00",
                "hits 5 looked 7 exact\n5 0\n2 1\n4 1\n0 2\n1 2",
            ),
        ],
        status: Status::Fine,
    },
    // An index without codes.
    Row {
        pairs: &[
            ("new 8 BFlat", "ok"),
            ("search 1 00", "hits 0 looked 0 exact"),
            ("range 1 00", "hits 0 looked 0 exact"),
        ],
        status: Status::Fine,
    },
];
