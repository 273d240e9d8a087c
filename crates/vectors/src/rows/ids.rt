// Codes under ids of the caller.
use crate::row::Row;
use faissb_core::Status;

pub static ROWS: [Row; 6] = [
    // An IDMap needs ids. Hits at one distance come in order of addition.
    Row {
        pairs: &[
            ("new 16 IDMap,BFlat", "ok"),
            ("add 0000", "refused ids"),
            ("addids 7:0000 -3:0000 7:0100", "added 3 total 3"),
            ("search 3 0000", "hits 3 looked 3 exact\n7 0\n-3 0\n7 1"),
            ("reconstruct 0", "refused kind"),
        ],
        status: Status::Refused,
    },
    // A Flat takes no ids.
    Row {
        pairs: &[
            ("new 16 BFlat", "ok"),
            ("add 0000 0100 0300 ffff", "added 4 total 4"),
            ("nflip 1", "refused kind"),
            ("addids 1:0000", "refused ids"),
            ("addids 1:00", "refused code"),
            ("reconstruct 3", "code ffff"),
            ("reconstruct 4", "refused value"),
            ("search 1 0000", "hits 1 looked 4 exact\n0 0"),
        ],
        status: Status::Refused,
    },
    // What an id is.
    Row {
        pairs: &[
            ("new 8 IDMap2,BFlat", "ok"),
            (
                "addids 9223372036854775807:00 -9223372036854775808:01 0:03",
                "added 3 total 3",
            ),
            ("addids 9223372036854775808:00", "refused line"),
            ("addids -9223372036854775809:00", "refused line"),
            ("addids -0:00", "refused line"),
            ("addids 00:00", "refused line"),
            ("addids +1:00", "refused line"),
            ("addids 7", "refused line"),
            ("addids 7:", "refused line"),
            ("addids :00", "refused line"),
            ("addids", "refused line"),
            ("addids 1:2:3", "refused code"),
            ("addids 1:00 2:0", "refused code"),
            (
                "search 9 00",
                "hits 3 looked 3 exact\n9223372036854775807 0\n-9223372036854775808 1\n0 2",
            ),
        ],
        status: Status::Refused,
    },
    // The keys of a MultiHash under ids.
    Row {
        pairs: &[
            ("new 16 IDMap2,BHash2x8", "ok"),
            ("addids 1001:0100 1002:0101 1003:ffff", "added 3 total 3"),
            ("range 2 0000", "hits 1 looked 1 exact\n1001 1"),
            ("nflip 1", "ok"),
            ("range 4 0000", "hits 2 looked 2 exact\n1001 1\n1002 2"),
            ("nflip 9", "refused value"),
            ("search 3 ffff", "hits 1 looked 1 partial\n1003 0"),
        ],
        status: Status::Refused,
    },
    // The lists of an IVF under ids: its settings are those of the inner index.
    Row {
        pairs: &[
            ("new 8 IDMap,BIVF2", "ok"),
            ("addids 7:0f", "refused untrained"),
            ("add 0f", "refused ids"),
            ("centroids 00 ff", "centroids 2 of 2"),
            ("addids 7:0f -7:fe 7:01", "added 3 total 3"),
            ("search 3 00", "hits 2 looked 4 partial\n7 1\n7 4"),
            ("nprobe 2", "ok"),
            ("search 3 00", "hits 3 looked 5 exact\n7 1\n7 4\n-7 7"),
            ("maxcodes 1", "ok"),
            ("search 3 ff", "hits 1 looked 3 partial\n-7 1"),
            ("directmap on", "ok"),
            ("addids 5:00", "added 1 total 4"),
            ("reconstruct 0", "refused kind"),
            ("nflip 0", "refused kind"),
        ],
        status: Status::Refused,
    },
    // The buckets of a Hash under ids.
    Row {
        pairs: &[
            ("new 16 IDMap,BHash8", "ok"),
            ("addids 5:0000 5:0001 -5:0100", "added 3 total 3"),
            ("range 2 0000", "hits 2 looked 2 partial\n5 0\n5 1"),
            ("nflip 1", "ok"),
            ("range 2 0000", "hits 3 looked 3 exact\n5 0\n5 1\n-5 1"),
        ],
        status: Status::Fine,
    },
];
