// Hash: codes in buckets by the key of their first bits.
use crate::row::Row;
use faissb_core::Status;

pub static ROWS: [Row; 6] = [
    // The key has the first eight bits. A code in another bucket is not read.
    Row {
        pairs: &[
            ("new 16 BHash8", "ok"),
            ("add 0000 0001 0100", "added 3 total 3"),
            ("range 1 0000", "hits 1 looked 2 exact\n0 0"),
            ("range 2 0000", "hits 2 looked 2 partial\n0 0\n1 1"),
            ("search 2 0000", "hits 2 looked 2 partial\n0 0\n1 1"),
            ("search 1 0000", "hits 1 looked 2 exact\n0 0"),
            ("nflip 9", "refused value"),
            ("nflip 1", "ok"),
            ("range 2 0000", "hits 3 looked 3 exact\n0 0\n1 1\n2 1"),
            ("nflip 0", "ok"),
            ("range 2 0000", "hits 2 looked 2 partial\n0 0\n1 1"),
        ],
        status: Status::Refused,
    },
    // Keys of a whole code of 64 bits, and a walk in which all patterns are too many.
    Row {
        pairs: &[
            ("new 64 BHash64", "ok"),
            (
                "add 0000000000000000 ffffffffffffffff 0123456789abcdef",
                "added 3 total 3",
            ),
            ("search 1 0123456789abcdef", "hits 1 looked 1 exact\n2 0"),
            ("nflip 64", "ok"),
            (
                "range 65 0000000000000000",
                "hits 3 looked 3 exact\n0 0\n2 32\n1 64",
            ),
            ("nflip 65", "refused value"),
        ],
        status: Status::Refused,
    },
    // A key of one bit, which is the lowest of byte 0.
    Row {
        pairs: &[
            ("new 16 BHash1", "ok"),
            ("add fe00 ff00 0100 0001", "added 4 total 4"),
            ("range 20 0000", "hits 2 looked 2 partial\n3 1\n0 7"),
            ("range 20 0100", "hits 2 looked 2 partial\n2 0\n1 7"),
            ("nflip 1", "ok"),
            ("search 9 0000", "hits 4 looked 4 exact\n2 1\n3 1\n0 7\n1 8"),
        ],
        status: Status::Fine,
    },
    // Ids may repeat and may be negative, and a code without an id is numbered by the count.
    Row {
        pairs: &[
            ("new 8 BHash4", "ok"),
            ("addids 9:00 -9:00 9:00", "added 3 total 3"),
            ("add 00", "added 1 total 4"),
            ("search 9 00", "hits 4 looked 4 exact\n-9 0\n3 0\n9 0\n9 0"),
        ],
        status: Status::Fine,
    },
    // Rows of one bucket that came in turns with rows of another.
    Row {
        pairs: &[
            ("new 16 BHash8", "ok"),
            ("add 0001 ff01 0003 ff03 0007 ff07", "added 6 total 6"),
            ("add 000f ff0f 0000", "added 3 total 9"),
            (
                "search 5 0000",
                "hits 5 looked 5 partial\n8 0\n0 1\n2 2\n4 3\n6 4",
            ),
            (
                "range 3 ff03",
                "hits 4 looked 4 partial\n3 0\n1 1\n5 1\n7 2",
            ),
            ("range 1 ff03", "hits 1 looked 4 exact\n3 0"),
        ],
        status: Status::Fine,
    },
    // A Hash without codes, and what it has not.
    Row {
        pairs: &[
            ("new 8 BHash8", "ok"),
            ("search 1 00", "hits 0 looked 0 exact"),
            ("range 9 00", "hits 0 looked 0 exact"),
            ("centroids 00", "refused kind"),
            ("nprobe 1", "refused kind"),
            ("maxcodes 1", "refused kind"),
            ("directmap on", "refused kind"),
            ("reconstruct 0", "refused kind"),
            ("nflip 8", "ok"),
        ],
        status: Status::Refused,
    },
];
