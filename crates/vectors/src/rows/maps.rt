// MultiHash: a code is found by any of several keys, and read once.
use crate::row::Row;
use faissb_core::Status;

pub static ROWS: [Row; 6] = [
    // The second code is at distance 2 and has no key of the query. With one flip both are met
    // by both keys, and each is read once.
    Row {
        pairs: &[
            ("new 16 BHash2x8", "ok"),
            ("add 0100 0101", "added 2 total 2"),
            ("range 2 0000", "hits 1 looked 1 exact\n0 1"),
            ("range 3 0000", "hits 1 looked 1 partial\n0 1"),
            ("nflip 1", "ok"),
            ("range 4 0000", "hits 2 looked 2 exact\n0 1\n1 2"),
        ],
        status: Status::Fine,
    },
    // Bits behind the keys count in distances alone.
    Row {
        pairs: &[
            ("new 24 BHash2x8", "ok"),
            ("add 0000ff 010100", "added 2 total 2"),
            ("range 9 000000", "hits 1 looked 1 partial\n0 8"),
            ("range 2 000000", "hits 0 looked 1 exact"),
        ],
        status: Status::Fine,
    },
    // One key alone reads what a Hash reads.
    Row {
        pairs: &[
            ("new 16 BHash1x8", "ok"),
            ("add 0000 0001 0100", "added 3 total 3"),
            ("range 1 0000", "hits 1 looked 2 exact\n0 0"),
            ("range 2 0000", "hits 2 looked 2 partial\n0 0\n1 1"),
            ("search 2 0000", "hits 2 looked 2 partial\n0 0\n1 1"),
            ("search 1 0000", "hits 1 looked 2 exact\n0 0"),
        ],
        status: Status::Fine,
    },
    // Equal codes, and keys of three bits that begin within a byte.
    Row {
        pairs: &[
            ("new 8 BHash2x3", "ok"),
            ("add 3f 3f 07 38 c0", "added 5 total 5"),
            ("search 9 3f", "hits 4 looked 4 partial\n0 0\n1 0\n2 3\n3 3"),
            ("range 2 3f", "hits 2 looked 4 exact\n0 0\n1 0"),
            ("search 2 3f", "hits 2 looked 4 exact\n0 0\n1 0"),
            ("search 1 00", "hits 1 looked 3 partial\n4 2"),
            ("nflip 3", "ok"),
            (
                "search 9 3f",
                "hits 5 looked 5 exact\n0 0\n1 0\n2 3\n3 3\n4 8",
            ),
            ("nflip 4", "refused value"),
        ],
        status: Status::Refused,
    },
    // No ids are taken, and nothing that an IVF has.
    Row {
        pairs: &[
            ("new 16 BHash2x8", "ok"),
            ("addids 1:0000", "refused ids"),
            ("search 1 0000", "hits 0 looked 0 exact"),
            ("nprobe 1", "refused kind"),
            ("reconstruct 0", "refused kind"),
            ("centroids 0000", "refused kind"),
        ],
        status: Status::Refused,
    },
    // A search that is full below the bound is marked, and one that is full at the bound is not.
    Row {
        pairs: &[
            ("new 16 BHash2x8", "ok"),
            ("add 0001 0003 0101", "added 3 total 3"),
            ("search 1 0000", "hits 1 looked 2 exact\n0 1"),
            ("search 2 0000", "hits 2 looked 2 partial\n0 1\n1 2"),
            ("range 2 0000", "hits 1 looked 2 exact\n0 1"),
            ("range 3 0000", "hits 2 looked 2 partial\n0 1\n1 2"),
        ],
        status: Status::Fine,
    },
];
