// The numbers of commands.
use crate::row::Row;
use faissb_core::Status;

pub static ROWS: [Row; 7] = [
    // The number of hits, at its limits.
    Row {
        pairs: &[
            ("new 8 BFlat", "ok"),
            ("add 00", "added 1 total 1"),
            ("search 1 00", "hits 1 looked 1 exact\n0 0"),
            ("search 1048576 00", "hits 1 looked 1 exact\n0 0"),
            ("search 1048577 00", "refused value"),
        ],
        status: Status::Refused,
    },
    // The radius, at its limits.
    Row {
        pairs: &[
            ("new 8 BFlat", "ok"),
            ("add ff", "added 1 total 1"),
            ("range 8 00", "hits 0 looked 1 exact"),
            ("range 9 00", "hits 1 looked 1 exact\n0 8"),
            ("range 2147483647 00", "hits 1 looked 1 exact\n0 8"),
            ("range 2147483648 00", "refused value"),
        ],
        status: Status::Refused,
    },
    // A number has at most 19 digits.
    Row {
        pairs: &[
            ("new 8 BFlat", "ok"),
            ("search 9999999999999999999 00", "refused value"),
            ("range 9999999999999999999 00", "refused value"),
            ("new 9999999999999999999 BFlat", "refused dim"),
        ],
        status: Status::Refused,
    },
    Row {
        pairs: &[
            ("new 8 BFlat", "ok"),
            ("search 10000000000000000000 00", "refused line"),
            ("range 10000000000000000000 00", "refused line"),
            ("new 10000000000000000000 BFlat", "refused line"),
        ],
        status: Status::Refused,
    },
    // 2 ^ 64 + 1 would be 1 in a number of 64 bits.
    Row {
        pairs: &[
            ("new 8 BFlat", "ok"),
            ("add 00", "added 1 total 1"),
            ("search 18446744073709551617 00", "refused line"),
        ],
        status: Status::Refused,
    },
    // 2 ^ 32 + 1 would be 1 in a number of 32 bits.
    Row {
        pairs: &[
            ("new 8 BFlat", "ok"),
            ("add 00", "added 1 total 1"),
            ("search 4294967297 00", "refused value"),
            ("range 4294967297 00", "refused value"),
            ("new 4294967304 BFlat", "refused dim"),
        ],
        status: Status::Refused,
    },
    // A number has no sign, no leading zero and no other byte.
    Row {
        pairs: &[
            ("new 8 BFlat", "ok"),
            ("search 01 00", "refused line"),
            ("search +1 00", "refused line"),
            ("search -1 00", "refused line"),
            ("search 1x 00", "refused line"),
            ("search 1,0 00", "refused line"),
            ("range 00 00", "refused line"),
            ("range 0x1 00", "refused line"),
            ("new 08 BFlat", "refused line"),
        ],
        status: Status::Refused,
    },
];
