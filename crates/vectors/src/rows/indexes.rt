// Indexes are made.
use crate::row::Row;
use faissb_core::Status;

pub static ROWS: [Row; 5] = [
    // All commands but `new` ask for an index.
    Row {
        pairs: &[
            ("add 00", "refused none"),
            ("search 1 00", "refused none"),
            ("range 1 00", "refused none"),
            ("new 8 BFlat", "ok"),
        ],
        status: Status::Refused,
    },
    // The bits of a code.
    Row {
        pairs: &[
            ("new 12 BFlat", "refused dim"),
            ("new 0 BFlat", "refused dim"),
            ("new 65544 BFlat", "refused dim"),
            ("new 65536 BFlat", "ok"),
            ("new 8 BFlat", "ok"),
        ],
        status: Status::Refused,
    },
    // The factory text matches whole, and is looked at after the bits.
    Row {
        pairs: &[
            ("new 16 BFlatt", "refused factory unknown"),
            ("new 16 BFla", "refused factory unknown"),
            ("new 16 bflat", "refused factory unknown"),
            ("new 16 BHNSW32", "refused factory leftout"),
            ("new 12 BFlatt", "refused dim"),
        ],
        status: Status::Refused,
    },
    // A new index has no codes, and the one before it is gone.
    Row {
        pairs: &[
            ("new 16 BFlat", "ok"),
            ("add 0000", "added 1 total 1"),
            ("new 8 BFlat", "ok"),
            ("search 1 00", "hits 0 looked 0 exact"),
            ("range 9 00", "hits 0 looked 0 exact"),
        ],
        status: Status::Fine,
    },
    // A `new` that is refused keeps the index.
    Row {
        pairs: &[
            ("new 8 BFlat", "ok"),
            ("add ab", "added 1 total 1"),
            ("new 12 BFlat", "refused dim"),
            ("new 16 BFlatt", "refused factory unknown"),
            ("search 1 ab", "hits 1 looked 1 exact\n0 0"),
        ],
        status: Status::Refused,
    },
];
