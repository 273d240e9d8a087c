// The sessions that the documents show, and the examples.
use crate::row::Row;
use faissb_core::Status;

pub static ROWS: [Row; 7] = [
    // The session of README.md.
    Row {
        pairs: &[
            ("# Pictures, each with a code of 32 bits.", ""),
            ("new 32 BFlat", "ok"),
            ("add 5ac30f81 5ac30f80 a53cf07e 5bc30f81", "added 4 total 4"),
            ("add 00ff00ff", "added 1 total 5"),
            ("search 3 5ac30f81", "hits 3 looked 5 exact\n0 0\n1 1\n3 1"),
            ("range 1 5ac30f81", "hits 1 looked 5 exact\n0 0"),
            ("search 2 5ac30f", "refused code"),
            ("search 1 A53CF07E", "hits 1 looked 5 exact\n2 0"),
        ],
        status: Status::Refused,
    },
    // The session of docs/SCRIPT.md.
    Row {
        pairs: &[
            ("search 1 00", "refused none"),
            ("new 16 BFlat", "ok"),
            ("add 00ff 00fe 00fc 0f0f", "added 4 total 4"),
            ("add 00ff 123", "refused code"),
            ("search 2 00ff", "hits 2 looked 4 exact\n0 0\n1 1"),
            ("search 9 00FF", "hits 4 looked 4 exact\n0 0\n1 1\n2 2\n3 8"),
            ("range 1 00ff", "hits 1 looked 4 exact\n0 0"),
            ("range 2 00ff", "hits 2 looked 4 exact\n0 0\n1 1"),
            ("range 0 00ff", "hits 0 looked 4 exact"),
            ("search 0 00ff", "refused value"),
            ("search  1 00ff", "refused line"),
            ("new 12 BFlat", "refused dim"),
            ("new 16 BHNSW4", "refused factory leftout"),
            ("# the index is still there", ""),
            ("range 65 00ff", "hits 4 looked 4 exact\n0 0\n1 1\n2 2\n3 8"),
            ("new 8 BFlat", "ok"),
            ("search 1 7f", "hits 0 looked 0 exact"),
        ],
        status: Status::Refused,
    },
    // The second session of README.md.
    Row {
        pairs: &[
            ("new 32 BHash4x8", "ok"),
            (
                "add 5ac30f81 5ac30f80 a53cf07e 5bc30f81 00ff00ff",
                "added 5 total 5",
            ),
            ("range 2 5ac30f81", "hits 3 looked 3 exact\n0 0\n1 1\n3 1"),
            ("range 9 a53cf07e", "hits 1 looked 1 partial\n2 0"),
            ("nflip 2", "ok"),
            ("range 9 a53cf07e", "hits 1 looked 2 exact\n2 0"),
        ],
        status: Status::Fine,
    },
    // The second session of docs/SCRIPT.md, and examples/kinds.faissb.
    Row {
        pairs: &[
            ("new 16 BFlat", "ok"),
            ("add 0000 0001 0101 03ff ffff", "added 5 total 5"),
            ("range 3 0000", "hits 3 looked 5 exact\n0 0\n1 1\n2 2"),
            ("new 16 BHash2x8", "ok"),
            ("add 0000 0001 0101 03ff ffff", "added 5 total 5"),
            ("range 2 0000", "hits 2 looked 2 exact\n0 0\n1 1"),
            ("range 3 0000", "hits 2 looked 2 partial\n0 0\n1 1"),
            ("nflip 1", "ok"),
            ("range 3 0000", "hits 3 looked 3 exact\n0 0\n1 1\n2 2"),
            ("new 16 BIVF2", "ok"),
            ("add 0000", "refused untrained"),
            ("centroids 0000 ffff", "centroids 2 of 2"),
            ("add 0000 0001 0101 03ff ffff", "added 5 total 5"),
            ("search 3 0000", "hits 3 looked 5 partial\n0 0\n1 1\n2 2"),
            ("nprobe 2", "ok"),
            ("search 3 0000", "hits 3 looked 7 exact\n0 0\n1 1\n2 2"),
            ("new 16 IDMap,BHash8", "ok"),
            ("add 0000", "refused ids"),
            ("addids 70:0000 -3:0001 70:0101", "added 3 total 3"),
            ("range 2 0000", "hits 2 looked 2 partial\n70 0\n-3 1"),
        ],
        status: Status::Refused,
    },
    // examples/first.faissb.
    Row {
        pairs: &[
            ("new 16 BFlat", "ok"),
            ("add 0000 0100 0300 ffff", "added 4 total 4"),
            ("search 2 0000", "hits 2 looked 4 exact\n0 0\n1 1"),
        ],
        status: Status::Fine,
    },
    // examples/refusals.faissb.
    Row {
        pairs: &[
            (
                "# Each command here but the second and the last is refused.",
                "",
            ),
            ("add 00ff", "refused none"),
            ("new 16 BFlat", "ok"),
            ("new 12 BFlat", "refused dim"),
            ("new 16 BHNSW32", "refused factory leftout"),
            ("add 00ff 00", "refused code"),
            ("search 0 00ff", "refused value"),
            ("range 2147483648 00ff", "refused value"),
            ("search 1", "refused line"),
            ("# Nothing was added, so there is nothing to find.", ""),
            ("search 1 00ff", "hits 0 looked 0 exact"),
        ],
        status: Status::Refused,
    },
    // examples/duplicates.faissb.
    Row {
        pairs: &[
            (
                "# Near-duplicates among six pictures: those within 3 bits of a picture.",
                "",
            ),
            ("new 64 BFlat", "ok"),
            (
                "add 8f373714acfcf4d0 8f373714acfcf4d1 cdd1e0e3c3b8f0f0 8f373714ac7cf4d0",
                "added 4 total 4",
            ),
            ("add 1f1f0f0703010000 cdd1e0e3c3b8f0f2", "added 2 total 6"),
            (
                "range 4 8f373714acfcf4d0",
                "hits 3 looked 6 exact\n0 0\n1 1\n3 1",
            ),
            (
                "range 4 cdd1e0e3c3b8f0f0",
                "hits 2 looked 6 exact\n2 0\n5 1",
            ),
            ("range 4 0000000000000000", "hits 0 looked 6 exact"),
        ],
        status: Status::Fine,
    },
];
