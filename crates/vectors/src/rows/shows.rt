// What is told of an index.
use crate::row::Row;
use faissb_core::Status;

pub static ROWS: [Row; 4] = [
    // A Flat, and one under outer ids.
    Row {
        pairs: &[
            ("show", "refused none"),
            ("new 8 BFlat", "ok"),
            ("add 00 01", "added 2 total 2"),
            ("show", "index BFlat\nd 8\ntotal 2\ntrained yes"),
            ("new 65536 IDMap,BFlat", "ok"),
            ("show", "index IDMap,BFlat\nd 65536\ntotal 0\ntrained yes"),
            ("show x", "refused line"),
        ],
        status: Status::Refused,
    },
    // An IVF.
    Row {
        pairs: &[
            ("new 8 BIVF2", "ok"),
            (
                "show",
                "index BIVF2\nd 8\ntotal 0\ntrained no\nnlist 2\nnprobe 1\ncentroids 0",
            ),
            ("centroids 00 ff", "centroids 2 of 2"),
            ("add 0f", "added 1 total 1"),
            ("nprobe 9", "ok"),
            ("maxcodes 3", "ok"),
            ("directmap on", "ok"),
            (
                "show",
                "index BIVF2\nd 8\ntotal 1\ntrained yes\nnlist 2\nnprobe 9\ncentroids 2\nmaxcodes 3\ndirectmap array",
            ),
        ],
        status: Status::Fine,
    },
    // A Hash.
    Row {
        pairs: &[
            ("new 16 BHash8", "ok"),
            ("add 0000 0001 0100", "added 3 total 3"),
            ("nflip 2", "ok"),
            (
                "show",
                "index BHash8\nd 16\ntotal 3\ntrained yes\nb 8\nnflip 2\nbound 3\nbuckets 2",
            ),
        ],
        status: Status::Fine,
    },
    // A MultiHash under outer ids.
    Row {
        pairs: &[
            ("new 256 IDMap2,BHash16x16", "ok"),
            (
                "addids 1001:0000000000000000000000000000000000000000000000000000000000000000 1002:ff00000000000000000000000000000000000000000000000000000000000000 1003:ffffffffffffffffffffffffffffffffffffffffffffffffffffffffffffffff",
                "added 3 total 3",
            ),
            ("nflip 1", "ok"),
            (
                "range 32 0000000000000000000000000000000000000000000000000000000000000000",
                "hits 2 looked 2 exact\n1001 0\n1002 8",
            ),
            (
                "show",
                "index IDMap2,BHash16x16\nd 256\ntotal 3\ntrained yes\nnhash 16\nb 16\nnflip 1\nbound 32\nbuckets 3 2 2 2 2 2 2 2 2 2 2 2 2 2 2 2",
            ),
        ],
        status: Status::Fine,
    },
];
