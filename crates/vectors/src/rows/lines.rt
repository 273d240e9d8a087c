// How lines are read.
use crate::row::Row;
use faissb_core::Status;

pub static ROWS: [Row; 8] = [
    // No line.
    Row {
        pairs: &[],
        status: Status::Fine,
    },
    // Lines without a command have no reply.
    Row {
        pairs: &[("# nothing", ""), ("", "")],
        status: Status::Fine,
    },
    // A comment begins at the first byte of its line.
    Row {
        pairs: &[(" # nothing", "refused line")],
        status: Status::Refused,
    },
    // A carriage return is a byte like any other, and stands in no word. A comment may have one.
    Row {
        pairs: &[
            ("new 8 BFlat\r", "refused line"),
            ("\r", "refused line"),
            ("# nothing\r", ""),
            ("new 8 BFlat", "ok"),
        ],
        status: Status::Refused,
    },
    // There is one space between two words, and none at either end.
    Row {
        pairs: &[
            ("new 8 BFlat", "ok"),
            (" add 00", "refused line"),
            ("add 00 ", "refused line"),
            ("add\t00", "refused line"),
            ("add  00", "refused line"),
            (" ", "refused line"),
        ],
        status: Status::Refused,
    },
    // No word may be missing, and none may be too many.
    Row {
        pairs: &[
            ("new", "refused line"),
            ("new 8", "refused line"),
            ("new 8 BFlat x", "refused line"),
            ("add", "refused line"),
            ("search 1", "refused line"),
            ("search 1 00 00", "refused line"),
            ("range 1", "refused line"),
            ("range 1 00 00", "refused line"),
        ],
        status: Status::Refused,
    },
    // The first word names a command, in lower case and whole.
    Row {
        pairs: &[
            ("NEW 8 BFlat", "refused line"),
            ("ne 8 BFlat", "refused line"),
            ("newx 8 BFlat", "refused line"),
            ("8 new BFlat", "refused line"),
            ("nflip", "refused line"),
            ("nprobe 1 1", "refused line"),
            ("maxcodes", "refused line"),
            ("save", "refused line"),
            ("load f g", "refused line"),
            ("show all", "refused line"),
        ],
        status: Status::Refused,
    },
    // A word has no byte above 126.
    Row {
        pairs: &[
            ("new 8 BFlat", "ok"),
            ("add \u{7f}", "refused line"),
            ("add \u{e9}", "refused line"),
            ("add ~", "refused code"),
        ],
        status: Status::Refused,
    },
];
