// What is refused first, and that it changes nothing.
use crate::row::Row;
use faissb_core::Status;

pub static ROWS: [Row; 7] = [
    // What is refused changes nothing.
    Row {
        pairs: &[
            ("new 16 BFlat", "ok"),
            ("add 0000 0100 0300 ffff", "added 4 total 4"),
            ("search 0 0000", "refused value"),
            ("search 1 00", "refused code"),
            ("search 1 00g0", "refused code"),
            ("range 2147483648 0000", "refused value"),
            ("add 0000 00", "refused code"),
            ("search  1 0000", "refused line"),
            ("search 1 0000", "hits 1 looked 4 exact\n0 0"),
        ],
        status: Status::Refused,
    },
    // A line that is no command comes before all else.
    Row {
        pairs: &[
            ("add", "refused line"),
            ("search x 0g", "refused line"),
            ("range -1 0g", "refused line"),
            ("new x BFlatt", "refused line"),
        ],
        status: Status::Refused,
    },
    // A missing index comes before a wrong code and a wrong number.
    Row {
        pairs: &[
            ("add 0g", "refused none"),
            ("search 0 0g", "refused none"),
            ("range 2147483648 0g", "refused none"),
        ],
        status: Status::Refused,
    },
    // A wrong code comes before a wrong number.
    Row {
        pairs: &[
            ("new 16 BFlat", "ok"),
            ("search 0 00g0", "refused code"),
            ("range 2147483648 00", "refused code"),
            ("search 0 0000", "refused value"),
        ],
        status: Status::Refused,
    },
    // A missing index comes before all that is asked of one.
    Row {
        pairs: &[
            ("addids 1:0g", "refused none"),
            ("centroids 0g", "refused none"),
            ("nprobe 0", "refused none"),
            ("maxcodes 9223372036854775808", "refused none"),
            ("directmap on", "refused none"),
            ("reconstruct 0", "refused none"),
            ("nflip 65", "refused none"),
        ],
        status: Status::Refused,
    },
    // A wrong code comes before the kind, and the kind before a wrong number.
    Row {
        pairs: &[
            ("new 16 BFlat", "ok"),
            ("centroids 00", "refused code"),
            ("centroids 0000", "refused kind"),
            ("nprobe 0", "refused kind"),
            ("nflip 65", "refused kind"),
            ("maxcodes 9223372036854775808", "refused kind"),
            ("directmap on", "refused kind"),
            ("reconstruct 0", "refused value"),
        ],
        status: Status::Refused,
    },
    // Ids that are not taken come before centroids that are missing, and so does a wrong number.
    Row {
        pairs: &[
            ("new 16 IDMap,BIVF1", "ok"),
            ("add 00", "refused code"),
            ("add 0000", "refused ids"),
            ("search 0 0000", "refused value"),
            ("search 1 0000", "refused untrained"),
            ("range 2147483648 0000", "refused value"),
            ("addids 1:0000", "refused untrained"),
            ("centroids 0000 0001", "refused full"),
            ("reconstruct 0", "refused kind"),
        ],
        status: Status::Refused,
    },
];
