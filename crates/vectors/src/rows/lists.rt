// IVF: codes on the lists of their nearest centroids.
use crate::row::Row;
use faissb_core::Status;

pub static ROWS: [Row; 8] = [
    // A code at one distance from two centroids goes to the first of them.
    Row {
        pairs: &[
            ("new 8 BIVF2", "ok"),
            ("add 0f", "refused untrained"),
            ("centroids 00", "centroids 1 of 2"),
            ("centroids ff 01", "refused full"),
            ("centroids ff", "centroids 2 of 2"),
            ("add 0f", "added 1 total 1"),
            ("search 1 ff", "hits 0 looked 2 partial"),
            ("nprobe 2", "ok"),
            ("search 1 ff", "hits 1 looked 3 exact\n0 4"),
        ],
        status: Status::Refused,
    },
    // An index without its centroids.
    Row {
        pairs: &[
            ("new 8 BIVF2", "ok"),
            ("search 1 00", "refused untrained"),
            ("range 1 00", "refused untrained"),
            ("add 00", "refused untrained"),
            ("addids 5:00", "refused untrained"),
            ("nprobe 0", "refused value"),
            ("nflip 1", "refused kind"),
            ("search 0 00", "refused value"),
            ("search 0 0", "refused code"),
        ],
        status: Status::Refused,
    },
    // The lists of a query hold together as many codes as the limit wants, or more.
    Row {
        pairs: &[
            ("new 8 BIVF2", "ok"),
            ("centroids 00 ff", "centroids 2 of 2"),
            ("add 00 01 ff", "added 3 total 3"),
            ("nprobe 2", "ok"),
            ("maxcodes 2", "ok"),
            ("search 3 00", "hits 2 looked 4 partial\n0 0\n1 1"),
            ("range 9 00", "hits 2 looked 4 partial\n0 0\n1 1"),
            ("maxcodes 3", "ok"),
            ("search 3 00", "hits 3 looked 5 exact\n0 0\n1 1\n2 8"),
            ("range 9 00", "hits 3 looked 5 exact\n0 0\n1 1\n2 8"),
            ("maxcodes 1", "ok"),
            ("search 3 00", "hits 2 looked 4 partial\n0 0\n1 1"),
            ("search 3 ff", "hits 1 looked 3 partial\n2 0"),
            ("maxcodes 0", "ok"),
            ("search 3 ff", "hits 3 looked 5 exact\n2 0\n1 7\n0 8"),
            ("maxcodes 9223372036854775807", "ok"),
            ("maxcodes 9223372036854775808", "refused value"),
            ("search 3 00", "hits 3 looked 5 exact\n0 0\n1 1\n2 8"),
        ],
        status: Status::Refused,
    },
    // A direct map finds a code by its label, and then no ids are taken.
    Row {
        pairs: &[
            ("new 8 BIVF2", "ok"),
            ("centroids 00 ff", "centroids 2 of 2"),
            ("add 0f ff", "added 2 total 2"),
            ("reconstruct 1", "refused nodirect"),
            ("directmap on", "ok"),
            ("reconstruct 1", "code ff"),
            ("reconstruct 2", "refused value"),
            ("addids 5:00", "refused ids"),
            ("add 03 fe", "added 2 total 4"),
            ("reconstruct 0", "code 0f"),
            ("reconstruct 2", "code 03"),
            ("reconstruct 3", "code fe"),
            ("directmap off", "ok"),
            ("reconstruct 3", "refused nodirect"),
            ("addids 5:00", "added 1 total 5"),
            ("directmap on", "refused sequential"),
            ("reconstruct 4", "refused nodirect"),
            ("reconstruct 5", "refused value"),
        ],
        status: Status::Refused,
    },
    // Labels that are no numbering, and those that are one in another order.
    Row {
        pairs: &[
            ("new 8 BIVF1", "ok"),
            ("directmap on", "ok"),
            ("directmap off", "ok"),
            ("centroids 00", "centroids 1 of 1"),
            ("addids 3:00", "added 1 total 1"),
            ("directmap on", "refused sequential"),
            ("addids 1:01 0:03 2:07", "added 3 total 4"),
            ("directmap on", "ok"),
            ("reconstruct 0", "code 03"),
            ("reconstruct 1", "code 01"),
            ("reconstruct 2", "code 07"),
            ("reconstruct 3", "code 00"),
            ("directmap off", "ok"),
            ("addids -1:ff", "added 1 total 5"),
            ("directmap on", "refused sequential"),
            ("search 2 ff", "hits 2 looked 6 exact\n-1 0\n2 5"),
        ],
        status: Status::Refused,
    },
    // Equal centroids: the first takes all codes.
    Row {
        pairs: &[
            ("new 8 BIVF3", "ok"),
            ("centroids 0f 0f 0f", "centroids 3 of 3"),
            ("add 00 ff 0f", "added 3 total 3"),
            ("search 3 0f", "hits 3 looked 6 exact\n2 0\n0 4\n1 4"),
            ("maxcodes 1", "ok"),
            ("search 3 0f", "hits 3 looked 6 exact\n2 0\n0 4\n1 4"),
        ],
        status: Status::Fine,
    },
    // As many lists as there are, whatever is asked for.
    Row {
        pairs: &[
            ("new 16 BIVF3", "ok"),
            ("centroids 0000 00ff ffff", "centroids 3 of 3"),
            ("add 0001 00fe fffe 0003", "added 4 total 4"),
            ("search 4 0000", "hits 2 looked 5 partial\n0 1\n3 2"),
            ("nprobe 2", "ok"),
            ("search 4 0000", "hits 3 looked 6 partial\n0 1\n3 2\n1 7"),
            ("nprobe 3", "ok"),
            (
                "search 4 0000",
                "hits 4 looked 7 exact\n0 1\n3 2\n1 7\n2 15",
            ),
            ("nprobe 9223372036854775807", "ok"),
            ("range 8 0000", "hits 3 looked 7 exact\n0 1\n3 2\n1 7"),
            ("nprobe 9223372036854775808", "refused value"),
        ],
        status: Status::Refused,
    },
    // No centroid more than there are lists, and a wrong one adds none.
    Row {
        pairs: &[
            ("new 8 BIVF2", "ok"),
            ("centroids 00 0", "refused code"),
            ("centroids 00 01 02", "refused full"),
            ("centroids 00 01", "centroids 2 of 2"),
            ("centroids 02", "refused full"),
            ("search 1 00", "hits 0 looked 2 exact"),
            ("centroids", "refused line"),
            ("directmap", "refused line"),
            ("directmap ON", "refused line"),
            ("directmap on off", "refused line"),
            ("reconstruct -1", "refused line"),
        ],
        status: Status::Refused,
    },
];
