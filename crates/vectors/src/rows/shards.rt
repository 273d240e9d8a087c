// Several indexes that are searched as one.
use crate::row::Row;
use faissb_core::Status;

pub static ROWS: [Row; 3] = [
    // Labels go on from one shard to the next.
    Row {
        pairs: &[
            ("new 16 BFlat", "ok"),
            ("add 0100 0000", "added 2 total 2"),
            ("shard", "shards 1 total 2"),
            ("search 1 0000", "refused none"),
            ("new 16 BFlat", "ok"),
            ("add 0000 ffff", "added 2 total 2"),
            ("shard", "shards 2 total 4"),
            ("shardsearch 3 0000", "hits 3 looked 4 exact\n1 0\n2 0\n0 1"),
            ("new 24 BFlat", "ok"),
            ("shard", "refused mismatch"),
            ("search 1 000000", "hits 0 looked 0 exact"),
            ("shardrange 1 0000", "hits 2 looked 4 exact\n1 0\n2 0"),
            ("unshard", "ok"),
            ("shardrange 1 0000", "refused none"),
            ("search 1 000000", "hits 0 looked 0 exact"),
        ],
        status: Status::Refused,
    },
    // The mark is that of one index with all codes.
    Row {
        pairs: &[
            ("new 16 BHash2x8", "ok"),
            ("add 0101", "added 1 total 1"),
            ("shard", "shards 1 total 1"),
            ("new 16 BHash2x8", "ok"),
            ("nflip 1", "ok"),
            ("shard", "refused mismatch"),
            ("nflip 0", "ok"),
            ("add 0001", "added 1 total 1"),
            ("shard", "shards 2 total 2"),
            ("shardrange 2 0000", "hits 1 looked 1 exact\n1 1"),
            ("shardrange 3 0000", "hits 1 looked 1 partial\n1 1"),
            ("shardsearch 1 0001", "hits 1 looked 2 exact\n1 0"),
        ],
        status: Status::Refused,
    },
    // Refusals, in their order.
    Row {
        pairs: &[
            ("shard", "refused none"),
            ("shardsearch 0 0", "refused none"),
            ("unshard", "ok"),
            ("new 16 BIVF1", "ok"),
            ("shard", "refused kind"),
            ("new 16 IDMap,BFlat", "ok"),
            ("shard", "refused kind"),
            ("new 16 BFlat", "ok"),
            ("shard", "shards 1 total 0"),
            ("shardsearch 0 00", "refused code"),
            ("shardsearch 0 0000", "refused value"),
            ("shardsearch 1 0000", "hits 0 looked 0 exact"),
            ("shardrange 2147483648 0000", "refused value"),
            ("shard x", "refused line"),
            ("shard", "refused none"),
        ],
        status: Status::Refused,
    },
];
