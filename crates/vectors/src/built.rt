// Scripts with lines too long to be written out, and scripts that are no rows of lines.
use crate::long_row::{LongRow, check_long, check_script};
use crate::pieces::Piece;
use faissb_core::Status;
use std::alloc::{AllocError, Global};
use std::test::Fail;

static CUT: [LongRow; 3] = [
    LongRow {
        script: &[Piece::Text("new 8 BFlat\nadd ab")],
        replies: "ok\nadded 1 total 1\n",
        status: Status::Fine,
    },
    LongRow {
        script: &[Piece::Text("# nothing")],
        replies: "",
        status: Status::Fine,
    },
    LongRow {
        script: &[Piece::Text("add")],
        replies: "refused line\n",
        status: Status::Refused,
    },
];

#[test]
fn the_last_line_may_lack_its_line_feed(rt: HostRuntime) -> Result<(), Fail> {
    check_long(&rt, rt.alloc(), &CUT)
}

static LINES: [LongRow; 4] = [
    LongRow {
        script: &[Piece::Times("a", 1_048_576)],
        replies: "refused line\n",
        status: Status::Refused,
    },
    LongRow {
        script: &[Piece::Times("a", 1_048_577)],
        replies: "refused long\n",
        status: Status::Refused,
    },
    LongRow {
        script: &[Piece::Text("#"), Piece::Times("a", 1_048_575)],
        replies: "",
        status: Status::Fine,
    },
    LongRow {
        script: &[Piece::Text("#"), Piece::Times("a", 1_048_576)],
        replies: "refused long\n",
        status: Status::Refused,
    },
];

#[test]
fn a_line_has_at_most_1048576_bytes(rt: HostRuntime) -> Result<(), Fail> {
    check_long(&rt, rt.alloc(), &LINES)
}

static FULL_LINES: [LongRow; 4] = [
    LongRow {
        script: &[
            Piece::Text("new 256 BFlat\nadd"),
            Piece::Codes("ff", 32, 16_131),
            Piece::Text("\n"),
        ],
        replies: "ok\nadded 16131 total 16131\n",
        status: Status::Fine,
    },
    LongRow {
        script: &[
            Piece::Text("new 256 BFlat\nadd"),
            Piece::Codes("ff", 32, 16_132),
            Piece::Text("\n"),
        ],
        replies: "ok\nrefused long\n",
        status: Status::Refused,
    },
    LongRow {
        script: &[
            Piece::Text("new 65536 BFlat\nadd"),
            Piece::Codes("ff", 8_192, 63),
            Piece::Text("\n"),
        ],
        replies: "ok\nadded 63 total 63\n",
        status: Status::Fine,
    },
    LongRow {
        script: &[
            Piece::Text("new 65536 BFlat\nadd"),
            Piece::Codes("ff", 8_192, 64),
            Piece::Text("\n"),
        ],
        replies: "ok\nrefused long\n",
        status: Status::Refused,
    },
];

#[test]
fn as_many_codes_as_fit_on_a_line(rt: HostRuntime) -> Result<(), Fail> {
    check_long(&rt, rt.alloc(), &FULL_LINES)
}

// More codes than are read at a time, of which the last is the nearest.
static MANY: [LongRow; 1] = [LongRow {
    script: &[
        Piece::Text("new 8 BFlat\nadd"),
        Piece::Codes("ff", 1, 65_537),
        Piece::Text("\nadd 01\nsearch 2 01\nrange 7 00\n"),
    ],
    replies: "ok\nadded 65537 total 65537\nadded 1 total 65538\n\
                  hits 2 looked 65538 exact\n65537 0\n0 7\nhits 1 looked 65538 exact\n65537 1\n",
    status: Status::Fine,
}];

#[test]
fn every_code_is_read(rt: HostRuntime) -> Result<(), Fail> {
    check_long(&rt, rt.alloc(), &MANY)
}

// A code of ones, and one whose last bit alone is set. Both are searched for with zeros.
static SIZES: [LongRow; 10] = [
    LongRow {
        script: &[
            Piece::Text("new 8 BFlat\nadd"),
            Piece::Codes("ff", 1, 1),
            Piece::Text(" "),
            Piece::Times("00", 0),
            Piece::Text("80\nsearch 1048576"),
            Piece::Codes("00", 1, 1),
            Piece::Text("\n"),
        ],
        replies: "ok\nadded 2 total 2\nhits 2 looked 2 exact\n1 1\n0 8\n",
        status: Status::Fine,
    },
    LongRow {
        script: &[
            Piece::Text("new 32 BFlat\nadd"),
            Piece::Codes("ff", 4, 1),
            Piece::Text(" "),
            Piece::Times("00", 3),
            Piece::Text("80\nsearch 1048576"),
            Piece::Codes("00", 4, 1),
            Piece::Text("\n"),
        ],
        replies: "ok\nadded 2 total 2\nhits 2 looked 2 exact\n1 1\n0 32\n",
        status: Status::Fine,
    },
    LongRow {
        script: &[
            Piece::Text("new 64 BFlat\nadd"),
            Piece::Codes("ff", 8, 1),
            Piece::Text(" "),
            Piece::Times("00", 7),
            Piece::Text("80\nsearch 1048576"),
            Piece::Codes("00", 8, 1),
            Piece::Text("\n"),
        ],
        replies: "ok\nadded 2 total 2\nhits 2 looked 2 exact\n1 1\n0 64\n",
        status: Status::Fine,
    },
    LongRow {
        script: &[
            Piece::Text("new 128 BFlat\nadd"),
            Piece::Codes("ff", 16, 1),
            Piece::Text(" "),
            Piece::Times("00", 15),
            Piece::Text("80\nsearch 1048576"),
            Piece::Codes("00", 16, 1),
            Piece::Text("\n"),
        ],
        replies: "ok\nadded 2 total 2\nhits 2 looked 2 exact\n1 1\n0 128\n",
        status: Status::Fine,
    },
    LongRow {
        script: &[
            Piece::Text("new 160 BFlat\nadd"),
            Piece::Codes("ff", 20, 1),
            Piece::Text(" "),
            Piece::Times("00", 19),
            Piece::Text("80\nsearch 1048576"),
            Piece::Codes("00", 20, 1),
            Piece::Text("\n"),
        ],
        replies: "ok\nadded 2 total 2\nhits 2 looked 2 exact\n1 1\n0 160\n",
        status: Status::Fine,
    },
    LongRow {
        script: &[
            Piece::Text("new 256 BFlat\nadd"),
            Piece::Codes("ff", 32, 1),
            Piece::Text(" "),
            Piece::Times("00", 31),
            Piece::Text("80\nsearch 1048576"),
            Piece::Codes("00", 32, 1),
            Piece::Text("\n"),
        ],
        replies: "ok\nadded 2 total 2\nhits 2 looked 2 exact\n1 1\n0 256\n",
        status: Status::Fine,
    },
    LongRow {
        script: &[
            Piece::Text("new 264 BFlat\nadd"),
            Piece::Codes("ff", 33, 1),
            Piece::Text(" "),
            Piece::Times("00", 32),
            Piece::Text("80\nsearch 1048576"),
            Piece::Codes("00", 33, 1),
            Piece::Text("\n"),
        ],
        replies: "ok\nadded 2 total 2\nhits 2 looked 2 exact\n1 1\n0 264\n",
        status: Status::Fine,
    },
    LongRow {
        script: &[
            Piece::Text("new 512 BFlat\nadd"),
            Piece::Codes("ff", 64, 1),
            Piece::Text(" "),
            Piece::Times("00", 63),
            Piece::Text("80\nsearch 1048576"),
            Piece::Codes("00", 64, 1),
            Piece::Text("\n"),
        ],
        replies: "ok\nadded 2 total 2\nhits 2 looked 2 exact\n1 1\n0 512\n",
        status: Status::Fine,
    },
    LongRow {
        script: &[
            Piece::Text("new 520 BFlat\nadd"),
            Piece::Codes("ff", 65, 1),
            Piece::Text(" "),
            Piece::Times("00", 64),
            Piece::Text("80\nsearch 1048576"),
            Piece::Codes("00", 65, 1),
            Piece::Text("\n"),
        ],
        replies: "ok\nadded 2 total 2\nhits 2 looked 2 exact\n1 1\n0 520\n",
        status: Status::Fine,
    },
    LongRow {
        script: &[
            Piece::Text("new 65536 BFlat\nadd"),
            Piece::Codes("ff", 8_192, 1),
            Piece::Text(" "),
            Piece::Times("00", 8_191),
            Piece::Text("80\nsearch 1048576"),
            Piece::Codes("00", 8_192, 1),
            Piece::Text("\n"),
        ],
        replies: "ok\nadded 2 total 2\nhits 2 looked 2 exact\n1 1\n0 65536\n",
        status: Status::Fine,
    },
];

#[test]
fn every_byte_of_a_code_counts(rt: HostRuntime) -> Result<(), Fail> {
    check_long(&rt, rt.alloc(), &SIZES)
}

// Rows of two buckets, or of two lists, that came by turns.
static TURNS: [LongRow; 2] = [
    LongRow {
        script: &[
            Piece::Text("new 8 BHash1\nadd"),
            Piece::Times(" fe ff", 33_000),
            Piece::Text("\nadd 00\nsearch 2 00\n"),
        ],
        replies: "ok\nadded 66000 total 66000\nadded 1 total 66001\n\
                  hits 2 looked 33001 partial\n66000 0\n0 7\n",
        status: Status::Fine,
    },
    LongRow {
        script: &[
            Piece::Text("new 8 BIVF2\ncentroids fe ff\nadd"),
            Piece::Times(" fe ff", 33_000),
            Piece::Text("\nadd 00\nsearch 2 00\n"),
        ],
        replies: "ok\ncentroids 2 of 2\nadded 66000 total 66000\nadded 1 total 66001\n\
                  hits 2 looked 33003 partial\n66000 0\n0 7\n",
        status: Status::Fine,
    },
];

#[test]
fn rows_that_came_by_turns_are_all_read(rt: HostRuntime) -> Result<(), Fail> {
    check_long(&rt, rt.alloc(), &TURNS)
}

// As many maps as there can be, over codes of as many bits as there can be. Of the second code, only
// the last chunk is that of zeros.
static MAPS: [LongRow; 1] = [LongRow {
    script: &[
        Piece::Text("new 65536 BHash1024x64\nadd"),
        Piece::Codes("ff", 8_192, 1),
        Piece::Codes("01", 8_184, 1),
        Piece::Text("0000000000000000\nrange 1024"),
        Piece::Codes("00", 8_192, 1),
        Piece::Text("\nrange 65536"),
        Piece::Codes("00", 8_192, 1),
        Piece::Text("\nsearch 1"),
        Piece::Codes("ff", 8_192, 1),
        Piece::Text("\n"),
    ],
    replies: "ok\nadded 2 total 2\nhits 0 looked 1 exact\n\
                  hits 1 looked 1 partial\n1 8184\nhits 1 looked 1 exact\n0 0\n",
    status: Status::Fine,
}];

#[test]
fn maps_of_every_chunk_are_asked(rt: HostRuntime) -> Result<(), Fail> {
    check_long(&rt, rt.alloc(), &MAPS)
}

// A row of 1,024 maps weighs 65,680, so that 16,348 rows are within the load limit.
static LOADED: [LongRow; 1] = [LongRow {
    script: &[
        Piece::Text("new 1024 BHash1024x1"),
        Piece::Text("\nadd"),
        Piece::Codes("5a", 128, 4_000),
        Piece::Text("\nadd"),
        Piece::Codes("5a", 128, 4_000),
        Piece::Text("\nadd"),
        Piece::Codes("5a", 128, 4_000),
        Piece::Text("\nadd"),
        Piece::Codes("5a", 128, 4_000),
        Piece::Text("\nadd"),
        Piece::Codes("5a", 128, 346),
        Piece::Text("\nadd"),
        Piece::Codes("5a", 128, 3),
        Piece::Text("\nadd"),
        Piece::Codes("5a", 128, 2),
        Piece::Text("\nadd"),
        Piece::Codes("5a", 128, 1),
        Piece::Text("\n"),
    ],
    replies: "ok\nadded 4000 total 4000\nadded 4000 total 8000\nadded 4000 total 12000\n\
                  added 4000 total 16000\nadded 346 total 16346\nrefused load\n\
                  added 2 total 16348\nrefused load\n",
    status: Status::Refused,
}];

#[test]
fn an_index_is_full_at_its_load_limit(rt: HostRuntime) -> Result<(), Fail> {
    check_long(&rt, rt.alloc(), &LOADED)
}

// The replies to 200 adds of one code, each before a shard is made of it.
fn shard_replies(alloc: Global) -> Result<String, AllocError> {
    let mut replies = String::new(alloc);
    for i in 1..=200 {
        replies.push_str(&format!(in alloc; "ok\nadded 1 total 1\nshards {i} total {i}\n")?)?;
    }
    Ok(replies)
}

// Shards of one code each, all equal but the last.
#[test]
fn two_hundred_shards_are_searched_as_one(rt: HostRuntime) -> Result<(), Fail> {
    let shards = "new 8 BFlat\nadd 01\nshard\n".repeat(rt.alloc(), 199)?;
    let script = format!(in rt.alloc();
        "{shards}new 8 BFlat\nadd 00\nshard\nshardsearch 3 00\nshardrange 1 00\nshardsearch 1 ff\n"
    )?;
    let replies = format!(in rt.alloc();
        "{}hits 3 looked 200 exact\n199 0\n0 1\n1 1\nhits 1 looked 200 exact\n199 0\n\
         hits 1 looked 200 exact\n0 7\n",
        shard_replies(rt.alloc())?
    )?;
    check_script(
        &rt,
        rt.alloc(),
        script.as_str(),
        replies.as_str(),
        Status::Fine,
    )
}

// The even numbers below 100,000, each behind a space.
fn even_numbers(alloc: Global) -> Result<String, AllocError> {
    let mut even = String::from_str(alloc, " 0 2 4 6 8")?;
    for ten in 1..10_000 {
        even.push_str(&format!(in alloc; " {ten}0 {ten}2 {ten}4 {ten}6 {ten}8")?)?;
    }
    Ok(even)
}

// Every second of 100,000 codes leaves; those of ones stay.
#[test]
fn every_second_code_is_removed(rt: HostRuntime) -> Result<(), Fail> {
    let codes = " 00 ff".repeat(rt.alloc(), 50_000)?;
    let even = even_numbers(rt.alloc())?;
    let script = format!(in rt.alloc();
        "new 8 BFlat\nadd{codes}\nremove{even}\nsearch 2 00\nadd 01 00\nsearch 2 00\n\
         keep 50001 49999\nsearch 3 00\nremoverange 0 2\nsearch 1 00\n"
    )?;
    let replies = "ok\nadded 100000 total 100000\nremoved 50000 total 50000\n\
                   hits 2 looked 50000 exact\n0 8\n1 8\nadded 2 total 50002\n\
                   hits 2 looked 50002 exact\n50001 0\n50000 1\nremoved 50000 total 2\n\
                   hits 2 looked 2 exact\n1 0\n0 8\nremoved 2 total 0\nhits 0 looked 0 exact\n";
    check_script(&rt, rt.alloc(), script.as_str(), replies, Status::Fine)
}
