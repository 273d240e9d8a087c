// The words `check NAME`.
use crate::bytes::{FLAT, IVF};
use crate::expect::{expect, expect_at};
use crate::runs::answer_over;
use faissb_core::Status;
use outside::MemShelf;
use std::alloc::Global;
use std::process::Abort;
use std::test::Fail;

const FLAT_TEXT: &str = "loaded 1\nindex BFlat\nd 8\ntotal 1\ntrained yes\n";

const IVF_TEXT: &str =
    "loaded 1\nindex BIVF2\nd 8\ntotal 1\ntrained yes\nnlist 2\nnprobe 1\ncentroids 2\n";

// Words, what a run under them answers, and how it ends.
static CHECKS: [(&str, &str, Status); 10] = [
    ("check flat", FLAT_TEXT, Status::Fine),
    ("check ivf", IVF_TEXT, Status::Fine),
    (
        "check faulty",
        "refused file fourcc at 0\nrefused none\n",
        Status::Refused,
    ),
    (
        "check none",
        "refused nofile\nrefused none\n",
        Status::Refused,
    ),
    ("check", "", Status::Usage),
    ("check .flat", "", Status::Usage),
    ("check flat ivf", "", Status::Usage),
    ("check flat/ivf", "", Status::Usage),
    ("checks flat", "", Status::Usage),
    ("check ", "", Status::Usage),
];

// The source has a script, which is not read.
fn check_words<R: Abort>(
    rt: &R,
    alloc: Global,
    shelf: &mut MemShelf,
    words: &str,
    text: &str,
    status: Status,
) -> Result<(), Fail> {
    let (answer, ended) = answer_over(alloc, words, b"new 16 BFlat\n", shelf)?;
    expect(rt, (answer.as_str(), ended), (text, status), words);
    Ok(())
}

#[test]
fn files_are_checked(rt: HostRuntime) -> Result<(), Fail> {
    let mut shelf = MemShelf::new(rt.alloc());
    shelf.put("flat", FLAT)?;
    shelf.put("ivf", IVF)?;
    shelf.put("faulty", b"IBxx")?;
    for (words, text, status) in CHECKS.iter() {
        check_words(&rt, rt.alloc(), &mut shelf, words, text, *status)?;
    }
    Ok(())
}

// Whether a check ends although the call of this number fails.
fn ends<R: Abort>(rt: &R, alloc: Global, call: u64) -> Result<bool, Fail> {
    let mut shelf = MemShelf::new(alloc);
    shelf.put("flat", FLAT)?;
    shelf.fail_at(call)?;
    let (text, status) = answer_over(alloc, "check flat", b"", &mut shelf)?;
    let ends = status == Status::Fine;
    let expected = if ends {
        (FLAT_TEXT, Status::Fine)
    } else {
        ("", Status::ShelfFault)
    };
    expect_at(rt, (text.as_str(), status), expected, call);
    Ok(ends)
}

#[test]
fn a_check_may_fail(rt: HostRuntime) -> Result<(), Fail> {
    let mut ended = false;
    for call in 0..64 {
        let ends = ends(&rt, rt.alloc(), call)?;
        assert!(rt; ends || !ended);
        ended = ends;
    }
    assert!(rt; ended);
    Ok(())
}
