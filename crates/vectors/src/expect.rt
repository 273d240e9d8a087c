// What a run answers, and how it ends.
use faissb_core::Status;
use std::process::Abort;

// An assertion takes the longer to prove, the more is alive around it. So these stand alone here.
pub fn expect<R: Abort>(rt: &R, found: (&str, Status), expected: (&str, Status)) {
    assert_eq!(rt; found, expected);
}

// The same of one script or one call of many.
pub fn expect_of<R: Abort>(rt: &R, found: (&str, Status), expected: (&str, Status), one: &str) {
    assert_eq!(rt; found, expected, "{one:?}");
}
