// What a run answers, and how it ends; and the file that it leaves.
use faissb_core::Status;
use outside::MemShelf;
use std::process::Abort;

// An assertion takes the longer to prove, the more is alive around it. So these stand alone here.
pub fn expect<R: Abort>(rt: &R, found: (&str, Status), expected: (&str, Status), of: &str) {
    assert_eq!(rt; found, expected, "{of:?}");
}

// The same where the call of this number failed.
pub fn expect_at<R: Abort>(rt: &R, found: (&str, Status), expected: (&str, Status), call: u64) {
    assert_eq!(rt; found, expected, "call {call}");
}

pub fn expect_file<R: Abort>(rt: &R, shelf: &MemShelf, name: &str, expected: Option<&[u8]>) {
    assert_eq!(rt; shelf.get(name), expected, "{name}");
}
