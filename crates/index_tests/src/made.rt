// What the indexes of the tests hold, and what they give.
use bcodes::{Codes, Dim, Hit};
use std::alloc::Global;
use std::process::Abort;
use std::test::Fail;

pub fn hit(distance: u32, label: i64) -> Hit {
    Hit { distance, label }
}

// Codes of at most eight bytes.
pub fn codes_of(
    rt: &impl Abort,
    alloc: Global,
    bytes: usize,
    codes: &[&[u8]],
) -> Result<Codes, Fail> {
    assert!(rt; bytes <= 8);
    let mut list = Codes::new(alloc, Dim::new(8 * bytes as u64)?);
    for code in codes {
        assert!(rt; code.len() == list.dim().bytes());
        list.push(code)?;
    }
    Ok(list)
}
