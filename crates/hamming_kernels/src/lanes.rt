//! Differing bits of codes, 32 bytes at a time, as vectors of four words.
ghost use Rattle.std.specs.Prelude.{◌≡◌, ℕ, ◌+◌, ◌*◌, ◌<◌, ◌≤◌, length, drop, slice_index};
ghost use Rattle.byteorder.specs.Endian.{little_number};
ghost use Rattle.bcodes.specs.Bits.{differing};

use std::simd::prelude::*;

/// The bytes that are compared at a time.
pub(crate) const PART: usize = 32;

// The first 32 bytes as words, the lowest byte first.
#[inline(always)]
fn words(bytes: &[u8]) -> u64x4
    requires { 32 ≤ length bytes.now }
    ensures size { length result ≡ 4 }
    ensures value { (j : ℕ) → j < 4
        → slice_index result j ≡ little_number 8 (drop (8 * j) bytes.now) }
{
    u64x4::from_le_bytes(u8x32::from_slice(bytes))
}

// In how many bits the first 32 bytes differ.
#[inline(always)]
fn differing_in_part(code: &[u8], query: &[u8]) -> u32
    requires { (32 ≤ length code.now) × (32 ≤ length query.now) }
    ensures { result ≡ differing code.now query.now 0 256 }
{
    let [a, b, c, d] = (words(query) ^ words(code)).to_array();
    a.count_ones() + b.count_ones() + c.count_ones() + d.count_ones()
}

// In how many bits so many parts of 32 bytes differ.
#[inline]
pub(crate) fn differing_in_parts(code: &[u8], query: &[u8], parts: usize) -> u32
    requires code_size { 32 * parts ≤ length code.now }
    requires query_size { 32 * parts ≤ length query.now }
    requires at_most { parts ≤ 256 }
    ensures { result ≡ differing code.now query.now 0 (256 * parts) }
{
    let mut total = 0;
    for i in 0..parts {
        total += differing_in_part(&code[PART * i..], &query[PART * i..]);
    }
    total
}
