//! Differing bits of the bytes that vectors of 32 leave over: whole words, and then the last bytes.
ghost use Rattle.std.specs.Prelude.{◌≡◌, ◌+◌, ◌-◌, ◌*◌, ◌<◌, ◌≤◌, length};
ghost use Rattle.bcodes.specs.Bits.{differing};

use bcodes::distance_plain;
use byteorder::{ByteOrder, LittleEndian};

/// The bytes of a word.
pub(crate) const WORD: usize = 8;

/// The number of bits in which the words from word `from` up to word `to` differ.
#[inline]
pub(crate) fn differing_in_words(code: &[u8], query: &[u8], from: usize, to: usize) -> u32
    requires order { from ≤ to }
    requires code_size { 8 * to ≤ length code.now }
    requires query_size { 8 * to ≤ length query.now }
    requires at_most { to ≤ 1024 }
    ensures { result ≡ differing code.now query.now (64 * from) (64 * (to - from)) }
{
    let mut total = 0;
    for i in from..to {
        let word = LittleEndian::read_u64(&code[WORD * i..]);
        total += (word ^ LittleEndian::read_u64(&query[WORD * i..])).count_ones();
    }
    total
}

/// The number of bits in which the last `bytes` bytes differ, fewer than a word has.
#[inline]
pub(crate) fn differing_in_last(code: &[u8], query: &[u8], bytes: usize) -> u32
    requires same_size { length code.now ≡ length query.now }
    requires size { bytes ≤ length code.now }
    requires at_most { bytes < 8 }
    ensures { result
        ≡ differing code.now query.now (8 * (length code.now - bytes)) (8 * bytes) }
{
    let size = code.len();
    if bytes == 0 {
        0
    } else if size < WORD {
        distance_plain(&code[size - bytes..], &query[size - bytes..])
    } else {
        // The last word, without the bytes at its start that were counted before.
        let last = size - WORD;
        let word = LittleEndian::read_u64(&code[last..]);
        let differing = word ^ LittleEndian::read_u64(&query[last..]);
        (differing >> (8 * (WORD - bytes))).count_ones()
    }
}
