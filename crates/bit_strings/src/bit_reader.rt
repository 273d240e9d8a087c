ghost use Rattle.std.specs.Prelude.{◌≡◌, ◌==◌, ◌↔◌, ◌+◌, ◌-◌, ◌*◌, ◌%◌, ◌^◌, ◌<◌, ◌≤◌, nat_le};
ghost use Rattle.std.specs.Prelude.{IfOk, IsErr, OnOk, OnErr, length};
ghost use Rattle.std.specs.List.{list_all};
ghost use Rattle.bcodes.specs.Bits.{key};
ghost use Rattle.bit_strings.specs.States.{IsPlace};

use crate::Short;
use bcodes::chunk;
use std::marker::Model;

/// Reads packed numbers one after the other. It is seen as all its `bytes` and as `at`, the number
/// of bits that were read. No call allocates.
#[derive(Debug, Drop)]
pub struct BitReader<'b> {
    bytes: &'b [u8],
    // The next bit is this bit of this byte.
    byte: usize,
    bit: u32,
}

impl<'b> Model for BitReader<'b> {
    ghost use Rattle.std.specs.Prelude.{◌+◌, ◌*◌};
    ghost use Rattle.bit_strings.specs.States.{Reading, IsPlace};

    ghost Value = { Reading };

    ghost view = { λ r. record { bytes = r.bytes.now; at = 8 * r.byte + r.bit } };

    ghost invariant = { λ r. IsPlace r.bytes.now r.byte r.bit };
}

impl BitReader<'_> {
    /// A reader of these bytes from their first bit on.
    pub fn new(bytes: &[u8]) -> BitReader<'_>
        ensures { result ≡ record { bytes = bytes.now; at = 0 } }
    {
        BitReader {
            bytes,
            byte: 0,
            bit: 0,
        }
    }

    /// The number of the next `n` bits.
    ///
    /// # Errors
    ///
    /// `Short` where fewer than `n` bits are left. Nothing is read then.
    pub fn read(&mut self, n: u32) -> Result<u64, Short>
        requires { n ≤ 64 }
        ensures number { IfOk result (λ x. x ≡ key self.old.bytes self.old.at n) }
        ensures ok { OnOk result (self.new ≡ record self.old { at = self.old.at + n }) }
        ensures short { IsErr result ↔ (8 * length self.old.bytes < self.old.at + n) }
        ensures err { OnErr result (self.new ≡ self.old) }
    {
        if !has_bits(self.bytes, self.byte, self.bit, n) {
            return Err(Short);
        }
        let number = number_at(self.bytes, self.byte, self.bit, n);
        let next = self.bit + n;
        self.byte += (next / 8) as usize;
        self.bit = next % 8;
        Ok(number)
    }

    /// Whether all bits that are left are 0, as where none is left.
    pub fn rest_is_zero(&self) -> bool
        ensures { let left = 8 * length self.now.bytes - self.now.at in
            result ≡ (key self.now.bytes self.now.at left == 0) }
    {
        is_zero_from(self.bytes, self.byte, self.bit)
    }
}

// The bits and the bytes of a word.
const WORD_BITS: u32 = 64;

const WORD: usize = 8;

// Whether `n` bits are left from a place on.
fn has_bits(bytes: &[u8], byte: usize, bit: u32, n: u32) -> bool
    requires place { IsPlace bytes.now byte bit }
    requires most { n ≤ 64 }
    ensures { result ≡ nat_le (8 * byte + bit + n) (8 * length bytes.now) }
{
    // Nine bytes have enough bits at each place.
    let near = (bytes.len() - byte).min(WORD + 1) as u32;
    bit + n <= 8 * near
}

// The number of `n` bits from a place on.
fn number_at(bytes: &[u8], byte: usize, bit: u32, n: u32) -> u64
    requires bit { bit < 8 }
    requires most { n ≤ 64 }
    requires within { 8 * byte + bit + n ≤ 8 * length bytes.now }
    ensures { result ≡ key bytes.now (8 * byte + bit) n }
{
    if n == 0 {
        return 0;
    }
    number_in(&bytes[byte..], bit, n)
}

// The number of `n` bits from bit `from` of the first byte on.
fn number_in(bytes: &[u8], from: u32, n: u32) -> u64
    requires bit { from < 8 }
    requires some { 1 ≤ n }
    requires most { n ≤ 64 }
    requires within { from + n ≤ 8 * length bytes.now }
    ensures { result ≡ key bytes.now from n }
{
    let word = chunk(bytes, 0, 8 * bytes.len().min(WORD) as u32);
    let low = word >> from;
    if from + n <= WORD_BITS {
        lowest_bits(low, n)
    } else {
        // At most 7 bits are left. They stand in the byte after the word.
        let left = from + n - WORD_BITS;
        low + (lowest_bits(u64::from(bytes[WORD]), left) << (n - left))
    }
}

// The `n` lowest bits of a number.
#[inline]
fn lowest_bits(x: u64, n: u32) -> u64
    requires { n ≤ 64 }
    ensures { result ≡ x % 2 ^ n }
{
    if n == WORD_BITS { x } else { x % (1 << n) }
}

// Whether all bits from a place on are 0.
fn is_zero_from(bytes: &[u8], byte: usize, bit: u32) -> bool
    requires { IsPlace bytes.now byte bit }
    ensures { let at = 8 * byte + bit in
        result ≡ (key bytes.now at (8 * length bytes.now - at) == 0) }
{
    byte == bytes.len() || bytes[byte] >> bit == 0 && are_zero(&bytes[byte + 1..])
}

fn are_zero(bytes: &[u8]) -> bool
    ensures { result ≡ list_all (λ b. b == 0) bytes.now }
{
    bytes.iter().all(|b| *b == 0)
}
