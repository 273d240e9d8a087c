ghost use Rattle.std.specs.Prelude.{◌≡◌, ℕ, ◌+◌, ◌-◌, ◌*◌, ◌/◌, ◌%◌, ◌^◌, ◌<◌, ◌≤◌, List, [], ◌++◌};
ghost use Rattle.std.specs.Prelude.{IfOk, length, vec_capacity, vec_len};
ghost use Rattle.bit_strings.specs.Packed.{Bits, bytes_of_bits, low_bits, packed, spread};
ghost use Rattle.bit_strings.specs.States.{written_bits};

use crate::Packed;
use bcodes::{Want, are_bytes};
use std::alloc::Global;
use std::marker::Model;

/// Numbers that are packed one after the other. It is seen as the `bits` so far, each 0 or 1, and
/// `room`, the number of bits that can still be written.
///
/// Only `new` allocates.
#[derive(Debug, Drop)]
pub struct BitWriter {
    // The last bits, of which there are fewer than 64, are held back in a word.
    bytes: Vec<u8>,
    word: u64,
    filled: u32,
    room: u64,
}

impl Model for BitWriter {
    ghost use Rattle.std.specs.Prelude.{vec_len, vec_capacity};
    ghost use Rattle.bit_strings.specs.States.{Written, written_bits, HasRoom};

    ghost Value = { Written };

    ghost view = { λ w. record {
      bits = written_bits w.bytes.items w.word w.filled;
      room = w.room;
    } };

    ghost invariant = { λ w. HasRoom (vec_len w.bytes) (vec_capacity w.bytes)
        w.word w.filled w.room };
}

impl BitWriter {
    /// A writer with room for so many bits.
    ///
    /// # Errors
    ///
    /// If memory runs out.
    pub fn new(alloc: Global, bits: u64) -> Result<BitWriter, Want>
        requires { bits < 2 ^ 34 }
        ensures { IfOk result (λ writer. writer ≡ record { bits = []; room = bits }) }
    {
        let bytes = Vec::with_capacity(alloc, bits.div_ceil(8) as usize)?;
        Ok(BitWriter {
            bytes,
            word: 0,
            filled: 0,
            room: bits,
        })
    }

    /// Writes the `n` lowest bits of a number that has no others. Does not allocate.
    pub fn write(&mut self, x: u64, n: u32)
        requires width { n ≤ 64 }
        requires number { x < 2 ^ n }
        requires room { n ≤ self.old.room }
        ensures bits { self.new.bits ≡ self.old.bits ++ low_bits n x }
        ensures room { self.new.room ≡ self.old.room - n }
    {
        (self.word, self.filled) = append(&mut self.bytes, self.word, self.filled, x, n);
        self.room -= u64::from(n);
    }

    /// The bytes of all bits, with bits 0 up to the end of the last byte. Does not allocate.
    pub fn finish(self) -> Packed
        ensures bytes { result ≡ bytes_of_bits ((length self.bits + 7) / 8) self.bits }
        ensures packed { (numbers : List Bits)
            → self.bits ≡ spread numbers → result ≡ packed numbers }
    {
        let BitWriter {
            mut bytes,
            word,
            filled,
            ..
        } = self;
        are_bytes(&bytes);
        let rest = word.to_le_bytes();
        push_bytes(&mut bytes, &rest[..filled.div_ceil(8) as usize]);
        Packed::new(bytes)
    }
}

// The bits of a word.
const WORD_BITS: u32 = 64;

// Writes a number behind bytes and a word that is not full. Gives the new word, and how many bits
// it has.
fn append(bytes: &mut Vec<u8>, word: u64, filled: u32, x: u64, n: u32) -> (u64, u32)
    requires below { word < 2 ^ filled }
    requires few { filled < 64 }
    requires width { n ≤ 64 }
    requires number { x < 2 ^ n }
    requires room { 8 * vec_len bytes.old + filled + n ≤ 8 * vec_capacity bytes.old }
    ensures bits { written_bits bytes.new.items result.0 result.1
        ≡ written_bits bytes.old.items word filled ++ low_bits n x }
    ensures below { result.0 < 2 ^ result.1 }
    ensures few { result.1 < 64 }
    ensures count { 8 * vec_len bytes.new + result.1 ≡ 8 * vec_len bytes.old + filled + n }
    ensures capacity { vec_capacity bytes.old ≤ vec_capacity bytes.new }
{
    let held = u128::from(word) + (u128::from(x) << filled);
    let filled = filled + n;
    let low = low_word(held);
    if filled < WORD_BITS {
        return (low, filled);
    }
    push_bytes(bytes, &low.to_le_bytes());
    ((held >> WORD_BITS) as u64, filled - WORD_BITS)
}

#[inline]
fn low_word(x: u128) -> u64
    ensures { result ≡ x % 2 ^ 64 }
{
    (x % (1 << WORD_BITS)) as u64
}

// Appends bytes for which there is room.
fn push_bytes(bytes: &mut Vec<u8>, more: &[u8])
    requires { vec_len bytes.old + length more.now ≤ vec_capacity bytes.old }
    ensures items { bytes.new.items ≡ bytes.old.items ++ more.now }
    ensures capacity { vec_capacity bytes.old ≤ vec_capacity bytes.new }
{
    match bytes.extend_from_slice(more) {
        Ok(()) => {}
        Err(_) => unreachable!(),
    }
}
