ghost use Rattle.std.specs.Prelude.{◌≡◌, ◌+◌, ◌*◌, ◌%◌, ◌^◌, ◌<◌, ◌≤◌, length, min};
ghost use Rattle.bcodes.specs.Bits.{key};

// The bits and the bytes of a word.
const WORD_BITS: u32 = 64;

const WORD: usize = 8;

/// The key of chunk `i` of a code that is cut into chunks of `b` bits: bit `t` of the key is bit
/// `i * b + t` of the code. Faiss reads keys with its `BitstringReader` (`utils/hamming.h`).
pub fn chunk(x: &[u8], i: u32, b: u32) -> u64
    requires some { 1 ≤ b }
    requires most { b ≤ 64 }
    requires within { (i + 1) * b ≤ 8 * length x.now }
    ensures { result ≡ key x.now (i * b) b }
{
    let from = i as usize * b as usize;
    // The word begins at the byte of the first bit, or earlier where fewer than 8 bytes follow.
    let at = (from / 8).min(x.len().saturating_sub(WORD));
    let shift = (from - 8 * at) as u32;
    let low = word(&x[at..]) >> shift;
    if shift + b <= WORD_BITS {
        lowest_bits(low, b)
    } else {
        // At most 7 bits are left. They stand in the byte after the word.
        let left = shift + b - WORD_BITS;
        low + (lowest_bits(u64::from(x[at + WORD]), left) << (b - left))
    }
}

// The key of the first 64 bits, or of all where there are fewer.
#[inline]
fn word(bytes: &[u8]) -> u64
    ensures { result ≡ key bytes.now 0 (min 64 (8 * length bytes.now)) }
{
    if bytes.len() < WORD {
        return word_of_few(bytes);
    }
    u64::from_le_bytes([
        bytes[0], bytes[1], bytes[2], bytes[3], bytes[4], bytes[5], bytes[6], bytes[7],
    ])
}

// The key of all bits of fewer than 8 bytes.
fn word_of_few(bytes: &[u8]) -> u64
    requires { length bytes.now < 8 }
    ensures { result ≡ key bytes.now 0 (8 * length bytes.now) }
{
    let mut word = 0;
    for (j, byte) in bytes.iter().enumerate() {
        word += u64::from(*byte) << (8 * j);
    }
    word
}

// The `n` lowest bits of a number.
#[inline]
fn lowest_bits(x: u64, n: u32) -> u64
    requires { n ≤ 64 }
    ensures { result ≡ x % 2 ^ n }
{
    if n == WORD_BITS { x } else { x % (1 << n) }
}
