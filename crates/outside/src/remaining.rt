ghost use Rattle.std.specs.Prelude.{◌≡◌, ◌<◌, ◌^◌, IfOk, drop, take, length};
ghost use Rattle.std.specs.List.{All};
ghost use Rattle.outside.specs.States.{read_len};

use std::alloc::{AllocError, Global};
use std::marker::Model;

/// Bytes that are handed out from the front on. Contracts see those that are left.
#[derive(Debug, Drop)]
pub(crate) struct Remaining {
    bytes: Vec<u8>,
    at: usize,
}

impl Model for Remaining {
    ghost use Rattle.std.specs.Prelude.{◌≤◌, ℕ, List, drop, vec_len};

    ghost Value = { List ℕ };

    ghost view = { λ r. drop r.at r.bytes.items };

    ghost invariant = { λ r. r.at ≤ vec_len r.bytes };
}

impl Remaining {
    pub(crate) fn new(alloc: Global, bytes: &[u8]) -> Result<Remaining, AllocError>
        ensures value { IfOk result (λ r. r ≡ bytes.now) }
        ensures are_bytes { All (λ byte. byte < 2 ^ 8) bytes.now }
    {
        Ok(Remaining {
            bytes: bytes.to_vec(alloc)?,
            at: 0,
        })
    }

    /// Hands out as many bytes as are left, as `buf` holds and as `most` allows, whichever is the
    /// least, and leaves the rest of `buf`.
    pub(crate) fn read(&mut self, buf: &mut [u8], most: usize) -> usize
        ensures count { result ≡ read_len self.old (length buf.old) most }
        ensures front { take result buf.new ≡ take result self.old }
        ensures rest { drop result buf.new ≡ drop result buf.old }
        ensures left { self.new ≡ drop result self.old }
    {
        let count = copy_front(&self.bytes[self.at..], buf, most);
        self.at += count;
        count
    }
}

// Copies as many bytes as there are, as fit and as may go at once, and gives their number.
fn copy_front(from: &[u8], buf: &mut [u8], most: usize) -> usize
    ensures count { result ≡ read_len from.now (length buf.old) most }
    ensures front { take result buf.new ≡ take result from.now }
    ensures rest { drop result buf.new ≡ drop result buf.old }
{
    let count = from.len().min(buf.len()).min(most);
    buf[..count].copy_from_slice(&from[..count]);
    count
}
