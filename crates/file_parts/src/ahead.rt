ghost use Rattle.std.specs.Prelude.{◌≡◌, ◌<◌, ◌++◌, None, Ok, [], IfSome, IsTrue, IsErrOf};
ghost use Rattle.std.specs.Prelude.{length, min, take, drop, true};
ghost use Rattle.outside.specs.Calls.{WhereTold};
ghost use Rattle.outside.specs.Causes.{CountsFailure};
ghost use Rattle.file_parts.specs.Ahead.{Refills};

use outside::{Shelf, Trouble};
use std::marker::Model;

/// The most bytes that are read at once.
pub(crate) const PIECE: usize = 65_536;

/// The bytes of a long number.
pub(crate) const NUMBER: usize = 8;

/// Bytes that were read from a shelf and not handed out yet. Contracts see these bytes.
#[derive(Drop)]
pub(crate) struct Ahead {
    bytes: [u8; PIECE],
    start: usize,
    end: usize,
}

impl Model for Ahead {
    ghost use Rattle.std.specs.Prelude.{◌-◌, ◌≤◌, ℕ, List, take, drop, length};

    ghost Value = { List ℕ };

    ghost view = { λ a. take (a.end - a.start) (drop a.start a.bytes) };

    ghost invariant = { λ a. (a.start ≤ a.end) × (a.end ≤ length a.bytes) };
}

impl Ahead {
    pub(crate) fn new() -> Ahead
        ensures { result ≡ [] }
    {
        Ahead {
            bytes: [0; PIECE],
            start: 0,
            end: 0,
        }
    }

    /// Hands out as many bytes as there are, or as fit, and gives their number.
    pub(crate) fn take(&mut self, into: &mut [u8]) -> usize
        ensures count { result ≡ min (length self.old) (length into.old) }
        ensures front { take result into.new ≡ take result self.old }
        ensures rest { self.new ≡ drop result self.old }
    {
        let count = copy_front(&self.bytes[self.start..self.end], into);
        self.start += count;
        count
    }

    /// Hands out the next eight bytes, if there are so many.
    pub(crate) fn take_number(&mut self) -> Option<[u8; NUMBER]>
        ensures some { IfSome result (λ bytes. self.old ≡ bytes ++ self.new) }
        ensures none { result ≡ None → self.new ≡ self.old }
    {
        if self.end - self.start < NUMBER {
            return None;
        }
        let mut bytes = [0; NUMBER];
        bytes.copy_from_slice(&self.bytes[self.start..self.start + NUMBER]);
        self.start += NUMBER;
        Some(bytes)
    }

    /// Says whether there are bytes. If there are none, it first reads as many as one read gives, up
    /// to [`PIECE`]. So `false` says that the file has ended.
    pub(crate) fn refill<H: Shelf>(&mut self, shelf: &mut H) -> Result<bool, Trouble>
        requires { IsTrue (H.is_reading shelf.old) }
        ensures some { result ≡ Ok true → 0 < length self.new }
        ensures contents { WhereTold (H.contents shelf.old) (H.contents shelf.new)
            (Refills self.old self.new result) }
        ensures reading { H.is_reading shelf.new ≡ H.is_reading shelf.old }
        ensures cause { CountsFailure (H.faults shelf.old) (H.faults shelf.new)
            (IsErrOf result Trouble.Failed) }
    {
        if self.start < self.end {
            return Ok(true);
        }
        self.start = 0;
        self.end = 0;
        let count = shelf.read(&mut self.bytes)?;
        self.end = count;
        Ok(count > 0)
    }
}

// Copies as many bytes as there are, or as fit, and gives their number.
fn copy_front(from: &[u8], into: &mut [u8]) -> usize
    ensures count { result ≡ min (length from.now) (length into.old) }
    ensures front { take result into.new ≡ take result from.now }
{
    let count = from.len().min(into.len());
    into[..count].copy_from_slice(&from[..count]);
    count
}
