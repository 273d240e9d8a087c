// A sink that takes a few bytes of each write.
use outside::{MemSink, Sink, Trouble};
use std::alloc::{AllocError, Global};

/// A sink in memory that takes at most so many bytes at once, but always one. One of its writes
/// may fail.
#[derive(Debug, Drop)]
pub struct ShortSink {
    inner: MemSink,
    most: usize,
}

impl ShortSink {
    /// A sink of which the write of this number fails, from 0 on.
    pub fn failing(alloc: Global, most: usize, call: u64) -> Result<ShortSink, AllocError> {
        let mut inner = MemSink::new(alloc);
        inner.fail_at(call)?;
        Ok(ShortSink { inner, most })
    }

    /// The bytes that it took so far.
    pub fn as_slice(&self) -> &[u8] {
        self.inner.as_slice()
    }
}

impl Sink for ShortSink {
    ghost use Rattle.std.specs.Prelude.{Some};

    ghost written = { λ s. Some s.inner.written };

    ghost faults = { λ s. s.inner.faults };

    fn write(&mut self, piece: &[u8]) -> Result<usize, Trouble> {
        let taken = piece.len().min(self.most.max(1));
        self.inner.write(&piece[..taken])
    }
}
