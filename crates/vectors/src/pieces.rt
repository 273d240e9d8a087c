// Texts too long to be written out.
use std::alloc::{AllocError, Global};

// A part of a text.
pub enum Piece {
    Text(&'static str),
    // A text so many times.
    Times(&'static str, usize),
    // Codes of so many equal bytes, each behind a space: the byte, how many of it, how many codes.
    Codes(&'static str, usize, usize),
}

fn codes(alloc: Global, byte: &str, bytes: usize, count: usize) -> Result<String, AllocError> {
    let code = byte.repeat(alloc, bytes)?;
    let word = format!(in alloc; " {code}")?;
    let words = word.repeat(alloc, count)?;
    Ok(words)
}

impl Piece {
    fn text(&self, alloc: Global) -> Result<String, AllocError> {
        match *self {
            Piece::Text(text) => String::from_str(alloc, text),
            Piece::Times(text, times) => text.repeat(alloc, times),
            Piece::Codes(byte, bytes, count) => codes(alloc, byte, bytes, count),
        }
    }
}

pub fn text_of(alloc: Global, pieces: &[Piece]) -> Result<String, AllocError> {
    let mut text = String::new(alloc);
    for piece in pieces {
        text.push_str(piece.text(alloc)?.as_str())?;
    }
    Ok(text)
}
