ghost use Rattle.std.specs.Prelude.{◌≡◌, ◌*◌, ◌/◌, ◌<◌, [], IfOk, IsErrOf, IsTrue, length, vec_len};
ghost use Rattle.bcodes.specs.Chunks.{chunks_of};
ghost use Rattle.file_parts.specs.Fields.{any_int, any_number, any_signed, bytes_field, header};
ghost use Rattle.file_parts.specs.Fields.{no_check, repeated};
ghost use Rattle.file_parts.specs.Feeding.{GivesEnd, GivesField, IsTold, StaysOver, name_of};
ghost use Rattle.file_parts.specs.Feeding.{offset_of, place, place_of, shelf_of};

use crate::ahead::{Ahead, NUMBER};
use crate::fill::fill;
use crate::run::read_run;
use crate::{Letters, PartError, Reason};
use byteorder::{ByteOrder, LittleEndian};
use outside::Shelf;
use std::alloc::Global;

/// Reads the fields of a file one after the other, and keeps the offset.
///
/// A number stands with its lowest byte first, as Faiss's `read_index_binary` (`index_read.cpp`)
/// has it. The feed reads ahead, at most 65,536 bytes by one read. Where it stands is the offset of
/// the next field, whatever was read ahead.
///
/// Contracts see the offset, the bytes from there on where the shelf tells them, and the shelf.
#[derive(Drop)]
pub struct Feed<'s, H: Shelf> {
    shelf: &'s mut H,
    ahead: Ahead,
    at: u64,
}

impl<'s, H: Shelf> Feed<'s, H> {
    /// A feed of what is left of the file that is being read, whose offset begins at 0.
    pub fn new(shelf: &'s mut H) -> Feed<'s, H>
        requires { IsTrue (H.is_reading shelf.old) }
        ensures reference { name_of result ≡ shelf.entry.ghost_name }
        ensures shelf { shelf_of result ≡ shelf.old }
        ensures place { place H.contents result ≡ place_of 0 [] (H.contents shelf.old) }
    {
        Feed {
            shelf,
            ahead: Ahead::new(),
            at: 0,
        }
    }

    /// The offset of the next field, up to `u64::MAX`.
    pub fn at(&self) -> u64
        ensures { result ≡ offset_of self.now }
    {
        self.at
    }

    /// Takes a field of as many bytes as the buffer has.
    ///
    /// # Errors
    ///
    /// `Bad` with `Short` at the field's first byte if the file ends before its last one; `Failed`
    /// if the shelf fails; `Memory` if memory runs out.
    pub fn bytes(&mut self, into: &mut [u8]) -> Result<(), PartError>
        requires { IsTrue (H.is_reading (shelf_of self.old)) }
        ensures gives { GivesField H.contents (λ _. into.new)
            (bytes_field (length into.old) no_check) self.old self.new result }
        ensures shelf { StaysOver H.contents H.is_reading H.faults self.old self.new
            (IsErrOf result PartError.Failed) }
    {
        if fill(&mut *self.shelf, &mut self.ahead, into)? < into.len() {
            return Err(PartError::bad(self.at, Reason::Short));
        }
        self.at = self.at.saturating_add(into.len() as u64);
        Ok(())
    }

    /// Takes fields of `width` bytes each, as many as fill the buffer.
    ///
    /// # Errors
    ///
    /// `Bad` with `Short` at the first byte of the first field that the file does not hold whole;
    /// `Failed` if the shelf fails; `Memory` if memory runs out.
    pub fn records(&mut self, into: &mut [u8], width: usize) -> Result<(), PartError>
        requires reading { IsTrue (H.is_reading (shelf_of self.old)) }
        requires width { 0 < width }
        requires whole { length into.old / width * width ≡ length into.old }
        ensures gives { GivesField H.contents
            (λ _. chunks_of width (length into.old / width) into.new)
            (repeated (length into.old / width) (bytes_field width no_check))
            self.old self.new result }
        ensures shelf { StaysOver H.contents H.is_reading H.faults self.old self.new
            (IsErrOf result PartError.Failed) }
    {
        let at = self.at();
        let got = fill(&mut *self.shelf, &mut self.ahead, into)?;
        if got < into.len() {
            let whole = got / width * width;
            return Err(PartError::bad(at.saturating_add(whole as u64), Reason::Short));
        }
        self.at = at.saturating_add(into.len() as u64);
        Ok(())
    }

    /// Takes a field of `count` bytes, whatever their number. Room for them is made as they are
    /// read, at most 65,536 bytes at a time, so a count that no file holds takes no memory.
    ///
    /// # Errors
    ///
    /// As [`Feed::bytes`]: `Short` stands at the first byte of the whole field.
    pub fn run(&mut self, alloc: Global, count: u64) -> Result<Vec<u8>, PartError>
        requires { IsTrue (H.is_reading (shelf_of self.old)) }
        ensures gives { GivesField H.contents (λ bytes. bytes.items) (bytes_field count no_check)
            self.old self.new result }
        ensures shelf { StaysOver H.contents H.is_reading H.faults self.old self.new
            (IsErrOf result PartError.Failed) }
        ensures count { IfOk result (λ bytes. vec_len bytes ≡ count) }
    {
        match read_run(alloc, &mut *self.shelf, &mut self.ahead, count)? {
            Some(bytes) => {
                self.at = self.at.saturating_add(count);
                Ok(bytes)
            }
            None => Err(PartError::bad(self.at, Reason::Short)),
        }
    }

    /// Takes a field of one byte.
    ///
    /// # Errors
    ///
    /// As [`Feed::bytes`].
    pub fn byte(&mut self) -> Result<u8, PartError>
        requires { IsTrue (H.is_reading (shelf_of self.old)) }
        ensures gives { GivesField H.contents (λ n. n) (any_number 1) self.old self.new result }
        ensures shelf { StaysOver H.contents H.is_reading H.faults self.old self.new
            (IsErrOf result PartError.Failed) }
    {
        let mut bytes = [0u8; 1];
        self.bytes(&mut bytes)?;
        Ok(bytes[0])
    }

    /// Takes a number of four bytes.
    ///
    /// # Errors
    ///
    /// As [`Feed::bytes`].
    pub fn u32(&mut self) -> Result<u32, PartError>
        requires { IsTrue (H.is_reading (shelf_of self.old)) }
        ensures gives { GivesField H.contents (λ n. n) (any_number 4) self.old self.new result }
        ensures shelf { StaysOver H.contents H.is_reading H.faults self.old self.new
            (IsErrOf result PartError.Failed) }
    {
        let mut bytes = [0u8; 4];
        self.bytes(&mut bytes)?;
        Ok(LittleEndian::read_u32(&bytes))
    }

    /// Takes a signed number of four bytes, in two's complement.
    ///
    /// # Errors
    ///
    /// As [`Feed::bytes`].
    pub fn i32(&mut self) -> Result<i32, PartError>
        requires { IsTrue (H.is_reading (shelf_of self.old)) }
        ensures gives { GivesField H.contents (λ z. z) any_int self.old self.new result }
        ensures shelf { StaysOver H.contents H.is_reading H.faults self.old self.new
            (IsErrOf result PartError.Failed) }
    {
        let mut bytes = [0u8; 4];
        self.bytes(&mut bytes)?;
        Ok(LittleEndian::read_i32(&bytes))
    }

    /// Takes a number of eight bytes.
    ///
    /// # Errors
    ///
    /// As [`Feed::bytes`].
    pub fn u64(&mut self) -> Result<u64, PartError>
        requires { IsTrue (H.is_reading (shelf_of self.old)) }
        ensures gives { GivesField H.contents (λ n. n) (any_number 8) self.old self.new result }
        ensures shelf { StaysOver H.contents H.is_reading H.faults self.old self.new
            (IsErrOf result PartError.Failed) }
    {
        let bytes = self.long()?;
        Ok(LittleEndian::read_u64(&bytes))
    }

    /// Takes a signed number of eight bytes, in two's complement.
    ///
    /// # Errors
    ///
    /// As [`Feed::bytes`].
    pub fn i64(&mut self) -> Result<i64, PartError>
        requires { IsTrue (H.is_reading (shelf_of self.old)) }
        ensures gives { GivesField H.contents (λ z. z) (any_signed 8) self.old self.new result }
        ensures shelf { StaysOver H.contents H.is_reading H.faults self.old self.new
            (IsErrOf result PartError.Failed) }
    {
        let bytes = self.long()?;
        Ok(LittleEndian::read_i64(&bytes))
    }

    // The bytes of a long number. Files have so many of these that a way of their own pays: it is
    // short enough to be inlined, and copies a known number of bytes.
    fn long(&mut self) -> Result<[u8; NUMBER], PartError>
        requires { IsTrue (H.is_reading (shelf_of self.old)) }
        ensures gives { GivesField H.contents (λ bytes. bytes) (bytes_field 8 no_check)
            self.old self.new result }
        ensures shelf { StaysOver H.contents H.is_reading H.faults self.old self.new
            (IsErrOf result PartError.Failed) }
    {
        if let Some(bytes) = self.ahead.take_number() {
            self.at = self.at.saturating_add(NUMBER as u64);
            return Ok(bytes);
        }
        let mut bytes = [0; NUMBER];
        self.bytes(&mut bytes)?;
        Ok(bytes)
    }

    /// Takes four letters.
    ///
    /// # Errors
    ///
    /// As [`Feed::bytes`].
    pub fn letters(&mut self) -> Result<Letters, PartError>
        requires { IsTrue (H.is_reading (shelf_of self.old)) }
        ensures gives { GivesField H.contents (λ letters. letters) (bytes_field 4 no_check)
            self.old self.new result }
        ensures shelf { StaysOver H.contents H.is_reading H.faults self.old self.new
            (IsErrOf result PartError.Failed) }
    {
        let mut bytes = [0u8; 4];
        self.bytes(&mut bytes)?;
        Ok(Letters::new(bytes))
    }

    /// Says whether the file ends here.
    ///
    /// # Errors
    ///
    /// `Bad` with `Trailing` if a byte follows; `Failed` if the shelf fails; `Memory` if memory
    /// runs out.
    pub fn end(&mut self) -> Result<(), PartError>
        requires { IsTrue (H.is_reading (shelf_of self.old)) }
        ensures gives { IsTold (H.contents (shelf_of self.old))
            → GivesEnd result (place H.contents self.old) }
        ensures shelf { StaysOver H.contents H.is_reading H.faults self.old self.new
            (IsErrOf result PartError.Failed) }
    {
        if self.ahead.refill(&mut *self.shelf)? {
            return Err(PartError::bad(self.at, Reason::Trailing));
        }
        Ok(())
    }
}
