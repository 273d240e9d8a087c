ghost use Rattle.std.specs.Prelude.{◌≡◌, ◌∷◌, [], IsErrOf, IsTrue, OnOk};
ghost use Rattle.file_parts.specs.Fields.{int_bytes, number_bytes, signed_bytes};
ghost use Rattle.file_parts.specs.Storing.{GoesOn, behind, maker_of, name_of, offset_of, written};
ghost use Rattle.file_parts.specs.Storing.{written_in};

use byteorder::{ByteOrder, LittleEndian};
use outside::{Shelf, Trouble};

/// Writes the fields of a file one after the other, and keeps the offset.
///
/// A number is written with its lowest byte first, as Faiss's `write_index_binary`
/// (`index_write.cpp`) does. Each call is one `append` of the shelf, so long runs of numbers are
/// better made bytes first.
///
/// Contracts see how many bytes were written, the file that is being made where the shelf tells it,
/// and the shelf.
#[derive(Drop)]
pub struct Store<'s, H: Shelf> {
    shelf: &'s mut H,
    at: u64,
}

impl<'s, H: Shelf> Store<'s, H> {
    /// A store of what is to be put behind the file that is being made, whose offset begins at 0.
    pub fn new(shelf: &'s mut H) -> Store<'s, H>
        requires { IsTrue (H.is_making shelf.old) }
        ensures reference { name_of result ≡ shelf.entry.ghost_name }
        ensures shelf { maker_of result ≡ shelf.old }
        ensures written { written H.contents result ≡ written_in 0 (H.contents shelf.old) }
    {
        Store { shelf, at: 0 }
    }

    /// The number of bytes that were written, up to `u64::MAX`.
    pub fn at(&self) -> u64
        ensures { result ≡ offset_of self.now }
    {
        self.at
    }

    /// Writes bytes.
    ///
    /// # Errors
    ///
    /// What the shelf answered. No file is then being made.
    #[tactic(auto, using(crate::proofs::StoreLemmas::appended, crate::proofs::StoreLemmas::same_files))]
    pub fn bytes(&mut self, bytes: &[u8]) -> Result<(), Trouble>
        requires { IsTrue (H.is_making (maker_of self.old)) }
        ensures ok { OnOk result (written H.contents self.new
            ≡ behind bytes.now (written H.contents self.old)) }
        ensures shelf { GoesOn H.contents H.is_making H.faults self.old self.new result
            (IsErrOf result Trouble.Failed) }
    {
        self.shelf.append(bytes)?;
        self.at = self.at.saturating_add(bytes.len() as u64);
        Ok(())
    }

    /// Writes one byte.
    ///
    /// # Errors
    ///
    /// As [`Store::bytes`].
    pub fn byte(&mut self, byte: u8) -> Result<(), Trouble>
        requires { IsTrue (H.is_making (maker_of self.old)) }
        ensures ok { OnOk result (written H.contents self.new
            ≡ behind (byte ∷ []) (written H.contents self.old)) }
        ensures shelf { GoesOn H.contents H.is_making H.faults self.old self.new result
            (IsErrOf result Trouble.Failed) }
    {
        self.bytes(&[byte])?;
        Ok(())
    }

    /// Writes a number in four bytes.
    ///
    /// # Errors
    ///
    /// As [`Store::bytes`].
    #[tactic(auto, unfolding(crate::specs::Fields::number_bytes))]
    pub fn u32(&mut self, number: u32) -> Result<(), Trouble>
        requires { IsTrue (H.is_making (maker_of self.old)) }
        ensures ok { OnOk result (written H.contents self.new
            ≡ behind (number_bytes 4 number) (written H.contents self.old)) }
        ensures shelf { GoesOn H.contents H.is_making H.faults self.old self.new result
            (IsErrOf result Trouble.Failed) }
    {
        let mut bytes = [0u8; 4];
        LittleEndian::write_u32(&mut bytes, number);
        self.bytes(&bytes)?;
        Ok(())
    }

    /// Writes a signed number in four bytes, in two's complement.
    ///
    /// # Errors
    ///
    /// As [`Store::bytes`].
    #[tactic(auto, unfolding(crate::specs::Fields::int_bytes))]
    pub fn i32(&mut self, number: i32) -> Result<(), Trouble>
        requires { IsTrue (H.is_making (maker_of self.old)) }
        ensures ok { OnOk result (written H.contents self.new
            ≡ behind (int_bytes number) (written H.contents self.old)) }
        ensures shelf { GoesOn H.contents H.is_making H.faults self.old self.new result
            (IsErrOf result Trouble.Failed) }
    {
        let mut bytes = [0u8; 4];
        LittleEndian::write_i32(&mut bytes, number);
        self.bytes(&bytes)?;
        Ok(())
    }

    /// Writes a number in eight bytes.
    ///
    /// # Errors
    ///
    /// As [`Store::bytes`].
    #[tactic(auto, unfolding(crate::specs::Fields::number_bytes))]
    pub fn u64(&mut self, number: u64) -> Result<(), Trouble>
        requires { IsTrue (H.is_making (maker_of self.old)) }
        ensures ok { OnOk result (written H.contents self.new
            ≡ behind (number_bytes 8 number) (written H.contents self.old)) }
        ensures shelf { GoesOn H.contents H.is_making H.faults self.old self.new result
            (IsErrOf result Trouble.Failed) }
    {
        let mut bytes = [0u8; 8];
        LittleEndian::write_u64(&mut bytes, number);
        self.bytes(&bytes)?;
        Ok(())
    }

    /// Writes a signed number in eight bytes, in two's complement.
    ///
    /// # Errors
    ///
    /// As [`Store::bytes`].
    #[tactic(auto, unfolding(crate::specs::Fields::signed_bytes))]
    pub fn i64(&mut self, number: i64) -> Result<(), Trouble>
        requires { IsTrue (H.is_making (maker_of self.old)) }
        ensures ok { OnOk result (written H.contents self.new
            ≡ behind (signed_bytes 8 number) (written H.contents self.old)) }
        ensures shelf { GoesOn H.contents H.is_making H.faults self.old self.new result
            (IsErrOf result Trouble.Failed) }
    {
        let mut bytes = [0u8; 8];
        LittleEndian::write_i64(&mut bytes, number);
        self.bytes(&bytes)?;
        Ok(())
    }
}
