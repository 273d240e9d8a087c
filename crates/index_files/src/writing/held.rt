ghost use Rattle.std.specs.Prelude.{◌≡◌, ◌+◌, ◌≤◌, [], ◌++◌, length, IsTrue, IsErrOf, OnOk};
ghost use Rattle.file_parts.specs.Fields.{number_bytes};
ghost use Rattle.file_parts.specs.Storing.{behind, maker_of, written};
ghost use Rattle.index_files.specs.Canon.{ids_bytes};
ghost use Rattle.index_files.specs.Writing.{Writes, gathered};

use byteorder::{ByteOrder, LittleEndian};
use file_parts::Store;
use outside::{Shelf, Trouble};
use std::marker::Model;

// The most bytes that are held back.
const PIECE: usize = 65_536;

// The ids that are made bytes at a time.
const PIECE_IDS: usize = 64;

/// Bytes that are held back, so that many small parts take few calls of the shelf. They are seen as
/// a list.
#[derive(Drop)]
pub struct Held {
    bytes: [u8; PIECE],
    len: usize,
}

impl Model for Held {
    ghost use Rattle.std.specs.Prelude.{◌≤◌, ℕ, List, length, take};

    ghost Value = { List ℕ };

    ghost view = { λ h. take h.len h.bytes };

    ghost invariant = { λ h. h.len ≤ 65536 };
}

impl Held {
    /// No bytes.
    pub fn new() -> Held
        ensures { result ≡ [] }
    {
        Held {
            bytes: [0; PIECE],
            len: 0,
        }
    }

    // How many more bytes can be held back.
    fn room(&self) -> usize
        ensures { result + length self.now ≡ 65536 }
    {
        PIECE - self.len
    }

    fn as_slice(&self) -> &[u8]
        ensures { result.now ≡ self.now }
    {
        &self.bytes[..self.len]
    }

    fn push(&mut self, more: &[u8])
        requires { length self.old + length more.now ≤ 65536 }
        ensures { self.new ≡ self.old ++ more.now }
    {
        let end = self.len + more.len();
        self.bytes[self.len..end].copy_from_slice(more);
        self.len = end;
    }

    fn clear(&mut self)
        ensures { self.new ≡ [] }
    {
        self.len = 0;
    }
}

/// Puts bytes behind those that are held back, which are written first if there is no room.
pub fn put<H: Shelf>(store: &mut Store<'_, H>, held: &mut Held, bytes: &[u8]) -> Result<(), Trouble>
    requires { IsTrue (H.is_making (maker_of store.old)) }
    ensures ok { OnOk result (gathered H.contents store.new held.new
        ≡ behind bytes.now (gathered H.contents store.old held.old)) }
    ensures shelf { Writes H.contents H.is_making H.faults store.old store.new result
        (IsErrOf result Trouble.Failed) }
{
    if bytes.len() <= held.room() {
        held.push(bytes);
        return Ok(());
    }
    write_held(store, held)?;
    store.bytes(bytes)?;
    Ok(())
}

/// Writes the bytes that are held back.
pub fn write_held<H: Shelf>(store: &mut Store<'_, H>, held: &mut Held) -> Result<(), Trouble>
    requires { IsTrue (H.is_making (maker_of store.old)) }
    ensures ok { OnOk result (written H.contents store.new
        ≡ gathered H.contents store.old held.old) }
    ensures none { OnOk result (held.new ≡ []) }
    ensures shelf { Writes H.contents H.is_making H.faults store.old store.new result
        (IsErrOf result Trouble.Failed) }
{
    store.bytes(held.as_slice())?;
    held.clear();
    Ok(())
}

/// Puts a number in eight bytes behind those that are held back.
#[tactic(auto, unfolding(file_parts::specs::Fields::number_bytes))]
pub fn put_u64<H: Shelf>(
    store: &mut Store<'_, H>,
    held: &mut Held,
    number: u64,
) -> Result<(), Trouble>
    requires { IsTrue (H.is_making (maker_of store.old)) }
    ensures ok { OnOk result (gathered H.contents store.new held.new
        ≡ behind (number_bytes 8 number) (gathered H.contents store.old held.old)) }
    ensures shelf { Writes H.contents H.is_making H.faults store.old store.new result
        (IsErrOf result Trouble.Failed) }
{
    let mut bytes = [0u8; 8];
    LittleEndian::write_u64(&mut bytes, number);
    put(store, held, &bytes)?;
    Ok(())
}

/// Puts ids behind the bytes that are held back.
pub fn put_ids<H: Shelf>(
    store: &mut Store<'_, H>,
    held: &mut Held,
    ids: &[i64],
) -> Result<(), Trouble>
    requires { IsTrue (H.is_making (maker_of store.old)) }
    ensures ok { OnOk result (gathered H.contents store.new held.new
        ≡ behind (ids_bytes ids.now) (gathered H.contents store.old held.old)) }
    ensures shelf { Writes H.contents H.is_making H.faults store.old store.new result
        (IsErrOf result Trouble.Failed) }
{
    let mut buffer = [0u8; 8 * PIECE_IDS];
    let mut from = 0;
    while from < ids.len() {
        let n = (ids.len() - from).min(PIECE_IDS);
        let piece = &mut buffer[..8 * n];
        LittleEndian::write_i64_into(&ids[from..from + n], piece);
        put(store, held, piece)?;
        from += n;
    }
    Ok(())
}
