ghost use Rattle.std.specs.Prelude.{◌≡◌, IsTrue, IsErrOf, OnOk};
ghost use Rattle.file_parts.specs.Storing.{behind, maker_of, written};
ghost use Rattle.index_files.specs.Canon.{bit_of, head, ids_bytes};
ghost use Rattle.index_files.specs.Writing.{Writes};

use bcodes::Dim;
use byteorder::{ByteOrder, LittleEndian};
use file_parts::Store;
use outside::{Shelf, Trouble};

const METRIC_L2: u32 = 1;

// The ids that are made bytes at a time.
const PIECE_IDS: usize = 512;

// The header of an index of `count` rows, Faiss's `write_index_binary_header`.
#[tactic(auto, using(file_parts::proofs::StoreLemmas::behind_twice))]
pub fn write_head<H: Shelf>(
    store: &mut Store<'_, H>,
    dim: Dim,
    count: u64,
    trained: bool,
) -> Result<(), Trouble>
    requires { IsTrue (H.is_making (maker_of store.old)) }
    ensures ok { OnOk result (written H.contents store.new
        ≡ behind (head dim.bits count trained) (written H.contents store.old)) }
    ensures shelf { Writes H.contents H.is_making H.faults store.old store.new result
        (IsErrOf result Trouble.Failed) }
{
    let bits = dim.bits();
    store.u32(bits)?;
    store.u32(bits / 8)?;
    store.u64(count)?;
    store.byte(flag_byte(trained))?;
    store.u32(METRIC_L2)?;
    Ok(())
}

pub fn flag_byte(flag: bool) -> u8
    ensures { result ≡ bit_of flag }
{
    match flag {
        true => 1,
        false => 0,
    }
}

pub fn write_ids<H: Shelf>(store: &mut Store<'_, H>, ids: &[i64]) -> Result<(), Trouble>
    requires { IsTrue (H.is_making (maker_of store.old)) }
    ensures ok { OnOk result (written H.contents store.new
        ≡ behind (ids_bytes ids.now) (written H.contents store.old)) }
    ensures shelf { Writes H.contents H.is_making H.faults store.old store.new result
        (IsErrOf result Trouble.Failed) }
{
    let mut buffer = [0u8; 8 * PIECE_IDS];
    let mut from = 0;
    while from < ids.len() {
        let n = (ids.len() - from).min(PIECE_IDS);
        let piece = &mut buffer[..8 * n];
        LittleEndian::write_i64_into(&ids[from..from + n], piece);
        store.bytes(piece)?;
        from += n;
    }
    Ok(())
}
