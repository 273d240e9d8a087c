ghost use Rattle.std.specs.Prelude.{◌≡◌, ◌%◌, ◌^◌, ◌≤◌, [], ◌∷◌, IsTrue, IsErrOf, OnOk};
ghost use Rattle.file_parts.specs.Storing.{behind, maker_of, written};
ghost use Rattle.index_files.specs.Canon.{vector};
ghost use Rattle.index_files.specs.Writing.{Packs, Writes};

use bit_strings::{BitWriter, Packed};
use file_parts::Store;
use outside::{Shelf, Trouble};

/// Packs the `n` lowest bits of a number.
#[inline]
pub fn put_bits(writer: &mut BitWriter, x: u64, n: u32)
    requires width { n ≤ 64 }
    requires room { n ≤ writer.old.room }
    ensures { Packs (record { number = x; width = n } ∷ []) writer.old writer.new }
{
    writer.write(lowest_bits(x, n), n);
}

#[inline]
fn lowest_bits(x: u64, n: u32) -> u64
    requires { n ≤ 64 }
    ensures { result ≡ x % 2 ^ n }
{
    if n == u64::BITS { x } else { x % (1 << n) }
}

/// Writes a packed run, as a vector of bytes.
pub fn write_run<H: Shelf>(store: &mut Store<'_, H>, run: &Packed) -> Result<(), Trouble>
    requires { IsTrue (H.is_making (maker_of store.old)) }
    ensures ok { OnOk result (written H.contents store.new
        ≡ behind (vector run.now) (written H.contents store.old)) }
    ensures shelf { Writes H.contents H.is_making H.faults store.old store.new result
        (IsErrOf result Trouble.Failed) }
{
    let bytes = run.as_slice();
    store.u64(bytes.len() as u64)?;
    store.bytes(bytes)?;
    Ok(())
}
