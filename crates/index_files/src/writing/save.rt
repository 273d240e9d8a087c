ghost use Rattle.std.specs.Prelude.{◌≡◌, ◌↔◌, length, true, Err, Some, IfOk, IsErrOf, IsSome};
ghost use Rattle.std.specs.Prelude.{IsTrue, OnOk};
ghost use Rattle.outside.specs.Calls.{WhereTold};
ghost use Rattle.outside.specs.Causes.{CountsFailure};
ghost use Rattle.multi_hash.specs.Wide.{wide};
ghost use Rattle.multi_hash.specs.declared.wide.Wide.{Wide};
ghost use Rattle.file_parts.specs.Storing.{files_in, made_in, put_behind};
ghost use Rattle.index_files.specs.Canon.{canon};
ghost use Rattle.index_files.specs.Saving.{Saves};

use crate::SaveError;
use crate::writing::index::write_index;
use any_index::AnyIndex;
use bcodes::{BinaryIndex, Meter, Plain};
use file_parts::Store;
use multi_hash::Wide;
use outside::{Shelf, Trouble};
use std::alloc::Global;

/// Writes an index to a file of this name, in place of one that has the name, and gives the number
/// of bytes. The file is laid out as by Faiss's `write_index_binary` (`impl/index_write.cpp`). Long
/// runs of codes are written from where they stand, short ones by way of a buffer.
///
/// # Errors
///
/// `BucketBits` exactly where a bucket of a MultiHash holds all codes and their number is a power
/// of two, before the shelf is called; `Failed` if the shelf fails; `Memory` if memory runs out.
/// The files are then as before, or, at `Failed`, with the new file.
#[tactic(auto, using(crate::proofs::SaveLemmas::not_begun, crate::proofs::SaveLemmas::not_written, crate::proofs::SaveLemmas::was_kept))]
pub fn encode<H: Shelf>(
    alloc: Global,
    index: &AnyIndex,
    name: &str,
    shelf: &mut H,
) -> Result<u64, SaveError>
    ensures bytes { IfOk result (λ n. n ≡ length (canon index.now)) }
    ensures files { WhereTold (H.contents shelf.old) (H.contents shelf.new)
        (Saves name.now (canon index.now) result) }
    ensures cause { CountsFailure (H.faults shelf.old) (H.faults shelf.new)
        (IsErrOf result SaveError.Failed) }
    ensures wide { (w : Wide)
        → (result ≡ Err (SaveError.BucketBits w)) ↔ (wide index.now ≡ Some w) }
    ensures untouched { IsSome (wide index.now) → shelf.new ≡ shelf.old }
{
    if let Some(wide) = wide_of(index) {
        return Err(SaveError::BucketBits(wide));
    }
    shelf.create(name)?;
    let count = write_file(alloc, shelf, index)?;
    shelf.keep()?;
    Ok(count)
}

#[tactic(auto, using(crate::proofs::SaveLemmas::wide_none, crate::proofs::SaveLemmas::wide_some))]
fn wide_of(index: &AnyIndex) -> Option<Wide>
    ensures { result ≡ wide index.now }
{
    match index.as_multi() {
        Some(multi) => multi.wide_bucket(),
        None => None,
    }
}

// Writes the file that is being made, and gives the number of its bytes.
fn write_file<H: Shelf>(alloc: Global, shelf: &mut H, index: &AnyIndex) -> Result<u64, Trouble>
    requires { IsTrue (H.is_making shelf.old) }
    ensures bytes { IfOk result (λ n. n ≡ length (canon index.now)) }
    ensures ok { OnOk result (made_in (H.contents shelf.new)
        ≡ put_behind (canon index.now) (made_in (H.contents shelf.old))) }
    ensures files { files_in (H.contents shelf.new) ≡ files_in (H.contents shelf.old) }
    ensures making { OnOk result (H.is_making shelf.new ≡ true) }
    ensures cause { CountsFailure (H.faults shelf.old) (H.faults shelf.new)
        (IsErrOf result Trouble.Failed) }
{
    let _dim = index.dim();
    let mut meter = Meter::new(Plain);
    let mut store = Store::new(shelf);
    write_index(alloc, &mut store, index, &mut meter)?;
    Ok(store.at())
}
