ghost use Rattle.std.specs.Prelude.{◌≡◌, ◌^◌, ◌<◌, [], Err, Ok, IfOk, IsErrOf, IsTrue};
ghost use Rattle.std.specs.List.{All};
ghost use Rattle.outside.specs.Calls.{KeepsFiles};
ghost use Rattle.outside.specs.Causes.{CountsFailure};
ghost use Rattle.bcodes.specs.Value.{IndexValue};
ghost use Rattle.file_parts.specs.declared.file_fault.FileFault.{FileFault};
ghost use Rattle.file_parts.specs.Feeding.{Decodes, IsTold, StaysOver, bytes_from};
ghost use Rattle.file_parts.specs.Feeding.{place, shelf_of};
ghost use Rattle.file_parts.specs.Format.{FirstFault, ended, read, run};
ghost use Rattle.index_files.specs.File.{IsFile};
ghost use Rattle.index_files.specs.FileFormat.{file};
ghost use Rattle.index_files.specs.Loading.{Loads};

use crate::LoadError;
use crate::reading::index::read_file;
use any_index::AnyIndex;
use file_parts::{Feed, PartError};
use outside::Shelf;
use std::alloc::Global;

/// Reads an index from the file that is being read, from where it stands to its end. The file is
/// laid out as for Faiss's `read_index_binary` (`impl/index_read.cpp`).
///
/// # Errors
///
/// `Bad` with the first fault if the file is not one of an index; `Failed` if the shelf fails;
/// `Memory` if memory runs out.
pub fn decode<H: Shelf>(alloc: Global, shelf: &mut H) -> Result<AnyIndex, LoadError>
    requires { IsTrue (H.is_reading shelf.old) }
    // What is accepted is a file of that value ..
    ensures ok { IsTold (H.contents shelf.old)
        → All (λ x. x < 2 ^ 8) (bytes_from [] (H.contents shelf.old))
        → IfOk result (λ v. IsFile v (bytes_from [] (H.contents shelf.old))) }
    // .. and a file of a value gives that value, unless the shelf failed or memory ran out.
    ensures only { IsTold (H.contents shelf.old) → (v : IndexValue)
        → IsFile v (bytes_from [] (H.contents shelf.old)) → Loads result (Ok v) }
    // What is refused has that first fault ..
    ensures bad { IsTold (H.contents shelf.old) → (fault : FileFault)
        → result ≡ Err (LoadError.Bad fault)
        → FirstFault file (bytes_from [] (H.contents shelf.old)) fault }
    // .. and a first fault is answered, unless the shelf failed or memory ran out.
    ensures first { IsTold (H.contents shelf.old) → (fault : FileFault)
        → FirstFault file (bytes_from [] (H.contents shelf.old)) fault
        → Loads result (Err fault) }
    ensures files { KeepsFiles (H.contents shelf.old) (H.contents shelf.new) }
    ensures reading { H.is_reading shelf.new ≡ H.is_reading shelf.old }
    ensures cause { CountsFailure (H.faults shelf.old) (H.faults shelf.new)
        (IsErrOf result LoadError.Failed) }
{
    let index = decode_fields(alloc, shelf)?;
    Ok(index)
}

// What reading field by field gives.
fn decode_fields<H: Shelf>(alloc: Global, shelf: &mut H) -> Result<AnyIndex, PartError>
    requires { IsTrue (H.is_reading shelf.old) }
    ensures exact { IsTold (H.contents shelf.old)
        → Decodes (λ index. index) result
        (read file (bytes_from [] (H.contents shelf.old))) }
    ensures files { KeepsFiles (H.contents shelf.old) (H.contents shelf.new) }
    ensures reading { H.is_reading shelf.new ≡ H.is_reading shelf.old }
    ensures cause { CountsFailure (H.faults shelf.old) (H.faults shelf.new)
        (IsErrOf result PartError.Failed) }
{
    let mut feed = Feed::new(shelf);
    let index = read_whole(alloc, &mut feed)?;
    Ok(index)
}

// An index, and the end of its file.
fn read_whole<H: Shelf>(alloc: Global, feed: &mut Feed<'_, H>) -> Result<AnyIndex, PartError>
    requires { IsTrue (H.is_reading (shelf_of feed.old)) }
    ensures exact { IsTold (H.contents (shelf_of feed.old))
        → Decodes (λ index. index) result
        (ended (run file (place H.contents feed.old))) }
    ensures shelf { StaysOver H.contents H.is_reading H.faults feed.old feed.new
        (IsErrOf result PartError.Failed) }
{
    let index = read_file(alloc, feed)?;
    feed.end()?;
    Ok(index)
}
