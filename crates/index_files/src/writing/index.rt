ghost use Rattle.std.specs.Prelude.{◌≡◌, IsTrue, IsErrOf, OnOk};
ghost use Rattle.any_index.specs.Kinds.{inner_value};
ghost use Rattle.file_parts.specs.Storing.{behind, maker_of, written};
ghost use Rattle.index_files.specs.Canon.{canon, inner_bytes, mapped_bytes};
ghost use Rattle.index_files.specs.File.{settled_inner};
ghost use Rattle.index_files.specs.Writing.{Writes};

use crate::writing::flat::write_flat;
use crate::writing::hash::write_hash;
use crate::writing::ivf::write_ivf;
use crate::writing::multi::write_multi;
use crate::writing::parts::{write_head, write_ids};
use any_index::{AnyIndex, InnerIndex};
use bcodes::{BinaryIndex, Meter, Plain};
use factory_text::Prefix;
use file_parts::Store;
use outside::{Shelf, Trouble};
use std::alloc::Global;

// The codes that are lent are counted on the meter, which nobody reads.
pub fn write_index<H: Shelf>(
    alloc: Global,
    store: &mut Store<'_, H>,
    index: &AnyIndex,
    meter: &mut Meter<Plain>,
) -> Result<(), Trouble>
    requires { IsTrue (H.is_making (maker_of store.old)) }
    ensures ok { OnOk result (written H.contents store.new
        ≡ behind (canon index.now) (written H.contents store.old)) }
    ensures shelf { Writes H.contents H.is_making H.faults store.old store.new result
        (IsErrOf result Trouble.Failed) }
{
    match index.spec().prefix {
        Prefix::Plain => write_inner(alloc, store, index.inner(), meter)?,
        Prefix::Map => write_mapped(alloc, store, b"IBMp", index, meter)?,
        Prefix::Map2 => write_mapped(alloc, store, b"IBM2", index, meter)?,
    }
    Ok(())
}

// An index under its outer ids, in an IDMap with these letters.
fn write_mapped<H: Shelf>(
    alloc: Global,
    store: &mut Store<'_, H>,
    letters: &[u8],
    index: &AnyIndex,
    meter: &mut Meter<Plain>,
) -> Result<(), Trouble>
    requires { IsTrue (H.is_making (maker_of store.old)) }
    ensures ok { OnOk result (written H.contents store.new
        ≡ behind (mapped_bytes letters.now index.now) (written H.contents store.old)) }
    ensures shelf { Writes H.contents H.is_making H.faults store.old store.new result
        (IsErrOf result Trouble.Failed) }
{
    let ids = index.ids();
    store.bytes(letters)?;
    write_head(store, index.dim(), index.count(), index.trained())?;
    write_inner(alloc, store, index.inner(), meter)?;
    store.u64(ids.len() as u64)?;
    write_ids(store, ids)?;
    Ok(())
}

fn write_inner<H: Shelf>(
    alloc: Global,
    store: &mut Store<'_, H>,
    inner: &InnerIndex,
    meter: &mut Meter<Plain>,
) -> Result<(), Trouble>
    requires { IsTrue (H.is_making (maker_of store.old)) }
    ensures ok { OnOk result (written H.contents store.new
        ≡ behind (inner_bytes (settled_inner (inner_value inner.now)))
        (written H.contents store.old)) }
    ensures shelf { Writes H.contents H.is_making H.faults store.old store.new result
        (IsErrOf result Trouble.Failed) }
{
    match inner {
        InnerIndex::Flat(flat) => write_flat(store, flat, meter)?,
        InnerIndex::Ivf(ivf) => write_ivf(store, ivf, meter)?,
        InnerIndex::Hash(hash) => write_hash(alloc, store, hash, meter)?,
        InnerIndex::Multi(multi) => write_multi(alloc, store, multi, meter)?,
    }
    Ok(())
}
