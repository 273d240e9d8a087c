ghost use Rattle.std.specs.Prelude.{◌≡◌, IsTrue, IsErrOf, OnOk};
ghost use Rattle.file_parts.specs.Storing.{behind, maker_of, written};
ghost use Rattle.index_files.specs.Canon.{flat_bytes};
ghost use Rattle.index_files.specs.Groups.{concat};
ghost use Rattle.index_files.specs.Writing.{Writes};

use crate::writing::parts::write_head;
use bcodes::{BinaryIndex, Meter, Plain};
use file_parts::Store;
use flat_index::Flat;
use outside::{Shelf, Trouble};

#[tactic(auto, using(file_parts::proofs::StoreLemmas::behind_twice))]
pub fn write_flat<H: Shelf>(
    store: &mut Store<'_, H>,
    flat: &Flat<Plain>,
    meter: &mut Meter<Plain>,
) -> Result<(), Trouble>
    requires { IsTrue (H.is_making (maker_of store.old)) }
    ensures ok { OnOk result (written H.contents store.new
        ≡ behind (flat_bytes flat.now.dim flat.now.codes) (written H.contents store.old)) }
    ensures shelf { Writes H.contents H.is_making H.faults store.old store.new result
        (IsErrOf result Trouble.Failed) }
{
    let dim = flat.dim();
    let count = flat.count();
    store.bytes(b"IBxF")?;
    write_head(store, dim, count, true)?;
    store.u64(count * dim.bytes() as u64)?;
    write_codes(store, flat, meter)?;
    Ok(())
}

// The codes, lent and written without a copy.
fn write_codes<H: Shelf>(
    store: &mut Store<'_, H>,
    flat: &Flat<Plain>,
    meter: &mut Meter<Plain>,
) -> Result<(), Trouble>
    requires { IsTrue (H.is_making (maker_of store.old)) }
    ensures ok { OnOk result (written H.contents store.new
        ≡ behind (concat flat.now.codes) (written H.contents store.old)) }
    ensures shelf { Writes H.contents H.is_making H.faults store.old store.new result
        (IsErrOf result Trouble.Failed) }
{
    let count = flat.count();
    let mut from = 0;
    while from < count {
        let run = flat.lend(from, meter);
        store.bytes(run.codes)?;
        from += run.labels.len() as u64;
    }
    Ok(())
}
