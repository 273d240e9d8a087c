ghost use Rattle.std.specs.Prelude.{◌≡◌, ◌/◌, ◌<◌, ◌≤◌, [], ◌++◌, IsErrOf, IsTrue, OnOk};
ghost use Rattle.std.specs.Prelude.{codes, if◌then◌else◌, length, map, nat_lt};
ghost use Rattle.std.specs.List.{flat_map, range_with_len};
ghost use Rattle.bcodes.specs.Value.{IsLegalIvf, Ivf as IvfForm};
ghost use Rattle.file_parts.specs.Storing.{behind, maker_of, written};
ghost use Rattle.index_files.specs.Canon.{direct_bytes, ids_bytes, inner_bytes, list_bytes, number};
ghost use Rattle.index_files.specs.Canon.{size_bytes, sizes_bytes};
ghost use Rattle.index_files.specs.File.{settled_inner};
ghost use Rattle.index_files.specs.Groups.{entry_of, filled, mapped, on_list};
ghost use Rattle.index_files.specs.Writing.{Writes, gathered};

use crate::writing::flat::write_flat;
use crate::writing::held::{Held, put, put_ids, put_u64, write_held};
use crate::writing::parts::{flag_byte, write_head};
use bcodes::{BinaryIndex, Meter, Plain};
use file_parts::Store;
use ivf_index::Ivf;
use outside::{Shelf, Trouble};

// An IVF, with its letters.
pub fn write_ivf<H: Shelf>(
    store: &mut Store<'_, H>,
    ivf: &Ivf<Plain>,
    meter: &mut Meter<Plain>,
) -> Result<(), Trouble>
    requires { IsTrue (H.is_making (maker_of store.old)) }
    ensures ok { OnOk result (written H.contents store.new
        ≡ behind (inner_bytes (settled_inner (IvfForm ivf.now))) (written H.contents store.old)) }
    ensures shelf { Writes H.contents H.is_making H.faults store.old store.new result
        (IsErrOf result Trouble.Failed) }
{
    store.bytes(b"IBwF")?;
    write_head(store, ivf.dim(), ivf.count(), ivf.trained())?;
    store.u64(u64::from(ivf.nlist()))?;
    store.u64(ivf.nprobe())?;
    write_flat(store, ivf.quantizer(), meter)?;
    write_rest(store, ivf, meter)?;
    Ok(())
}

// What comes behind the quantizer.
fn write_rest<H: Shelf>(
    store: &mut Store<'_, H>,
    ivf: &Ivf<Plain>,
    meter: &mut Meter<Plain>,
) -> Result<(), Trouble>
    requires making { IsTrue (H.is_making (maker_of store.old)) }
    requires legal { IsLegalIvf ivf.now }
    ensures ok { OnOk result (written H.contents store.new ≡ behind
        (direct_bytes ivf.now
        ++ codes "ilar" ++ number ivf.now.nlist ++ number (ivf.now.dim / 8) ++ sizes_bytes ivf.now
        ++ flat_map (λ list. list_bytes (on_list ivf.now list)) (filled ivf.now))
        (written H.contents store.old)) }
    ensures shelf { Writes H.contents H.is_making H.faults store.old store.new result
        (IsErrOf result Trouble.Failed) }
{
    let mut held = Held::new();
    put_direct(store, &mut held, ivf)?;
    put_array(store, &mut held, ivf)?;
    put_lists(store, &mut held, ivf, meter)?;
    write_held(store, &mut held)?;
    Ok(())
}

fn put_direct<H: Shelf>(
    store: &mut Store<'_, H>,
    held: &mut Held,
    ivf: &Ivf<Plain>,
) -> Result<(), Trouble>
    requires making { IsTrue (H.is_making (maker_of store.old)) }
    requires legal { IsLegalIvf ivf.now }
    ensures ok { OnOk result (gathered H.contents store.new held.new
        ≡ behind (direct_bytes ivf.now) (gathered H.contents store.old held.old)) }
    ensures shelf { Writes H.contents H.is_making H.faults store.old store.new result
        (IsErrOf result Trouble.Failed) }
{
    let count = mapped_count(ivf);
    put(store, held, &[flag_byte(ivf.direct())])?;
    put_u64(store, held, count)?;
    put_entries(store, held, ivf, count)?;
    Ok(())
}

// The number of labels that have an entry in the direct map.
fn mapped_count(ivf: &Ivf<Plain>) -> u64
    ensures { result ≡ length (mapped ivf.now) }
{
    match ivf.direct() {
        true => ivf.count(),
        false => 0,
    }
}

fn put_entries<H: Shelf>(
    store: &mut Store<'_, H>,
    held: &mut Held,
    ivf: &Ivf<Plain>,
    count: u64,
) -> Result<(), Trouble>
    requires making { IsTrue (H.is_making (maker_of store.old)) }
    requires legal { IsLegalIvf ivf.now }
    requires count { count ≡ length (mapped ivf.now) }
    ensures ok { OnOk result (gathered H.contents store.new held.new
        ≡ behind (flat_map (λ label. number (entry_of ivf.now label)) (mapped ivf.now))
        (gathered H.contents store.old held.old)) }
    ensures shelf { Writes H.contents H.is_making H.faults store.old store.new result
        (IsErrOf result Trouble.Failed) }
{
    for label in 0..count {
        put_u64(store, held, ivf.place(label))?;
    }
    Ok(())
}

// What comes before the rows of the inverted lists, Faiss's `ArrayInvertedLists`.
fn put_array<H: Shelf>(
    store: &mut Store<'_, H>,
    held: &mut Held,
    ivf: &Ivf<Plain>,
) -> Result<(), Trouble>
    requires { IsTrue (H.is_making (maker_of store.old)) }
    ensures ok { OnOk result (gathered H.contents store.new held.new
        ≡ behind (codes "ilar" ++ number ivf.now.nlist ++ number (ivf.now.dim / 8)
        ++ sizes_bytes ivf.now) (gathered H.contents store.old held.old)) }
    ensures shelf { Writes H.contents H.is_making H.faults store.old store.new result
        (IsErrOf result Trouble.Failed) }
{
    put(store, held, b"ilar")?;
    put_u64(store, held, u64::from(ivf.nlist()))?;
    put_u64(store, held, ivf.dim().bytes() as u64)?;
    put_sizes(store, held, ivf)?;
    Ok(())
}

// The size of each list where more than half of them are not empty, and else the numbers and the
// sizes of those.
fn put_sizes<H: Shelf>(
    store: &mut Store<'_, H>,
    held: &mut Held,
    ivf: &Ivf<Plain>,
) -> Result<(), Trouble>
    requires { IsTrue (H.is_making (maker_of store.old)) }
    ensures ok { OnOk result (gathered H.contents store.new held.new
        ≡ behind (sizes_bytes ivf.now) (gathered H.contents store.old held.old)) }
    ensures shelf { Writes H.contents H.is_making H.faults store.old store.new result
        (IsErrOf result Trouble.Failed) }
{
    let nlist = ivf.nlist();
    let count = count_filled(ivf);
    if count > nlist / 2 {
        put(store, held, b"full")?;
        put_u64(store, held, u64::from(nlist))?;
        put_all_sizes(store, held, ivf)?;
        return Ok(());
    }
    put(store, held, b"sprs")?;
    put_u64(store, held, 2 * u64::from(count))?;
    put_filled_sizes(store, held, ivf)?;
    Ok(())
}

// The number of lists that are not empty.
fn count_filled(ivf: &Ivf<Plain>) -> u32
    ensures value { result ≡ length (filled ivf.now) }
    ensures most { result ≤ ivf.now.nlist }
{
    let mut count = 0;
    for list in 0..ivf.nlist() {
        if ivf.list_len(list) > 0 {
            count += 1;
        }
    }
    count
}

fn put_all_sizes<H: Shelf>(
    store: &mut Store<'_, H>,
    held: &mut Held,
    ivf: &Ivf<Plain>,
) -> Result<(), Trouble>
    requires { IsTrue (H.is_making (maker_of store.old)) }
    ensures ok { OnOk result (gathered H.contents store.new held.new
        ≡ behind (flat_map (size_bytes ivf.now) (range_with_len 0 ivf.now.nlist))
        (gathered H.contents store.old held.old)) }
    ensures shelf { Writes H.contents H.is_making H.faults store.old store.new result
        (IsErrOf result Trouble.Failed) }
{
    for list in 0..ivf.nlist() {
        put_u64(store, held, ivf.list_len(list) as u64)?;
    }
    Ok(())
}

// The number and the size of each list that is not empty.
fn put_filled_sizes<H: Shelf>(
    store: &mut Store<'_, H>,
    held: &mut Held,
    ivf: &Ivf<Plain>,
) -> Result<(), Trouble>
    requires { IsTrue (H.is_making (maker_of store.old)) }
    ensures ok { OnOk result (gathered H.contents store.new held.new
        ≡ behind (flat_map (λ list. number list ++ size_bytes ivf.now list) (filled ivf.now))
        (gathered H.contents store.old held.old)) }
    ensures shelf { Writes H.contents H.is_making H.faults store.old store.new result
        (IsErrOf result Trouble.Failed) }
{
    for list in 0..ivf.nlist() {
        put_filled_size(store, held, ivf, list)?;
    }
    Ok(())
}

// The number and the size of a list, unless it is empty.
fn put_filled_size<H: Shelf>(
    store: &mut Store<'_, H>,
    held: &mut Held,
    ivf: &Ivf<Plain>,
    list: u32,
) -> Result<(), Trouble>
    requires making { IsTrue (H.is_making (maker_of store.old)) }
    requires exists { list < ivf.now.nlist }
    ensures ok { OnOk result (gathered H.contents store.new held.new
        ≡ behind (if nat_lt 0 (length (on_list ivf.now list))
        then number list ++ size_bytes ivf.now list else [])
        (gathered H.contents store.old held.old)) }
    ensures shelf { Writes H.contents H.is_making H.faults store.old store.new result
        (IsErrOf result Trouble.Failed) }
{
    let len = ivf.list_len(list);
    if len == 0 {
        return Ok(());
    }
    put_u64(store, held, u64::from(list))?;
    put_u64(store, held, len as u64)?;
    Ok(())
}

// The rows of each list that is not empty.
fn put_lists<H: Shelf>(
    store: &mut Store<'_, H>,
    held: &mut Held,
    ivf: &Ivf<Plain>,
    meter: &mut Meter<Plain>,
) -> Result<(), Trouble>
    requires { IsTrue (H.is_making (maker_of store.old)) }
    ensures ok { OnOk result (gathered H.contents store.new held.new
        ≡ behind (flat_map (λ list. list_bytes (on_list ivf.now list)) (filled ivf.now))
        (gathered H.contents store.old held.old)) }
    ensures shelf { Writes H.contents H.is_making H.faults store.old store.new result
        (IsErrOf result Trouble.Failed) }
{
    for list in 0..ivf.nlist() {
        put_list(store, held, ivf, list, meter)?;
    }
    Ok(())
}

// The codes of a list, and then its labels.
fn put_list<H: Shelf>(
    store: &mut Store<'_, H>,
    held: &mut Held,
    ivf: &Ivf<Plain>,
    list: u32,
    meter: &mut Meter<Plain>,
) -> Result<(), Trouble>
    requires making { IsTrue (H.is_making (maker_of store.old)) }
    requires exists { list < ivf.now.nlist }
    ensures ok { OnOk result (gathered H.contents store.new held.new
        ≡ behind (list_bytes (on_list ivf.now list))
        (gathered H.contents store.old held.old)) }
    ensures shelf { Writes H.contents H.is_making H.faults store.old store.new result
        (IsErrOf result Trouble.Failed) }
{
    put_codes(store, held, ivf, list, meter)?;
    put_labels(store, held, ivf, list, meter)?;
    Ok(())
}

// The codes of a list, which are lent in runs.
fn put_codes<H: Shelf>(
    store: &mut Store<'_, H>,
    held: &mut Held,
    ivf: &Ivf<Plain>,
    list: u32,
    meter: &mut Meter<Plain>,
) -> Result<(), Trouble>
    requires making { IsTrue (H.is_making (maker_of store.old)) }
    requires exists { list < ivf.now.nlist }
    ensures ok { OnOk result (gathered H.contents store.new held.new
        ≡ behind (flat_map (λ row. row.code) (on_list ivf.now list))
        (gathered H.contents store.old held.old)) }
    ensures shelf { Writes H.contents H.is_making H.faults store.old store.new result
        (IsErrOf result Trouble.Failed) }
{
    let count = ivf.list_len(list);
    let mut from = 0;
    while from < count {
        let run = ivf.list_lend(list, from, meter);
        put(store, held, run.codes)?;
        from += run.labels.len();
    }
    Ok(())
}

fn put_labels<H: Shelf>(
    store: &mut Store<'_, H>,
    held: &mut Held,
    ivf: &Ivf<Plain>,
    list: u32,
    meter: &mut Meter<Plain>,
) -> Result<(), Trouble>
    requires making { IsTrue (H.is_making (maker_of store.old)) }
    requires exists { list < ivf.now.nlist }
    ensures ok { OnOk result (gathered H.contents store.new held.new
        ≡ behind (ids_bytes (map (λ row. row.label) (on_list ivf.now list)))
        (gathered H.contents store.old held.old)) }
    ensures shelf { Writes H.contents H.is_making H.faults store.old store.new result
        (IsErrOf result Trouble.Failed) }
{
    let count = ivf.list_len(list);
    let mut from = 0;
    while from < count {
        let run = ivf.list_lend(list, from, meter);
        put_ids(store, held, run.labels)?;
        from += run.labels.len();
    }
    Ok(())
}
