ghost use Rattle.std.specs.Prelude.{◌≡◌, ◌≤◌, length, IfOk};
ghost use Rattle.bcodes.specs.declared.map_name.MapName.TheVariants.{Map2};
ghost use Rattle.bcodes.specs.Value.{Flat as FlatForm, IdMap};

use any_index::{AnyIndex, InnerIndex};
use bcodes::{BinaryIndex, Codes, Dim, Hit, MapName, Meter, Plain, Want};
use flat_index::Flat;
use hash_index::Hash;
use id_select::Selector;
use ivf_index::Ivf;
use std::alloc::Global;
use std::process::Abort;
use std::test::Fail;

// A Flat of a few codes, under outer ids.
fn mapped_flat(alloc: Global, codes: &Codes, ids: &[i64]) -> Result<AnyIndex, Want>
    requires same_count { length ids.now ≡ length codes.now.codes }
    requires few { length codes.now.codes ≤ 4 }
    ensures { IfOk result (λ index. index ≡ IdMap Map2 (FlatForm codes.now) ids.now) }
{
    let mut flat = Flat::new(alloc, codes.dim())?;
    flat.append(codes)?;
    let index = AnyIndex::mapped(alloc, MapName::Map2, InnerIndex::Flat(flat), ids)?;
    Ok(index)
}

// Removes rows, from an index that can remove them.
fn remove<R: Abort>(rt: &R, index: &mut AnyIndex, sel: &Selector) -> Result<u64, Want> {
    assert!(rt; index.removes_rows());
    let removed = index.remove(sel)?;
    Ok(removed)
}

// A search for a code of 8 bits gives these hits.
fn check_search<R: Abort>(
    rt: &R,
    alloc: Global,
    index: &AnyIndex,
    byte: u8,
    expected: &[Hit],
) -> Result<(), Fail> {
    assert!(rt; index.dim().bits() == 8);
    assert!(rt; index.trained());
    let hits = index.search(alloc, &[byte], 3, &mut Meter::new(Plain))?;
    assert_eq!(rt; hits.as_slice(), expected);
    Ok(())
}

// Codes leave with the ids that they were given.
fn check_mapped<R: Abort>(rt: &R, alloc: Global, index: &mut AnyIndex) -> Result<(), Fail> {
    let near = Hit {
        distance: 1,
        label: 8,
    };
    let far = Hit {
        distance: 2,
        label: -5,
    };
    check_search(rt, alloc, index, 0x00, &[near, far])?;
    let sel = Selector::listed(alloc, &[8, 1])?;
    assert_eq!(rt; remove(rt, index, &sel)?, 1);
    assert_eq!(rt; index.ids(), &[-5][..]);
    assert_eq!(rt; index.count(), 1);
    check_search(rt, alloc, index, 0x00, &[far])
}

#[test]
fn codes_leave_a_flat_under_ids(rt: HostRuntime) -> Result<(), Fail> {
    let dim = Dim::new(8)?;
    assert!(rt; dim.bytes() == 1);
    let mut codes = Codes::new(rt.alloc(), dim);
    codes.push(&[0x03])?;
    codes.push(&[0x01])?;
    let mut index = mapped_flat(rt.alloc(), &codes, &[-5, 8])?;
    check_mapped(&rt, rt.alloc(), &mut index)
}

fn removes_plain(inner: InnerIndex) -> bool {
    let index = AnyIndex::plain(inner);
    index.removes_rows()
}

#[test]
fn a_hash_removes_no_rows(rt: HostRuntime) -> Result<(), Fail> {
    let dim = Dim::new(8)?;
    assert!(rt; dim.bytes() == 1);
    let ivf = Ivf::new(rt.alloc(), dim, 1)?;
    assert!(rt; removes_plain(InnerIndex::Ivf(ivf)));
    let hash = Hash::new(rt.alloc(), dim, 8)?;
    assert!(rt; !removes_plain(InnerIndex::Hash(hash)));
    Ok(())
}
