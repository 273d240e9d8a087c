ghost use Rattle.std.specs.Prelude.{◌≡◌, ◌≤◌, [], length, IfOk, OnOk};
ghost use Rattle.bcodes.specs.declared.map_name.MapName.TheVariants.{Map, Map2};
ghost use Rattle.bcodes.specs.Value.{IdMap, Flat as FlatForm, empty_flat};

use crate::made::hit;
use bcodes::{Addable, BinaryIndex, Codes, Dim, Hit, MapName, Meter, Plain, Want};
use flat_index::Flat;
use id_map::IdMapped;
use id_select::Selector;
use std::alloc::Global;
use std::process::Abort;
use std::test::Fail;

// Adds a few codes under ids to a Flat that holds none.
fn fill(index: &mut IdMapped<Flat<Plain>>, ids: &[i64], codes: &Codes) -> Result<(), Want>
    requires empty { index.old ≡ record {
      name = Map;
      inner = FlatForm (empty_flat codes.now.dim);
      ids = [];
    } }
    requires same_count { length ids.now ≡ length codes.now.codes }
    requires few { length codes.now.codes ≤ 4 }
{
    let _dim = codes.dim();
    index.add_all(ids, codes, &mut Meter::new(Plain))?;
    Ok(())
}

// A Flat of a few codes, under ids.
fn under_ids(alloc: Global, codes: &Codes, ids: &[i64]) -> Result<IdMapped<Flat<Plain>>, Want>
    requires same_count { length ids.now ≡ length codes.now.codes }
    requires few { length codes.now.codes ≤ 4 }
    ensures { IfOk result (λ m. m
        ≡ record { name = Map2; inner = FlatForm codes.now; ids = ids.now }) }
{
    let mut flat = Flat::new(alloc, codes.dim())?;
    flat.append(codes)?;
    let index = IdMapped::with(alloc, MapName::Map2, flat, ids)?;
    Ok(index)
}

// Removes rows of a Flat under ids.
fn remove(index: &mut IdMapped<Flat<Plain>>, sel: &Selector) -> Result<u64, Want> {
    // For the proof that a Flat is inside.
    let _inner = index.inner();
    let removed = index.remove(sel)?;
    Ok(removed)
}

// A search gives these hits.
fn check_search<R: Abort>(
    rt: &R,
    alloc: Global,
    index: &IdMapped<Flat<Plain>>,
    q: &[u8],
    k: u32,
    expected: &[Hit],
) -> Result<(), Fail>
    requires { 1 ≤ k }
{
    assert!(rt; index.trained());
    assert!(rt; q.len() == index.dim().bytes());
    let hits = index.search(alloc, q, k, &mut Meter::new(Plain))?;
    assert_eq!(rt; hits.as_slice(), expected);
    Ok(())
}

// Ids leave with their codes: an id that came twice with both of its codes.
#[test]
fn codes_leave_with_their_ids(rt: HostRuntime) -> Result<(), Fail> {
    let dim = Dim::new(16)?;
    assert!(rt; dim.bytes() == 2);
    let mut codes = Codes::new(rt.alloc(), dim);
    codes.push(&[0x00, 0x00])?;
    codes.push(&[0x00, 0x00])?;
    codes.push(&[0x01, 0x00])?;
    let flat = Flat::new(rt.alloc(), dim)?;
    let mut index = IdMapped::new(rt.alloc(), MapName::Map, flat);
    fill(&mut index, &[7, -3, 7], &codes)?;
    let q = [0x00, 0x00];
    let all = [hit(0, 7), hit(0, -3), hit(1, 7)];
    check_search(&rt, rt.alloc(), &index, &q, 3, &all)?;
    let sel = Selector::listed(rt.alloc(), &[7])?;
    assert_eq!(rt; remove(&mut index, &sel)?, 2);
    assert_eq!(rt; remove(&mut index, &Selector::range(-3, -3))?, 0);
    assert_eq!(rt; index.ids(), &[-3][..]);
    check_search(&rt, rt.alloc(), &index, &q, 3, &[hit(0, -3)])
}

#[test]
fn ids_beside_codes_that_are_there(rt: HostRuntime) -> Result<(), Fail> {
    let dim = Dim::new(16)?;
    assert!(rt; dim.bytes() == 2);
    let mut codes = Codes::new(rt.alloc(), dim);
    codes.push(&[0x01, 0x00])?;
    codes.push(&[0x00, 0x00])?;
    let index = under_ids(rt.alloc(), &codes, &[8, 5])?;
    assert_eq!(rt; index.outer(1), 5);
    check_search(&rt, rt.alloc(), &index, &[0, 0], 2, &[hit(0, 5), hit(1, 8)])
}
