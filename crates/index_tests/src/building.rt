ghost use Rattle.std.specs.Prelude.{◌≡◌, ◌+◌, ◌*◌, ◌<◌, ◌≤◌, length, IfOk};
ghost use Rattle.std.specs.List.{range_with_len};

use crate::made::{codes_of, hit};
use bcodes::{BinaryIndex, Codes, Meter, Plain, Want};
use flat_index::Flat;
use multi_hash::{Building, Multi, keys_under};
use std::alloc::Global;
use std::test::Fail;

fn numbers_below(alloc: Global, n: usize) -> Result<Vec<u32>, Want>
    requires { n ≤ 4 }
    ensures { IfOk result (λ numbers. numbers.items ≡ range_with_len 0 n) }
{
    let mut numbers = Vec::with_capacity(alloc, n)?;
    for number in 0..n {
        numbers.push(number as u32)?;
    }
    Ok(numbers)
}

// With one more map, for which each code brings its own key.
fn with_next_map(alloc: Global, building: Building<Plain>) -> Result<Building<Plain>, Want>
    requires next { building.made < building.whole.nhash }
    requires few { length building.whole.codes ≤ 4 }
    ensures { IfOk result (λ next. next ≡ record building { made = building.made + 1 }) }
{
    let (made, b) = (building.made(), building.b());
    let keys = keys_under(alloc, building.storage(), made, b, &mut Meter::new(Plain))?;
    let numbers = numbers_below(alloc, keys.len())?;
    let next = building.with_map(&keys, &numbers)?;
    Ok(next)
}

// An index of at most four codes, whose maps are made one after the other.
fn built(alloc: Global, codes: &Codes, nhash: u32, b: u32) -> Result<Multi<Plain>, Want>
    requires few { length codes.now.codes ≤ 4 }
    requires nhash_least { 1 ≤ nhash }
    requires nhash_most { nhash ≤ 1024 }
    requires b_least { 1 ≤ b }
    requires b_most { b ≤ 64 }
    requires within { nhash * b ≤ codes.now.dim }
    ensures { IfOk result (λ index. index ≡ record {
      dim = codes.now.dim;
      nhash = nhash;
      b = b;
      nflip = 0;
      codes = codes.now.codes;
    }) }
{
    // For the proof that the codes are no load.
    let _dim = codes.dim();
    let mut flat = Flat::new(alloc, codes.dim())?;
    flat.append(codes)?;
    let mut building = Building::new(alloc, flat, nhash, b)?;
    while building.made() < building.nhash() {
        building = with_next_map(alloc, building)?;
    }
    Ok(building.finish())
}

// Three codes of 16 bits, two of which share their first byte, by a key a byte.
#[test]
fn maps_made_one_by_one_find_codes(rt: HostRuntime) -> Result<(), Fail> {
    let codes = codes_of(
        &rt,
        rt.alloc(),
        2,
        &[&[0x01, 0x02], &[0x01, 0x0f], &[0x80, 0x02]],
    )?;
    assert!(&rt; codes.len() <= 4 && codes.dim().bits() == 16);
    let index = built(rt.alloc(), &codes, 2, 8)?;
    let mut meter = Meter::new(Plain);
    let hits = index.range(rt.alloc(), &[0x01, 0x02], 17, &mut meter)?;
    assert!(&rt; hits.as_slice() == &[hit(0, 0), hit(2, 2), hit(3, 1)][..]);
    assert!(&rt; meter.lent() == 3);
    Ok(())
}
