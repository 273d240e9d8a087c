// The index of generated codes.
ghost use Rattle.std.specs.Prelude.{◌≡◌, ◌+◌, ◌≤◌, [], IfOk, OnOk};
ghost use Rattle.faissb_core.specs.Machine.Sample.{codes_from, sample_code, sample_index};
ghost use Rattle.faissb_core.specs.Machine.Sample.{sample_value};

use super::generator::sample_code;
use any_index::{AnyIndex, build};
use bcodes::{Codes, Dim, Want};
use factory_text::{Kind, Prefix, Spec};
use std::alloc::Global;

// The most codes that are held beside the index.
const CODES_AT_ONCE: u64 = 4_096;

// The index before it has codes.
fn new_index(alloc: Global) -> Result<AnyIndex, Want>
    ensures { IfOk result (λ index. index ≡ sample_value []) }
{
    let spec = Spec {
        prefix: Prefix::Plain,
        kind: Kind::Multi(4, 16),
    };
    let mut index = build(alloc, spec, Dim { bits: 64 })?;
    index.set_nflip(1);
    Ok(index)
}

// So many codes, from position `from` on.
fn codes_from(alloc: Global, seed: u64, from: u64, len: u64) -> Result<Codes, Want>
    requires { from + len ≤ 1000000 }
    ensures { IfOk result (λ codes. codes
        ≡ record { dim = 64; codes = codes_from seed from len }) }
{
    let mut codes = Codes::new(alloc, Dim { bits: 64 });
    for i in 0..len {
        codes.push(&sample_code(seed, from + i))?;
    }
    Ok(codes)
}

// Appends so many codes to those that are held.
fn add_codes(
    alloc: Global,
    index: &mut AnyIndex,
    seed: u64,
    held: u64,
    len: u64,
) -> Result<(), Want>
    requires so_far { index.old ≡ sample_index seed held }
    requires few { held + len ≤ 1000000 }
    ensures { OnOk result (index.new ≡ sample_index seed (held + len)) }
{
    let codes = codes_from(alloc, seed, held, len)?;
    index.add(alloc, &codes)?;
    Ok(())
}

pub fn sample_index(alloc: Global, seed: u64, count: u64) -> Result<AnyIndex, Want>
    requires { count ≤ 1000000 }
    ensures { IfOk result (λ index. index ≡ sample_index seed count) }
{
    let mut index = new_index(alloc)?;
    let mut held = 0;
    while held < count {
        let len = CODES_AT_ONCE.min(count - held);
        add_codes(alloc, &mut index, seed, held, len)?;
        held += len;
    }
    Ok(index)
}
