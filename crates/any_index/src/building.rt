ghost use Rattle.std.specs.Prelude.{◌≡◌, ◌^◌, ◌≤◌, IfOk, IsTrue};
ghost use Rattle.bcodes.specs.Value.{weight};
ghost use Rattle.factory_text.specs.Kinds.{HasLegalNumbers};
ghost use Rattle.factory_text.specs.Printing.{fits, fits_kind};
ghost use Rattle.any_index.specs.Kinds.{inner_value};
ghost use Rattle.any_index.specs.Specs.{empty, empty_inner, maps_of};

use crate::{AnyIndex, InnerIndex};
use bcodes::{Dim, MapName, Want};
use factory_text::{Kind, Prefix, Spec};
use flat_index::Flat;
use hash_index::Hash;
use ivf_index::Ivf;
use multi_hash::Multi;
use std::alloc::Global;

/// A new index, which holds nothing, as Faiss's `index_binary_factory` (`index_factory.cpp`) makes
/// one.
///
/// # Errors
///
/// If memory runs out.
pub fn build(alloc: Global, spec: Spec, dim: Dim) -> Result<AnyIndex, Want>
    requires fits { IsTrue (fits spec dim.bits) }
    requires numbers { HasLegalNumbers spec.kind }
    ensures { IfOk result (λ index. index ≡ empty spec dim.bits) }
{
    let inner = build_inner(alloc, spec.kind, dim)?;
    match spec.prefix {
        Prefix::Plain => Ok(AnyIndex::plain(inner)),
        Prefix::Map => AnyIndex::mapped(alloc, MapName::Map, inner, &[]),
        Prefix::Map2 => AnyIndex::mapped(alloc, MapName::Map2, inner, &[]),
    }
}

fn build_inner(alloc: Global, kind: Kind, dim: Dim) -> Result<InnerIndex, Want>
    requires fits { IsTrue (fits_kind kind dim.bits) }
    requires numbers { HasLegalNumbers kind }
    ensures { IfOk result (λ index. inner_value index ≡ empty_inner kind dim.bits) }
{
    let index = match kind {
        Kind::Flat => InnerIndex::Flat(Flat::new(alloc, dim)?),
        Kind::Ivf(nlist) => InnerIndex::Ivf(Ivf::new(alloc, dim, nlist)?),
        Kind::Hash(b) => InnerIndex::Hash(Hash::new(alloc, dim, b)?),
        Kind::Multi(nhash, b) => InnerIndex::Multi(Multi::new(alloc, dim, nhash, b)?),
    };
    Ok(index)
}

/// What an index would weigh with so many rows and centroids.
pub fn load_of(spec: Spec, dim: Dim, rows: u64, centroids: u64) -> u128
    requires rows { rows ≤ 2 ^ 32 }
    requires centroids { centroids ≤ 2 ^ 32 }
    ensures { result ≡ weight dim.bits (maps_of spec.kind) rows centroids }
{
    let code = u128::from(dim.bits() / 8) + 16;
    u128::from(rows) * (code + 64 * u128::from(maps_of(spec.kind))) + u128::from(centroids) * code
}

// The number of maps from keys to rows.
fn maps_of(kind: Kind) -> u32
    ensures { result ≡ maps_of kind }
{
    match kind {
        Kind::Flat | Kind::Ivf(_) => 0,
        Kind::Hash(_) => 1,
        Kind::Multi(nhash, _) => nhash,
    }
}
