ghost use Rattle.std.specs.Prelude.{◌≡◌, ◌+◌, ◌*◌, ◌≤◌, map, IfOk};
ghost use Rattle.key_buckets.specs.Keys.{key_in};

use bcodes::{Codes, Want, chunk};
use std::alloc::Global;

/// The keys of codes: of each code the number of the bits of chunk `i`, where it is cut into chunks
/// of `b` bits.
///
/// # Errors
///
/// If memory runs out.
pub fn chunk_keys(alloc: Global, codes: &Codes, i: u32, b: u32) -> Result<Vec<u64>, Want>
    requires b_least { 1 ≤ b }
    requires b_most { b ≤ 64 }
    requires within { (i + 1) * b ≤ codes.now.dim }
    ensures { IfOk result (λ keys. keys.items ≡ map (key_in i b) codes.now.codes) }
{
    let _dim = codes.dim();
    let mut keys = Vec::with_capacity(alloc, codes.len())?;
    for at in 0..codes.len() {
        keys.push(chunk(codes.get(at), i, b))?;
    }
    Ok(keys)
}
