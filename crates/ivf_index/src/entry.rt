ghost use Rattle.std.specs.Prelude.{◌≡◌, ◌/◌, ◌%◌, ◌^◌, ◌<◌};
ghost use Rattle.ivf_index.specs.Direct.{entry};

const LISTS: u64 = 4_294_967_296;

/// The entry of a place in a direct map: `list * 2^32 + offset`, Faiss's `lo_build`
/// (`DirectMap.h`).
pub fn entry_at(list: u32, offset: usize) -> u64
    requires { offset < 2 ^ 31 }
    ensures { result ≡ entry list offset }
{
    u64::from(list) * LISTS + offset as u64
}

/// The list and the offset of an entry, Faiss's `lo_listno` and `lo_offset`.
pub fn place_of(entry: u64) -> (u32, usize)
    ensures list { result.0 ≡ entry / 2 ^ 32 }
    ensures offset { result.1 ≡ entry % 2 ^ 32 }
{
    ((entry / LISTS) as u32, (entry % LISTS) as usize)
}
