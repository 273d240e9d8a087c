ghost use Rattle.std.specs.Prelude.{◌≡◌, ◌+◌, ◌<◌, length};
ghost use Rattle.code_pool.specs.Inside.{IsPool, pool_in};
ghost use Rattle.code_pool.specs.Lists.{list_at, with_list};
ghost use Rattle.code_pool.specs.Positions.{with_positions};

use crate::ahead::Ahead;
use crate::blocks::Blocks;
use crate::rows::Rows;

/// Gives the rows of a list the labels 0, 1, 2 and so on, in their order.
pub fn number_list(rows: &mut Rows, blocks: &Blocks, list: u32)
    requires pool { IsPool rows.old blocks.now }
    requires exists { list + 1 < length blocks.now.chains }
    ensures pool { IsPool rows.new blocks.now }
    ensures numbered { pool_in rows.new blocks.now ≡ with_list (pool_in rows.old blocks.now) list
        (with_positions (list_at (pool_in rows.old blocks.now) list)) }
{
    // For the proof that the labels fit: there are fewer than 2^32 blocks.
    let _all = blocks.all();
    let mut ahead = Ahead::NONE;
    for at in 0..blocks.len(list) {
        let place = blocks.place_ahead(list, at, &mut ahead);
        rows.relabel(place, at as i64);
    }
}
