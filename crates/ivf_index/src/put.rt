ghost use Rattle.std.specs.Prelude.{◌≡◌, ℕ, ◌+◌, ◌/◌, ◌<◌, ◌≤◌, ◌^◌, ◌++◌, length};
ghost use Rattle.std.specs.List.{All};
ghost use Rattle.bcodes.specs.Answers.{paired};
ghost use Rattle.code_pool.specs.Lists.{list_at};
ghost use Rattle.ivf_index.specs.Direct.{HasRoomOf, entries_of, entry};
ghost use Rattle.row_lists.specs.Rows.{lists_in, order_in};
ghost use Rattle.row_lists.specs.Room.{HasRoomFor};
ghost use Rattle.ivf_index.specs.Entries.{IsMapped};
ghost use Rattle.row_lists.specs.Put.{put_on};

use crate::direct_map::{DirectMap, append_place};
use crate::entry::entry_at;
use bcodes::{Codes, Ledger};
use code_pool::Pool;
use row_lists::put_row;

/// Puts rows on their lists, notes their order, and where there is a direct map their places. There
/// is room for them on all three.
pub fn put_all<L: Ledger>(
    order: &mut Pool<L>,
    lists: &mut Pool<L>,
    direct: &mut Option<DirectMap>,
    numbers: &[u32],
    labels: &[i64],
    codes: &Codes,
)
    requires same_labels { length labels.now ≡ length codes.now.codes }
    requires same_numbers { length numbers.now ≡ length codes.now.codes }
    requires known { All (λ n. n < length lists.old.lists) numbers.now }
    requires few { (l : ℕ) → length (list_at lists.old l).rows + length numbers.now < 2 ^ 31 }
    requires size { lists.old.code_size ≡ codes.now.dim / 8 }
    requires order_one { length order.old.lists ≡ 1 }
    requires order_size { order.old.code_size ≡ 0 }
    requires order_room { length codes.now.codes ≤ (list_at order.old 0).spare }
    requires room { HasRoomFor numbers.now lists.old }
    requires direct_room { HasRoomOf (length numbers.now) direct.old }
    ensures order { order_in order.new ≡ order_in order.old ++ numbers.now }
    ensures order_one { length order.new.lists ≡ 1 }
    ensures order_size { order.new.code_size ≡ 0 }
    ensures rows { (l : ℕ) → lists_in lists.new l
        ≡ lists_in lists.old l ++ put_on l numbers.now (paired labels.now codes.now.codes) }
    ensures lists { length lists.new.lists ≡ length lists.old.lists }
    ensures size { lists.new.code_size ≡ lists.old.code_size }
    ensures direct { IsMapped lists.old numbers.now (length numbers.now)
        (entries_of direct.old) (entries_of direct.new) }
{
    for i in 0..codes.len() {
        let list = numbers[i];
        append_place(direct, entry_at(list, lists.len(list)));
        put_row(order, lists, list, labels[i], codes.get(i));
    }
}
