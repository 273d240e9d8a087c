ghost use Rattle.std.specs.Prelude.{◌≡◌, ℕ, ◌*◌, ◌/◌, ◌<◌, ◌≤◌, ◌++◌, length, replicate};
ghost use Rattle.std.specs.List.{All};
ghost use Rattle.bcodes.specs.Answers.{paired};
ghost use Rattle.bcodes.specs.Chunks.{chunks_of};
ghost use Rattle.code_pool.specs.Lists.{list_at};
ghost use Rattle.row_lists.specs.Put.{IsPushed, mark_of, put_on};
ghost use Rattle.row_lists.specs.Room.{HasRoomFor};
ghost use Rattle.row_lists.specs.Rows.{lists_in, order_in};

use bcodes::{Codes, Ledger};
use code_pool::{Pool, Run};

/// Puts rows on the lists of these numbers, on which there is room, and notes their order. It takes
/// no memory.
pub fn put_all<L: Ledger>(
    order: &mut Pool<L>,
    lists: &mut Pool<L>,
    numbers: &[u32],
    labels: &[i64],
    codes: &Codes,
)
    requires same_labels { length labels.now ≡ length codes.now.codes }
    requires same_numbers { length numbers.now ≡ length codes.now.codes }
    requires known { All (λ n. n < length lists.old.lists) numbers.now }
    requires size { lists.old.code_size ≡ codes.now.dim / 8 }
    requires order_one { length order.old.lists ≡ 1 }
    requires order_size { order.old.code_size ≡ 0 }
    requires order_room { length codes.now.codes ≤ (list_at order.old 0).spare }
    requires room { HasRoomFor numbers.now lists.old }
    ensures order { order_in order.new ≡ order_in order.old ++ numbers.now }
    ensures order_one { length order.new.lists ≡ 1 }
    ensures order_size { order.new.code_size ≡ 0 }
    ensures rows { (l : ℕ) → lists_in lists.new l
        ≡ lists_in lists.old l ++ put_on l numbers.now (paired labels.now codes.now.codes) }
    ensures lists { length lists.new.lists ≡ length lists.old.lists }
    ensures size { lists.new.code_size ≡ lists.old.code_size }
{
    for i in 0..codes.len() {
        put_row(order, lists, numbers[i], labels[i], codes.get(i));
    }
}

/// Puts rows on one list, on which there is room, and notes their order. Their codes of `size`
/// bytes each lie side by side. It takes no memory.
pub fn put_on_one<L: Ledger>(
    order: &mut Pool<L>,
    lists: &mut Pool<L>,
    list: u32,
    labels: &[i64],
    codes: &[u8],
    size: usize,
)
    requires exists { list < length lists.old.lists }
    requires size { lists.old.code_size ≡ size }
    requires some { 1 ≤ size }
    requires whole { length codes.now ≡ length labels.now * size }
    requires order_one { length order.old.lists ≡ 1 }
    requires order_size { order.old.code_size ≡ 0 }
    requires order_room { length labels.now ≤ (list_at order.old 0).spare }
    requires room { length labels.now ≤ (list_at lists.old list).spare }
    ensures order { order_in order.new
        ≡ order_in order.old ++ replicate (length labels.now) list }
    ensures order_one { length order.new.lists ≡ 1 }
    ensures order_size { order.new.code_size ≡ 0 }
    ensures rows { (l : ℕ) → lists_in lists.new l ≡ lists_in lists.old l
        ++ put_on l (replicate (length labels.now) list)
        (paired labels.now (chunks_of size (length labels.now) codes.now)) }
    ensures lists { length lists.new.lists ≡ length lists.old.lists }
    ensures size { lists.new.code_size ≡ lists.old.code_size }
{
    lists.push_run(list, Run { labels, codes });
    note_run(order, list, labels.len());
}

// So many rows are noted at a time.
const MARKS: usize = 256;

// Notes as the next `n` rows in the order those of a list.
fn note_run<L: Ledger>(order: &mut Pool<L>, list: u32, n: usize)
    requires one { length order.old.lists ≡ 1 }
    requires size { order.old.code_size ≡ 0 }
    requires room { n ≤ (list_at order.old 0).spare }
    ensures order { order_in order.new ≡ order_in order.old ++ replicate n list }
    ensures one { length order.new.lists ≡ 1 }
    ensures size { order.new.code_size ≡ 0 }
{
    let marks = [i64::from(list); MARKS];
    let mut done = 0;
    while done < n {
        let more = (n - done).min(MARKS);
        let run = Run {
            labels: &marks[..more],
            codes: &[],
        };
        order.push_run(0, run);
        done += more;
    }
}

/// Puts a row at the end of a list, on which there is room, and notes its list as the next in the
/// order. It takes no memory.
pub fn put_row<L: Ledger>(
    order: &mut Pool<L>,
    lists: &mut Pool<L>,
    list: u32,
    label: i64,
    code: &[u8],
)
    requires exists { list < length lists.old.lists }
    requires room { 0 < (list_at lists.old list).spare }
    requires size { length code.now ≡ lists.old.code_size }
    requires order_one { length order.old.lists ≡ 1 }
    requires order_room { 0 < (list_at order.old 0).spare }
    requires order_size { order.old.code_size ≡ 0 }
    ensures lists { IsPushed lists.old lists.new list
        (record { label = label; code = code.now }) }
    ensures order { IsPushed order.old order.new 0 (mark_of list) }
{
    lists.push(list, label, code);
    order.push(0, i64::from(list), &[]);
}
