ghost use Rattle.std.specs.Prelude.{◌≡◌, ◌≢◌, ℕ, ◌+◌, ◌*◌, ◌^◌, ◌<◌, ◌≤◌, ◌++◌, length};
ghost use Rattle.std.specs.List.{All};
ghost use Rattle.code_pool.specs.Lists.{list_at};
ghost use Rattle.flip_walk.specs.Patterns.{times};
ghost use Rattle.row_lists.specs.Put.{put_on};
ghost use Rattle.row_lists.specs.Room.{HasRoomFor};
ghost use Rattle.multi_hash.specs.Inside.{IsPosition, lists_in};
ghost use Rattle.multi_hash.specs.Room.{AreApart, lists_under, marks};

use bcodes::Ledger;
use code_pool::Pool;

/// Puts the positions from `first` on into the buckets on these lists, one each, where there is
/// room. It takes no memory.
pub fn put<L: Ledger>(buckets: &mut Pool<L>, lists: &[u32], first: usize)
    requires known { All (λ l. l < length buckets.old.lists) lists.now }
    requires size { buckets.old.code_size ≡ 0 }
    requires room { HasRoomFor lists.now buckets.old }
    requires few { first + length lists.now < 2 ^ 31 }
    ensures rows { (l : ℕ) → lists_in buckets.new l
        ≡ lists_in buckets.old l ++ put_on l lists.now (marks first (length lists.now)) }
    ensures spare { (l : ℕ) → times l lists.now ≡ 0
        → (list_at buckets.old l).spare ≤ (list_at buckets.new l).spare }
    ensures lists { length buckets.new.lists ≡ length buckets.old.lists }
    ensures size { buckets.new.code_size ≡ 0 }
{
    for i in 0..lists.len() {
        buckets.push(lists[i], (first + i) as i64, &[]);
    }
}

/// Puts `count` positions from `first` on into the buckets of each of `nhash` maps. The lists of
/// all maps stand one after the other. It takes no memory.
pub fn put_all<L: Ledger>(
    buckets: &mut Pool<L>,
    lists: &[u32],
    first: usize,
    nhash: usize,
    count: usize,
)
    requires whole { length lists.now ≡ nhash * count }
    requires known { All (λ l. l < length buckets.old.lists) lists.now }
    requires size { buckets.old.code_size ≡ 0 }
    requires room { (i : ℕ) → i < nhash → HasRoomFor (lists_under lists.now count i) buckets.old }
    requires apart { AreApart lists.now nhash count }
    requires few { first + count < 2 ^ 31 }
    ensures rows { (i l : ℕ) → i < nhash
        → ((j : ℕ) → j < nhash → j ≢ i → times l (lists_under lists.now count j) ≡ 0)
        → lists_in buckets.new l ≡ lists_in buckets.old l
        ++ put_on l (lists_under lists.now count i) (marks first count) }
    ensures places { (n l : ℕ) → first + count ≤ n → All (IsPosition n) (lists_in buckets.old l)
        → All (IsPosition n) (lists_in buckets.new l) }
    ensures short { (l : ℕ) → length (lists_in buckets.new l)
        ≤ length (lists_in buckets.old l) + nhash * count }
    ensures lists { length buckets.new.lists ≡ length buckets.old.lists }
    ensures size { buckets.new.code_size ≡ 0 }
{
    for i in 0..nhash {
        put(buckets, &lists[i * count..(i + 1) * count], first);
    }
}
