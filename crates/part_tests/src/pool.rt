ghost use Rattle.std.specs.Prelude.{◌≡◌, ◌+◌, ◌*◌, ◌<◌, ◌≤◌, length};
ghost use Rattle.code_pool.specs.Lists.{list_at};

use bcodes::{Meter, Plain};
use code_pool::{Pool, Room, Run};
use std::alloc::Global;
use std::process::Abort;
use std::test::Fail;

// Three rows on two lists, read back as they were pushed.
fn keeps_lists_apart<R: Abort>(rt: &R, alloc: Global, code_size: usize) -> Result<(), Fail>
    requires { code_size ≤ 8192 }
{
    let ones = vec![in alloc; 1; code_size]?;
    let twos = vec![in alloc; 2; code_size]?;
    let mut pool: Pool<Plain> = Pool::new(alloc, code_size);
    pool.open_list()?;
    pool.open_list()?;
    pool.reserve(1, 2)?;
    pool.reserve(0, 1)?;
    pool.push(1, 5, &ones);
    pool.push(0, -3, &twos);
    pool.push(1, 9, &twos);
    let mut meter = Meter::new(Plain);
    let run = pool.lend(1, 0, &mut meter);
    assert_eq!(rt; run.labels, &[5, 9][..]);
    assert_eq!(rt; run.code(0), ones.as_slice());
    assert_eq!(rt; run.code(1), twos.as_slice());
    let run = pool.lend_one(0, 0, &mut meter);
    assert_eq!(rt; run.labels, &[-3][..]);
    assert_eq!(rt; run.codes, twos.as_slice());
    assert_eq!(rt; meter.lent(), 3);
    assert_eq!(rt; pool.labels(1, 1), &[9][..]);
    assert_eq!(rt; pool.walk(1).labels(), &[5, 9][..]);
    pool.give_back(1);
    assert_eq!(rt; pool.len(1), 0);
    assert_eq!(rt; pool.len(0), 1);
    pool.clear();
    assert_eq!(rt; pool.len(0), 0);
    assert_eq!(rt; pool.lists(), 2);
    Ok(())
}

#[test]
fn keeps_lists_apart_at_each_size(rt: HostRuntime) -> Result<(), Fail> {
    for code_size in [0, 1, 2, 32, 8192] {
        keeps_lists_apart(&rt, rt.alloc(), code_size)?;
    }
    Ok(())
}

// Pushes rows onto list 0, in the room that it has.
fn fill(pool: &mut Pool<Plain>, rows: usize)
    requires one { 0 < length pool.old.lists }
    requires size { pool.old.code_size ≡ 1 }
    requires room { rows ≤ (list_at pool.old 0).spare }
    requires few { rows < 1000000 }
    ensures one { 0 < length pool.new.lists }
    ensures rows { length (list_at pool.new 0).rows ≡ length (list_at pool.old 0).rows + rows }
{
    for label in 0..rows {
        pool.push(0, label as i64, &[7]);
    }
}

#[test]
fn lends_at_most_65536_rows(rt: HostRuntime) -> Result<(), Fail> {
    let mut pool: Pool<Plain> = Pool::new(rt.alloc(), 1);
    pool.open_list()?;
    pool.reserve(0, 65_540)?;
    fill(&mut pool, 65_540);
    let mut meter = Meter::new(Plain);
    let run = pool.lend(0, 0, &mut meter);
    assert_eq!(rt; run.labels.len(), 65_536);
    let run = pool.lend(0, 65_536, &mut meter);
    assert_eq!(rt; run.labels, &[65_536, 65_537, 65_538, 65_539][..]);
    assert_eq!(rt; run.codes, &[7; 4][..]);
    assert_eq!(rt; meter.lent(), 65_540);
    assert_eq!(rt; meter.asked(), 0);
    Ok(())
}

// Pushes n rows onto a list: labels from 0 on, and codes that begin with the same numbers.
fn add<R: Abort>(rt: &R, pool: &mut Pool<Plain>, list: u32, n: u8) -> Result<(), Fail>
    requires exists { list < length pool.old.lists }
    requires size { pool.old.code_size ≡ 2 }
    ensures lists { length pool.new.lists ≡ length pool.old.lists }
    ensures size { pool.new.code_size ≡ 2 }
{
    for first in 0..n {
        assert!(rt; pool.len(list) < 1000);
        pool.reserve(list, 1)?;
        pool.push(list, i64::from(first), &[first, 7]);
    }
    Ok(())
}

// Reserves room for n rows of a list that has few.
fn reserve<R: Abort>(rt: &R, pool: &mut Pool<Plain>, list: u32, n: u8) -> Result<(), Fail>
    requires { list < length pool.old.lists }
    ensures lists { length pool.new.lists ≡ length pool.old.lists }
    ensures size { pool.new.code_size ≡ pool.old.code_size }
{
    assert!(rt; pool.len(list) < 1000);
    pool.reserve(list, usize::from(n))?;
    Ok(())
}

// The blocks that lists have, give back and take again.
#[test]
fn takes_free_blocks_again(rt: HostRuntime) -> Result<(), Fail> {
    let mut pool: Pool<Plain> = Pool::new(rt.alloc(), 2);
    pool.open_list()?;
    pool.open_list()?;
    reserve(&rt, &mut pool, 0, 5)?;
    add(&rt, &mut pool, 0, 5)?;
    reserve(&rt, &mut pool, 1, 1)?;
    assert_eq!(&rt; pool.room(), Room { used: 3, free: 0 });
    assert_eq!(&rt; pool.blocks(0), 2);
    assert_eq!(&rt; pool.blocks(1), 1);
    pool.give_back(0);
    assert_eq!(&rt; pool.room(), Room { used: 1, free: 2 });
    reserve(&rt, &mut pool, 1, 11)?;
    assert_eq!(&rt; pool.room(), Room { used: 3, free: 0 });
    Ok(())
}

// The rows whose flags are true stay, in the blocks that they need.
#[test]
fn keeps_rows(rt: HostRuntime) -> Result<(), Fail> {
    let mut pool: Pool<Plain> = Pool::new(rt.alloc(), 2);
    pool.open_list()?;
    pool.open_list()?;
    add(&rt, &mut pool, 0, 4)?;
    add(&rt, &mut pool, 1, 9)?;
    add(&rt, &mut pool, 0, 5)?;
    assert_eq!(&rt; pool.room(), Room { used: 6, free: 0 });
    assert!(&rt; pool.len(0) == 9);
    pool.keep_rows(
        0,
        &[true, false, false, false, false, false, false, false, true],
    );
    assert_eq!(&rt; pool.room(), Room { used: 4, free: 2 });
    assert_eq!(&rt; pool.blocks(0), 1);
    let mut meter = Meter::new(Plain);
    assert!(&rt; pool.len(0) == 2);
    let run = pool.lend(0, 0, &mut meter);
    assert_eq!(&rt; run.labels, &[0, 4][..]);
    assert_eq!(&rt; run.codes, &[0, 7, 4, 7][..]);
    pool.number_rows(0);
    assert!(&rt; pool.len(0) == 2);
    let run = pool.lend(0, 0, &mut meter);
    assert_eq!(&rt; run.labels, &[0, 1][..]);
    assert_eq!(&rt; run.codes, &[0, 7, 4, 7][..]);
    assert!(&rt; pool.len(1) == 9);
    let run = pool.lend_one(1, 8, &mut meter);
    assert_eq!(&rt; run.labels, &[8][..]);
    assert_eq!(&rt; run.codes, &[8, 7][..]);
    Ok(())
}

// A walk over a list that grew in turn with another lends its rows in order, from blocks that do
// not stand side by side, and counts each once.
#[test]
fn walks_over_scattered_blocks(rt: HostRuntime) -> Result<(), Fail> {
    let mut pool: Pool<Plain> = Pool::new(rt.alloc(), 2);
    pool.open_list()?;
    pool.open_list()?;
    add(&rt, &mut pool, 0, 4)?;
    add(&rt, &mut pool, 1, 4)?;
    add(&rt, &mut pool, 0, 2)?;
    let mut meter = Meter::new(Plain);
    assert!(&rt; pool.len(0) == 6);
    let mut walk = pool.walk(0);
    let run = walk.lend(&mut meter);
    assert_eq!(&rt; run.labels, &[0, 1, 2, 3][..]);
    assert_eq!(&rt; run.codes, &[0, 7, 1, 7, 2, 7, 3, 7][..]);
    assert_eq!(&rt; meter.lent(), 4);
    assert!(&rt; walk.at() < 6);
    let run = walk.lend(&mut meter);
    assert_eq!(&rt; run.labels, &[0, 1][..]);
    assert_eq!(&rt; run.codes, &[0, 7, 1, 7][..]);
    assert_eq!(&rt; walk.at(), 6);
    assert_eq!(&rt; meter.lent(), 6);
    Ok(())
}

// Pushes a run onto a list.
fn add_run<R: Abort>(rt: &R, pool: &mut Pool<Plain>, list: u32, run: Run<'_>) -> Result<(), Fail>
    requires exists { list < length pool.old.lists }
    requires size { pool.old.code_size ≡ 2 }
    requires whole { length run.codes.now ≡ length run.labels.now * 2 }
    ensures lists { length pool.new.lists ≡ length pool.old.lists }
    ensures size { pool.new.code_size ≡ 2 }
{
    assert!(rt; pool.len(list) < 1000);
    assert!(rt; run.labels.len() < 1000);
    pool.reserve(list, run.labels.len())?;
    pool.push_run(list, run);
    Ok(())
}

// Runs that go to two lists in turn, each from one block of its list on into others that do not
// stand side by side.
#[test]
fn pushes_runs_over_blocks(rt: HostRuntime) -> Result<(), Fail> {
    let mut pool: Pool<Plain> = Pool::new(rt.alloc(), 2);
    pool.open_list()?;
    pool.open_list()?;
    let run = Run {
        labels: &[1, 2, 3, 4, 5, 6],
        codes: &[1, 7, 2, 7, 3, 7, 4, 7, 5, 7, 6, 7],
    };
    let negative = Run {
        labels: &[-1, -2, -3],
        codes: &[1, 9, 2, 9, 3, 9],
    };
    add_run(&rt, &mut pool, 1, negative)?;
    add_run(&rt, &mut pool, 0, negative)?;
    add_run(&rt, &mut pool, 1, run)?;
    add_run(&rt, &mut pool, 0, run)?;
    assert_eq!(&rt; pool.room(), Room { used: 6, free: 0 });
    let mut meter = Meter::new(Plain);
    assert!(&rt; pool.len(0) == 9);
    let part = pool.lend(0, 0, &mut meter);
    assert_eq!(&rt; part.labels, &[-1, -2, -3, 1][..]);
    assert_eq!(&rt; part.codes, &[1, 9, 2, 9, 3, 9, 1, 7][..]);
    let part = pool.lend(0, 4, &mut meter);
    assert_eq!(&rt; part.labels, &[2, 3, 4, 5, 6][..]);
    assert_eq!(&rt; part.codes, &[2, 7, 3, 7, 4, 7, 5, 7, 6, 7][..]);
    assert!(&rt; pool.len(1) == 9);
    let part = pool.lend(1, 0, &mut meter);
    assert_eq!(&rt; part.labels, &[-1, -2, -3, 1][..]);
    let part = pool.lend(1, 4, &mut meter);
    assert_eq!(&rt; part.labels, &[2, 3, 4, 5, 6][..]);
    assert_eq!(&rt; part.codes, &[2, 7, 3, 7, 4, 7, 5, 7, 6, 7][..]);
    Ok(())
}

// A list that gave its second block to another list finds its rows in the blocks that it got later.
#[test]
fn finds_rows_behind_a_front(rt: HostRuntime) -> Result<(), Fail> {
    let mut pool: Pool<Plain> = Pool::new(rt.alloc(), 2);
    pool.open_list()?;
    pool.open_list()?;
    add(&rt, &mut pool, 0, 5)?;
    add(&rt, &mut pool, 1, 4)?;
    assert!(&rt; pool.len(0) == 5);
    pool.keep_rows(0, &[true, false, false, false, true]);
    add(&rt, &mut pool, 1, 4)?;
    assert_eq!(&rt; pool.room(), Room { used: 3, free: 0 });
    add(&rt, &mut pool, 0, 3)?;
    let mut meter = Meter::new(Plain);
    assert!(&rt; pool.len(0) == 5);
    let run = pool.lend(0, 0, &mut meter);
    assert_eq!(&rt; run.labels, &[0, 4, 0, 1][..]);
    let run = pool.lend_one(0, 4, &mut meter);
    assert_eq!(&rt; run.labels, &[2][..]);
    assert!(&rt; pool.len(1) == 8);
    let run = pool.lend_one(1, 4, &mut meter);
    assert_eq!(&rt; run.labels, &[0][..]);
    Ok(())
}
