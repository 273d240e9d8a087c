ghost use Rattle.std.specs.Prelude.{◌≡◌, ℕ, ◌+◌, ◌*◌, ◌≤◌, List, [], ◌∷◌, ◌++◌, length, suc};
ghost use Rattle.std.specs.Prelude.{None, Option, IfOk, MatchResult, OnOk};
ghost use Rattle.std.specs.Result.{IfErr};
ghost use Rattle.bcodes.specs.Bits.{key};
ghost use Rattle.file_parts.specs.Format.{Refusal, first_refusal};
ghost use Rattle.multi_hash.specs.Seen.{IsSeen};
ghost use Rattle.index_files.specs.MapReading.{IsLeft, Refuses};
ghost use Rattle.index_files.specs.MultiFormat.{map_run_checks, numbers_in, position_checks};

use crate::reading::multi::keyed::Keyed;
use bit_strings::BitReader;
use file_parts::{PartError, Reason};
use key_buckets::KeyTable;
use multi_hash::Seen;
use std::alloc::Global;

/// Tries the packed run of a map, whose first byte stands at `at`, by its checks in order.
pub fn check_run(
    alloc: Global,
    at: u64,
    run: &[u8],
    codes: &Keyed<'_>,
    width: u32,
    buckets: u64,
) -> Result<(), PartError>
    requires b { codes.now.b ≤ 64 }
    requires width { width ≤ 64 }
    requires few { length codes.now.codes ≤ 67108864 }
    requires whole { (codes.now.b + width) * buckets + length codes.now.codes * width
        ≤ 8 * length run.now }
    ensures { let answer = first_refusal (map_run_checks codes.now.codes codes.now.number
        codes.now.b width run.now buckets 0 [] []) in
        MatchResult result (λ _. answer ≡ None) (Refuses at answer) }
{
    let mut reader = BitReader::new(run);
    let mut keys = KeyTable::new(alloc);
    let mut met = Seen::new(alloc, codes.len())?;
    let mut left = codes.len() as u64;
    for _ in 0..buckets {
        left = check_bucket(at, codes, width, left, &mut reader, &mut keys, &mut met)?;
    }
    if left > 0 {
        return Err(PartError::bad(at, Reason::ListSizes));
    }
    if !reader.rest_is_zero() {
        return Err(PartError::bad(at, Reason::Padding));
    }
    Ok(())
}

// Tries the next bucket of a run, behind buckets whose keys are in a table and whose positions are
// met, and `left` are not. It gives how many are left behind it.
fn check_bucket(
    at: u64,
    codes: &Keyed<'_>,
    width: u32,
    left: u64,
    reader: &mut BitReader<'_>,
    keys: &mut KeyTable,
    met: &mut Seen,
) -> Result<u64, PartError>
    requires b { codes.now.b ≤ 64 }
    requires width { width ≤ 64 }
    requires count { length met.old ≡ length codes.now.codes }
    requires room { reader.old.at + (codes.now.b + width) + left * width
        ≤ 8 * length reader.old.bytes }
    ensures next { IfOk result (λ rest. (buckets : ℕ) → (answer : Option Refusal)
        → IsLeft codes.now width reader.old (suc buckets) left keys.old met.old answer
        → IsLeft codes.now width reader.new buckets rest keys.new met.new answer) }
    ensures refused { (buckets : ℕ) → (answer : Option Refusal)
        → IsLeft codes.now width reader.old (suc buckets) left keys.old met.old answer
        → IfErr result (Refuses at answer) }
    ensures count { length met.new ≡ length met.old }
    ensures bytes { reader.new.bytes ≡ reader.old.bytes }
    ensures place { IfOk result (λ rest. reader.new.at + rest * width
        ≡ reader.old.at + (codes.now.b + width) + left * width) }
{
    let key = next_number(reader, codes.b());
    let size = next_number(reader, width);
    if keys.list(key).is_some() {
        return Err(PartError::bad(at, Reason::DuplicateKey));
    }
    if size == 0 {
        return Err(PartError::bad(at, Reason::EmptyBucket));
    }
    if size > left {
        return Err(PartError::bad(at, Reason::ListSizes));
    }
    check_positions(at, codes, width, key, size, reader, met)?;
    // The table is a set: no list belongs to a key.
    keys.push(key, 0)?;
    Ok(left - size)
}

// Tries the positions of a bucket, so many numbers of `width` bits.
fn check_positions(
    at: u64,
    codes: &Keyed<'_>,
    width: u32,
    wanted: u64,
    size: u64,
    reader: &mut BitReader<'_>,
    met: &mut Seen,
) -> Result<(), PartError>
    requires width { width ≤ 64 }
    requires count { length met.old ≡ length codes.now.codes }
    requires room { reader.old.at + size * width ≤ 8 * length reader.old.bytes }
    ensures checked { (before : List ℕ) → IsSeen (length codes.now.codes) before met.old
        → let answer = first_refusal (position_checks codes.now.codes codes.now.number codes.now.b
        wanted before (numbers_in reader.old.bytes reader.old.at width size)) in
        MatchResult result (λ _. answer ≡ None) (Refuses at answer) }
    ensures met { OnOk result ((before : List ℕ) → IsSeen (length codes.now.codes) before met.old
        → IsSeen (length codes.now.codes)
        (before ++ numbers_in reader.old.bytes reader.old.at width size) met.new) }
    ensures count { length met.new ≡ length met.old }
    ensures bytes { reader.new.bytes ≡ reader.old.bytes }
    ensures place { OnOk result (reader.new.at ≡ reader.old.at + size * width) }
{
    for _ in 0..size {
        let position = next_number(reader, width);
        check_position(at, codes, wanted, position, met)?;
    }
    Ok(())
}

// Tries a position of the bucket of a key, and marks it as met.
fn check_position(
    at: u64,
    codes: &Keyed<'_>,
    wanted: u64,
    position: u64,
    met: &mut Seen,
) -> Result<(), PartError>
    requires { length met.old ≡ length codes.now.codes }
    ensures checked { (before : List ℕ) → IsSeen (length codes.now.codes) before met.old
        → let answer = first_refusal (position_checks codes.now.codes codes.now.number codes.now.b
        wanted before (position ∷ [])) in
        MatchResult result (λ _. answer ≡ None) (Refuses at answer) }
    ensures met { OnOk result ((before : List ℕ) → IsSeen (length codes.now.codes) before met.old
        → IsSeen (length codes.now.codes) (before ++ position ∷ []) met.new) }
    ensures count { length met.new ≡ length met.old }
{
    if position >= codes.len() as u64 {
        return Err(PartError::bad(at, Reason::Positions));
    }
    let position = position as usize;
    if !met.insert(position) {
        return Err(PartError::bad(at, Reason::Positions));
    }
    if codes.key(position) != wanted {
        return Err(PartError::bad(at, Reason::WrongBucket));
    }
    Ok(())
}

// The number of the next `n` bits, which are there.
fn next_number(reader: &mut BitReader<'_>, n: u32) -> u64
    requires width { n ≤ 64 }
    requires room { reader.old.at + n ≤ 8 * length reader.old.bytes }
    ensures number { result ≡ key reader.old.bytes reader.old.at n }
    ensures reader { reader.new ≡ record reader.old { at = reader.old.at + n } }
{
    match reader.read(n) {
        Ok(number) => number,
        Err(_) => unreachable!(),
    }
}
