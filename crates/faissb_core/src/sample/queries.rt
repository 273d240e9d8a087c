// The queries, and what they are answered.
ghost use Rattle.std.specs.Prelude.{◌≡◌, ◌<◌, ◌≤◌, ◌^◌, length, if◌then◌else◌, IfOk, IsTrue};
ghost use Rattle.bcodes.specs.Value.{code_size, is_trained};
ghost use Rattle.bcodes.specs.Answers.{within, looked};
ghost use Rattle.bcodes.specs.Marks.{range_mark};
ghost use Rattle.faissb_core.specs.Machine.Sample.{sample_index, sample_query, sample_tally};
ghost use Rattle.faissb_core.specs.Machine.Sample.{with_flips};

use super::generator::sample_code;
use super::tally::Tally;
use bcodes::{BinaryIndex, Meter, Plain, Want, range_exact};
use std::alloc::Global;

// The number of queries.
pub const QUERIES: u64 = 64;

// Each query asks for the codes nearer than this.
const RADIUS: u32 = 8;

// A code with the least significant bit of each of its first `n` bytes flipped.
fn with_flips(mut code: [u8; 8], n: usize) -> [u8; 8]
    requires { n ≤ 8 }
    ensures { result ≡ with_flips n code }
{
    for i in 0..n {
        code[i] ^= 1;
    }
    code
}

#[tactic(auto, unfolding(crate::specs::Machine::Sample::sample_query), using(crate::proofs::SampleLemmas::position_is_small))]
fn sample_query(seed: u64, count: u64, j: u64) -> [u8; 8]
    requires count { count ≤ 1000000 }
    requires query { j < 64 }
    ensures { result ≡ sample_query seed count j }
{
    let position = j * count / QUERIES;
    with_flips(sample_code(seed, position), (j % 8) as usize)
}

// What one query is answered, under a meter of its own.
fn ask<I: BinaryIndex<Led = Plain>>(alloc: Global, index: &I, query: &[u8]) -> Result<Tally, Want>
    requires code_size { length query.now ≡ code_size (I.value index.now) }
    requires is_trained { IsTrue (is_trained (I.value index.now)) }
    ensures hits { IfOk result (λ one. one.hits
        ≡ length (within (I.value index.now) query.now 8)) }
    ensures looked { IfOk result (λ one. one.looked ≡ looked (I.value index.now) query.now) }
    ensures exact { IfOk result (λ one. one.exact
        ≡ (if range_mark (I.value index.now) query.now 8 then 1 else 0)) }
    ensures small { IfOk result (λ one. (one.hits < 2 ^ 64) × (one.looked < 2 ^ 64)) }
{
    let _dim = index.dim();
    let mut meter = Meter::new(Plain);
    let hits = index.range(alloc, query, RADIUS, &mut meter)?;
    let lent = meter.lent();
    let exact = range_exact(lent, index.fixed(), index.count(), index.bound(), RADIUS);
    Ok(Tally {
        hits: hits.len() as u128,
        looked: u128::from(lent),
        exact: u32::from(exact),
    })
}

// What all queries are answered.
pub fn ask_all<I: BinaryIndex<Led = Plain>>(
    alloc: Global,
    index: &I,
    seed: u64,
    count: u64,
) -> Result<Tally, Want>
    requires count { count ≤ 1000000 }
    requires index { I.value index.now ≡ sample_index seed count }
    ensures { IfOk result (λ tally. tally ≡ sample_tally seed count) }
{
    let mut tally = Tally::new();
    for j in 0..QUERIES {
        let one = ask(alloc, index, &sample_query(seed, count, j))?;
        tally.add(one);
    }
    Ok(tally)
}
