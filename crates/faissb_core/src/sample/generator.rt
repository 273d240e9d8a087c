// The generator of codes: SplitMix64 with the seed as its first state.
ghost use Rattle.std.specs.Prelude.{◌≡◌, ◌<◌};
ghost use Rattle.faissb_core.specs.Machine.Sample.{mix, sample_code};

// What the state rises by from code to code.
const STEP: u64 = 0x9E37_79B9_7F4A_7C15;

#[tactic(auto, unfolding(crate::specs::Machine::Sample::mix))]
fn mix(z: u64) -> u64
    ensures { result ≡ mix z }
{
    let once = (z ^ (z >> 30)).wrapping_mul(0xBF58_476D_1CE4_E5B9);
    let twice = (once ^ (once >> 27)).wrapping_mul(0x94D0_49BB_1331_11EB);
    twice ^ (twice >> 31)
}

// The code at position `i`.
#[tactic(auto, unfolding(crate::specs::Machine::Sample::sample_code), using(crate::proofs::SampleLemmas::state_is))]
pub fn sample_code(seed: u64, i: u64) -> [u8; 8]
    requires { i < 1000000 }
    ensures { result ≡ sample_code seed i }
{
    let state = seed.wrapping_add((i + 1).wrapping_mul(STEP));
    mix(state).to_le_bytes()
}
