// Commands that change one setting, under outer ids that of the index inside.
ghost use Rattle.std.specs.Prelude.{◌≡◌, None, Some, IfErr, IsErrOf, MatchOption, MatchResult, OnErr, OnOk};
ghost use Rattle.bcodes.specs.Value.{IvfValue};
ghost use Rattle.bcodes.specs.Settings.{ivf_in, key_bits};
ghost use Rattle.faissb_core.specs.Machine.Settings.{set_direct, set_max_codes, set_nflip};
ghost use Rattle.faissb_core.specs.Machine.Settings.{set_nprobe};
ghost use Rattle.faissb_core.specs.Session.Results.{Changes};

use super::halt::Halt;
use crate::{NUMBER_LIMIT, Refusal, Reply};
use any_index::AnyIndex;
use bcodes::DirectError;
use factory_text::Kind;

impl From<DirectError> for Halt {
    ghost use Rattle.faissb_core.specs.Session.Results.{halt_of_direct};

    ghost from_gives = { λ error halt. halt ≡ halt_of_direct error };

    fn from(error: DirectError) -> Halt {
        match error {
            DirectError::NotSequential => Halt::Refused(Refusal::Sequential),
            DirectError::Memory => Halt::Memory,
        }
    }
}

fn require_ivf(index: &AnyIndex) -> Result<(), Refusal>
    ensures { MatchResult result (λ _. (v : IvfValue) × (ivf_in index.now ≡ Some v))
        (λ refusal. (refusal ≡ Refusal.Kind) × (ivf_in index.now ≡ None)) }
{
    match index.spec().kind {
        Kind::Ivf(_) => Ok(()),
        _ => Err(Refusal::Kind),
    }
}

// The bits of a key of a Hash or a MultiHash.
fn key_bits(index: &AnyIndex) -> Result<u32, Refusal>
    ensures { MatchResult result (λ bits. key_bits index.now ≡ Some bits)
        (λ refusal. (refusal ≡ Refusal.Kind) × (key_bits index.now ≡ None)) }
{
    match index.spec().kind {
        Kind::Hash(b) | Kind::Multi(_, b) => Ok(b),
        _ => Err(Refusal::Kind),
    }
}

/// The command `nprobe`.
pub fn set_nprobe(index: &mut AnyIndex, n: u64) -> Result<Reply, Halt>
    ensures ok { Changes (set_nprobe n index.old) index.new result }
    ensures err { OnErr result (index.new ≡ index.old) }
{
    require_ivf(index)?;
    if n < 1 || n > NUMBER_LIMIT {
        return Err(Refusal::Value.into());
    }
    index.set_nprobe(n);
    Ok(Reply::Done)
}

/// The command `nflip`.
pub fn set_nflip(index: &mut AnyIndex, n: u64) -> Result<Reply, Halt>
    ensures ok { Changes (set_nflip n index.old) index.new result }
    ensures err { OnErr result (index.new ≡ index.old) }
{
    let bits = key_bits(index)?;
    if n > u64::from(bits) {
        return Err(Refusal::Value.into());
    }
    index.set_nflip(n as u32);
    Ok(Reply::Done)
}

/// The command `maxcodes`.
pub fn set_max_codes(index: &mut AnyIndex, n: u64) -> Result<Reply, Halt>
    ensures ok { Changes (set_max_codes n index.old) index.new result }
    ensures err { OnErr result (index.new ≡ index.old) }
{
    require_ivf(index)?;
    if n > NUMBER_LIMIT {
        return Err(Refusal::Value.into());
    }
    index.set_max_codes(n);
    Ok(Reply::Done)
}

/// The command `directmap`.
pub fn set_direct(index: &mut AnyIndex, on: bool) -> Result<Reply, Halt>
    ensures ok { Changes (set_direct on index.old) index.new result }
    ensures err { OnErr result (index.new ≡ index.old) }
{
    require_ivf(index)?;
    index.set_direct(on)?;
    Ok(Reply::Done)
}
