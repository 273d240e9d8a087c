// What the words of the command line ask for.
ghost use Rattle.std.specs.Prelude.{◌≡◌, ◌-◌, ◌^◌, ◌∷◌, [], IfSome, map, string_bytes};
ghost use Rattle.std.specs.Option.{option_map};
ghost use Rattle.faissb_core.specs.Language.Grammar.{two};
ghost use Rattle.faissb_core.specs.Language.Words.{number_within};
ghost use Rattle.faissb_core.specs.Runs.Words.{HasFewCodes, Sample, run_of, said_run};

use crate::NUMBER_LIMIT;
use crate::language::{file_name, number_within};

// The most codes that `sample` makes.
const SAMPLE_LIMIT: u64 = 1_000_000;

#[derive(Clone, Copy, Debug, PartialEq, Eq)]
pub enum Run<'w> {
    Script,
    // The name of a file.
    Check(&'w str),
    // The seed, and the number of codes.
    Sample(u64, u64),
}

// The words behind `sample`.
fn sample_words<'w>(seed: &[u8], count: &[u8]) -> Option<Run<'w>>
    ensures run { option_map said_run result
        ≡ two (number_within 0 (2 ^ 63 - 1)) (number_within 1 1000000) Sample
        (seed.now ∷ count.now ∷ []) }
    ensures few { IfSome result HasFewCodes }
{
    let seed = number_within(0, NUMBER_LIMIT, seed)?;
    let count = number_within(1, SAMPLE_LIMIT, count)?;
    Some(Run::Sample(seed, count))
}

// One word alone.
fn run_alone<'w>(name: &str) -> Option<Run<'w>>
    ensures run { option_map said_run result ≡ run_of (name.now ∷ []) }
    ensures few { IfSome result HasFewCodes }
{
    if name == "script" {
        Some(Run::Script)
    } else {
        None
    }
}

// A word and one more.
fn run_with_one<'w>(name: &str, word: &'w str) -> Option<Run<'w>>
    ensures run { option_map said_run result ≡ run_of (name.now ∷ word.now ∷ []) }
    ensures few { IfSome result HasFewCodes }
{
    if name == "check" {
        Some(Run::Check(file_name(word.as_bytes())?))
    } else {
        None
    }
}

// A word and two more.
fn run_with_two<'w>(name: &str, first: &str, second: &str) -> Option<Run<'w>>
    ensures run { option_map said_run result ≡ run_of (name.now ∷ first.now ∷ second.now ∷ []) }
    ensures few { IfSome result HasFewCodes }
{
    if name == "sample" {
        sample_words(first.as_bytes(), second.as_bytes())
    } else {
        None
    }
}

pub fn read_run(words: &[String]) -> Option<Run<'_>>
    ensures run { option_map said_run result ≡ run_of (map string_bytes words.now) }
    ensures few { IfSome result HasFewCodes }
{
    match words {
        [] => None,
        [name] => run_alone(name.as_str()),
        [name, word] => run_with_one(name.as_str(), word.as_str()),
        [name, first, second] => run_with_two(name.as_str(), first.as_str(), second.as_str()),
        _ => None,
    }
}
