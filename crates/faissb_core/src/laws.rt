//! What the definitions themselves keep, as the contracts of calls that do nothing.
ghost use Rattle.std.specs.Prelude.{◌≡◌, ℕ, List, true, false, is_some, is_err, IsTrue};
ghost use Rattle.outside.specs.Contents.{Files};
ghost use Rattle.faissb_core.specs.Language.Lines.{is_shard};
ghost use Rattle.faissb_core.specs.Machine.Legal.{HoldBytes, IsLegalState};
ghost use Rattle.faissb_core.specs.Machine.Sample.{sample_tally};
ghost use Rattle.faissb_core.specs.Machine.State.{State};
ghost use Rattle.faissb_core.specs.Machine.Step.{step};

/// From a legal state, beside files that are lists of bytes, a step leads to a legal one. It leaves
/// an index where there was one, unless it makes a shard of it.
pub fn steps_keep_legal()
    ensures legal { (s : State) (files : Files) (line : List ℕ) → IsLegalState s
        → HoldBytes files → IsLegalState (step s files line).state }
    ensures index_stays { (s : State) (files : Files) (line : List ℕ) → IsLegalState s
        → is_shard line ≡ false → is_some s.index ≡ true
        → is_some (step s files line).state.index ≡ true }
{}

/// A refused line leaves the state and the files.
pub fn refused_steps_stay()
    ensures state { (s : State) (files : Files) (line : List ℕ)
        → IsTrue (is_err (step s files line).reply) → (step s files line).state ≡ s }
    ensures files { (s : State) (files : Files) (line : List ℕ)
        → IsTrue (is_err (step s files line).reply) → (step s files line).files ≡ files }
{}

/// Each answer in a sample is marked as exact: its radius is the bound of its index.
#[tactic(auto, using(crate::proofs::SampleLemmas::sample_exact))]
pub fn samples_are_exact()
    ensures { (seed count : ℕ) → (sample_tally seed count).exact ≡ 64 }
{}
