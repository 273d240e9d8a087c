ghost use Rattle.std.specs.Prelude.{◌≡◌, ◌⊎◌, ◌||◌, false, IsTrue, is_err, is_some, Ok};
ghost use Rattle.std.specs.Prelude.{IfErr, IfOk, IsErrOf, OnErr, OnOk};
ghost use Rattle.outside.specs.Causes.{CountsFailure, HasCause};
ghost use Rattle.outside.specs.Contents.{Files, HasFiles, Fits};
ghost use Rattle.faissb_core.specs.Language.Command.{Ask, AskShards, Change, New, Shard, Unshard};
ghost use Rattle.faissb_core.specs.Language.Lines.{Whole};
ghost use Rattle.faissb_core.specs.Language.Read.{said, said_change, said_question};
ghost use Rattle.faissb_core.specs.Language.Read.{said_shard_question, line_said};
ghost use Rattle.faissb_core.specs.Machine.Legal.{IsLegalState};
ghost use Rattle.faissb_core.specs.Machine.Step.{ask as answer_of, change as change_of};
ghost use Rattle.faissb_core.specs.Machine.Step.{ask_shards as shards_answer};
ghost use Rattle.faissb_core.specs.Machine.Step.{command_outcome};
ghost use Rattle.faissb_core.specs.Session.Applied.{Applies};
ghost use Rattle.faissb_core.specs.Session.Followed.{state_of};
ghost use Rattle.faissb_core.specs.Session.Results.{Answers, Changes, Leaves, settled};

use super::adding::{add, add_ids, give_centroids};
use super::files::{load, save};
use super::halt::Halt;
use super::new::new_index;
use super::queries::{nearest, range, reconstruct, search, show};
use super::removing::remove;
use super::settings::{set_direct, set_max_codes, set_nflip, set_nprobe};
use super::shard_group::ShardGroup;
use super::stop::Stop;
use crate::language::{Command, IndexChange, IndexQuestion, Line, ShardQuestion, read_line};
use crate::{Refusal, Reply};
use any_index::AnyIndex;
use bcodes::BinaryIndex;
use outside::Shelf;
use std::alloc::Global;
use std::marker::Model;

/// The index that the commands of a script work on, if there is one, and the shards.
pub struct Session {
    index: Option<AnyIndex>,
    shards: ShardGroup,
}

impl Drop for Session {
    fn drop(self) {
        let Session {
            index: _index,
            shards: _shards,
        } = self;
    }
}

impl Model for Session {
    ghost use Rattle.faissb_core.specs.Machine.State.{State};
    ghost use Rattle.faissb_core.specs.Session.Followed.{state_of};

    ghost Value = { State };

    ghost view = { λ s. state_of s.index s.shards };
}

// What a change makes of the index.
fn change(alloc: Global, index: &mut AnyIndex, change: IndexChange<'_>) -> Result<Reply, Halt>
    ensures ok { Changes (change_of (said_change change.entry) index.old) index.new result }
    ensures err { OnErr result (index.new ≡ index.old) }
{
    match change {
        IndexChange::Add(words) => add(alloc, index, words),
        IndexChange::AddIds(words) => add_ids(alloc, index, words),
        IndexChange::Centroids(words) => give_centroids(alloc, index, words),
        IndexChange::Nprobe(n) => set_nprobe(index, n),
        IndexChange::Nflip(n) => set_nflip(index, n),
        IndexChange::MaxCodes(n) => set_max_codes(index, n),
        IndexChange::DirectMap(on) => set_direct(index, on),
        IndexChange::Remove(selection) => remove(alloc, index, selection),
    }
}

// What the index answers.
fn ask(alloc: Global, index: &AnyIndex, question: IndexQuestion<'_>) -> Result<Reply, Halt>
    ensures { Answers (answer_of (said_question question.entry) index.now) result }
{
    match question {
        IndexQuestion::Search(k, word) => search(alloc, index, k, word),
        IndexQuestion::Range(radius, word) => range(alloc, index, radius, word),
        IndexQuestion::Nearest(k, word) => nearest(alloc, index, k, word),
        IndexQuestion::Reconstruct(label) => reconstruct(alloc, index, label),
        IndexQuestion::Show => show(alloc, index),
    }
}

// What the shards answer.
fn ask_shards(
    alloc: Global,
    shards: &ShardGroup,
    question: ShardQuestion<'_>,
) -> Result<Reply, Halt>
    ensures { Answers (shards_answer (said_shard_question question.entry) shards.now) result }
{
    match question {
        ShardQuestion::Search(k, word) => shards.search(alloc, k, word),
        ShardQuestion::Range(radius, word) => shards.range(alloc, radius, word),
    }
}

// The index and the shards are legal: the fact for proofs.
fn know_legal(index: &Option<AnyIndex>, shards: &ShardGroup)
    ensures { IsLegalState (state_of index.now shards.now) }
{
    if let Some(index) = index {
        let _dim = index.dim();
    }
    shards.know_legal();
}

// A refusal is a reply.
fn settle(done: Result<Reply, Halt>) -> Result<Reply, Stop>
    ensures value { result ≡ settled done }
    ensures memory { IfErr result (λ stop. stop ≡ Stop.Memory) }
{
    match done {
        Ok(reply) => Ok(reply),
        Err(Halt::Refused(refusal)) => Ok(Reply::Refused(refusal)),
        Err(Halt::Memory) => Err(Stop::Memory),
    }
}

impl Session {
    ghost use Rattle.faissb_core.specs.Language.Lines.{is_command, line_of};
    ghost use Rattle.faissb_core.specs.Language.Lines.{is_load, is_save};
    ghost use Rattle.faissb_core.specs.Reply.Answer.{reply_of};
    ghost use Rattle.faissb_core.specs.Machine.State.{start};
    ghost use Rattle.faissb_core.specs.Machine.Step.{step};
    ghost use Rattle.faissb_core.specs.Machine.Marked.{scan_of, MarkedIsScan};
    ghost use Rattle.faissb_core.specs.Machine.Marked.{IsNotPartial, IsWithinBound};
    ghost use Rattle.faissb_core.specs.Session.Followed.{FollowsStep};

    /// A session without an index. Takes no memory.
    pub fn new(_alloc: Global) -> Session
        ensures { result ≡ start }
    {
        Session {
            index: None,
            shards: ShardGroup::new(),
        }
    }

    // The command `new`.
    fn renew(&mut self, alloc: Global, bits: u64, factory: &[u8]) -> Result<Reply, Halt>
        ensures ok { (files : Files) →
            Leaves (command_outcome (New bits factory.now) self.old files) self.new files result }
        ensures err { OnErr result (self.new ≡ self.old) }
    {
        self.index = Some(new_index(alloc, bits, factory)?);
        Ok(Reply::Done)
    }

    fn change(&mut self, alloc: Global, asked: IndexChange<'_>) -> Result<Reply, Halt>
        ensures ok { (files : Files) →
            Leaves (command_outcome (Change (said_change asked.entry)) self.old files)
            self.new files result }
        ensures err { OnErr result (self.new ≡ self.old) }
    {
        let Some(index) = &mut self.index else {
            return Err(Refusal::NoIndex.into());
        };
        change(alloc, index, asked)
    }

    fn ask(&self, alloc: Global, question: IndexQuestion<'_>) -> Result<Reply, Halt>
        ensures { (files : Files) →
            Leaves (command_outcome (Ask (said_question question.entry)) self.now files)
            self.now files result }
    {
        let Some(index) = &self.index else {
            return Err(Refusal::NoIndex.into());
        };
        ask(alloc, index, question)
    }

    fn ask_shards(&self, alloc: Global, question: ShardQuestion<'_>) -> Result<Reply, Halt>
        ensures { (files : Files) →
            Leaves (command_outcome (AskShards (said_shard_question question.entry))
            self.now files) self.now files result }
    {
        ask_shards(alloc, &self.shards, question)
    }

    // The command `shard`.
    fn shard(&mut self, alloc: Global) -> Result<Reply, Halt>
        ensures ok { (files : Files) →
            Leaves (command_outcome Shard self.old files) self.new files result }
        ensures err { OnErr result (self.new ≡ self.old) }
    {
        self.shards.take(alloc, &mut self.index)
    }

    // The command `unshard`.
    fn unshard(&mut self) -> Reply
        ensures { (files : Files) →
            Leaves (command_outcome Unshard self.old files) self.new files (Ok result) }
    {
        self.shards = ShardGroup::new();
        Reply::Done
    }

    // The command of a line.
    fn carry_out<H: Shelf>(
        &mut self,
        alloc: Global,
        command: Command<'_>,
        shelf: &mut H,
    ) -> Result<Reply, Stop>
        ensures applies { Applies (Whole (said command.entry)) self.old self.new
            (H.contents shelf.old) (H.contents shelf.new) result }
        ensures tells { is_some (H.contents shelf.new) ≡ is_some (H.contents shelf.old) }
        ensures counts { CountsFailure (H.faults shelf.old) (H.faults shelf.new)
            (IsErrOf result Stop.ShelfFailed) }
    {
        match command {
            Command::New(bits, factory) => settle(self.renew(alloc, bits, factory)),
            Command::Load(name) => load(alloc, &mut self.index, name, shelf),
            Command::Save(name) => save(alloc, &self.index, name, shelf),
            Command::Shard => settle(self.shard(alloc)),
            Command::Unshard => Ok(self.unshard()),
            Command::Change(asked) => settle(self.change(alloc, asked)),
            Command::Ask(question) => settle(self.ask(alloc, question)),
            Command::AskShards(question) => settle(self.ask_shards(alloc, question)),
        }
    }

    // A line that was read.
    fn obey<H: Shelf>(
        &mut self,
        alloc: Global,
        line: Line<'_>,
        shelf: &mut H,
    ) -> Result<Reply, Stop>
        ensures applies { Applies (line_said line.entry) self.old self.new
            (H.contents shelf.old) (H.contents shelf.new) result }
        ensures tells { is_some (H.contents shelf.new) ≡ is_some (H.contents shelf.old) }
        ensures counts { CountsFailure (H.faults shelf.old) (H.faults shelf.new)
            (IsErrOf result Stop.ShelfFailed) }
    {
        match line {
            Line::TooLong => Ok(Reply::Refused(Refusal::Long)),
            Line::Silent => Ok(Reply::Silent),
            Line::Whole(command) => self.carry_out(alloc, command, shelf),
            Line::Broken => Ok(Reply::Refused(Refusal::Line)),
        }
    }

    /// Applies a line, which has no line feed and may be longer than the limit.
    ///
    /// # Errors
    ///
    /// `ShelfFailed` if the shelf fails, which only a line that saves or loads can meet, and
    /// `Memory` if memory runs out. Either leaves the session as it was.
    pub fn apply<H: Shelf>(
        &mut self,
        alloc: Global,
        line: &[u8],
        shelf: &mut H,
    ) -> Result<Reply, Stop>
        ensures ok { (files : Files) → Fits files (H.contents shelf.old) (is_load line.now)
            → IfOk result
            (FollowsStep (step self.old files line.now) self.new (H.contents shelf.new)) }

        // A refused command leaves the session as it was.
        ensures refused { IfOk result (λ reply. IsTrue (is_err (reply_of reply))
            → self.new ≡ self.old) }

        // An answer that is marked as exact is that of a full scan.
        ensures marked { IfOk result (λ reply.
            MarkedIsScan (scan_of (line_of line.now) self.old) (reply_of reply)) }

        // A range search of a MultiHash up to its bound is marked as exact.
        ensures within_bound { IsWithinBound (line_of line.now) self.old
            → IfOk result (λ reply. IsNotPartial (reply_of reply)) }

        // A `Stop` leaves the session as it was. Lines that are no command take no memory.
        ensures err { OnErr result (self.new ≡ self.old) }
        ensures memory_for_commands { IsErrOf result Stop.Memory → IsTrue (is_command line.now) }

        ensures kept { (files : Files) → HasFiles files (H.contents shelf.old)
            → OnErr result (HasFiles files (H.contents shelf.new)
            ⊎ HasFiles (step self.old files line.now).files (H.contents shelf.new)) }
        ensures memory { (files : Files) → HasFiles files (H.contents shelf.old)
            → IsErrOf result Stop.Memory → HasFiles files (H.contents shelf.new) }
        ensures save_only { (files : Files) → HasFiles files (H.contents shelf.old)
            → is_save line.now ≡ false → OnErr result (HasFiles files (H.contents shelf.new)) }
        ensures which { IsErrOf result Stop.ShelfFailed
            → IsTrue (is_save line.now || is_load line.now) }

        ensures tells { is_some (H.contents shelf.new) ≡ is_some (H.contents shelf.old) }
        ensures cause { HasCause (H.faults shelf.old) (H.faults shelf.new)
            (IsErrOf result Stop.ShelfFailed) }
        ensures faultless { OnOk result (H.faults shelf.new ≡ H.faults shelf.old) }
        ensures memory_is_no_fault { IsErrOf result Stop.Memory
            → H.faults shelf.new ≡ H.faults shelf.old }
    {
        know_legal(&self.index, &self.shards);
        self.obey(alloc, read_line(line), shelf)
    }
}
