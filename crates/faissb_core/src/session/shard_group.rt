// Indexes that are searched as one.
ghost use Rattle.std.specs.Prelude.{◌≡◌, ◌<◌, ◌≤◌, ◌/◌, ◌^◌, ◌+◌, ◌++◌, ◌∷◌, [], true, length, nat_eq};
ghost use Rattle.std.specs.Prelude.{IfErr, IfOk, IsTrue, OnErr, OnOk, Ok, Err, Some};
ghost use Rattle.std.specs.List.{All, list_all};
ghost use Rattle.bcodes.specs.Ranges.{load_limit};
ghost use Rattle.bcodes.specs.Value.{IndexValue, IsLegal, count_of, dim_of, load_of};
ghost use Rattle.bcodes.specs.Marks.{range_mark, search_mark};
ghost use Rattle.shard_set.specs.Joined.{are_alike, is_alike, joined, joined_best};
ghost use Rattle.shard_set.specs.Joined.{joined_count, joined_looked, joined_within};
ghost use Rattle.outside.specs.Contents.{Files};
ghost use Rattle.faissb_core.specs.Language.Command.{Shard};
ghost use Rattle.faissb_core.specs.Machine.Shards.{may_be_shard, shard_range};
ghost use Rattle.faissb_core.specs.Machine.Shards.{shard_search, with_shard};
ghost use Rattle.faissb_core.specs.Machine.Step.{command_outcome};
ghost use Rattle.faissb_core.specs.Reply.Answer.{Found, Sharded, reply_of};
ghost use Rattle.faissb_core.specs.Session.Followed.{state_of};
ghost use Rattle.faissb_core.specs.Session.Results.{Answers, Leaves};
ghost use Rattle.faissb_core.specs.Session.Shards.{values_in, AreGrouped, AreRoomy};

use super::halt::Halt;
use super::read_codes::read_code;
use crate::{K_LIMIT, RADIUS_LIMIT, Refusal, Reply, SHARD_LIMIT};
use any_index::{AnyIndex, load_of};
use bcodes::{BinaryIndex, Dim, Meter, Plain, Want, range_exact, search_exact};
use factory_text::{Kind, Prefix, Spec};
use shard_set::Shards;
use std::alloc::Global;
use std::marker::Model;

/// The shards of a session: plain Flat of one size of codes, or plain MultiHash of one size and
/// the same settings. It is seen as the list of their values.
#[derive(Drop)]
pub struct ShardGroup {
    list: Option<Shards<AnyIndex>>,
    load: u64,
}

impl Model for ShardGroup {
    ghost use Rattle.std.specs.Prelude.{List};
    ghost use Rattle.bcodes.specs.Value.{IndexValue};
    ghost use Rattle.faissb_core.specs.Session.Shards.{values_in, AreGrouped};

    ghost Value = { List IndexValue };

    ghost view = { λ g. values_in g.list };

    ghost invariant = { λ g. AreGrouped (values_in g.list) g.load };
}

impl ShardGroup {
    ghost use Rattle.faissb_core.specs.Machine.Legal.{AreLegalShards};

    /// No shards. Takes no memory.
    pub fn new() -> ShardGroup
        ensures { result ≡ [] }
    {
        ShardGroup {
            list: None,
            load: 0,
        }
    }

    // The shards are legal: the fact for proofs.
    pub fn know_legal(&self)
        ensures { AreLegalShards self.now }
    {
        let _ = &self.load;
        know_each_legal(&self.list);
    }

    /// The command `shard`: the index becomes the last shard.
    pub fn take(&mut self, alloc: Global, index: &mut Option<AnyIndex>) -> Result<Reply, Halt>
        ensures ok { (files : Files) → Leaves
            (command_outcome Shard (state_of index.old self.old) files)
            (state_of index.new self.new) files result }
        ensures err { OnErr result ((index.new ≡ index.old) × (self.new ≡ self.old)) }
    {
        let Some(shard) = index else {
            return Err(Refusal::NoIndex.into());
        };
        let load = check_shard(&self.list, self.load, shard)?;
        make_room(alloc, &mut self.list, shard.dim())?;
        let Some(shard) = index.take() else {
            unreachable!()
        };
        self.load = load;
        Ok(push_shard(&mut self.list, shard))
    }

    /// The command `shardsearch`.
    pub fn search(&self, alloc: Global, k: u64, word: &[u8]) -> Result<Reply, Halt>
        ensures { Answers (shard_search k word.now self.now) result }
    {
        let _ = &self.load;
        let Some(shards) = &self.list else {
            return Err(Refusal::NoIndex.into());
        };
        if shards.is_empty() {
            return Err(Refusal::NoIndex.into());
        }
        search(alloc, shards, k, word)
    }

    /// The command `shardrange`.
    pub fn range(&self, alloc: Global, radius: u64, word: &[u8]) -> Result<Reply, Halt>
        ensures { Answers (shard_range radius word.now self.now) result }
    {
        let _ = &self.load;
        let Some(shards) = &self.list else {
            return Err(Refusal::NoIndex.into());
        };
        if shards.is_empty() {
            return Err(Refusal::NoIndex.into());
        }
        range(alloc, shards, radius, word)
    }
}

fn know_each_legal(list: &Option<Shards<AnyIndex>>)
    ensures { All IsLegal (values_in list.now) }
{
    if let Some(shards) = list {
        let _dim = shards.dim();
    }
}

fn may_be_shard(index: &AnyIndex) -> bool
    ensures { result ≡ may_be_shard index.now }
{
    matches!(
        index.spec(),
        Spec {
            prefix: Prefix::Plain,
            kind: Kind::Flat | Kind::Multi(_, _),
        }
    )
}

// What an index weighs.
fn load(index: &AnyIndex) -> u64
    ensures value { result ≡ load_of index.now }
    ensures light { result ≤ load_limit }
{
    let dim = index.dim();
    load_of(index.spec(), dim, index.count(), u64::from(index.held())) as u64
}

// Whether a plain Flat or a plain MultiHash differs from a shard in its codes alone.
fn is_alike(index: &AnyIndex, shard: &AnyIndex) -> bool
    requires { IsTrue (may_be_shard index.now) }
    ensures { result ≡ is_alike index.now shard.now }
{
    if index.spec() != shard.spec() {
        return false;
    }
    if index.dim() != shard.dim() {
        return false;
    }
    index.bound() == shard.bound()
}

// Whether an index is alike to the first shard, if there is one, and so to all of them.
fn is_alike_to_all(list: &Option<Shards<AnyIndex>>, index: &AnyIndex) -> bool
    requires shard { IsTrue (may_be_shard index.now) }
    requires alike { are_alike (values_in list.now) ≡ true }
    ensures { result ≡ list_all (is_alike index.now) (values_in list.now) }
{
    match list {
        Some(shards) if !shards.is_empty() => is_alike(index, shards.get(0)),
        _ => true,
    }
}

// What all shards weigh with one more index, unless it may not be one of them.
fn check_shard(list: &Option<Shards<AnyIndex>>, held: u64, index: &AnyIndex) -> Result<u64, Refusal>
    requires { AreGrouped (values_in list.now) held }
    ensures ok { let vs = values_in list.now in IfOk result (λ load.
        (with_shard vs index.now ≡ Ok (vs ++ index.now ∷ []))
        × AreGrouped (vs ++ index.now ∷ []) load) }
    ensures err { IfErr result (λ refusal.
        with_shard (values_in list.now) index.now ≡ Err refusal) }
{
    if !may_be_shard(index) {
        return Err(Refusal::Kind);
    }
    let load = held + load(index);
    if load > SHARD_LIMIT {
        return Err(Refusal::Load);
    }
    if !is_alike_to_all(list, index) {
        return Err(Refusal::Mismatch);
    }
    Ok(load)
}

fn is_empty(list: &Option<Shards<AnyIndex>>) -> bool
    ensures { result ≡ nat_eq (length (values_in list.now)) 0 }
{
    match list {
        Some(shards) => shards.is_empty(),
        None => true,
    }
}

// Room for a shard of so many bits, where the shards have as many.
fn make_room(alloc: Global, list: &mut Option<Shards<AnyIndex>>, dim: Dim) -> Result<(), Want>
    requires { All (λ v. dim_of v ≡ dim.bits) (values_in list.old) }
    ensures values { values_in list.new ≡ values_in list.old }
    ensures ok { OnOk result (AreRoomy dim.bits list.new) }
{
    if is_empty(list) {
        let mut shards = Shards::new(alloc, dim);
        shards.reserve(1)?;
        *list = Some(shards);
        return Ok(());
    }
    let Some(shards) = list else { unreachable!() };
    let _dim = shards.dim();
    shards.reserve(1)?;
    Ok(())
}

// The index becomes the last shard, in the room that was made.
fn push_shard(list: &mut Option<Shards<AnyIndex>>, index: AnyIndex) -> Reply
    requires shard { IsTrue (may_be_shard index) }
    requires room { AreRoomy (dim_of index) list.old }
    requires few { joined_count (values_in list.old) + count_of index < 2 ^ 31 }
    ensures values { values_in list.new ≡ values_in list.old ++ index ∷ [] }
    ensures reply { let vs = values_in list.old ++ index ∷ [] in
        reply_of result ≡ Ok (Sharded (length vs) (joined_count vs)) }
{
    let Some(shards) = list else { unreachable!() };
    shards.push(index);
    Reply::Sharded(shards.len() as u64, shards.count())
}

// A search under a meter of its own, with its count and its mark.
fn marked_search(alloc: Global, shards: &Shards<AnyIndex>, q: &[u8], k: u32) -> Result<Reply, Want>
    requires alike { are_alike shards.now.values ≡ true }
    requires some { 0 < length shards.now.values }
    requires size { length q.now ≡ shards.now.dim / 8 }
    requires k_positive { 1 ≤ k }
    ensures { let vs = shards.now.values in
        (v : IndexValue) → joined vs ≡ Some v → IfOk result (λ reply. reply_of reply
        ≡ Ok (Found (joined_best vs q.now k) (joined_looked vs q.now) (search_mark v q.now k))) }
{
    let bound = shards.get(0).bound();
    let mut meter = Meter::new(Plain);
    let hits = shards.search(alloc, q, k, &mut meter)?;
    let exact = search_exact(meter.lent(), 0, shards.count(), bound, k, &hits);
    Ok(Reply::Found(hits, meter.lent(), exact))
}

// A range search, as above.
fn marked_range(
    alloc: Global,
    shards: &Shards<AnyIndex>,
    q: &[u8],
    radius: u32,
) -> Result<Reply, Want>
    requires alike { are_alike shards.now.values ≡ true }
    requires some { 0 < length shards.now.values }
    requires size { length q.now ≡ shards.now.dim / 8 }
    ensures { let vs = shards.now.values in
        (v : IndexValue) → joined vs ≡ Some v → IfOk result (λ reply. reply_of reply
        ≡ Ok (Found (joined_within vs q.now radius) (joined_looked vs q.now)
        (range_mark v q.now radius))) }
{
    let bound = shards.get(0).bound();
    let mut meter = Meter::new(Plain);
    let hits = shards.range(alloc, q, radius, &mut meter)?;
    let exact = range_exact(meter.lent(), 0, shards.count(), bound, radius);
    Ok(Reply::Found(hits, meter.lent(), exact))
}

fn search(alloc: Global, shards: &Shards<AnyIndex>, k: u64, word: &[u8]) -> Result<Reply, Halt>
    requires alike { are_alike shards.now.values ≡ true }
    requires some { 0 < length shards.now.values }
    ensures { Answers (shard_search k word.now shards.now.values) result }
{
    let query = read_code(alloc, shards.dim(), word)?;
    if k < 1 || k > K_LIMIT {
        return Err(Refusal::Value.into());
    }
    let reply = marked_search(alloc, shards, &query, k as u32)?;
    Ok(reply)
}

fn range(alloc: Global, shards: &Shards<AnyIndex>, radius: u64, word: &[u8]) -> Result<Reply, Halt>
    requires alike { are_alike shards.now.values ≡ true }
    requires some { 0 < length shards.now.values }
    ensures { Answers (shard_range radius word.now shards.now.values) result }
{
    let centre = read_code(alloc, shards.dim(), word)?;
    if radius > RADIUS_LIMIT {
        return Err(Refusal::Value.into());
    }
    let reply = marked_range(alloc, shards, &centre, radius as u32)?;
    Ok(reply)
}
