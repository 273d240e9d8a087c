// Commands that add.
ghost use Rattle.std.specs.Prelude.{◌≡◌, ◌<◌, ◌^◌, nat_le, IfErr, OnErr, OnOk};
ghost use Rattle.bcodes.specs.Ranges.{load_limit};
ghost use Rattle.faissb_core.specs.Language.Words.{words_of};
ghost use Rattle.faissb_core.specs.Language.Grammar.{pairs_in};
ghost use Rattle.faissb_core.specs.Machine.Adding.{add, add_ids, give_centroids};
ghost use Rattle.faissb_core.specs.Session.Results.{Changes};
ghost use Rattle.faissb_core.specs.Session.Room.{load_with, HasRoom, LacksRoom};

use super::halt::Halt;
use super::read_codes::{read_codes, read_pairs};
use crate::language::IdWords;
use crate::{Refusal, Reply};
use any_index::{AnyIndex, load_of};
use bcodes::{BinaryIndex, LOAD_LIMIT};
use factory_text::Kind;
use std::alloc::Global;

// Whether an index of this many rows and centroids would be within the load limit. Each weighs more
// than 1, so more of them than the limit are never within it.
fn is_light(index: &AnyIndex, rows: u64, centroids: u64) -> bool
    ensures { result ≡ nat_le (load_with index.now rows centroids) load_limit }
{
    rows.max(centroids) <= LOAD_LIMIT
        && load_of(index.spec(), index.dim(), rows, centroids) <= u128::from(LOAD_LIMIT)
}

// What both kinds of adding check of so many codes more.
fn check_room(index: &AnyIndex, more: usize) -> Result<(), Refusal>
    requires { more < 2 ^ 63 }
    ensures ok { OnOk result (HasRoom index.now more) }
    ensures err { IfErr result (LacksRoom index.now more) }
{
    if !index.trained() {
        return Err(Refusal::Untrained);
    }
    let _dim = index.dim();
    let rows = index.count() + more as u64;
    if !is_light(index, rows, u64::from(index.held())) {
        return Err(Refusal::Load);
    }
    Ok(())
}

/// The command `add`.
pub fn add(alloc: Global, index: &mut AnyIndex, words: &[u8]) -> Result<Reply, Halt>
    ensures ok { Changes (add (words_of words.now) index.old) index.new result }
    ensures err { OnErr result (index.new ≡ index.old) }
{
    let codes = read_codes(alloc, index.dim(), words)?;
    if index.needs_ids() {
        return Err(Refusal::Ids.into());
    }
    check_room(index, codes.len())?;
    index.add(alloc, &codes)?;
    Ok(Reply::Added(codes.len() as u64, index.count()))
}

/// The command `addids`.
pub fn add_ids(alloc: Global, index: &mut AnyIndex, words: IdWords<'_>) -> Result<Reply, Halt>
    ensures ok { Changes (add_ids (pairs_in words.entry.text.now) index.old) index.new result }
    ensures err { OnErr result (index.new ≡ index.old) }
{
    let (ids, codes) = read_pairs(alloc, index.dim(), words)?;
    if !index.takes_ids() {
        return Err(Refusal::Ids.into());
    }
    check_room(index, codes.len())?;
    index.add_ids(&ids, &codes)?;
    Ok(Reply::Added(codes.len() as u64, index.count()))
}

/// The command `centroids`.
pub fn give_centroids(alloc: Global, index: &mut AnyIndex, words: &[u8]) -> Result<Reply, Halt>
    ensures ok { Changes (give_centroids (words_of words.now) index.old) index.new result }
    ensures err { OnErr result (index.new ≡ index.old) }
{
    let codes = read_codes(alloc, index.dim(), words)?;
    let Kind::Ivf(lists) = index.spec().kind else {
        return Err(Refusal::Kind.into());
    };
    let held = u64::from(index.held()) + codes.len() as u64;
    if held > u64::from(lists) {
        return Err(Refusal::Full.into());
    }
    if !is_light(index, index.count(), held) {
        return Err(Refusal::Load.into());
    }
    index.give_all(&codes)?;
    Ok(Reply::Held(index.held(), lists))
}
