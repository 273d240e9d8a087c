// Commands that ask the index for hits.
ghost use Rattle.std.specs.Prelude.{◌≡◌, ◌≤◌, length, true, IfOk, IsTrue, Ok, Some};
ghost use Rattle.bcodes.specs.Value.{code_size, is_trained};
ghost use Rattle.bcodes.specs.Settings.{multi_in};
ghost use Rattle.bcodes.specs.Answers.{best, within, looked, scan_best};
ghost use Rattle.bcodes.specs.Marks.{range_mark, search_mark};
ghost use Rattle.any_index.specs.Labels.{finds_labels};
ghost use Rattle.growing_probe.specs.Grown.{flipped, grown};
ghost use Rattle.faissb_core.specs.Machine.Queries.{nearest, range, reconstruct, search, show};
ghost use Rattle.faissb_core.specs.Reply.Answer.{Found, reply_of};
ghost use Rattle.faissb_core.specs.Session.Results.{Answers};

use super::halt::Halt;
use super::read_codes::read_code;
use crate::{K_LIMIT, RADIUS_LIMIT, Refusal, Reply};
use any_index::AnyIndex;
use bcodes::{BinaryIndex, Meter, Plain, Want, range_exact, search_exact};
use factory_text::{Kind, Prefix, Spec};
use multi_hash::Multi;
use std::alloc::Global;

// A search under a meter of its own, with its count and its mark.
fn marked_search<I: BinaryIndex<Led = Plain>>(
    alloc: Global,
    index: &I,
    q: &[u8],
    k: u32,
) -> Result<Reply, Want>
    requires code_size { length q.now ≡ code_size (I.value index.now) }
    requires k_positive { 1 ≤ k }
    requires is_trained { IsTrue (is_trained (I.value index.now)) }
    ensures { let v = I.value index.now in
        IfOk result (λ reply. reply_of reply
        ≡ Ok (Found (best v q.now k) (looked v q.now) (search_mark v q.now k))) }
{
    let _dim = index.dim();
    let mut meter = Meter::new(Plain);
    let hits = index.search(alloc, q, k, &mut meter)?;
    let exact = search_exact(
        meter.lent(),
        index.fixed(),
        index.count(),
        index.bound(),
        k,
        &hits,
    );
    Ok(Reply::Found(hits, meter.lent(), exact))
}

// A range search, as above.
fn marked_range<I: BinaryIndex<Led = Plain>>(
    alloc: Global,
    index: &I,
    q: &[u8],
    radius: u32,
) -> Result<Reply, Want>
    requires code_size { length q.now ≡ code_size (I.value index.now) }
    requires is_trained { IsTrue (is_trained (I.value index.now)) }
    ensures { let v = I.value index.now in
        IfOk result (λ reply. reply_of reply
        ≡ Ok (Found (within v q.now radius) (looked v q.now) (range_mark v q.now radius))) }
{
    let _dim = index.dim();
    let mut meter = Meter::new(Plain);
    let hits = index.range(alloc, q, radius, &mut meter)?;
    let exact = range_exact(
        meter.lent(),
        index.fixed(),
        index.count(),
        index.bound(),
        radius,
    );
    Ok(Reply::Found(hits, meter.lent(), exact))
}

/// The command `search`.
pub fn search<I: BinaryIndex<Led = Plain>>(
    alloc: Global,
    index: &I,
    k: u64,
    word: &[u8],
) -> Result<Reply, Halt>
    ensures { Answers (search k word.now (I.value index.now)) result }
{
    let query = read_code(alloc, index.dim(), word)?;
    if k < 1 || k > K_LIMIT {
        return Err(Refusal::Value.into());
    }
    if !index.trained() {
        return Err(Refusal::Untrained.into());
    }
    let reply = marked_search(alloc, index, &query, k as u32)?;
    Ok(reply)
}

/// The command `range`.
pub fn range<I: BinaryIndex<Led = Plain>>(
    alloc: Global,
    index: &I,
    radius: u64,
    word: &[u8],
) -> Result<Reply, Halt>
    ensures { Answers (range radius word.now (I.value index.now)) result }
{
    let centre = read_code(alloc, index.dim(), word)?;
    if radius > RADIUS_LIMIT {
        return Err(Refusal::Value.into());
    }
    if !index.trained() {
        return Err(Refusal::Untrained.into());
    }
    let reply = marked_range(alloc, index, &centre, radius as u32)?;
    Ok(reply)
}

// The nearest of all codes, with as many flips as that takes, and how many codes were looked at.
fn grown_search(
    alloc: Global,
    index: &AnyIndex,
    multi: &Multi<Plain>,
    q: &[u8],
    k: u32,
) -> Result<Reply, Want>
    requires multi { multi_in index.now ≡ Some multi.now }
    requires code_size { length q.now ≡ code_size index.now }
    requires k_positive { 1 ≤ k }
    ensures { let flips = grown multi.now q.now k in IfOk result (λ reply. reply_of reply
        ≡ Ok (Found (scan_best index.now q.now k) (looked (flipped multi.now flips) q.now) true)) }
{
    let _dim = index.dim();
    let mut meter = Meter::new(Plain);
    let mut hits = growing_probe::nearest(alloc, multi, q, k, &mut meter)?;
    index.put_outer(&mut hits);
    Ok(Reply::Found(hits, meter.lent(), true))
}

/// The command `nearest`.
pub fn nearest(alloc: Global, index: &AnyIndex, k: u64, word: &[u8]) -> Result<Reply, Halt>
    ensures { Answers (nearest k word.now index.now) result }
{
    let query = read_code(alloc, index.dim(), word)?;
    let Some(multi) = index.as_multi() else {
        return Err(Refusal::Kind.into());
    };
    if k < 1 || k > K_LIMIT {
        return Err(Refusal::Value.into());
    }
    let reply = grown_search(alloc, index, multi, &query, k as u32)?;
    Ok(reply)
}

/// The command `show`.
pub fn show(alloc: Global, index: &AnyIndex) -> Result<Reply, Halt>
    ensures { Answers (show index.now) result }
{
    let about = index.about(alloc)?;
    Ok(Reply::Shown(about))
}

// Whether the code of a label is found, where the index is of a kind that may find it.
fn finds_labels(index: &AnyIndex) -> Option<bool>
    ensures { result ≡ finds_labels index.now }
{
    match index.spec() {
        Spec {
            prefix: Prefix::Plain,
            kind: Kind::Flat,
        } => Some(true),
        // An IVF takes ids exactly where it keeps no direct map.
        Spec {
            prefix: Prefix::Plain,
            kind: Kind::Ivf(_),
        } => Some(!index.takes_ids()),
        _ => None,
    }
}

/// The command `reconstruct`.
pub fn reconstruct(alloc: Global, index: &AnyIndex, label: u64) -> Result<Reply, Halt>
    ensures { Answers (reconstruct label index.now) result }
{
    let Some(finds) = finds_labels(index) else {
        return Err(Refusal::Kind.into());
    };
    if label >= index.count() {
        return Err(Refusal::Value.into());
    }
    if !finds {
        return Err(Refusal::NoDirect.into());
    }
    let codes = index.reconstruct(alloc, label, &mut Meter::new(Plain))?;
    Ok(Reply::Code(codes))
}
