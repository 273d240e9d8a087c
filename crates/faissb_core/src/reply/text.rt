// The text of a reply.
ghost use Rattle.std.specs.Prelude.{◌≡◌, ◌++◌, [], length, slice_index_or, string_bytes};
ghost use Rattle.std.specs.Prelude.{Ok, IfOk, IsErrOf, IsOk, OnOk};
ghost use Rattle.std.specs.List.{flat_map};
ghost use Rattle.std.specs.Io.KnownBytes.{Appends};
ghost use Rattle.outside.specs.Causes.{HasCause};
ghost use Rattle.faissb_core.specs.Reply.Answer.{Added, Code, Held, Loaded, Quiet, Removed, Saved};
ghost use Rattle.faissb_core.specs.Reply.Answer.{Sharded, Shown, reply_of};
ghost use Rattle.faissb_core.specs.Reply.Sent.{AppendsFront, SendsPieces};
ghost use Rattle.faissb_core.specs.Reply.Text.{answer_text, count_text, found_text};
ghost use Rattle.faissb_core.specs.Reply.Text.{hit_text, mark_word, reply_text};

use super::outgoing::send_pieces;
use super::refused::refused_line;
use super::reply::Reply;
use super::send::send_piece;
use super::shown::shown;
use crate::PIECE;
use any_index::About;
use bcodes::{Codes, Hit};
use itoa::{Buffer, Integer};
use outside::{Sink, Trouble};
use std::alloc::{AllocError, Global};

fn added_line(alloc: Global, added: u64, total: u64) -> Result<String, AllocError>
    ensures { IfOk result (λ line. string_bytes line ≡ answer_text (Added added total)) }
{
    let line = format!(in alloc; "added {added} total {total}\n")?;
    Ok(line)
}

fn sharded_line(alloc: Global, shards: u64, total: u64) -> Result<String, AllocError>
    ensures { IfOk result (λ line. string_bytes line ≡ answer_text (Sharded shards total)) }
{
    let line = format!(in alloc; "shards {shards} total {total}\n")?;
    Ok(line)
}

fn removed_line(alloc: Global, removed: u64, total: u64) -> Result<String, AllocError>
    ensures { IfOk result (λ line. string_bytes line ≡ answer_text (Removed removed total)) }
{
    let line = format!(in alloc; "removed {removed} total {total}\n")?;
    Ok(line)
}

fn saved_line(alloc: Global, len: u64) -> Result<String, AllocError>
    ensures { IfOk result (λ line. string_bytes line ≡ answer_text (Saved len)) }
{
    let line = format!(in alloc; "saved {len}\n")?;
    Ok(line)
}

fn loaded_line(alloc: Global, total: u64) -> Result<String, AllocError>
    ensures { IfOk result (λ line. string_bytes line ≡ answer_text (Loaded total)) }
{
    let line = format!(in alloc; "loaded {total}\n")?;
    Ok(line)
}

fn held_line(alloc: Global, held: u32, lists: u32) -> Result<String, AllocError>
    ensures { IfOk result (λ line. string_bytes line ≡ answer_text (Held held lists)) }
{
    let line = format!(in alloc; "centroids {held} of {lists}\n")?;
    Ok(line)
}

fn mark(exact: bool) -> &'static str
    ensures { result.now ≡ mark_word exact }
{
    if exact { "exact" } else { "partial" }
}

pub fn push_number<I: Integer>(held: &mut Vec<u8>, number: I) -> Result<(), AllocError>
    ensures { OnOk result (held.new.items ≡ held.old.items ++ I.text number) }
{
    let mut digits = Buffer::new();
    held.extend_from_slice(digits.format(number).as_bytes())?;
    Ok(())
}

// A hit: its label and its distance.
fn push_hit(held: &mut Vec<u8>, hit: Hit) -> Result<(), AllocError>
    ensures { OnOk result (held.new.items ≡ held.old.items ++ hit_text hit) }
{
    push_number(held, hit.label)?;
    held.push(b' ')?;
    push_number(held, hit.distance)?;
    held.push(b'\n')?;
    Ok(())
}

// The first line of a reply with hits.
fn push_count(held: &mut Vec<u8>, count: usize, lent: u64, exact: bool) -> Result<(), AllocError>
    ensures { OnOk result (held.new.items ≡ held.old.items ++ count_text count lent exact) }
{
    held.extend_from_slice(b"hits ")?;
    push_number(held, count)?;
    held.extend_from_slice(b" looked ")?;
    push_number(held, lent)?;
    held.push(b' ')?;
    held.extend_from_slice(mark(exact).as_bytes())?;
    held.push(b'\n')?;
    Ok(())
}

// The bytes that a reply with so many hits takes at most, or two pieces if that is less: a hit has
// at most 32 bytes, and the first line 64.
fn room_for(hits: usize) -> usize {
    hits.min(PIECE / 16) * 32 + 64
}

// A line for each hit, behind the text that is held.
fn send_hits<K: Sink>(held: &mut Vec<u8>, hits: &[Hit], out: &mut K) -> Result<(), Trouble>
    ensures ok { OnOk result (SendsPieces (K.written out.old) (K.written out.new)
        held.new.items (held.old.items ++ flat_map hit_text hits.now)) }
    ensures front { AppendsFront (K.written out.old) (K.written out.new)
        (held.old.items ++ flat_map hit_text hits.now) }
    ensures cause { HasCause (K.faults out.old) (K.faults out.new)
        (IsErrOf result Trouble.Failed) }
    ensures faultless { OnOk result (K.faults out.new ≡ K.faults out.old) }
    ensures memory_is_no_fault { IsErrOf result Trouble.Memory
        → K.faults out.new ≡ K.faults out.old }
{
    for hit in hits {
        push_hit(held, *hit)?;
        send_pieces(held, out)?;
    }
    Ok(())
}

// One buffer takes all lines. However many hits there are, less than a piece of their text is
// held from one hit to the next.
fn send_found<K: Sink>(
    alloc: Global,
    hits: &[Hit],
    lent: u64,
    exact: bool,
    out: &mut K,
) -> Result<(), Trouble>
    ensures ok { OnOk result (Appends (K.written out.old) (K.written out.new)
        (found_text hits.now lent exact)) }
    ensures front { AppendsFront (K.written out.old) (K.written out.new)
        (found_text hits.now lent exact) }
    ensures cause { HasCause (K.faults out.old) (K.faults out.new)
        (IsErrOf result Trouble.Failed) }
    ensures faultless { OnOk result (K.faults out.new ≡ K.faults out.old) }
    ensures memory_is_no_fault { IsErrOf result Trouble.Memory
        → K.faults out.new ≡ K.faults out.old }
{
    let mut held = Vec::with_capacity(alloc, room_for(hits.len()))?;
    push_count(&mut held, hits.len(), lent, exact)?;
    send_hits(&mut held, hits, out)?;
    send_piece(out, &held)?;
    Ok(())
}

// A text that may be longer than a piece.
fn send_text<K: Sink>(mut text: Vec<u8>, out: &mut K) -> Result<(), Trouble>
    ensures ok { OnOk result (Appends (K.written out.old) (K.written out.new) text.items) }
    ensures front { AppendsFront (K.written out.old) (K.written out.new) text.items }
    ensures cause { HasCause (K.faults out.old) (K.faults out.new)
        (IsErrOf result Trouble.Failed) }
    ensures faultless { OnOk result (K.faults out.new ≡ K.faults out.old) }
    ensures memory_is_no_fault { IsErrOf result Trouble.Memory
        → K.faults out.new ≡ K.faults out.old }
{
    send_pieces(&mut text, out)?;
    send_piece(out, &text)?;
    Ok(())
}

fn first_code(codes: &Codes) -> &[u8]
    ensures { result.now ≡ slice_index_or codes.now.codes 0 [] }
{
    if codes.is_empty() { &[] } else { codes.get(0) }
}

// The line of a code, in hexadecimal.
fn code_line(alloc: Global, code: &[u8]) -> Result<Vec<u8>, AllocError>
    ensures { IfOk result (λ line. line.items ≡ answer_text (Code code.now)) }
{
    let digits = hex::encode(alloc, code)?;
    let mut line = Vec::with_capacity(alloc, digits.len() + 6)?;
    line.extend_from_slice(b"code ")?;
    line.extend_from_slice(digits.as_bytes())?;
    line.push(b'\n')?;
    Ok(line)
}

fn send_code<K: Sink>(alloc: Global, code: &[u8], out: &mut K) -> Result<(), Trouble>
    ensures ok { OnOk result (Appends (K.written out.old) (K.written out.new)
        (answer_text (Code code.now))) }
    ensures front { AppendsFront (K.written out.old) (K.written out.new)
        (answer_text (Code code.now)) }
    ensures cause { HasCause (K.faults out.old) (K.faults out.new)
        (IsErrOf result Trouble.Failed) }
    ensures faultless { OnOk result (K.faults out.new ≡ K.faults out.old) }
    ensures memory_is_no_fault { IsErrOf result Trouble.Memory
        → K.faults out.new ≡ K.faults out.old }
{
    let line = code_line(alloc, code)?;
    send_text(line, out)?;
    Ok(())
}

fn send_shown<K: Sink>(alloc: Global, about: &About, out: &mut K) -> Result<(), Trouble>
    ensures ok { OnOk result (Appends (K.written out.old) (K.written out.new)
        (answer_text (Shown about.now))) }
    ensures front { AppendsFront (K.written out.old) (K.written out.new)
        (answer_text (Shown about.now)) }
    ensures cause { HasCause (K.faults out.old) (K.faults out.new)
        (IsErrOf result Trouble.Failed) }
    ensures faultless { OnOk result (K.faults out.new ≡ K.faults out.old) }
    ensures memory_is_no_fault { IsErrOf result Trouble.Memory
        → K.faults out.new ≡ K.faults out.old }
{
    let text = shown(alloc, about)?;
    send_text(text, out)?;
    Ok(())
}

/// Writes the text of a reply, each line of it with a line feed. A `Silent` reply has no text: the
/// sink is not called, and no memory is taken.
///
/// The text goes out in pieces of 8,192 bytes, the last one shorter. What a write did not take is
/// offered again.
///
/// # Errors
///
/// `Failed` if a write fails, and `Memory` if memory runs out. What was written is then a front of
/// the text.
pub fn write_reply<K: Sink>(alloc: Global, reply: &Reply, out: &mut K) -> Result<(), Trouble>
    ensures ok { OnOk result (Appends (K.written out.old) (K.written out.new)
        (reply_text (reply_of reply.now))) }
    ensures front { AppendsFront (K.written out.old) (K.written out.new)
        (reply_text (reply_of reply.now)) }

    // Nothing is asked of the sink, or of memory, for a silent line.
    ensures silent { reply_of reply.now ≡ Ok Quiet → IsOk result }
    ensures untouched { reply_of reply.now ≡ Ok Quiet → out.new ≡ out.old }

    ensures cause { HasCause (K.faults out.old) (K.faults out.new)
        (IsErrOf result Trouble.Failed) }
    ensures faultless { OnOk result (K.faults out.new ≡ K.faults out.old) }
    ensures memory_is_no_fault { IsErrOf result Trouble.Memory
        → K.faults out.new ≡ K.faults out.old }
{
    match reply {
        Reply::Silent => {}
        Reply::Done => send_piece(out, b"ok\n")?,
        Reply::Added(added, total) => {
            let line = added_line(alloc, *added, *total)?;
            send_piece(out, line.as_bytes())?;
        }
        Reply::Held(held, lists) => {
            let line = held_line(alloc, *held, *lists)?;
            send_piece(out, line.as_bytes())?;
        }
        Reply::Found(hits, lent, exact) => send_found(alloc, hits.as_slice(), *lent, *exact, out)?,
        Reply::Code(codes) => send_code(alloc, first_code(codes), out)?,
        Reply::Saved(len) => {
            let line = saved_line(alloc, *len)?;
            send_piece(out, line.as_bytes())?;
        }
        Reply::Loaded(total) => {
            let line = loaded_line(alloc, *total)?;
            send_piece(out, line.as_bytes())?;
        }
        Reply::Shown(about) => send_shown(alloc, about, out)?,
        Reply::Sharded(shards, total) => {
            let line = sharded_line(alloc, *shards, *total)?;
            send_piece(out, line.as_bytes())?;
        }
        Reply::Removed(removed, total) => {
            let line = removed_line(alloc, *removed, *total)?;
            send_piece(out, line.as_bytes())?;
        }
        Reply::Refused(refusal) => {
            let line = refused_line(alloc, *refusal)?;
            send_piece(out, line.as_str().as_bytes())?;
        }
    }
    Ok(())
}
