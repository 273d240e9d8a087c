ghost use Rattle.std.specs.Prelude.{◌≡◌, ◌≢◌, [], ◌∷◌, ◌++◌, length, drop, true, false, All};
ghost use Rattle.std.specs.Prelude.{IfOk, MatchOption};
ghost use Rattle.factory_text.specs.Kinds.{HasLegalNumbers};
ghost use Rattle.factory_text.specs.Numerals.{begins};
ghost use Rattle.factory_text.specs.Printing.{spec_text};
ghost use Rattle.factory_text.specs.Reading.{flat_kind, hash_kind, hash_parts, ivf_kind};
ghost use Rattle.factory_text.specs.Reading.{is_hnsw, is_prefixed};
ghost use Rattle.factory_text.specs.Reading.{read_kind, read_spec, spec_under};

use super::numerals::{is_numeral, leading_digits, number};
use crate::{Kind, Prefix, Spec, SpecError};
use memchr::memchr;

/// What a factory text stands for. Takes no memory.
///
/// # Errors
///
/// `Nested` where a prefix stands behind a prefix, `LeftOut` where the kind is one of Faiss's with
/// HNSW, `Number` where a number begins with a zero or is out of its range, and `Unknown` for every
/// other text that is no factory text.
pub fn read(text: &str) -> Result<Spec, SpecError>
    ensures value { result ≡ read_spec text.now }
    ensures canonical { IfOk result (λ spec. text.now ≡ spec_text spec) }
    ensures numbers { IfOk result (λ spec. HasLegalNumbers spec.kind) }
{
    read_bytes(text.as_bytes())
}

/// What the factory text of these bytes stands for, as `read` says. Bytes that are no factory text
/// are refused as such, whether they are UTF-8 or not.
///
/// # Errors
///
/// Those of `read`.
pub fn read_bytes(text: &[u8]) -> Result<Spec, SpecError>
    ensures value { result ≡ read_spec text.now }
    ensures canonical { IfOk result (λ spec. text.now ≡ spec_text spec) }
    ensures numbers { IfOk result (λ spec. HasLegalNumbers spec.kind) }
{
    let (prefix, rest) = cut_prefix(text);
    read_under(prefix, rest)
}

// The prefix of a text, and what stands behind it.
#[tactic(auto, unfolding(crate::specs::Reading::read_spec))]
fn cut_prefix(text: &[u8]) -> (Prefix, &[u8])
    ensures { read_spec text.now ≡ spec_under result.0 result.1.now }
{
    if let Some(rest) = behind(b"IDMap,", text) {
        (Prefix::Map, rest)
    } else if let Some(rest) = behind(b"IDMap2,", text) {
        (Prefix::Map2, rest)
    } else {
        (Prefix::Plain, text)
    }
}

// What stands behind a front.
fn behind<'t>(front: &[u8], text: &'t [u8]) -> Option<&'t [u8]>
    ensures { MatchOption result (begins front.now text.now ≡ false)
        (λ rest. (begins front.now text.now ≡ true)
        × (rest.now ≡ drop (length front.now) text.now)) }
{
    text.strip_prefix(front)
}

fn is_prefixed(text: &[u8]) -> bool
    ensures { result ≡ is_prefixed text.now }
{
    text.starts_with(b"IDMap,") || text.starts_with(b"IDMap2,")
}

// The text after a prefix, or the whole text where there is none.
fn read_under(prefix: Prefix, rest: &[u8]) -> Result<Spec, SpecError>
    ensures { result ≡ spec_under prefix rest.now }
{
    if is_prefixed(rest) {
        return Err(SpecError::Nested);
    }
    let kind = read_kind(rest)?;
    Ok(Spec { prefix, kind })
}

fn read_kind(text: &[u8]) -> Result<Kind, SpecError>
    ensures { result ≡ read_kind text.now }
{
    if let Some(rest) = behind(b"BFlat", text) {
        flat_kind(rest)
    } else if let Some(rest) = behind(b"BIVF", text) {
        ivf_kind(rest)
    } else if let Some(rest) = behind(b"BHash", text) {
        hash_kind(rest)
    } else if text.starts_with(b"BHNSW") {
        Err(SpecError::LeftOut)
    } else {
        Err(SpecError::Unknown)
    }
}

fn flat_kind(rest: &[u8]) -> Result<Kind, SpecError>
    ensures { result ≡ flat_kind rest.now }
{
    match rest {
        [] => Ok(Kind::Flat),
        [_, ..] => Err(SpecError::Unknown),
    }
}

// Digits, `_HNSW` and anything.
fn is_hnsw(rest: &[u8]) -> bool
    ensures { result ≡ is_hnsw rest.now }
{
    let digits = leading_digits(rest);
    is_numeral(&rest[..digits]) && rest[digits..].starts_with(b"_HNSW")
}

fn ivf_kind(rest: &[u8]) -> Result<Kind, SpecError>
    ensures { result ≡ ivf_kind rest.now }
{
    if is_numeral(rest) {
        let nlist = number(4_194_304, rest)?;
        return Ok(Kind::Ivf(nlist));
    }
    if is_hnsw(rest) {
        Err(SpecError::LeftOut)
    } else {
        Err(SpecError::Unknown)
    }
}

fn hash_kind(rest: &[u8]) -> Result<Kind, SpecError>
    ensures { result ≡ hash_kind rest.now }
{
    match cut_at_x(rest) {
        None => one_number(rest),
        Some((maps, bits)) => two_numbers(maps, bits),
    }
}

// What stands before the first `x`, and behind it.
fn cut_at_x(text: &[u8]) -> Option<(&[u8], &[u8])>
    ensures { MatchOption result (All (λ b. b ≢ 120) text.now)
        (λ cut. All (λ b. b ≢ 120) cut.0.now × (text.now ≡ cut.0.now ++ 120 ∷ cut.1.now)) }
{
    let at = memchr(b'x', text)?;
    Some((&text[..at], &text[at + 1..]))
}

fn one_number(bits: &[u8]) -> Result<Kind, SpecError>
    ensures { result ≡ hash_parts (bits.now ∷ []) }
{
    if !is_numeral(bits) {
        return Err(SpecError::Unknown);
    }
    let b = number(64, bits)?;
    Ok(Kind::Hash(b))
}

fn two_numbers(maps: &[u8], bits: &[u8]) -> Result<Kind, SpecError>
    ensures { result ≡ hash_parts (maps.now ∷ bits.now ∷ []) }
{
    if !is_numeral(maps) || !is_numeral(bits) {
        return Err(SpecError::Unknown);
    }
    let nhash = number(1_024, maps)?;
    let b = number(64, bits)?;
    Ok(Kind::Multi(nhash, b))
}
