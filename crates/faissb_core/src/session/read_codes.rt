// Codes from hexadecimal words.
ghost use Rattle.std.specs.Prelude.{◌≡◌, ◌*◌, ◌/◌, ◌∷◌, ◌++◌, [], length, map, unwrap_or};
ghost use Rattle.std.specs.Prelude.{Ok, Err, IfOk, MatchBool, MatchResult, OnOk};
ghost use Rattle.hex.specs.Hex.{hex_digit_value};
ghost use Rattle.faissb_core.specs.Language.Words.{words_of};
ghost use Rattle.faissb_core.specs.Language.Grammar.{pairs_in};
ghost use Rattle.faissb_core.specs.Machine.State.{code_of, codes_of};
ghost use Rattle.faissb_core.specs.Session.Results.{Gives};

use super::halt::Halt;
use crate::Refusal;
use crate::language::{IdWords, first_word};
use bcodes::{Codes, Dim, Want};
use std::alloc::Global;

// The value of a hexadecimal digit of either case, and 255 for another byte.
fn digit(b: u8) -> u8
    ensures { result ≡ unwrap_or (hex_digit_value b) 255 }
{
    match b {
        b'A'..=b'F' => b - b'A' + 10,
        b'a'..=b'f' => b - b'a' + 10,
        b'0'..=b'9' => b - b'0',
        _ => 255,
    }
}

// Decodes all pairs of digits, and tells whether all of them were digits. The loop does not end at
// another byte: a processor cannot guess which digits come, so a test of each costs more than all
// the rest.
fn decode_pairs(word: &[u8], code: &mut [u8]) -> bool
    requires { length word.now ≡ 2 * length code.old }
    ensures { MatchBool result (code_of (length code.old) word.now ≡ Ok code.new)
        (code_of (length code.old) word.now ≡ Err Refusal.Code) }
{
    let mut greatest = 0;
    for i in 0..code.len() {
        let high = digit(word[2 * i]);
        let low = digit(word[2 * i + 1]);
        greatest = greatest.max(high).max(low);
        code[i] = high % 16 * 16 + low % 16;
    }
    greatest < 16
}

// Puts the code of the buffer's size that a word writes into the buffer.
#[tactic(auto, using(crate::proofs::SessionLemmas::DecodeLemmas::other_size))]
fn decode_word(word: &[u8], code: &mut [u8]) -> Result<(), Refusal>
    ensures { MatchResult result (λ _. code_of (length code.old) word.now ≡ Ok code.new)
        (λ refusal. code_of (length code.old) word.now ≡ Err refusal) }
{
    if word.len() % 2 == 0 && word.len() / 2 == code.len() && decode_pairs(word, code) {
        Ok(())
    } else {
        Err(Refusal::Code)
    }
}

/// The code that a word writes.
pub fn read_code(alloc: Global, dim: Dim, word: &[u8]) -> Result<Vec<u8>, Halt>
    ensures code { Gives (λ code. code.items) (code_of (dim.bits / 8) word.now) result }
    ensures size { IfOk result (λ code. length code.items ≡ dim.bits / 8) }
{
    let mut code = vec![in alloc; 0u8; dim.bytes()]?;
    decode_word(word, &mut code)?;
    Ok(code)
}

/// The codes that some words write.
pub fn read_codes(alloc: Global, dim: Dim, words: &[u8]) -> Result<Codes, Halt>
    ensures codes { let size = dim.bits / 8 in
        Gives (λ list. list.codes) (codes_of size (words_of words.now)) result }
    ensures dim { IfOk result (λ list. list.dim ≡ dim.bits) }
{
    let mut codes = Codes::new(alloc, dim);
    let mut code = vec![in alloc; 0u8; dim.bytes()]?;
    let mut rest = Some(words);
    while let Some(text) = rest {
        let (word, more) = first_word(text);
        decode_word(word, &mut code)?;
        codes.push(&code)?;
        rest = more;
    }
    Ok(codes)
}

pub fn push_id(ids: &mut Vec<i64>, id: i64) -> Result<(), Want>
    ensures { OnOk result (ids.new.items ≡ ids.old.items ++ id ∷ []) }
{
    ids.push(id)?;
    Ok(())
}

/// The codes that some words write, and the id of each.
pub fn read_pairs(alloc: Global, dim: Dim, words: IdWords<'_>) -> Result<(Vec<i64>, Codes), Halt>
    ensures codes { let size = dim.bits / 8 in
        Gives (λ p. p.1.codes) (codes_of size (map (λ p. p.word) (pairs_in words.entry.text.now)))
        result }
    ensures ids { IfOk result (λ p. p.0.items ≡ map (λ p. p.id) (pairs_in words.entry.text.now)) }
    ensures dim { IfOk result (λ p. p.1.dim ≡ dim.bits) }
{
    let mut ids = Vec::new(alloc);
    let mut codes = Codes::new(alloc, dim);
    let mut code = vec![in alloc; 0u8; dim.bytes()]?;
    let mut rest = Some(words);
    while let Some(pairs) = rest {
        let (id, word, more) = pairs.first();
        decode_word(word, &mut code)?;
        push_id(&mut ids, id)?;
        codes.push(&code)?;
        rest = more;
    }
    Ok((ids, codes))
}
