// Ids, and the words behind them.
ghost use Rattle.std.specs.Prelude.{◌≡◌};
ghost use Rattle.std.specs.Option.{option_map};
ghost use Rattle.faissb_core.specs.Language.Words.{id as id_of, id_and_word};
ghost use Rattle.faissb_core.specs.Language.Words.{negative_id, positive_id};

use super::number::number;
use super::words::cut_at;

fn positive(n: u64) -> Option<i64>
    ensures { result ≡ positive_id n }
{
    i64::try_from(n).ok()
}

fn negative(n: u64) -> Option<i64>
    ensures { result ≡ negative_id n }
{
    if n == 0 {
        return None;
    }
    i64::try_from(-i128::from(n)).ok()
}

/// The id that a word writes.
pub fn id(word: &[u8]) -> Option<i64>
    ensures { result ≡ id_of word.now }
{
    match word {
        [b'-', digits @ ..] => negative(number(digits)?),
        _ => positive(number(word)?),
    }
}

/// The id before the first `:` of a word, and what follows it.
pub fn id_and_word(word: &[u8]) -> Option<(i64, &[u8])>
    ensures { option_map (λ p. record { id = p.0; word = p.1.now }) result
        ≡ id_and_word word.now }
{
    let (front, word) = cut_at(word, b':')?;
    if word.is_empty() {
        return None;
    }
    Some((id(front)?, word))
}
