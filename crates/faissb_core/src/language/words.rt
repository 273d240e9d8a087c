// The words of a line, which one space each parts.
ghost use Rattle.std.specs.Prelude.{◌≡◌, ◌≢◌, ◌∷◌, ◌++◌, [], ◌<◌, All, IfSome, MatchOption, length};
ghost use Rattle.std.specs.Char.{is_ascii_graphic};
ghost use Rattle.std.specs.List.{list_all};
ghost use Rattle.faissb_core.specs.Language.Words.{is_word, words_of};

use memchr::memchr;

// The bytes before the first separator, and those behind it.
pub fn cut_at(bytes: &[u8], separator: u8) -> Option<(&[u8], &[u8])>
    ensures { MatchOption result (All (λ b. b ≢ separator) bytes.now)
        (λ parts. All (λ b. b ≢ separator) parts.0.now
        × (bytes.now ≡ parts.0.now ++ separator ∷ parts.1.now)) }
{
    let at = memchr(separator, bytes)?;
    Some((&bytes[..at], &bytes[at + 1..]))
}

// The first word, and what follows the space behind it.
pub fn first_word(text: &[u8]) -> (&[u8], Option<&[u8]>)
    ensures words { MatchOption result.1 (words_of text.now ≡ result.0.now ∷ [])
        (λ more. words_of text.now ≡ result.0.now ∷ words_of more.now) }
    ensures shorter { IfSome result.1 (λ more. length more.now < length text.now) }
{
    match cut_at(text, b' ') {
        Some((word, more)) => (word, Some(more)),
        None => (text, None),
    }
}

fn are_graphic(bytes: &[u8]) -> bool
    ensures { result ≡ list_all is_ascii_graphic bytes.now }
{
    bytes.iter().all(|b| b.is_ascii_graphic())
}

fn is_word(word: &[u8]) -> bool
    ensures { result ≡ is_word word.now }
{
    match word {
        [] => false,
        [_, ..] => are_graphic(word),
    }
}

// Whether a line is words alone, with one space between two of them.
pub fn are_words(line: &[u8]) -> bool
    ensures { result ≡ list_all is_word (words_of line.now) }
{
    line.split(|b| *b == b' ').all(|word| is_word(word))
}
