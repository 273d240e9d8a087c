ghost use Rattle.std.specs.Prelude.{◌≡◌, is_some, true};
ghost use Rattle.std.specs.List.{list_all};
ghost use Rattle.faissb_core.specs.Language.Words.{id_and_word, words_of};
ghost use Rattle.faissb_core.specs.Language.Grammar.{each_word};

use super::id::id_and_word;
use super::words::first_word;

/// Words that are an id, a `:` and a code each, as one text.
#[derive(Clone, Copy, Debug)]
pub struct IdWords<'l> {
    text: &'l [u8],
    ghost are_pairs: { is_some (each_word id_and_word (words_of text.now)) ≡ true },
}

impl<'l> IdWords<'l> {
    ghost use Rattle.std.specs.Prelude.{◌∷◌, ◌<◌, [], IfSome, MatchOption, length};
    ghost use Rattle.std.specs.Option.{option_map};
    ghost use Rattle.faissb_core.specs.Language.Grammar.{pairs_in};
    ghost use Rattle.faissb_core.specs.Language.Words.{IdWord};

    /// The words of a text, where each of them is an id, a `:` and a word.
    pub fn read(words: &'l [u8]) -> Option<IdWords<'l>>
        ensures { option_map (λ w. pairs_in w.text.now) result
            ≡ each_word id_and_word (words_of words.now) }
    {
        if are_pairs(words) {
            Some(IdWords { text: words })
        } else {
            None
        }
    }

    /// The first id with its word, and what follows them.
    pub fn first(&self) -> (i64, &'l [u8], Option<IdWords<'l>>)
        ensures pairs { let pair : IdWord = record { id = result.0; word = result.1.now } in
            MatchOption result.2 (pairs_in self.now.text.now ≡ pair ∷ [])
            (λ more. pairs_in self.now.text.now ≡ pair ∷ pairs_in more.text.now) }
        ensures shorter { IfSome result.2
            (λ more. length more.text.now < length self.now.text.now) }
    {
        let (pair, rest) = first_word(self.text);
        let Some((id, word)) = id_and_word(pair) else {
            unreachable!()
        };
        match rest {
            Some(text) => (id, word, Some(IdWords { text })),
            None => (id, word, None),
        }
    }
}

fn is_pair(word: &[u8]) -> bool
    ensures { result ≡ is_some (id_and_word word.now) }
{
    id_and_word(word).is_some()
}

fn are_pairs(words: &[u8]) -> bool
    ensures { result ≡ list_all (λ w. is_some (id_and_word w)) (words_of words.now) }
{
    words.split(|b| *b == b' ').all(|word| is_pair(word))
}
