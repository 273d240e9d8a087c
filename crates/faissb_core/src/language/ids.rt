ghost use Rattle.std.specs.Prelude.{◌≡◌, is_some, true};
ghost use Rattle.std.specs.List.{list_all};
ghost use Rattle.faissb_core.specs.Language.Words.{id as id_of, words_of};
ghost use Rattle.faissb_core.specs.Language.Grammar.{each_word};

use super::id::id;
use super::words::first_word;

/// Words that are an id each, as one text.
#[derive(Clone, Copy, Debug)]
pub struct Ids<'l> {
    text: &'l [u8],
    ghost are_ids: { is_some (each_word id_of (words_of text.now)) ≡ true },
}

impl<'l> Ids<'l> {
    ghost use Rattle.std.specs.Prelude.{◌∷◌, ◌<◌, [], IfSome, MatchOption, length};
    ghost use Rattle.std.specs.Option.{option_map};
    ghost use Rattle.faissb_core.specs.Language.Grammar.{ids_in};

    /// The words of a text, where each of them is an id.
    pub fn read(words: &'l [u8]) -> Option<Ids<'l>>
        ensures { option_map (λ w. ids_in w.text.now) result
            ≡ each_word id_of (words_of words.now) }
    {
        if are_ids(words) {
            Some(Ids { text: words })
        } else {
            None
        }
    }

    /// The first id, and those behind it.
    pub fn first(&self) -> (i64, Option<Ids<'l>>)
        ensures ids { MatchOption result.1 (ids_in self.now.text.now ≡ result.0 ∷ [])
            (λ more. ids_in self.now.text.now ≡ result.0 ∷ ids_in more.text.now) }
        ensures shorter { IfSome result.1
            (λ more. length more.text.now < length self.now.text.now) }
    {
        let (word, rest) = first_word(self.text);
        let Some(first) = id(word) else {
            unreachable!()
        };
        match rest {
            Some(text) => (first, Some(Ids { text })),
            None => (first, None),
        }
    }
}

fn is_id(word: &[u8]) -> bool
    ensures { result ≡ is_some (id_of word.now) }
{
    id(word).is_some()
}

fn are_ids(words: &[u8]) -> bool
    ensures { result ≡ list_all (λ w. is_some (id_of w)) (words_of words.now) }
{
    words.split(|b| *b == b' ').all(|word| is_id(word))
}
