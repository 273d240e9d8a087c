// A word as the name of a file.
ghost use Rattle.std.specs.Prelude.{◌≡◌};
ghost use Rattle.std.specs.List.{list_all};
ghost use Rattle.std.specs.Option.{option_map};
ghost use Rattle.faissb_core.specs.Language.Words.{is_name, is_name_byte, name};

// The most bytes of a name.
const NAME_LIMIT: usize = 64;

fn is_name_byte(b: u8) -> bool
    ensures { result ≡ is_name_byte b }
{
    b.is_ascii_alphanumeric() || matches!(b, b'.' | b'_' | b'-')
}

fn are_name_bytes(bytes: &[u8]) -> bool
    ensures { result ≡ list_all is_name_byte bytes.now }
{
    bytes.iter().all(|b| is_name_byte(*b))
}

fn is_name(word: &[u8]) -> bool
    ensures { result ≡ is_name word.now }
{
    if word.len() > NAME_LIMIT {
        return false;
    }
    match word {
        [] | [b'.', ..] => false,
        [_, ..] => are_name_bytes(word),
    }
}

// The name that a word is, if it is one.
#[tactic(auto, using(crate::proofs::LanguageLemmas::NameLemmas::name_is_utf8))]
pub fn file_name(word: &[u8]) -> Option<&str>
    ensures { option_map (λ n. n.now) result ≡ name word.now }
{
    if !is_name(word) {
        return None;
    }
    match std::str::from_utf8(word) {
        Ok(name) => Some(name),
        Err(_) => unreachable!(),
    }
}
