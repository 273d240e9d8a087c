// The number that a word writes.
ghost use Rattle.std.specs.Prelude.{◌≡◌, ◌≤◌, IfSome, length, true};
ghost use Rattle.std.specs.Char.{is_ascii_digit};
ghost use Rattle.std.specs.List.{list_all};
ghost use Rattle.std.specs.Str.Parse.{digits_value};
ghost use Rattle.faissb_core.specs.Language.Words.{is_positive_number, number, number_within};

fn are_digits(bytes: &[u8]) -> bool
    ensures { result ≡ list_all is_ascii_digit bytes.now }
{
    bytes.iter().all(|b| b.is_ascii_digit())
}

fn is_positive_number(word: &[u8]) -> bool
    ensures { result ≡ is_positive_number word.now }
{
    match word {
        [] => false,
        [first, digits @ ..] => b'0' < *first && are_digits(word) && digits.len() <= 18,
    }
}

// The number that at most 19 digits write.
fn value_of(digits: &[u8]) -> u64
    requires digits { list_all is_ascii_digit digits.now ≡ true }
    requires few { length digits.now ≤ 19 }
    ensures { result ≡ digits_value 10 digits.now }
{
    let mut value = 0;
    for b in digits {
        value = value * 10 + u64::from(*b - b'0');
    }
    value
}

pub fn number(word: &[u8]) -> Option<u64>
    ensures { result ≡ number word.now }
{
    if matches!(word, b"0") {
        return Some(0);
    }
    if is_positive_number(word) {
        Some(value_of(word))
    } else {
        None
    }
}

// The number that a word writes, where it is in a range.
pub fn number_within(least: u64, most: u64, word: &[u8]) -> Option<u64>
    ensures number { result ≡ number_within least most word.now }
    ensures most { IfSome result (λ n. n ≤ most) }
{
    let n = number(word)?;
    if n < least || n > most {
        return None;
    }
    Some(n)
}
