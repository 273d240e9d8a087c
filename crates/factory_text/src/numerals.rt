// Numbers in factory texts.
ghost use Rattle.std.specs.Prelude.{◌≡◌, ◌^◌, ◌-◌, ◌<◌, ◌≤◌, true, min, All};
ghost use Rattle.std.specs.Char.{is_ascii_digit};
ghost use Rattle.std.specs.List.{list_all, prefix_len};
ghost use Rattle.std.specs.Str.Parse.{digits_value};
ghost use Rattle.factory_text.specs.Numerals.{begins, is_numeral};
ghost use Rattle.factory_text.specs.Reading.{number};

use crate::SpecError;

fn are_digits(text: &[u8]) -> bool
    ensures { result ≡ list_all is_ascii_digit text.now }
{
    text.iter().all(|b| b.is_ascii_digit())
}

/// One or more digits.
pub fn is_numeral(text: &[u8]) -> bool
    ensures { result ≡ is_numeral text.now }
{
    match text {
        [] => false,
        [_, ..] => are_digits(text),
    }
}

/// How many digits stand in front.
pub fn leading_digits(text: &[u8]) -> usize
    ensures { result ≡ prefix_len is_ascii_digit text.now }
{
    text.iter().take_while(|b| b.is_ascii_digit()).count()
}

// The number that digits write, or the greatest of 32 bits where it is greater.
fn saturated_value(digits: &[u8]) -> u32
    requires { list_all is_ascii_digit digits.now ≡ true }
    ensures { result ≡ min (digits_value 10 digits.now) (2 ^ 32 - 1) }
{
    let mut value = 0u32;
    for b in digits {
        value = value
            .saturating_mul(10)
            .saturating_add(u32::from(*b - b'0'));
    }
    value
}

/// The number that digits write, without a leading zero and up to a limit.
pub fn number(most: u32, digits: &[u8]) -> Result<u32, SpecError>
    requires digits { is_numeral digits.now ≡ true }
    requires limit { most < 2 ^ 32 - 1 }
    ensures { result ≡ number most digits.now }
{
    let value = saturated_value(digits);
    if digits.starts_with(b"0") || most < value {
        return Err(SpecError::Number);
    }
    Ok(value)
}
