//! Numbers in decimal digits.

ghost use Rattle.std.specs.Prelude.{◌≡◌, ◌+◌, ◌*◌, ◌-◌};
ghost use Rattle.std.specs.Char.{is_ascii_digit};
ghost use Rattle.std.specs.List.{list_all};
ghost use Rattle.text_pieces.specs.Numerals as numeral;

/// Whether the word is one or more decimal digits.
pub fn is_numeral(word: &[u8]) -> bool
    ensures { result ≡ numeral.is_numeral word.now }
{
    !word.is_empty() && are_digits(word)
}

fn are_digits(word: &[u8]) -> bool
    ensures { result ≡ list_all is_ascii_digit word.now }
{
    word.iter().all(|byte| byte.is_ascii_digit())
}

/// The number that the digits write, if it has no more than 64 bits. No digits write 0. Ask `is_numeral` first: another byte counts as
/// its code less that of `0`.
pub fn value_of(digits: &[u8]) -> Option<u64>
    ensures { result ≡ numeral.in_64_bits (numeral.value_of digits.now) }
{
    let mut value = 0u64;
    for digit in digits {
        value = with_digit(value, *digit)?;
    }
    Some(value)
}

/// The number with one more digit, if it has no more than 64 bits.
fn with_digit(value: u64, digit: u8) -> Option<u64>
    ensures { result ≡ numeral.in_64_bits (value * 10 + (digit - 48)) }
{
    value
        .checked_mul(10)?
        .checked_add(u64::from(digit.saturating_sub(b'0')))
}
