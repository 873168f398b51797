//! Numbers in texts.

ghost use Rattle.std.specs.Prelude.{◌≡◌, true, false, cond, None};
ghost use Rattle.text_pieces.specs.Numerals.{in_64_bits, value_of};
ghost use Rattle.value_tables.specs.Numbers.{are_digits, in_range, number_of};

use text_pieces::{is_numeral, value_of};

/// The most digits of a number.
const MOST_DIGITS: usize = 19;

/// The absolute value of the least number.
const LEAST: u64 = 9_223_372_036_854_775_808;

/// The number that the text is, if it is one.
pub fn number_of(text: &[u8]) -> Option<i64>
    ensures { result ≡ number_of text.now }
{
    match text {
        [b'-', digits @ ..] => negative_number(digits_value(digits)?),
        _ => positive_number(digits_value(text)?),
    }
}

/// The natural number that the digits write, if they are few enough.
fn digits_value(digits: &[u8]) -> Option<u64>
    ensures { result ≡ cond (are_digits digits.now) (in_64_bits (value_of digits.now)) None }
{
    if is_numeral(digits) && digits.len() <= MOST_DIGITS {
        value_of(digits)
    } else {
        None
    }
}

fn positive_number(value: u64) -> Option<i64>
    ensures { result ≡ in_range false value }
{
    if value < LEAST {
        Some(value as i64)
    } else {
        None
    }
}

fn negative_number(value: u64) -> Option<i64>
    ensures { result ≡ in_range true value }
{
    if value < LEAST {
        Some(-(value as i64))
    } else if value == LEAST {
        Some(i64::MIN)
    } else {
        None
    }
}
