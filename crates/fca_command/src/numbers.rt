//! The numbers that words say.

ghost use Rattle.std.specs.Prelude.{◌≡◌, ◌≤◌, IfSome};
ghost use Rattle.fca_command.specs.Numbers.{number_of};

use text_pieces::{is_numeral, value_of};

/// The most digits that a number may have.
const MAX_DIGITS: usize = 20;

/// The number that the word says in decimal digits, if it is at most `most`.
pub(crate) fn number_of(most: u64, word: &[u8]) -> Option<u64>
    ensures number { result ≡ number_of most word.now }
    ensures limit { IfSome result (λ number. number ≤ most) }
{
    if !is_numeral(word) || word.len() > MAX_DIGITS {
        return None;
    }
    let number = value_of(word)?;
    (number <= most).then_some(number)
}
