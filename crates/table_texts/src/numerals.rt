//! The numerals of places, from 1 on, as blocks.

ghost use Rattle.std.specs.Prelude.{◌≡◌, ◌≤◌, OnOk, IfOk, length};
ghost use Rattle.table_texts.specs.Numerals.{IsNumeral, AreNumerals};

use fca_model::Memory;
use itoa::Buffer;
use packed_concepts::{BLOCK_BYTES, TextBlock, block_of};

/// Makes the list at least so long.
pub(crate) fn extend_numerals(numerals: &mut Vec<TextBlock>, len: usize) -> Result<(), Memory>
    requires { AreNumerals numerals.old.items }
    ensures numerals { AreNumerals numerals.new.items }
    ensures long { OnOk result (len ≤ length numerals.new.items) }
{
    for place in numerals.len()..len {
        numerals.push(numeral_of(place)?)?;
    }
    Ok(())
}

/// The numeral of the place.
fn numeral_of(place: usize) -> Result<TextBlock, Memory>
    ensures { IfOk result (λ block. IsNumeral place block) }
{
    let Some(number) = place.checked_add(1) else {
        return Err(Memory);
    };
    let mut buffer = Buffer::new();
    let digits = buffer.format(number).as_bytes();
    if BLOCK_BYTES < digits.len() {
        return Err(Memory);
    }
    Ok(block_of(digits))
}
