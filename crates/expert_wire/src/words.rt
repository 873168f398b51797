//! The words of a line.

ghost use Rattle.std.specs.Prelude.{◌≡◌, ◌≤◌, ◌⊎◌, true, false, cond, Some, None, Ok, IsOk, IfOk, IfErr, IsErrOf, MatchOption, map};
ghost use Rattle.std.specs.Str.{is_utf8};
ghost use Rattle.fca_model.specs.declared.TheConstants.{MAX_ATTRIBUTES};
ghost use Rattle.fca_model.specs.Exploration.{is_expert};
ghost use Rattle.text_pieces.specs.Marks.{is_cross};
ghost use Rattle.text_pieces.specs.Numerals.{is_numeral, value_of};
ghost use Rattle.expert_wire.specs.Patterns.{set_of_pattern, named_row};

use crate::RequestFault;
use attr_bits::Attrs;
use fca_model::{MAX_EXPERTS, Name, NameFault};
use std::alloc::Global;
use text_pieces::{are_marks, set_of_marks, split_word, value_of};

/// The text of the bytes, if they are UTF-8.
pub fn utf8_text(bytes: &[u8]) -> Option<&str>
    ensures { MatchOption result (is_utf8 bytes.now ≡ false) (λ text. (text.now ≡ bytes.now) × (is_utf8 bytes.now ≡ true)) }
{
    str::from_utf8(bytes).ok()
}

/// The number of an expert, if the digits write one.
pub fn expert_number(digits: &str) -> Option<u8>
    requires { is_numeral digits.now ≡ true }
    ensures { result ≡ cond (is_expert (value_of digits.now)) (Some (value_of digits.now)) None }
{
    match value_of(digits.as_bytes()) {
        Some(number) => as_expert(number),
        None => None,
    }
}

/// The number as that of an expert, if it is one.
fn as_expert(number: u64) -> Option<u8>
    ensures { result ≡ cond (is_expert number) (Some number) None }
{
    if 1 <= number && number <= u64::from(MAX_EXPERTS) {
        Some(number as u8)
    } else {
        None
    }
}

/// The marks of a pattern, if the word is a pattern.
pub fn pattern_marks(word: &[u8]) -> Option<&[u8]>
    ensures { MatchOption result (set_of_pattern word.now ≡ None) (λ m. set_of_pattern word.now ≡ Some (map is_cross m.now)) }
{
    if word == b"-".as_slice() {
        Some(&[])
    } else if !word.is_empty() && are_marks(word) {
        Some(word)
    } else {
        None
    }
}

/// The name and the row of a text: a pattern of width n, a space, and the name.
pub fn read_row(alloc: Global, text: &str, n: u32) -> Result<(Name, Attrs), RequestFault>
    requires { n ≤ MAX_ATTRIBUTES }
    ensures ok { IfOk result (λ x. named_row n text.now ≡ Ok x) }
    ensures refused { IfErr result (λ e. (e ≡ RequestFault.Memory) ⊎ (named_row n text.now ≡ Err e)) }
    ensures memory { IsErrOf result RequestFault.Memory → IsOk (named_row n text.now) }
{
    let (word, name) = split_word(text);
    let Some(marks) = pattern_marks(word.as_bytes()) else {
        return Err(RequestFault::Line);
    };
    let fits = marks.len() == n as usize;
    let name = match Name::new(alloc, name) {
        Ok(name) => name,
        Err(NameFault::Memory) => return Err(fault_without_memory(fits)),
        Err(_) => return Err(RequestFault::Line),
    };
    if !fits {
        return Err(RequestFault::Width);
    }
    Ok((name, set_of_marks(marks)))
}

/// The fault of a row if there is no memory for its name. A wrong width needs no memory, so it comes first.
fn fault_without_memory(fits: bool) -> RequestFault
    ensures { result ≡ cond fits RequestFault.Memory RequestFault.Width }
{
    if fits {
        RequestFault::Memory
    } else {
        RequestFault::Width
    }
}
