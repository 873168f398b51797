//! The experts that words name: by their files, or by their number.

ghost use Rattle.std.specs.Prelude.{◌≡◌, true, length, IfOk, IfSome, option_map};
ghost use Rattle.fca_model.specs.Exploration.{is_expert};
ghost use Rattle.fca_command.specs.Experts.{has_expert_file, expert_files, experts_of, expert_count};

use crate::numbers::number_of;
use crate::words::Words;
use fca_model::{MAX_EXPERTS, Memory, Word};
use std::alloc::Global;

/// The files of 1 to 64 experts, each after its flag.
pub fn experts_of(alloc: Global, words: &[Word]) -> Result<Option<Words>, Memory>
    ensures experts { IfOk result (λ experts. experts ≡ experts_of words.now) }
    ensures count { IfOk result (λ experts. IfSome experts (λ files. is_expert (length files) ≡ true)) }
{
    match expert_files(alloc, words)? {
        Some(files) if 1 <= files.len() && files.len() <= MAX_EXPERTS as usize => {
            Ok(Some(Words::new(files)))
        }
        _ => Ok(None),
    }
}

/// The files, each after its flag.
fn expert_files(alloc: Global, words: &[Word]) -> Result<Option<Vec<Word>>, Memory>
    ensures { IfOk result (λ files. option_map (λ f. f.items) files ≡ expert_files words.now) }
{
    let mut files = Vec::new(alloc);
    let mut rest = words;
    while let [flag, file, later @ ..] = rest {
        if !has_expert_file(flag, file) {
            return Ok(None);
        }
        files.push(Word::new(alloc, file.bytes())?)?;
        rest = later;
    }
    Ok(rest.is_empty().then_some(files))
}

/// Whether the words are the flag of an expert and the name of a file.
fn has_expert_file(flag: &Word, file: &Word) -> bool
    ensures { result ≡ has_expert_file flag.now file.now }
{
    flag.bytes() == b"--expert".as_slice() && !file.bytes().is_empty()
}

/// The number of experts that the word says, from 1 to 64.
pub fn expert_count(word: &[u8]) -> Option<u8>
    ensures count { result ≡ expert_count word.now }
    ensures expert { IfSome result (λ count. is_expert count ≡ true) }
{
    match number_of(u64::from(MAX_EXPERTS), word) {
        Some(count) if count >= 1 => Some(count as u8),
        _ => None,
    }
}
