//! The flags of explorations: a known file, names of experts, how many may hold one question, and where to listen.

ghost use Rattle.std.specs.Prelude.{◌≡◌, true, IfOk, IfSome, option_copied, option_map, option_and_then, bytes_eq, codes};
ghost use Rattle.fca_model.specs.Exploration.{is_expert};
ghost use Rattle.fca_command.specs.Flags.{has_known_file, known_file, behind_known, wants_names, behind_names, holder_count};
ghost use Rattle.fca_command.specs.Flags.{behind_holders, address_of, serving_for, serving_of};

use crate::experts::expert_count;
use fca_model::{MAX_EXPERTS, Memory, Word};
use std::alloc::Global;

/// The known file, if the words begin with its flag, and the words after it.
pub(crate) fn split_known(words: &[Word]) -> (Option<&Word>, &[Word])
    ensures known { option_copied result.0 ≡ known_file words.now }
    ensures behind { result.1.now ≡ behind_known words.now }
{
    match words {
        [flag, file, later @ ..] if has_known_file(flag, file) => (Some(file), later),
        _ => (None, words),
    }
}

/// Whether the words are the flag of a known file and the name of a file.
fn has_known_file(flag: &Word, file: &Word) -> bool
    ensures { result ≡ has_known_file flag.now file.now }
{
    flag.bytes() == b"--known".as_slice() && !file.bytes().is_empty()
}

/// A copy of the word, if there is one.
pub(crate) fn copy_word(alloc: Global, word: Option<&Word>) -> Result<Option<Word>, Memory>
    ensures { IfOk result (λ copy. copy ≡ option_copied word.entry) }
{
    match word {
        Some(word) => Ok(Some(Word::new(alloc, word.bytes())?)),
        None => Ok(None),
    }
}

/// Whether the words begin with the flag of names, and the words after it.
pub(crate) fn split_names(words: &[Word]) -> (bool, &[Word])
    ensures names { result.0 ≡ wants_names words.now }
    ensures behind { result.1.now ≡ behind_names words.now }
{
    match words {
        [flag, later @ ..] if is_names_flag(flag) => (true, later),
        _ => (false, words),
    }
}

fn is_names_flag(flag: &Word) -> bool
    ensures { result ≡ bytes_eq flag.now (codes "--names") }
{
    flag.bytes() == b"--names".as_slice()
}

/// How many experts may hold one question, and the words after that flag. Without the flag all experts may.
fn split_holders(words: &[Word]) -> (Option<u8>, &[Word])
    ensures holders { result.0 ≡ holder_count words.now }
    ensures limits { IfSome result.0 (λ holders. is_expert holders ≡ true) }
    ensures behind { result.1.now ≡ behind_holders words.now }
{
    match words {
        [flag, count, later @ ..] if is_holders_flag(flag) => (expert_count(count.bytes()), later),
        _ => (Some(MAX_EXPERTS), words),
    }
}

fn is_holders_flag(flag: &Word) -> bool
    ensures { result ≡ bytes_eq flag.now (codes "--holders") }
{
    flag.bytes() == b"--holders".as_slice()
}

/// The address at which to listen, if the words are its flag and the address.
fn address_of(words: &[Word]) -> Option<&Word>
    ensures { option_copied result ≡ address_of words.now }
{
    match words {
        [flag, address] if flag.bytes() == b"--listen".as_slice() && !address.bytes().is_empty() =>
            { Some(address) }
        _ => None,
    }
}

/// The number of experts, how many of them may hold one question, and where to listen, if the words say exactly this.
pub(crate) fn serving_of(words: &[Word]) -> Option<(u8, u8, &Word)>
    ensures serving { option_map (λ s. (s.0, s.1, s.2.now)) result ≡ serving_of words.now }
    ensures experts { IfSome result (λ s. is_expert s.0 ≡ true) }
    ensures holders { IfSome result (λ s. is_expert s.1 ≡ true) }
{
    match words {
        [flag, experts, later @ ..] if is_experts_flag(flag) => {
            serving_for(later, expert_count(experts.bytes()))
        }
        _ => None,
    }
}

fn is_experts_flag(flag: &Word) -> bool
    ensures { result ≡ bytes_eq flag.now (codes "--experts") }
{
    flag.bytes() == b"--experts".as_slice()
}

/// The same three values, if there is a number of experts, by the words after it.
fn serving_for(later: &[Word], experts: Option<u8>) -> Option<(u8, u8, &Word)>
    requires { IfSome experts (λ count. is_expert count ≡ true) }
    ensures serving { option_map (λ s. (s.0, s.1, s.2.now)) result ≡ option_and_then (serving_for later.now) experts }
    ensures experts { IfSome result (λ s. is_expert s.0 ≡ true) }
    ensures holders { IfSome result (λ s. is_expert s.1 ≡ true) }
{
    let (holders, rest) = split_holders(later);
    Some((experts?, holders?, address_of(rest)?))
}
