//! Events, each read from a line.

ghost use Rattle.std.specs.Prelude.{◌≡◌, ◌≤◌, ◌⊎◌, Ok, Err, IfOk, IfErr};
ghost use Rattle.fca_model.specs.declared.TheConstants.{MAX_ATTRIBUTES};
ghost use Rattle.expert_scripts.specs.Scripts.{event_of, event_of_words, expert_in, row_event};

use crate::fault::ScriptFault;
use expert_wire::{RequestFault, expert_number, read_row, utf8_text};
use exploration_terms::Event;
use std::alloc::Global;
use text_pieces::{is_numeral, split_word};

/// The event of a line that is not skipped.
pub(crate) fn read_event(
    alloc: Global,
    line: &[u8],
    n: u32,
    number: usize,
) -> Result<Event, ScriptFault>
    requires { n ≤ MAX_ATTRIBUTES }
    ensures ok { IfOk result (λ event. event_of n number line.now ≡ Ok event) }
    ensures refused { IfErr result (λ e. (e ≡ ScriptFault.Memory) ⊎ (event_of n number line.now ≡ Err e)) }
{
    match utf8_text(line) {
        Some(text) => {
            let (verb, words) = split_word(text);
            event_of_words(alloc, verb, words, n, number)
        }
        None => Err(ScriptFault::BadLine(number)),
    }
}

/// The event of a line by its first word.
fn event_of_words(
    alloc: Global,
    verb: &str,
    words: &str,
    n: u32,
    number: usize,
) -> Result<Event, ScriptFault>
    requires { n ≤ MAX_ATTRIBUTES }
    ensures ok { IfOk result (λ event. event_of_words n number verb.now words.now ≡ Ok event) }
    ensures refused { IfErr result (λ e. (e ≡ ScriptFault.Memory) ⊎ (event_of_words n number verb.now words.now ≡ Err e)) }
{
    match verb {
        "draw" => read_expert(words, number).map(|expert| Event::Draw { expert }),
        "confirm" => read_expert(words, number).map(|expert| Event::Confirm { expert }),
        "row" => read_row_event(alloc, words, n, number),
        "leave" => read_expert(words, number).map(|expert| Event::Leave { expert }),
        _ => Err(ScriptFault::BadLine(number)),
    }
}

/// The number of an expert, in digits.
fn read_expert(word: &str, number: usize) -> Result<u8, ScriptFault>
    ensures { result ≡ expert_in number word.now }
{
    if !is_numeral(word.as_bytes()) {
        return Err(ScriptFault::BadLine(number));
    }
    expert_number(word).ok_or(ScriptFault::BadExpert(number))
}

/// The row after the word `row`.
fn read_row_event(alloc: Global, text: &str, n: u32, number: usize) -> Result<Event, ScriptFault>
    requires { n ≤ MAX_ATTRIBUTES }
    ensures ok { IfOk result (λ event. row_event n number text.now ≡ Ok event) }
    ensures refused { IfErr result (λ e. (e ≡ ScriptFault.Memory) ⊎ (row_event n number text.now ≡ Err e)) }
{
    let (word, words) = split_word(text);
    let expert = read_expert(word, number);
    match read_row(alloc, words, n) {
        Ok((name, row)) => Ok(Event::Row {
            expert: expert?,
            name,
            row,
        }),
        Err(RequestFault::Line) => Err(ScriptFault::BadLine(number)),
        Err(RequestFault::Width) => {
            expert?;
            Err(ScriptFault::BadWidth(number))
        }
        Err(RequestFault::Memory) => Err(ScriptFault::Memory),
    }
}
