//! The output of a command, and what a call does with it.

ghost use Rattle.std.specs.Prelude.{◌≡◌};
ghost use Rattle.explore_state.specs.History.{open_of};
ghost use Rattle.command_io.specs.Endings.{finished, ending_of, ending_status};
ghost use Rattle.command_io.specs.ErrLines.{ending_line};
ghost use Rattle.command_io.specs.Streams.{moment, GainsLine, HasConcluded};

use crate::err_line::{TURNS_SPENT, explain_in_words, explain_stop};
use crate::stop::Stop;
use crate::text::Text;
use explore_state::Explore;
use fca_io::{Sink, WRITE_FAULT};
use packed_concepts::ConceptsText;
use std::marker::Model;
use std::thread::Threads;

/// The status if a fault of out cut off the text.
const CUT_OFF: u8 = 4;

/// How a text ends.
#[derive(Clone, Copy)]
pub enum Ending {
    /// No question is open.
    Finished,
    /// A question is open.
    Open,
    /// An expert used up its turns before it was done.
    Spent,
}

impl Ending {
    /// The ending of the exploration's text.
    pub fn of(explore: &Explore) -> Ending
        ensures { result ≡ ending_of (open_of explore.now) }
    {
        if explore.open_questions().is_empty() {
            Ending::Finished
        } else {
            Ending::Open
        }
    }

    /// The status of the program.
    fn status(self) -> u8
        ensures { result ≡ ending_status self }
    {
        match self {
            Ending::Finished => 0,
            Ending::Open => 6,
            Ending::Spent => 8,
        }
    }
}

/// A text, and how it ends.
#[derive(Drop)]
pub struct Output {
    pub text: Text,
    pub ending: Ending,
}

impl Model for Output {
    ghost use Rattle.command_io.specs.Endings.{Output};

    ghost Value = { Output };

    ghost view = { λ a. record { text = a.text; ending = a.ending } };
}

impl Output {
    /// Makes the output of a text that leaves no question open.
    pub fn of_text(text: Vec<u8>) -> Output
        ensures { result ≡ finished text.items }
    {
        Output {
            text: Text::whole(text),
            ending: Ending::Finished,
        }
    }

    /// Makes the output of a text of concepts.
    pub fn of_concepts(text: ConceptsText) -> Output
        ensures { result ≡ finished text }
    {
        Output {
            text: Text::packed(text),
            ending: Ending::Finished,
        }
    }
}

/// Writes the text to out, or the cause of the stop to err, and returns the status. `file` is the name of the file at fault, if there is one.
pub fn conclude<R: Threads + Sync, K: Sink, E: Sink>(
    rt: &R,
    output: Result<Output, Stop>,
    file: &[u8],
    out: &mut K,
    err: &mut E,
) -> u8
    ensures { HasConcluded output (λ _. file.now) (moment K.held K.faults out.old) (moment K.held K.faults out.new)
        (moment E.held E.faults err.old) (moment E.held E.faults err.new) result }
{
    match output {
        Ok(output) => {
            let ending = output.ending;
            if output.text.write(rt, out).is_err() {
                explain_in_words(err, WRITE_FAULT);
                return CUT_OFF;
            }
            explain_ending(err, ending);
            ending.status()
        }
        Err(stop) => {
            explain_stop(err, file, &stop);
            stop.status()
        }
    }
}

/// Writes the line of turns that are spent, if they are.
fn explain_ending<E: Sink>(err: &mut E, ending: Ending)
    ensures { GainsLine (ending_line ending) (moment E.held E.faults err.old) (moment E.held E.faults err.new) }
{
    match ending {
        Ending::Finished | Ending::Open => {}
        Ending::Spent => explain_in_words(err, TURNS_SPENT),
    }
}
