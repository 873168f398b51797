//! The words that say how sessions ended.

ghost use Rattle.std.specs.Prelude.{◌≡◌, map, IfOk};
ghost use Rattle.serve_command.specs.Served.{ended_words};

use expert_sessions::Ended;
use fca_io::{READ_FAULT, WRITE_FAULT};
use fca_model::{Memory, NO_MEMORY};
use std::alloc::Global;

const QUIT: &str = "quit";

const END_OF_INPUT: &str = "end of input";

const LONG_LINE: &str = "long line";

const LIMIT: &str = "limit";

const SPENT: &str = "spent";

/// The words that say how each session ended.
pub fn all_ended_words(alloc: Global, ended: &[Ended]) -> Result<Vec<&'static str>, Memory>
    ensures { IfOk result (λ v. map (λ words. words.now) v.items ≡ map ended_words ended.now) }
{
    let mut words = Vec::with_capacity(alloc, ended.len())?;
    for each in ended {
        words.push_reserved(ended_words(*each));
    }
    Ok(words)
}

/// The words that say how a session ended.
fn ended_words(ended: Ended) -> &'static str
    ensures { result.now ≡ ended_words ended }
{
    match ended {
        Ended::Quit => QUIT,
        Ended::EndOfInput => END_OF_INPUT,
        Ended::ReadFault => READ_FAULT,
        Ended::WriteFault => WRITE_FAULT,
        Ended::LongLine => LONG_LINE,
        Ended::Limit => LIMIT,
        Ended::Spent => SPENT,
        Ended::Memory => NO_MEMORY,
    }
}
