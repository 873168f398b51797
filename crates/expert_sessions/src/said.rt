//! The answers to lines.

ghost use Rattle.std.specs.Prelude.{◌≡◌, ◌≤◌, OnOk, OnErr};
ghost use Rattle.std.specs.Io.KnownBytes.{Appends, Keeps};
ghost use Rattle.fca_io.specs.Faults.{Rose};
ghost use Rattle.fca_io.specs.Transfers.{AppendsFront};
ghost use Rattle.expert_sessions.specs.Lines.{said_line};
ghost use Rattle.expert_sessions.specs.Moves.{end_state_of};
ghost use Rattle.expert_sessions.specs.Courses.{SendsText};
ghost use Rattle.expert_wire.specs.Greetings.{greeting};
ghost use Rattle.expert_wire.specs.Replies.{reply_line};

use context_table::Table;
use expert_wire::{Draft, write_greeting, write_reply};
use explore_state::Reply;
use fca_io::{Duplex, Put, Sink, write_text};
use std::alloc::Global;

// The lines of answers that are no reply.
const BYE: &str = "bye\n";

const BAD_LINE: &str = "bad line\n";

const BAD_WIDTH: &str = "bad width\n";

const NO_MEMORY: &str = "no memory\n";

/// The answer to a line.
#[derive(Drop)]
pub enum Said {
    /// The reply to the line's request.
    Replied(Reply),
    /// The line was `quit`.
    Bye,
    /// The line is no request.
    BadLine,
    /// The row of the line is too long or too short.
    BadWidth,
    /// Memory ran out for the request or for its turn.
    NoMemory,
}

/// Greets the expert.
pub(crate) fn greet<E: Duplex>(end: &mut E, table: &Table, expert: u8) -> Result<(), Put>
    ensures written { SendsText
        (end_state_of E.Source.left E.Sink.held E.Source.faults E.Sink.faults end.old)
        (end_state_of E.Source.left E.Sink.held E.Source.faults E.Sink.faults end.new)
        (greeting table.now expert) result }
    ensures unread { E.Source.reads end.new ≡ E.Source.reads end.old }
{
    write_greeting(end, table, expert)
}

/// Writes the line of the answer.
pub(crate) fn write_said<E: Duplex>(
    alloc: Global,
    end: &mut E,
    table: &Table,
    said: &Said,
) -> Result<(), Put>
    ensures written { SendsText
        (end_state_of E.Source.left E.Sink.held E.Source.faults E.Sink.faults end.old)
        (end_state_of E.Source.left E.Sink.held E.Source.faults E.Sink.faults end.new)
        (said_line table.now.attributes said.now) result }
    ensures unread { E.Source.reads end.new ≡ E.Source.reads end.old }
{
    match said {
        Said::Replied(reply) => write_at_once(alloc, end, table, reply),
        Said::Bye => write_line(end, BYE),
        Said::BadLine => write_line(end, BAD_LINE),
        Said::BadWidth => write_line(end, BAD_WIDTH),
        Said::NoMemory => write_line(end, NO_MEMORY),
    }
}

/// Writes the whole line.
fn write_line<E: Duplex>(end: &mut E, line: &str) -> Result<(), Put>
    ensures written { SendsText
        (end_state_of E.Source.left E.Sink.held E.Source.faults E.Sink.faults end.old)
        (end_state_of E.Source.left E.Sink.held E.Source.faults E.Sink.faults end.new)
        line.now result }
    ensures unread { E.Source.reads end.new ≡ E.Source.reads end.old }
{
    write_text(end, line.as_bytes())
}

/// Writes the line of the reply. If there is memory for the line it is written whole, so that an end sends it in one piece, and else
/// part by part.
fn write_at_once<K: Sink>(
    alloc: Global,
    sink: &mut K,
    table: &Table,
    reply: &Reply,
) -> Result<(), Put>
    ensures whole { OnOk result (Appends (K.held sink.old) (K.held sink.new) (reply_line table.now.attributes reply.now)) }
    ensures front { AppendsFront (K.held sink.old) (K.held sink.new) (reply_line table.now.attributes reply.now) }

    ensures quiet { OnOk result (K.faults sink.new ≡ K.faults sink.old) }
    ensures failed { OnErr result (Rose (K.faults sink.old) (K.faults sink.new)) }
    ensures only_rise { K.faults sink.old ≤ K.faults sink.new }

    ensures beside { Keeps (K.beside sink.old) (K.beside sink.new) }
    ensures same_beside { K.read_counts_beside sink.new ≡ K.read_counts_beside sink.old }
{
    let mut line = Draft::new(alloc);
    match line.append_reply(table, reply) {
        Ok(()) => write_text(sink, line.into_bytes().as_slice()),
        Err(_) => write_reply(sink, table, reply),
    }
}
