//! The greeting: the first lines of a session.

ghost use Rattle.std.specs.Prelude.{◌++◌, ℕ};
ghost use Rattle.expert_wire.specs.Greetings.{greeting};
ghost use Rattle.expert_wire.specs.Parts.{WritesTo};

use crate::parts::{Part, write_parts};
use context_table::Table;
use fca_io::{Put, Sink};

/// Writes the greeting of the expert, part by part. It takes no memory. After an `Err` the sink has gained a front of the greeting.
pub fn write_greeting<K: Sink>(sink: &mut K, table: &Table, expert: u8) -> Result<(), Put>
    ensures { WritesTo K.held K.faults K.beside K.read_counts_beside sink.old sink.new (greeting table.now expert) result }
{
    let width = table.rows().width();
    write_parts(
        sink,
        table,
        &[
            Part::Bytes(b"exploration 1"),
            Part::Bytes(b"\n"),
            Part::Bytes(b"expert "),
            Part::Number(u64::from(expert)),
            Part::Bytes(b"\n"),
            Part::Bytes(b"attributes "),
            Part::Number(u64::from(width)),
            Part::Bytes(b"\n"),
        ],
    )?;
    for attribute in 0..width {
        let name = table.attribute_name(attribute).bytes();
        write_parts(sink, table, &[Part::Bytes(name), Part::Bytes(b"\n")])?;
    }
    Ok(())
}
