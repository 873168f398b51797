//! The line on err that says why there is no text.

ghost use Rattle.std.specs.Prelude.{◌≡◌, Some};
ghost use Rattle.std.specs.List.{flat_map};
ghost use Rattle.expert_wire.specs.Parts.{WritesTo};
ghost use Rattle.text_pieces.specs.declared.faults.FaultPlace.TheVariants.{Whole, Field};
ghost use Rattle.command_io.specs.ErrLines.{plain_line, placed_line, numbered_line, breaks_line, name_of, stop_line};
ghost use Rattle.command_io.specs.Streams.{moment, GainsLine};

use crate::stop::{Origin, Stop};
use expert_wire::write_bytes;
use fca_io::{Put, READ_FAULT, Sink, TOO_LONG};
use fca_model::NO_MEMORY;
use itoa::Buffer;
use text_pieces::faults::{Description, FaultPlace, UNKNOWN_ATTRIBUTE};

const NO_SUCH_COMMAND: &str = "no such command";

const BAD_VALUES: &str = "bad values";

const BAD_PLAN: &str = "bad plan";

const ATTRIBUTES_DIFFER: &str = "attributes differ";

const LISTENER_FAULT: &str = "listener fault";

pub(crate) const TURNS_SPENT: &str = "turns spent";

/// The name of the input in these lines.
const INPUT: &str = "input";

/// Explains on err why there is no text. `file` is the name of the file at fault, if there is one. A fault of err is ignored.
pub(crate) fn explain_stop<E: Sink>(err: &mut E, file: &[u8], stop: &Stop)
    ensures { GainsLine (Some (stop_line file.now stop.now)) (moment E.held E.faults err.old) (moment E.held E.faults err.new) }
{
    let _ = write_stop(err, file, stop);
}

/// Explains it on err in these words alone. A fault of err is ignored.
pub(crate) fn explain_in_words<E: Sink>(err: &mut E, words: &str)
    ensures { GainsLine (Some (plain_line words.now)) (moment E.held E.faults err.old) (moment E.held E.faults err.new) }
{
    let _ = write_plain(err, words);
}

fn write_stop<E: Sink>(err: &mut E, file: &[u8], stop: &Stop) -> Result<(), Put>
    ensures { WritesTo E.held E.faults E.beside E.read_counts_beside err.old err.new (stop_line file.now stop.now) result }
{
    match stop {
        Stop::NoCommand => write_plain(err, NO_SUCH_COMMAND),
        Stop::TooLong(origin) => write_whole(err, name_of(file, *origin), TOO_LONG),
        Stop::NoCxt(origin, fault) => write_placed(
            err,
            name_of(file, *origin),
            &fault.description(),
        ),
        Stop::NoCsv(origin, fault) => write_placed(
            err,
            name_of(file, *origin),
            &fault.description(),
        ),
        Stop::BadValues(origin, _) => write_whole(err, name_of(file, *origin), BAD_VALUES),
        Stop::BadPlan(origin, _) => write_whole(err, name_of(file, *origin), BAD_PLAN),
        Stop::NoKnown(fault) => write_placed(err, file, &fault.description()),
        Stop::RowBreaks(origin, row, rule) => write_breaks(
            err,
            name_of(file, *origin),
            *row,
            *rule,
        ),
        Stop::NoScript(fault) => write_placed(err, INPUT.as_bytes(), &fault.description()),
        Stop::UnknownAttribute => write_plain(err, UNKNOWN_ATTRIBUTE),
        Stop::OtherAttributes(origin) => write_whole(
            err,
            name_of(file, *origin),
            ATTRIBUTES_DIFFER,
        ),
        Stop::ReadFault(origin) => write_whole(err, name_of(file, *origin), READ_FAULT),
        Stop::ListenerFault => write_plain(err, LISTENER_FAULT),
        Stop::Memory => write_plain(err, NO_MEMORY),
    }
}

/// The name of what is at fault.
fn name_of(file: &[u8], origin: Origin) -> &[u8]
    ensures { result.now ≡ name_of file.now origin }
{
    match origin {
        Origin::File | Origin::Known | Origin::Later(_) => file,
        Origin::Input => INPUT.as_bytes(),
    }
}

/// Writes a line of these words alone.
fn write_plain<E: Sink>(err: &mut E, words: &str) -> Result<(), Put>
    ensures { WritesTo E.held E.faults E.beside E.read_counts_beside err.old err.new (plain_line words.now) result }
{
    write_all_bytes(err, &[b"fca: ", words.as_bytes(), b"\n"])
}

/// Writes a line of these words after the name.
fn write_whole<E: Sink>(err: &mut E, name: &[u8], words: &str) -> Result<(), Put>
    ensures { WritesTo E.held E.faults E.beside E.read_counts_beside err.old err.new (placed_line name.now (Whole, words.now)) result }
{
    write_all_bytes(err, &[b"fca: ", name, b": ", words.as_bytes(), b"\n"])
}

/// Writes the line of a fault in what has this name.
fn write_placed<E: Sink>(err: &mut E, name: &[u8], description: &Description) -> Result<(), Put>
    ensures { WritesTo E.held E.faults E.beside E.read_counts_beside err.old err.new (placed_line name.now description.now) result }
{
    match description.place {
        FaultPlace::Whole => write_whole(err, name, description.words),
        FaultPlace::Byte(at) => write_numbered(err, name, "byte ", at, description.words),
        FaultPlace::Line(at) => write_numbered(err, name, "line ", at, description.words),
        FaultPlace::Record(at) => write_numbered(err, name, "record ", at, description.words),
        FaultPlace::Field(at, field) => write_field(err, name, at, field, description.words),
    }
}

/// Writes a line of these words after the name and a place: a line, a byte or a record with its number.
fn write_numbered<'a, E: Sink>(
    err: &mut E,
    name: &'a [u8],
    kind: &'a str,
    number: usize,
    words: &'a str,
) -> Result<(), Put>
    ensures { WritesTo E.held E.faults E.beside E.read_counts_beside err.old err.new (numbered_line name.now kind.now number words.now) result }
{
    write_all_bytes(
        err,
        &[
            b"fca: ",
            name,
            b": ",
            kind.as_bytes(),
            Buffer::new().format(number).as_bytes(),
            b": ",
            words.as_bytes(),
            b"\n",
        ],
    )
}

/// Writes a line of these words after the name and a field of a record.
fn write_field<E: Sink>(
    err: &mut E,
    name: &[u8],
    number: usize,
    field: usize,
    words: &str,
) -> Result<(), Put>
    ensures { WritesTo E.held E.faults E.beside E.read_counts_beside err.old err.new
        (placed_line name.now (Field number field, words.now)) result }
{
    write_all_bytes(
        err,
        &[
            b"fca: ",
            name,
            b": record ",
            Buffer::new().format(number).as_bytes(),
            b": field ",
            Buffer::new().format(field).as_bytes(),
            b": ",
            words.as_bytes(),
            b"\n",
        ],
    )
}

/// Writes the line of a row that breaks a known implication, by the places of both.
fn write_breaks<E: Sink>(err: &mut E, name: &[u8], row: usize, rule: usize) -> Result<(), Put>
    ensures { WritesTo E.held E.faults E.beside E.read_counts_beside err.old err.new (breaks_line name.now row rule) result }
{
    write_all_bytes(
        err,
        &[
            b"fca: ",
            name,
            b": row ",
            Buffer::new().format(row as u128 + 1).as_bytes(),
            b" breaks known ",
            Buffer::new().format(rule as u128 + 1).as_bytes(),
            b"\n",
        ],
    )
}

/// Appends the parts in their order.
fn write_all_bytes<E: Sink>(err: &mut E, parts: &[&[u8]]) -> Result<(), Put>
    ensures { WritesTo E.held E.faults E.beside E.read_counts_beside err.old err.new (flat_map (λ part. part.now) parts.now) result }
{
    for part in parts {
        write_bytes(err, part)?;
    }
    Ok(())
}
