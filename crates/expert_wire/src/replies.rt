//! The lines of replies.

ghost use Rattle.std.specs.Prelude.{◌≡◌, ◌≤◌, ◌++◌, ℕ, OnOk, OnErr, codes};
ghost use Rattle.std.specs.Io.KnownBytes.{Appends, Keeps};
ghost use Rattle.fca_io.specs.Faults.{Rose};
ghost use Rattle.fca_io.specs.Transfers.{AppendsFront};
ghost use Rattle.expert_wire.specs.Texts.{line_end, ordinal, full_text};
ghost use Rattle.expert_wire.specs.Replies.{attribute_text, numbered_row, numbered_rule, reply_line};
ghost use Rattle.expert_wire.specs.Parts.{WritesTo};

use crate::parts::{Part, write_parts};
use attr_bits::Attrs;
use context_table::Table;
use fca_io::{Put, Sink};
use fca_model::Reply;
use implication_closure::Implication;

/// Writes the line of the reply, part by part. It takes no memory. After an `Err` the sink has gained a front of the line.
pub fn write_reply<K: Sink>(sink: &mut K, table: &Table, reply: &Reply<Attrs>) -> Result<(), Put>
    ensures whole { OnOk result (Appends (K.held sink.old) (K.held sink.new) (reply_line table.now.attributes reply.now)) }
    ensures front { AppendsFront (K.held sink.old) (K.held sink.new) (reply_line table.now.attributes reply.now) }

    ensures quiet { OnOk result (K.faults sink.new ≡ K.faults sink.old) }
    ensures failed { OnErr result (Rose (K.faults sink.old) (K.faults sink.new)) }
    ensures only_rise { K.faults sink.old ≤ K.faults sink.new }

    ensures beside { Keeps (K.beside sink.old) (K.beside sink.new) }
    ensures same_beside { K.read_counts_beside sink.new ≡ K.read_counts_beside sink.old }
{
    match reply {
        Reply::Ask(question) => write_full_text(sink, table, b"ask ", question),
        Reply::Done => write_words(sink, table, b"done"),
        Reply::AllHeld => write_words(sink, table, b"all held"),
        Reply::Accepted(place) => write_place(sink, table, b"accepted ", *place),
        Reply::Taken(place) => write_place(sink, table, b"taken ", *place),
        Reply::Left => write_words(sink, table, b"left"),
        Reply::NotHeld => write_words(sink, table, b"not held"),
        Reply::Misses(attribute) => write_misses(sink, table, *attribute),
        Reply::Keeps => write_words(sink, table, b"keeps"),
        Reply::Breaks(place, rule) => write_rule(sink, table, b"breaks ", *place, rule),
        Reply::Refuted(place, row) => write_row(sink, table, b"refuted ", *place, row),
        Reply::SupersededRow(place, row) => write_row(sink, table, b"superseded row ", *place, row),
        Reply::SupersededBy(place, rule) => write_rule(
            sink,
            table,
            b"superseded accepted ",
            *place,
            rule,
        ),
    }
}

/// Writes a line of the words alone.
pub(crate) fn write_words<K: Sink>(sink: &mut K, table: &Table, words: &[u8]) -> Result<(), Put>
    ensures { WritesTo K.held K.faults K.beside K.read_counts_beside sink.old sink.new (words.now ++ line_end) result }
{
    write_parts(sink, table, &[Part::Bytes(words), Part::Bytes(b"\n")])
}

/// Writes a line: the words, and the number of the place.
fn write_place<K: Sink>(sink: &mut K, table: &Table, words: &[u8], place: usize) -> Result<(), Put>
    ensures { WritesTo K.held K.faults K.beside K.read_counts_beside sink.old sink.new ((words.now ++ ordinal place) ++ line_end) result }
{
    write_parts(
        sink,
        table,
        &[Part::Bytes(words), Part::Ordinal(place), Part::Bytes(b"\n")],
    )
}

/// Writes a line: the words, the number of the place, and the pattern of the row.
fn write_row<K: Sink>(
    sink: &mut K,
    table: &Table,
    words: &[u8],
    place: usize,
    row: &Attrs,
) -> Result<(), Put>
    ensures { WritesTo K.held K.faults K.beside K.read_counts_beside sink.old sink.new
        ((words.now ++ numbered_row place row.now) ++ line_end) result }
{
    write_parts(
        sink,
        table,
        &[
            Part::Bytes(words),
            Part::Ordinal(place),
            Part::Bytes(b" "),
            Part::Pattern(*row),
            Part::Bytes(b"\n"),
        ],
    )
}

/// Writes a line: the words, the number of the place, and the full text of the rule.
pub(crate) fn write_rule<K: Sink>(
    sink: &mut K,
    table: &Table,
    words: &[u8],
    place: usize,
    rule: &Implication,
) -> Result<(), Put>
    ensures { WritesTo K.held K.faults K.beside K.read_counts_beside sink.old sink.new
        ((words.now ++ numbered_rule table.now.attributes place rule.now) ++ line_end) result }
{
    write_parts(
        sink,
        table,
        &[Part::Bytes(words), Part::Ordinal(place), Part::Bytes(b" ")],
    )?;
    write_full_text(sink, table, b"", rule)
}

/// Writes a line: the words, and the full text of the implication.
pub(crate) fn write_full_text<K: Sink>(
    sink: &mut K,
    table: &Table,
    words: &[u8],
    implication: &Implication,
) -> Result<(), Put>
    ensures { WritesTo K.held K.faults K.beside K.read_counts_beside sink.old sink.new
        ((words.now ++ full_text table.now.attributes implication.now) ++ line_end) result }
{
    let gained = implication.conclusion.minus(&implication.premise);
    write_parts(
        sink,
        table,
        &[
            Part::Bytes(words),
            Part::Pattern(implication.premise),
            Part::Bytes(b" "),
            Part::Pattern(implication.conclusion),
            Part::Bytes(b" "),
            Part::Braces(implication.premise),
            Part::Bytes(b" -> "),
            Part::Braces(gained),
            Part::Bytes(b"\n"),
        ],
    )
}

/// Writes the line of the attribute that a row lacks: its number and its name.
fn write_misses<K: Sink>(sink: &mut K, table: &Table, attribute: u32) -> Result<(), Put>
    ensures { WritesTo K.held K.faults K.beside K.read_counts_beside sink.old sink.new
        ((codes "misses " ++ (ordinal attribute ++ (codes " " ++ attribute_text table.now.attributes attribute))) ++ line_end) result }
{
    write_parts(
        sink,
        table,
        &[
            Part::Bytes(b"misses "),
            Part::Ordinal(attribute as usize),
            Part::Bytes(b" "),
            Part::Bytes(attribute_text(table, attribute)),
            Part::Bytes(b"\n"),
        ],
    )
}

/// The name of the attribute. It is empty if the table has no such attribute.
fn attribute_text(table: &Table, attribute: u32) -> &[u8]
    ensures { result.now ≡ attribute_text table.now.attributes attribute }
{
    if attribute < table.rows().width() {
        table.attribute_name(attribute).bytes()
    } else {
        b""
    }
}
