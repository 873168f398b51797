//! Lines that are written part by part.

ghost use Rattle.std.specs.Prelude.{◌≡◌, ◌≤◌, ◌++◌, ℕ, decimal, OnOk, OnErr, slice_range};
ghost use Rattle.fca_model.specs.declared.TheConstants.{MAX_ATTRIBUTES};
ghost use Rattle.expert_wire.specs.Texts.{ordinal, pattern, braces_text};
ghost use Rattle.expert_wire.specs.Parts.{part_text, parts_text, WritesTo};

use attr_bits::Attrs;
use context_table::Table;
use fca_io::{Put, Sink, write_text};
use fca_model::MAX_ATTRIBUTES;
use itoa::Buffer;
use text_pieces::marks_of;

/// The length of the longest pattern.
const WIDEST: usize = MAX_ATTRIBUTES as usize;

/// A part of a line.
#[derive(Clone, Copy)]
pub enum Part<'a> {
    /// These bytes.
    Bytes(&'a [u8]),
    /// A number in decimal digits.
    Number(u64),
    /// The number of a place. Numbers begin at 1.
    Ordinal(usize),
    /// The pattern of a set of attributes.
    Pattern(Attrs),
    /// The names of the members of a set of attributes, in braces.
    Braces(Attrs),
}

/// Writes the parts in order. It takes no memory.
pub fn write_parts<K: Sink>(sink: &mut K, table: &Table, parts: &[Part<'_>]) -> Result<(), Put>
    ensures { WritesTo K.held K.faults K.beside K.read_counts_beside sink.old sink.new (parts_text table.now.attributes parts.now) result }
{
    for part in parts {
        write_part(sink, table, part)?;
    }
    Ok(())
}

fn write_part<K: Sink>(sink: &mut K, table: &Table, part: &Part<'_>) -> Result<(), Put>
    ensures { WritesTo K.held K.faults K.beside K.read_counts_beside sink.old sink.new (part_text table.now.attributes part.now) result }
{
    match part {
        Part::Bytes(bytes) => write_bytes(sink, bytes),
        Part::Number(number) => write_bytes(sink, Buffer::new().format(*number).as_bytes()),
        Part::Ordinal(place) => write_bytes(
            sink,
            Buffer::new().format(*place as u128 + 1).as_bytes(),
        ),
        Part::Pattern(set) => write_pattern(sink, set),
        Part::Braces(set) => write_braces(sink, table, set),
    }
}

/// Writes the bytes. It takes no memory. After an `Err` the sink has gained a front of them.
pub fn write_bytes<K: Sink>(sink: &mut K, bytes: &[u8]) -> Result<(), Put>
    ensures { WritesTo K.held K.faults K.beside K.read_counts_beside sink.old sink.new bytes.now result }
{
    write_text(sink, bytes)
}

fn write_pattern<K: Sink>(sink: &mut K, set: &Attrs) -> Result<(), Put>
    ensures { WritesTo K.held K.faults K.beside K.read_counts_beside sink.old sink.new (pattern set.now) result }
{
    let width = set.width();
    if width == 0 {
        return write_bytes(sink, b"-");
    }
    let marks = marks_of::<WIDEST>(set, 0, width);
    write_bytes(sink, &marks[..width as usize])
}

fn write_braces<K: Sink>(sink: &mut K, table: &Table, set: &Attrs) -> Result<(), Put>
    ensures { WritesTo K.held K.faults K.beside K.read_counts_beside sink.old sink.new (braces_text table.now.attributes set.now) result }
{
    write_bytes(sink, b"{")?;
    let mut between = b"".as_slice();
    for attribute in 0..set.width().min(table.rows().width()) {
        if !set.has(attribute) {
            continue;
        }
        write_both(sink, between, table.attribute_name(attribute).bytes())?;
        between = b", ".as_slice();
    }
    write_bytes(sink, b"}")
}

fn write_both<K: Sink>(sink: &mut K, first: &[u8], second: &[u8]) -> Result<(), Put>
    ensures { WritesTo K.held K.faults K.beside K.read_counts_beside sink.old sink.new (first.now ++ second.now) result }
{
    write_bytes(sink, first)?;
    write_bytes(sink, second)
}
