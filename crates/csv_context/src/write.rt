//! The writer of tables.

ghost use Rattle.std.specs.Prelude.{◌≡◌, ◌≤◌, ◌+◌, ◌-◌, ◌*◌, ◌++◌, ◌∷◌, [], IfOk, OnOk, Ok, drop, length, map, take};
ghost use Rattle.fca_model.specs.Names.{IsName};
ghost use Rattle.context_table.specs.Table.{IsTable, untitled_context};
ghost use Rattle.text_pieces.specs.Lists.{EachName};
ghost use Rattle.csv.specs.Writing as csv;
ghost use Rattle.csv.specs.Writing.{default_writer, row_text};
ghost use Rattle.csv_context.specs.Form.{csv_form};
ghost use Rattle.csv_context.specs.Written.{cells_text, csv_text, header_record, object_record, object_records, records_text};

use attr_bits::Attrs;
use context_table::Table;
use fca_model::{Memory, Name};
use std::alloc::Global;

/// The number of cells of a row that are written at once.
const BLOCK: u32 = 64;

/// Writes the table.
pub fn write_csv(alloc: Global, table: &Table) -> Result<Vec<u8>, Memory>
    ensures written { IfOk result (λ text. text.items ≡ csv_text table.now) }
    ensures reads_back { IfOk result (λ text. csv_form text.items ≡ Ok (untitled_context table.now)) }
{
    let mut text = Vec::new(alloc);
    write_header(&mut text, table)?;
    write_objects(&mut text, table)?;
    Ok(text)
}

/// Writes the names of the attributes.
fn write_header(text: &mut Vec<u8>, table: &Table) -> Result<(), Memory>
    ensures written { OnOk result (text.new.items ≡ text.old.items ++ row_text default_writer (header_record table.now)) }
    ensures named { OnOk result (EachName table.now.attributes) }
{
    text.extend_from_slice(b"object")?;
    for i in 0..table.rows().width() {
        text.push(b',')?;
        write_field(text, table.attribute_name(i).bytes())?;
    }
    text.push(b'\n')?;
    Ok(())
}

fn write_objects(text: &mut Vec<u8>, table: &Table) -> Result<(), Memory>
    ensures written { OnOk result (text.new.items ≡ text.old.items ++ records_text (object_records table.now.objects table.now.context.rows)) }
    ensures named { OnOk result (EachName table.now.objects) }
    ensures table { OnOk result (IsTable table.now) }
{
    for i in 0..table.rows().len() {
        write_object(text, table.object(i), &table.rows().get(i))?;
    }
    Ok(())
}

/// Writes the name of an object and its cells.
fn write_object(text: &mut Vec<u8>, name: &Name, row: &Attrs) -> Result<(), Memory>
    ensures written { OnOk result (text.new.items ≡ text.old.items ++ row_text default_writer (object_record name.now row.now)) }
    ensures named { OnOk result (IsName name.now) }
{
    write_field(text, name.bytes())?;
    write_cells(text, row)?;
    text.push(b'\n')?;
    Ok(())
}

/// Writes the cells, a comma before each.
fn write_cells(text: &mut Vec<u8>, row: &Attrs) -> Result<(), Memory>
    ensures { OnOk result (text.new.items ≡ text.old.items ++ cells_text row.now) }
{
    for block in 0..row.width().div_ceil(BLOCK) {
        let from = BLOCK * block;
        let end = row.width().min(from + BLOCK);
        let (cells, size) = cells_of(row, from, end);
        text.extend_from_slice(&cells[..size])?;
    }
    Ok(())
}

/// The cells of the places from `from` to `end`, and their number of bytes. Each comma gets an X behind it, which the next cell overwrites
/// unless it is a cross.
fn cells_of(row: &Attrs, from: u32, end: u32) -> ([u8; 128], usize)
    requires order { from ≤ end }
    requires few { end ≤ from + BLOCK }
    requires inside { end ≤ length row.now }
    ensures cells { take result.1 result.0 ≡ cells_text (take (end - from) (drop from row.now)) }
    ensures few { result.1 ≤ 128 }
{
    let mut cells = [0; 128];
    let mut size = 0;
    for j in 0..end - from {
        cells[size] = b',';
        cells[size + 1] = b'X';
        size += if row.has(from + j) { 2 } else { 1 };
    }
    (cells, size)
}

/// Writes the field, between quotes if it needs them.
fn write_field(text: &mut Vec<u8>, field: &[u8]) -> Result<(), Memory>
    ensures { OnOk result (text.new.items ≡ text.old.items ++ csv.field_text default_writer field.now) }
{
    if needs_quotes(field) {
        return write_quoted(text, field);
    }
    text.extend_from_slice(field)?;
    Ok(())
}

/// Writes the field between quotes, each quote in it twice.
fn write_quoted(text: &mut Vec<u8>, field: &[u8]) -> Result<(), Memory>
    ensures { OnOk result (text.new.items ≡ text.old.items ++ csv.quoted default_writer field.now) }
{
    text.push(b'"')?;
    for byte in field {
        write_escaped(text, *byte)?;
    }
    text.push(b'"')?;
    Ok(())
}

fn write_escaped(text: &mut Vec<u8>, byte: u8) -> Result<(), Memory>
    ensures { OnOk result (text.new.items ≡ text.old.items ++ csv.escaped default_writer (byte ∷ [])) }
{
    if byte == b'"' {
        text.extend_from_slice(b"\"\"")?;
        return Ok(());
    }
    text.push(byte)?;
    Ok(())
}

fn needs_quotes(field: &[u8]) -> bool
    ensures { result ≡ csv.needs_quotes default_writer field.now }
{
    field.iter().any(|byte| is_special(*byte))
}

/// Whether a field with this byte needs quotes.
fn is_special(byte: u8) -> bool
    ensures { result ≡ csv.needs_byte default_writer byte }
{
    byte == b',' || byte == b'"' || byte == b'\r' || byte == b'\n'
}
