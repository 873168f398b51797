//! The fields of one record.

ghost use Rattle.std.specs.Prelude.{◌≡◌, ◌<◌, ◌≤◌, ◌+◌, [], IfOk, IsUtf8, Some, drop, false, length, slice_get, bytes_eq};
ghost use Rattle.std.specs.List.{list_any};
ghost use Rattle.csv.specs.Records.{AllText, fields_of};
ghost use Rattle.csv_context.specs.Lines.{fields_in};
ghost use Rattle.csv_context.specs.Form as form;
ghost use Rattle.text_pieces.specs.Telling.{Tells};

use crate::CsvFault;
use crate::cells::{begin_row, put_cell};
use crate::lines::next_field;
use attr_bits::Attrs;
use csv::ByteRecord;
use fca_model::{MAX_ATTRIBUTES, Name, NameFault};
use indexmap::IndexSet;
use std::alloc::Global;
use text_pieces::trim;

/// The field at this place, counted from 0.
pub fn field_at(fields: &ByteRecord, place: usize) -> &[u8]
    requires { place < length (fields_of fields.now) }
    ensures { Some result.now ≡ slice_get (fields_of fields.now) place }
{
    match fields.get(place) {
        Some(field) => field,
        None => unreachable!(),
    }
}

/// The field as text.
pub fn as_text(field: &[u8]) -> &str
    requires { IsUtf8 field.now }
    ensures { result.now ≡ field.now }
{
    match str::from_utf8(field) {
        Ok(text) => text,
        Err(_) => unreachable!(),
    }
}

/// The name in field `j` of record `i`.
pub fn name_of(alloc: Global, i: usize, j: usize, field: &[u8]) -> Result<Name, CsvFault>
    requires { IsUtf8 field.now }
    ensures { Tells CsvFault.Memory result (form.name_form i j field.now) }
{
    match Name::new(alloc, as_text(field)) {
        Ok(name) => Ok(name),
        Err(NameFault::Empty) => Err(CsvFault::EmptyName(i, j)),
        Err(NameFault::Long) => Err(CsvFault::LongName(i, j)),
        Err(NameFault::Line) => Err(CsvFault::BadName(i, j)),
        Err(NameFault::Memory) => Err(CsvFault::Memory),
    }
}

/// The name of an attribute in field `j` of record 1. It refuses one that was seen.
pub fn attribute_of(
    alloc: Global,
    seen: &IndexSet<Name>,
    j: usize,
    field: &[u8],
) -> Result<Name, CsvFault>
    requires { IsUtf8 field.now }
    ensures form { Tells CsvFault.Memory result (form.attribute_form seen.now.keys j field.now) }
    ensures new { IfOk result (λ name. list_any (bytes_eq name) seen.now.keys ≡ false) }
{
    let name = name_of(alloc, 1, j, field)?;
    if seen.contains(&name) {
        return Err(CsvFault::DuplicateAttribute(j));
    }
    Ok(name)
}

/// Whether the cell is a cross, or `None` if the text is no cell.
fn cross_of(cell: &[u8]) -> Option<bool>
    ensures { result ≡ form.cross_of cell.now }
{
    match cell {
        [b'X' | b'x' | b'1'] => Some(true),
        [] | [b'.' | b'0'] => Some(false),
        _ => None,
    }
}

/// Whether field `j` of record `i` is a cross.
pub fn cell_of(i: usize, j: usize, field: &[u8]) -> Result<bool, CsvFault>
    ensures { result ≡ form.cell_form i j field.now }
{
    match cross_of(trim(field)) {
        Some(cross) => Ok(cross),
        None => Err(CsvFault::BadCell(i, j)),
    }
}

/// The row in the cells on the line of record `i`, those behind its first field.
pub fn row_in(width: u32, i: usize, line: &[u8]) -> Result<Attrs, CsvFault>
    requires few { width ≤ MAX_ATTRIBUTES }
    requires whole { length (fields_in line.now) ≡ width + 1 }
    ensures form { result ≡ form.row_form i 2 [] (drop 1 (fields_in line.now)) }
    ensures wide { IfOk result (λ row. length row ≡ width) }
{
    let (_, behind) = next_field(line);
    match behind {
        Some(cells) => row_of_cells(width, i, cells),
        None => Ok(Attrs::empty(width)),
    }
}

/// The row in cells of record `i`.
fn row_of_cells(width: u32, i: usize, cells: &[u8]) -> Result<Attrs, CsvFault>
    requires few { width ≤ MAX_ATTRIBUTES }
    requires whole { length (fields_in cells.now) ≡ width }
    ensures form { result ≡ form.row_form i 2 [] (fields_in cells.now) }
    ensures wide { IfOk result (λ row. length row ≡ width) }
{
    let start = begin_row(width, cells);
    let mut row = start.row;
    let mut left = Some(start.left);
    for place in start.place..width {
        let Some(rest) = left else { unreachable!() };
        let (field, behind) = next_field(rest);
        let cross = cell_of(i, place as usize + 2, field)?;
        put_cell(&mut row, place, cross);
        left = behind;
    }
    Ok(row)
}

/// The row in the cells of record `i`, those behind its first field.
pub fn row_of(width: u32, i: usize, fields: &ByteRecord) -> Result<Attrs, CsvFault>
    requires few { width ≤ MAX_ATTRIBUTES }
    requires whole { length (fields_of fields.now) ≡ width + 1 }
    ensures form { result ≡ form.row_form i 2 [] (drop 1 (fields_of fields.now)) }
    ensures wide { IfOk result (λ row. length row ≡ width) }
{
    let mut row = Attrs::empty(width);
    for place in 0..width {
        let field = field_at(fields, place as usize + 1);
        let cross = cell_of(i, place as usize + 2, field)?;
        put_cell(&mut row, place, cross);
    }
    Ok(row)
}
