//! The reader of tables.

ghost use Rattle.std.specs.Prelude.{◌≡◌, ◌<◌, ◌≤◌, ◌+◌, [], IfOk, None, Ok, OnOk, drop, length, vec_len};
ghost use Rattle.csv.specs.Records.{AllText, fields_of};
ghost use Rattle.csv_context.specs.Records.{IsOpenReader, csv_records, records_left};
ghost use Rattle.context_table.specs.Table.{first_repeat};
ghost use Rattle.csv_context.specs.Lines.{IsUnquoted, fields_in, records_in};
ghost use Rattle.csv_context.specs.Form as form;
ghost use Rattle.text_pieces.specs.Telling.{Tells, TellsBy};

use crate::CsvFault;
use crate::fields::{attribute_of, field_at, name_of, row_in, row_of};
use crate::lines::{commas_in, next_field, next_line, read_fields, unquoted_bytes};
use crate::records::{next_record, open};
use attr_bits::Attrs;
use context_table::{Table, TableFault};
use csv::{ByteRecord, Reader};
use derivation::Rows;
use fca_model::{MAX_ATTRIBUTES, MAX_OBJECTS, Name};
use indexmap::IndexSet;
use std::alloc::Global;

/// An object with its row.
#[derive(Drop)]
pub struct Object {
    name: Name,
    row: Attrs,
}

/// Objects with their rows.
#[derive(Drop)]
pub struct Objects {
    names: Vec<Name>,
    rows: Rows,
}

/// Reads the table that the bytes of a file write.
pub fn read_csv(alloc: Global, bytes: &[u8]) -> Result<Table, CsvFault>
    ensures { Tells CsvFault.Memory result (form.csv_form bytes.now) }
{
    match str::from_utf8(bytes) {
        Ok(text) => read_text(alloc, text),
        Err(fault) => Err(CsvFault::NotUtf8(fault.valid_up_to())),
    }
}

fn read_text(alloc: Global, text: &str) -> Result<Table, CsvFault>
    ensures { Tells CsvFault.Memory result (form.table_form (csv_records text.now)) }
{
    match unquoted_bytes(text) {
        Some(bytes) => read_lines(alloc, bytes),
        None => read_records(alloc, text),
    }
}

/// Reads the table whose records are lines.
fn read_lines(alloc: Global, bytes: &[u8]) -> Result<Table, CsvFault>
    requires { IsUnquoted bytes.now }
    ensures { Tells CsvFault.Memory result (form.table_form (records_in bytes.now)) }
{
    let Some((header, rest)) = next_line(bytes) else {
        return Err(CsvFault::NoHeader);
    };
    let mut fields = ByteRecord::new(alloc);
    read_fields(&mut fields, header)?;
    let attributes = read_header(alloc, &fields)?;
    let objects = read_object_lines(alloc, attributes.len() as u32, rest)?;
    table_of(alloc, attributes, objects)
}

fn read_records(alloc: Global, text: &str) -> Result<Table, CsvFault>
    ensures { Tells CsvFault.Memory result (form.table_form (csv_records text.now)) }
{
    let mut reader = open(alloc, text);
    read_left(alloc, &mut reader)
}

/// Reads the table of the records that the reader has left.
fn read_left(alloc: Global, reader: &mut Reader<&[u8]>) -> Result<Table, CsvFault>
    requires { IsOpenReader reader.old }
    ensures { Tells CsvFault.Memory result (form.table_form (records_left reader.old)) }
{
    let mut record = ByteRecord::new(alloc);
    if !next_record(reader, &mut record)? {
        return Err(CsvFault::NoHeader);
    }
    let attributes = read_header(alloc, &record)?;
    let objects = read_objects(alloc, attributes.len() as u32, reader)?;
    table_of(alloc, attributes, objects)
}

/// The table of these attributes and objects. It has no title.
fn table_of(alloc: Global, attributes: Vec<Name>, objects: Objects) -> Result<Table, CsvFault>
    requires few_attributes { vec_len attributes ≤ MAX_ATTRIBUTES }
    requires differing { first_repeat attributes.items ≡ None }
    requires few_objects { vec_len objects.names ≤ MAX_OBJECTS }
    requires counted { vec_len objects.names ≡ length objects.rows.rows }
    requires width { objects.rows.width ≡ vec_len attributes }
    ensures { Tells CsvFault.Memory result (Ok (record { title = None; objects = objects.names.items; attributes = attributes.items; context = objects.rows })) }
{
    match Table::new(alloc, None, objects.names, attributes, objects.rows) {
        Ok(table) => Ok(table),
        Err(TableFault::Memory) => Err(CsvFault::Memory),
        Err(TableFault::TooMany | TableFault::DuplicateAttribute(_)) => unreachable!(),
    }
}

/// Reads the names of the attributes.
fn read_header(alloc: Global, fields: &ByteRecord) -> Result<Vec<Name>, CsvFault>
    requires { AllText (fields_of fields.now) }
    ensures form { TellsBy CsvFault.Memory (λ names. names.items) result (form.header_form (fields_of fields.now)) }
    ensures few { IfOk result (λ names. vec_len names ≤ MAX_ATTRIBUTES) }
    ensures differing { IfOk result (λ names. first_repeat names.items ≡ None) }
{
    if fields.is_empty() {
        return Err(CsvFault::NoHeader);
    }
    if fields.len() - 1 > MAX_ATTRIBUTES as usize {
        return Err(CsvFault::TooManyAttributes);
    }
    let names = read_attributes(alloc, fields)?;
    Ok(names.into_iter().collect(alloc)?)
}

/// Reads attribute names in their order. They are looked up by hash.
fn read_attributes(alloc: Global, fields: &ByteRecord) -> Result<IndexSet<Name>, CsvFault>
    requires text { AllText (fields_of fields.now) }
    requires some { 0 < length (fields_of fields.now) }
    ensures form { TellsBy CsvFault.Memory (λ names. names.keys) result (form.attributes_form [] 2 (drop 1 (fields_of fields.now))) }
    ensures counted { IfOk result (λ names. length names.keys + 1 ≡ length (fields_of fields.now)) }
    ensures differing { IfOk result (λ names. first_repeat names.keys ≡ None) }
{
    let mut names = IndexSet::new(alloc);
    for place in 1..fields.len() {
        let field = field_at(fields, place);
        names.insert(attribute_of(alloc, &names, place + 1, field)?)?;
    }
    Ok(names)
}

fn read_objects(alloc: Global, width: u32, reader: &mut Reader<&[u8]>) -> Result<Objects, CsvFault>
    requires open { IsOpenReader reader.old }
    requires few { width ≤ MAX_ATTRIBUTES }
    ensures form { TellsBy CsvFault.Memory (λ objects. (objects.names.items, objects.rows.rows)) result (form.objects_form width 2 ([], []) (records_left reader.old)) }
    ensures few { IfOk result (λ objects. vec_len objects.names ≤ MAX_OBJECTS) }
    ensures counted { IfOk result (λ objects. vec_len objects.names ≡ length objects.rows.rows) }
    ensures width { IfOk result (λ objects. objects.rows.width ≡ width) }
{
    let mut names = Vec::new(alloc);
    let mut rows = Rows::new(alloc, width)?;
    let mut record = ByteRecord::new(alloc);
    while next_record(reader, &mut record)? {
        let object = read_object(alloc, width, names.len() + 2, &record)?;
        names.push(object.name)?;
        rows.push(object.row)?;
    }
    Ok(Objects { names, rows })
}

/// Reads the objects whose records are lines.
fn read_object_lines(alloc: Global, width: u32, bytes: &[u8]) -> Result<Objects, CsvFault>
    requires unquoted { IsUnquoted bytes.now }
    requires few { width ≤ MAX_ATTRIBUTES }
    ensures form { TellsBy CsvFault.Memory (λ objects. (objects.names.items, objects.rows.rows)) result (form.objects_form width 2 ([], []) (records_in bytes.now)) }
    ensures few { IfOk result (λ objects. vec_len objects.names ≤ MAX_OBJECTS) }
    ensures counted { IfOk result (λ objects. vec_len objects.names ≡ length objects.rows.rows) }
    ensures width { IfOk result (λ objects. objects.rows.width ≡ width) }
{
    let mut names = Vec::new(alloc);
    let mut rows = Rows::new(alloc, width)?;
    let mut left = bytes;
    while let Some((line, behind)) = next_line(left) {
        let object = read_line(alloc, width, names.len() + 2, line)?;
        names.push(object.name)?;
        rows.push(object.row)?;
        left = behind;
    }
    Ok(Objects { names, rows })
}

/// Reads the object on the line of record `i`.
fn read_line(alloc: Global, width: u32, i: usize, line: &[u8]) -> Result<Object, CsvFault>
    requires few { width ≤ MAX_ATTRIBUTES }
    requires text { AllText (fields_in line.now) }
    ensures form { Tells CsvFault.Memory result (form.object_form width i (fields_in line.now)) }
    ensures wide { IfOk result (λ object. length object.row ≡ width) }
    ensures within { OnOk result (i ≤ MAX_OBJECTS + 1) }
{
    if i > MAX_OBJECTS + 1 {
        return Err(CsvFault::TooManyObjects);
    }
    if commas_in(line) != width as usize {
        return Err(CsvFault::RaggedRecord(i));
    }
    let (field, _) = next_field(line);
    let name = name_of(alloc, i, 1, field)?;
    let row = row_in(width, i, line)?;
    Ok(Object { name, row })
}

/// Reads the object in record `i`.
fn read_object(alloc: Global, width: u32, i: usize, fields: &ByteRecord) -> Result<Object, CsvFault>
    requires few { width ≤ MAX_ATTRIBUTES }
    requires text { AllText (fields_of fields.now) }
    ensures form { Tells CsvFault.Memory result (form.object_form width i (fields_of fields.now)) }
    ensures wide { IfOk result (λ object. length object.row ≡ width) }
    ensures within { OnOk result (i ≤ MAX_OBJECTS + 1) }
{
    if i > MAX_OBJECTS + 1 {
        return Err(CsvFault::TooManyObjects);
    }
    if fields.len() != width as usize + 1 {
        return Err(CsvFault::RaggedRecord(i));
    }
    let name = name_of(alloc, i, 1, field_at(fields, 0))?;
    let row = row_of(width, i, fields)?;
    Ok(Object { name, row })
}
