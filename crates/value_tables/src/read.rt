//! The reader.

ghost use Rattle.std.specs.Prelude.{◌≡◌, ◌<◌, ◌≤◌, ◌+◌, ◌*◌, ◌++◌, [], true, false, IfOk, IsUtf8, OnOk, None, MatchResult, Ok, Err, drop};
ghost use Rattle.std.specs.Prelude.{length, slice_index_or, sum, vec_len};
ghost use Rattle.context_table.specs.Table.{first_repeat};
ghost use Rattle.csv.specs.Records.{AllText, fields_of};
ghost use Rattle.csv_context.specs.Records.{IsOpenReader, csv_records, records_left};
ghost use Rattle.csv_context.specs.Lines.{IsUnquoted, fields_in, records_in};
ghost use Rattle.fca_model.specs.Names.{is_line_break, name_fault};
ghost use Rattle.std.specs.List.{list_any};
ghost use Rattle.value_tables.specs.Cells.{AreCells, PutsObject, cut, objects_of, texts};
ghost use Rattle.value_tables.specs.Form as form;
ghost use Rattle.text_pieces.specs.Telling.{Tells, TellsBy};

use crate::ValuesFault;
use crate::cells::Cells;
use crate::fields::{FieldKind, first_bad, has_line_break, name_at, name_of};
use crate::pieces::pieces_of;
use crate::values::Values;
use csv::{ByteRecord, Reader};
use csv_context::{as_text, field_at, next_line, next_record, open, read_fields, unquoted_bytes};
use fca_model::{MAX_ATTRIBUTES, MAX_NAME_BYTES, MAX_OBJECTS, Memory, Name};
use indexmap::IndexSet;
use std::alloc::Global;

/// Objects with their values.
#[derive(Drop)]
pub struct Objects {
    names: Vec<Name>,
    cells: Cells,
}

/// The table of values that the bytes of a file write.
pub fn read_values(alloc: Global, bytes: &[u8]) -> Result<Values, ValuesFault>
    ensures { Tells ValuesFault.Memory result (form.values_form bytes.now) }
{
    match str::from_utf8(bytes) {
        Ok(text) => read_text(alloc, text),
        Err(fault) => Err(ValuesFault::NotUtf8(fault.valid_up_to())),
    }
}

fn read_text(alloc: Global, text: &str) -> Result<Values, ValuesFault>
    ensures { Tells ValuesFault.Memory result (form.table_form (csv_records text.now)) }
{
    match unquoted_bytes(text) {
        Some(bytes) => read_lines(alloc, bytes),
        None => read_records(alloc, text),
    }
}

/// The table of values whose records are lines.
fn read_lines(alloc: Global, bytes: &[u8]) -> Result<Values, ValuesFault>
    requires { IsUnquoted bytes.now }
    ensures { Tells ValuesFault.Memory result (form.table_form (records_in bytes.now)) }
{
    let Some((header, rest)) = next_line(bytes) else {
        return Err(ValuesFault::NoHeader);
    };
    let mut fields = ByteRecord::new(alloc);
    read_fields(&mut fields, header)?;
    let attributes = read_header(alloc, &fields)?;
    let objects = read_object_lines(alloc, attributes.len(), rest)?;
    Ok(Values::of(attributes, objects.names, objects.cells))
}

fn read_records(alloc: Global, text: &str) -> Result<Values, ValuesFault>
    ensures { Tells ValuesFault.Memory result (form.table_form (csv_records text.now)) }
{
    let mut reader = open(alloc, text);
    read_left(alloc, &mut reader)
}

/// The table of the records that the reader has left.
fn read_left(alloc: Global, reader: &mut Reader<&[u8]>) -> Result<Values, ValuesFault>
    requires { IsOpenReader reader.old }
    ensures { Tells ValuesFault.Memory result (form.table_form (records_left reader.old)) }
{
    let mut record = ByteRecord::new(alloc);
    if !next_record(reader, &mut record)? {
        return Err(ValuesFault::NoHeader);
    }
    let attributes = read_header(alloc, &record)?;
    let objects = read_objects(alloc, attributes.len(), reader)?;
    Ok(Values::of(attributes, objects.names, objects.cells))
}

/// The names of the attributes.
fn read_header(alloc: Global, fields: &ByteRecord) -> Result<IndexSet<Name>, ValuesFault>
    requires { AllText (fields_of fields.now) }
    ensures form { TellsBy ValuesFault.Memory (λ names. names.keys) result (form.header_form (fields_of fields.now)) }
    ensures few { IfOk result (λ names. length names.keys ≤ MAX_ATTRIBUTES) }
    ensures differing { IfOk result (λ names. first_repeat names.keys ≡ None) }
{
    if fields.len() > MAX_ATTRIBUTES as usize + 1 {
        return Err(ValuesFault::TooMany(1));
    }
    if fields.is_empty() {
        return Err(ValuesFault::RaggedRecord(1));
    }
    if let Some(j) = first_bad(FieldKind::Name, fields, 1) {
        return Err(ValuesFault::BadField(1, j));
    }
    read_attributes(alloc, fields)
}

/// Attribute names in their order, looked up by hash.
fn read_attributes(alloc: Global, fields: &ByteRecord) -> Result<IndexSet<Name>, ValuesFault>
    requires text { AllText (fields_of fields.now) }
    requires some { 0 < length (fields_of fields.now) }
    requires names { form.first_bad FieldKind.Name 2 (drop 1 (fields_of fields.now)) ≡ None }
    ensures form { TellsBy ValuesFault.Memory (λ names. names.keys) result (form.names_form (drop 1 (fields_of fields.now))) }
    ensures differing { IfOk result (λ names. first_repeat names.keys ≡ None) }
{
    let mut names = IndexSet::new(alloc);
    for place in 1..fields.len() {
        let (_, added) = names.insert_full(name_at(alloc, fields, place)?)?;
        if !added {
            return Err(ValuesFault::DuplicateAttribute(place + 1));
        }
    }
    Ok(names)
}

fn read_objects(
    alloc: Global,
    width: usize,
    reader: &mut Reader<&[u8]>,
) -> Result<Objects, ValuesFault>
    requires open { IsOpenReader reader.old }
    requires few { width ≤ MAX_ATTRIBUTES }
    ensures form { TellsBy ValuesFault.Memory (λ objects. objects_of width objects.names.items (texts objects.cells)) result (form.objects_form width 2 [] (records_left reader.old)) }
    ensures few { IfOk result (λ objects. length objects.names.items ≤ MAX_OBJECTS) }
    ensures cells { IfOk result (λ objects. AreCells objects.cells) }
    ensures even { IfOk result (λ objects. length (texts objects.cells) ≡ length objects.names.items * width) }
{
    let mut names = Vec::new(alloc);
    let mut cells = Cells::new(alloc);
    let mut record = ByteRecord::new(alloc);
    while next_record(reader, &mut record)? {
        let i = names.len() + 2;
        names.push(read_object(alloc, width, i, &record, &mut cells)?)?;
    }
    Ok(Objects { names, cells })
}

/// The objects whose records are lines.
fn read_object_lines(alloc: Global, width: usize, bytes: &[u8]) -> Result<Objects, ValuesFault>
    requires unquoted { IsUnquoted bytes.now }
    requires few { width ≤ MAX_ATTRIBUTES }
    ensures form { TellsBy ValuesFault.Memory (λ objects. objects_of width objects.names.items (texts objects.cells)) result (form.objects_form width 2 [] (records_in bytes.now)) }
    ensures few { IfOk result (λ objects. length objects.names.items ≤ MAX_OBJECTS) }
    ensures cells { IfOk result (λ objects. AreCells objects.cells) }
    ensures even { IfOk result (λ objects. length (texts objects.cells) ≡ length objects.names.items * width) }
{
    let mut names = Vec::new(alloc);
    let mut cells = Cells::new(alloc);
    let mut fields = ByteRecord::new(alloc);
    let mut left = bytes;
    while let Some((line, behind)) = next_line(left) {
        let i = names.len() + 2;
        names.push(read_line(alloc, width, i, line, &mut cells, &mut fields)?)?;
        left = behind;
    }
    Ok(Objects { names, cells })
}

/// Appends the values of the object on the line of record `i`, and returns its name.
fn read_line(
    alloc: Global,
    width: usize,
    i: usize,
    line: &[u8],
    cells: &mut Cells,
    fields: &mut ByteRecord,
) -> Result<Name, ValuesFault>
    requires few { width ≤ MAX_ATTRIBUTES }
    requires cells { AreCells cells.old }
    requires text { AllText (fields_in line.now) }
    requires unbroken { list_any is_line_break line.now ≡ false }
    ensures form { TellsBy ValuesFault.Memory (λ _. form.object_of (fields_in line.now)) result (form.object_form width i (fields_in line.now)) }
    ensures name { IfOk result (λ name. name ≡ slice_index_or (fields_in line.now) 0 []) }
    ensures puts { OnOk result (PutsObject width i (fields_in line.now) cells.old cells.new) }
{
    if line.len() > MAX_NAME_BYTES {
        return read_by_fields(alloc, width, i, line, cells, fields);
    }
    let pieces = pieces_of(line);
    if !may_be_object(width, i, pieces.lengths()) {
        return read_by_fields(alloc, width, i, line, cells, fields);
    }
    Ok(put_pieces(alloc, pieces.text(), pieces.lengths(), cells)?)
}

/// Whether the pieces of a short line may be the object in record `i`: a name, and a value for each attribute.
fn may_be_object(width: usize, i: usize, lengths: &[u8]) -> bool
    requires { width ≤ MAX_ATTRIBUTES }
    ensures within { result ≡ true → i ≤ MAX_OBJECTS + 1 }
    ensures whole { result ≡ true → length lengths.now ≡ width + 1 }
    ensures named { result ≡ true → 0 < slice_index_or lengths.now 0 0 }
{
    if i > MAX_OBJECTS + 1 {
        return false;
    }
    if lengths.len() != width + 1 {
        return false;
    }
    lengths[0] > 0
}

/// Appends the pieces behind the first as values, and returns the first as a name. The pieces have these lengths and make up the text.
fn put_pieces(alloc: Global, text: &[u8], lengths: &[u8], cells: &mut Cells) -> Result<Name, Memory>
    requires cells { AreCells cells.old }
    requires whole { sum lengths.now ≡ length text.now }
    requires some { 0 < length lengths.now }
    requires text { IsUtf8 (slice_index_or (cut lengths.now text.now) 0 []) }
    requires faultless { name_fault (slice_index_or (cut lengths.now text.now) 0 []) ≡ None }
    ensures name { IfOk result (λ name. name ≡ slice_index_or (cut lengths.now text.now) 0 []) }
    ensures cells { OnOk result (AreCells cells.new) }
    ensures texts { OnOk result (texts cells.new ≡ texts cells.old ++ drop 1 (cut lengths.now text.now)) }
{
    let end = lengths[0] as usize;
    let name = name_of(alloc, as_text(&text[..end]))?;
    cells.push_all(&text[end..], &lengths[1..])?;
    Ok(name)
}

/// Reads the line of record `i` field by field, appends the values of the object, and returns its name.
fn read_by_fields(
    alloc: Global,
    width: usize,
    i: usize,
    line: &[u8],
    cells: &mut Cells,
    fields: &mut ByteRecord,
) -> Result<Name, ValuesFault>
    requires few { width ≤ MAX_ATTRIBUTES }
    requires cells { AreCells cells.old }
    requires text { AllText (fields_in line.now) }
    ensures form { TellsBy ValuesFault.Memory (λ _. form.object_of (fields_in line.now)) result (form.object_form width i (fields_in line.now)) }
    ensures name { IfOk result (λ name. name ≡ slice_index_or (fields_in line.now) 0 []) }
    ensures puts { OnOk result (PutsObject width i (fields_in line.now) cells.old cells.new) }
{
    read_fields(fields, line)?;
    read_object(alloc, width, i, fields, cells)
}

/// Appends the values of the object in record `i`, and returns its name.
fn read_object(
    alloc: Global,
    width: usize,
    i: usize,
    fields: &ByteRecord,
    cells: &mut Cells,
) -> Result<Name, ValuesFault>
    requires few { width ≤ MAX_ATTRIBUTES }
    requires cells { AreCells cells.old }
    requires text { AllText (fields_of fields.now) }
    ensures form { TellsBy ValuesFault.Memory (λ _. form.object_of (fields_of fields.now)) result (form.object_form width i (fields_of fields.now)) }
    ensures name { IfOk result (λ name. name ≡ slice_index_or (fields_of fields.now) 0 []) }
    ensures puts { OnOk result (PutsObject width i (fields_of fields.now) cells.old cells.new) }
{
    check_object(width, i, fields)?;
    let name = name_at(alloc, fields, 0)?;
    push_values(cells, fields)?;
    Ok(name)
}

/// Whether record `i` is an object.
fn check_object(width: usize, i: usize, fields: &ByteRecord) -> Result<(), ValuesFault>
    requires { width ≤ MAX_ATTRIBUTES }
    ensures form { TellsBy ValuesFault.Memory (λ _. form.object_of (fields_of fields.now)) result (form.object_form width i (fields_of fields.now)) }
    ensures within { OnOk result (i ≤ MAX_OBJECTS + 1) }
    ensures whole { OnOk result (length (fields_of fields.now) ≡ width + 1) }
    ensures good { OnOk result (form.bad_field (fields_of fields.now) ≡ None) }
{
    if i > MAX_OBJECTS + 1 {
        return Err(ValuesFault::TooMany(i));
    }
    if fields.len() != width + 1 {
        return Err(ValuesFault::RaggedRecord(i));
    }
    match bad_field(fields) {
        Some(j) => Err(ValuesFault::BadField(i, j)),
        None => Ok(()),
    }
}

/// The first field of an object that is no name or no value in its place.
fn bad_field(fields: &ByteRecord) -> Option<usize>
    requires { 0 < length (fields_of fields.now) }
    ensures { result ≡ form.bad_field (fields_of fields.now) }
{
    if are_all_good(fields) {
        return None;
    }
    if FieldKind::Name.admits(field_at(fields, 0)) {
        first_bad(FieldKind::Value, fields, 1)
    } else {
        Some(1)
    }
}

/// Whether the record as one text shows that its first field is a name and the others are values. A long record never does.
fn are_all_good(fields: &ByteRecord) -> bool
    requires { 0 < length (fields_of fields.now) }
    ensures { result ≡ true → form.bad_field (fields_of fields.now) ≡ None }
{
    let text = fields.as_slice();
    if text.len() > MAX_NAME_BYTES {
        return false;
    }
    if field_at(fields, 0).is_empty() {
        return false;
    }
    !has_line_break(text)
}

/// Appends the values of an object.
fn push_values(cells: &mut Cells, fields: &ByteRecord) -> Result<(), Memory>
    requires cells { AreCells cells.old }
    requires some { 0 < length (fields_of fields.now) }
    requires good { form.bad_field (fields_of fields.now) ≡ None }
    ensures cells { OnOk result (AreCells cells.new) }
    ensures texts { OnOk result (texts cells.new ≡ texts cells.old ++ drop 1 (fields_of fields.now)) }
{
    for place in 1..fields.len() {
        cells.push(field_at(fields, place))?;
    }
    Ok(())
}
