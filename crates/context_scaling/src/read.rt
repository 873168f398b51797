//! The reader of plans.

ghost use Rattle.std.specs.Prelude.{◌≡◌, ◌<◌, ◌≤◌, ◌+◌, ◌++◌, [], All, IfOk, OnOk, None, Some, bytes_eq, drop, false, length, map, not};
ghost use Rattle.std.specs.Prelude.{slice_get, slice_index_or, string_bytes, true};
ghost use Rattle.std.specs.List.{list_any, position_from};
ghost use Rattle.context_table.specs.Table.{first_repeat};
ghost use Rattle.fca_model.specs.Names.{name_fault};
ghost use Rattle.csv.specs.Records.{AllText, fields_of};
ghost use Rattle.csv_context.specs.Records.{IsOpenReader, csv_records, records_left};
ghost use Rattle.text_pieces.specs.Telling.{Tells, TellsBy};
ghost use Rattle.value_tables.specs.Values.{column};
ghost use Rattle.value_tables.specs.Form.{first_bad, is_field};
ghost use Rattle.context_scaling.specs.Scaling.{Fits, FitsBehind, each_relation, is_scalable, made_name, names_of, sign};
ghost use Rattle.context_scaling.specs.PlanForm as form;

use crate::PlanFault;
use crate::plan::{Plan, PlanRecord};
use crate::scales::{Kind, Relation, ScaleValue};
use csv::{ByteRecord, Reader};
use csv_context::{field_at, next_record, open};
use fca_model::{MAX_ATTRIBUTES, Memory, Name, NameFault};
use indexmap::IndexSet;
use itoa::Buffer;
use std::alloc::Global;
use value_tables::{FieldKind, Values, first_bad, name_at, number_of};

/// An attribute of a table of values: its name and its place.
#[derive(Drop)]
pub struct FoundAttribute {
    name: Name,
    place: usize,
}

/// The plan that the bytes of a file write for the values.
pub fn read_plan(alloc: Global, bytes: &[u8], values: &Values) -> Result<Plan, PlanFault>
    ensures form { Tells PlanFault.Memory result (form.plan_form values.now bytes.now) }
    ensures fits { IfOk result (λ plan. Fits plan values.now) }
{
    match str::from_utf8(bytes) {
        Ok(text) => read_text(alloc, text, values),
        Err(fault) => Err(PlanFault::NotUtf8(fault.valid_up_to())),
    }
}

fn read_text(alloc: Global, text: &str, values: &Values) -> Result<Plan, PlanFault>
    ensures form { Tells PlanFault.Memory result (form.records_form values.now 1 [] (csv_records text.now)) }
    ensures fits { IfOk result (λ plan. Fits plan values.now) }
{
    let mut reader = open(alloc, text);
    read_left(alloc, &mut reader, values)
}

/// The plan of the records that the reader has left.
fn read_left(alloc: Global, reader: &mut Reader<&[u8]>, values: &Values) -> Result<Plan, PlanFault>
    requires { IsOpenReader reader.old }
    ensures form { Tells PlanFault.Memory result (form.records_form values.now 1 [] (records_left reader.old)) }
    ensures fits { IfOk result (λ plan. Fits plan values.now) }
{
    let mut fields = ByteRecord::new(alloc);
    let mut records = Vec::new(alloc);
    let mut names = IndexSet::new(alloc);
    while next_record(reader, &mut fields)? {
        let planned = read_record(alloc, values, records.len() + 1, &fields, &mut names)?;
        records.push(planned)?;
    }
    Ok(Plan::of(records, names))
}

/// Reads the scaling in record `i`, and adds the names that it makes.
fn read_record(
    alloc: Global,
    values: &Values,
    i: usize,
    fields: &ByteRecord,
    names: &mut IndexSet<Name>,
) -> Result<PlanRecord, PlanFault>
    requires { AllText (fields_of fields.now) }
    ensures form { Tells PlanFault.Memory result (form.record_form values.now i names.old.keys (fields_of fields.now)) }
    ensures names { IfOk result (λ s. names.new.keys ≡ names.old.keys ++ names_of s) }
    ensures fits { IfOk result (FitsBehind names.old.keys values.now) }
{
    let kind = kind_at(i, fields)?;
    let found = attribute_at(alloc, values, i, fields)?;
    if let Some(j) = first_bad(field_kind(kind), fields, 2) {
        return Err(PlanFault::BadScale(i, j));
    }
    if let Some(r) = first_unscalable(values, kind, found.place) {
        return Err(PlanFault::BadValue(i, r));
    }
    let scale = scale_values(alloc, kind, fields)?;
    put_names(alloc, names, i, kind, &found.name, &scale)?;
    if names.len() > MAX_ATTRIBUTES as usize {
        return Err(PlanFault::TooMany(i));
    }
    Ok(PlanRecord {
        kind,
        attribute: found.name,
        place: found.place,
        values: scale,
    })
}

/// The kind of record `i`.
fn kind_at(i: usize, fields: &ByteRecord) -> Result<Kind, PlanFault>
    ensures form { result ≡ form.kind_form i (fields_of fields.now) }
    ensures long { OnOk result (3 ≤ length (fields_of fields.now)) }
{
    if fields.len() < 3 {
        return Err(PlanFault::BadKind(i));
    }
    match kind_of(field_at(fields, 0)) {
        Some(kind) => Ok(kind),
        None => Err(PlanFault::BadKind(i)),
    }
}

/// The kind that the word names.
fn kind_of(word: &[u8]) -> Option<Kind>
    ensures { result ≡ form.kind_of word.now }
{
    if word == b"nominal".as_slice() {
        Some(Kind::Nominal)
    } else if word == b"ordinal".as_slice() {
        Some(Kind::Ordinal)
    } else if word == b"interordinal".as_slice() {
        Some(Kind::Interordinal)
    } else {
        None
    }
}

/// The attribute that record `i` names.
fn attribute_at(
    alloc: Global,
    values: &Values,
    i: usize,
    fields: &ByteRecord,
) -> Result<FoundAttribute, PlanFault>
    requires text { AllText (fields_of fields.now) }
    requires long { 1 < length (fields_of fields.now) }
    ensures form { TellsBy PlanFault.Memory (λ found. found.place) result
        (form.or_fault (PlanFault.UnknownAttribute i) (form.place_of values.now (slice_index_or (fields_of fields.now) 1 []))) }
    ensures name { IfOk result (λ found. found.name ≡ slice_index_or (fields_of fields.now) 1 []) }
    ensures place { IfOk result (λ found. slice_get values.now.attributes found.place ≡ Some found.name) }
{
    if !FieldKind::Name.admits(field_at(fields, 1)) {
        return Err(PlanFault::UnknownAttribute(i));
    }
    let name = name_at(alloc, fields, 1)?;
    match values.attribute(&name) {
        Some(place) => Ok(FoundAttribute { name, place }),
        None => Err(PlanFault::UnknownAttribute(i)),
    }
}

/// The kind of field that the scale values of this kind are.
fn field_kind(kind: Kind) -> FieldKind
    ensures { result ≡ form.field_kind kind }
{
    match kind {
        Kind::Nominal => FieldKind::Name,
        Kind::Ordinal | Kind::Interordinal => FieldKind::Number,
    }
}

/// The first object that has a value of attribute m that is no value of such a scale.
fn first_unscalable(values: &Values, kind: Kind, m: usize) -> Option<usize>
    requires { m < length values.now.attributes }
    ensures { result ≡ position_from (λ text. not (is_scalable kind text)) 0 (column values.now m) }
{
    for g in 0..values.len() {
        if !is_scalable(kind, values.value(g, m)) {
            return Some(g);
        }
    }
    None
}

/// Whether the text is a value of a scale of this kind, or no value.
fn is_scalable(kind: Kind, text: &[u8]) -> bool
    ensures { result ≡ is_scalable kind text.now }
{
    match kind {
        Kind::Nominal => true,
        Kind::Ordinal | Kind::Interordinal => text.is_empty() || number_of(text).is_some(),
    }
}

/// The scale values of a record.
fn scale_values(alloc: Global, kind: Kind, fields: &ByteRecord) -> Result<Vec<ScaleValue>, Memory>
    requires text { AllText (fields_of fields.now) }
    requires long { 2 ≤ length (fields_of fields.now) }
    requires good { first_bad (form.field_kind kind) 3 (drop 2 (fields_of fields.now)) ≡ None }
    ensures { IfOk result (λ values. values.items ≡ map (form.scale_value kind) (drop 2 (fields_of fields.now))) }
{
    let mut values = Vec::new(alloc);
    for place in 2..fields.len() {
        values.push(scale_value(alloc, kind, fields, place)?)?;
    }
    Ok(values)
}

/// The scale value at this place.
fn scale_value(
    alloc: Global,
    kind: Kind,
    fields: &ByteRecord,
    place: usize,
) -> Result<ScaleValue, Memory>
    requires text { AllText (fields_of fields.now) }
    requires place { place < length (fields_of fields.now) }
    requires good { is_field (form.field_kind kind) (slice_index_or (fields_of fields.now) place []) ≡ true }
    ensures { IfOk result (λ value. value ≡ form.scale_value kind (slice_index_or (fields_of fields.now) place [])) }
{
    match kind {
        Kind::Nominal => Ok(ScaleValue::Text(name_at(alloc, fields, place)?)),
        Kind::Ordinal | Kind::Interordinal => {
            Ok(ScaleValue::Number(number_of(field_at(fields, place)).unwrap_or(0)))
        }
    }
}

/// Adds the names that record `i` makes.
fn put_names(
    alloc: Global,
    names: &mut IndexSet<Name>,
    i: usize,
    kind: Kind,
    attribute: &Name,
    values: &[ScaleValue],
) -> Result<(), PlanFault>
    ensures form { TellsBy PlanFault.Memory (λ _. names.new.keys) result (form.names_form i kind attribute.now names.old.keys values.now) }
    ensures names { OnOk result (names.new.keys ≡ names.old.keys ++ each_relation kind (λ r. map (made_name attribute.now r) values.now)) }
    ensures named { OnOk result (All (λ name. name_fault name ≡ None) (each_relation kind (λ r. map (made_name attribute.now r) values.now))) }
    ensures differing { OnOk result (first_repeat names.old.keys ≡ None → first_repeat names.new.keys ≡ None) }
{
    match kind {
        Kind::Nominal => add_names(alloc, names, i, attribute, Relation::Equal, values),
        Kind::Ordinal => add_names(alloc, names, i, attribute, Relation::AtMost, values),
        Kind::Interordinal => {
            add_names(alloc, names, i, attribute, Relation::AtMost, values)?;
            add_names(alloc, names, i, attribute, Relation::AtLeast, values)
        }
    }
}

/// Adds the names that one relation makes.
fn add_names(
    alloc: Global,
    names: &mut IndexSet<Name>,
    i: usize,
    attribute: &Name,
    relation: Relation,
    values: &[ScaleValue],
) -> Result<(), PlanFault>
    ensures form { TellsBy PlanFault.Memory (λ _. names.new.keys) result (form.add_names i attribute.now relation 3 names.old.keys values.now) }
    ensures names { OnOk result (names.new.keys ≡ names.old.keys ++ map (made_name attribute.now relation) values.now) }
    ensures named { OnOk result (All (λ name. name_fault name ≡ None) (map (made_name attribute.now relation) values.now)) }
    ensures differing { OnOk result (first_repeat names.old.keys ≡ None → first_repeat names.new.keys ≡ None) }
{
    for (p, value) in values.iter().enumerate() {
        let text = made_name(alloc, attribute, relation, value)?;
        let name = new_name(alloc, names, i, p + 3, &text)?;
        names.insert(name)?;
    }
    Ok(())
}

/// The name that field `j` of record `i` makes. It refuses one that was seen.
fn new_name(
    alloc: Global,
    seen: &IndexSet<Name>,
    i: usize,
    j: usize,
    text: &str,
) -> Result<Name, PlanFault>
    ensures form { Tells PlanFault.Memory result (form.new_name i j seen.now.keys text.now) }
    ensures new { IfOk result (λ name. list_any (bytes_eq name) seen.now.keys ≡ false) }
    ensures named { IfOk result (λ name. (name ≡ text.now) × (name_fault text.now ≡ None)) }
{
    let name = match Name::new(alloc, text) {
        Ok(name) => name,
        Err(NameFault::Memory) => return Err(PlanFault::Memory),
        Err(_) => return Err(PlanFault::BadName(i, j)),
    };
    if seen.contains(&name) {
        return Err(PlanFault::BadName(i, j));
    }
    Ok(name)
}

/// The name of the attribute for this relation to the scale value, as `age <= 30`.
fn made_name(
    alloc: Global,
    attribute: &Name,
    relation: Relation,
    value: &ScaleValue,
) -> Result<String, Memory>
    ensures { IfOk result (λ text. string_bytes text ≡ made_name attribute.now relation value.now) }
{
    let mut text = String::from_str(alloc, attribute.text())?;
    text.push_str(sign(relation))?;
    match value {
        ScaleValue::Text(word) => text.push_str(word.text())?,
        ScaleValue::Number(number) => text.push_str(Buffer::new().format(*number))?,
    }
    Ok(text)
}

fn sign(relation: Relation) -> &'static str
    ensures { result.now ≡ sign relation }
{
    match relation {
        Relation::Equal => " = ",
        Relation::AtMost => " <= ",
        Relation::AtLeast => " >= ",
    }
}
