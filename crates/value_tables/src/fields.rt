//! The fields of one record.

ghost use Rattle.std.specs.Prelude.{◌≡◌, ◌<◌, ◌≤◌, ◌+◌, [], None, IfOk, length, drop, slice_index_or};
ghost use Rattle.fca_model.specs.Names.{is_line_break, name_fault};
ghost use Rattle.std.specs.List.{list_any};
ghost use Rattle.csv.specs.Records.{AllText, fields_of};
ghost use Rattle.value_tables.specs.Form.{is_field, is_name, first_bad};

use crate::numbers::number_of;
use csv::ByteRecord;
use csv_context::{as_text, field_at};
use fca_model::{MAX_NAME_BYTES, Memory, Name, NameFault};
use std::alloc::Global;

/// The kinds of fields.
#[derive(Clone, Copy, Debug, PartialEq, Eq)]
pub enum FieldKind {
    /// A name.
    Name,
    /// A name, or nothing.
    Value,
    /// A number.
    Number,
}

impl FieldKind {
    /// Whether the field is of this kind.
    pub fn admits(self, field: &[u8]) -> bool
        ensures { result ≡ is_field self field.now }
    {
        match self {
            FieldKind::Name => is_name(field),
            FieldKind::Value => field.is_empty() || is_name(field),
            FieldKind::Number => number_of(field).is_some(),
        }
    }
}

fn is_name(field: &[u8]) -> bool
    ensures { result ≡ is_name field.now }
{
    if field.is_empty() {
        return false;
    }
    if field.len() > MAX_NAME_BYTES {
        return false;
    }
    !has_line_break(field)
}

pub(crate) fn has_line_break(field: &[u8]) -> bool
    ensures { result ≡ list_any is_line_break field.now }
{
    field.iter().any(|byte| *byte == b'\n' || *byte == b'\r')
}

/// The number of the first field from this place on that is not of this kind. Places are counted from 0,
/// and fields are numbered from 1.
pub fn first_bad(kind: FieldKind, fields: &ByteRecord, from: usize) -> Option<usize>
    requires { from ≤ length (fields_of fields.now) }
    ensures { result ≡ first_bad kind (from + 1) (drop from (fields_of fields.now)) }
{
    for place in from..fields.len() {
        if !kind.admits(field_at(fields, place)) {
            return Some(place + 1);
        }
    }
    None
}

/// The name at this place.
pub fn name_at(alloc: Global, fields: &ByteRecord, place: usize) -> Result<Name, Memory>
    requires text { AllText (fields_of fields.now) }
    requires place { place < length (fields_of fields.now) }
    requires faultless { name_fault (slice_index_or (fields_of fields.now) place []) ≡ None }
    ensures { IfOk result (λ name. name ≡ slice_index_or (fields_of fields.now) place []) }
{
    name_of(alloc, as_text(field_at(fields, place)))
}

/// The name with this text, which has no fault.
pub(crate) fn name_of(alloc: Global, text: &str) -> Result<Name, Memory>
    requires { name_fault text.now ≡ None }
    ensures { IfOk result (λ name. name ≡ text.now) }
{
    match Name::new(alloc, text) {
        Ok(name) => Ok(name),
        Err(NameFault::Memory) => Err(Memory),
        Err(_) => unreachable!(),
    }
}
