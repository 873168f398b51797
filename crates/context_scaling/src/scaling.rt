//! The scaled table.

ghost use Rattle.std.specs.Prelude.{◌≡◌, ◌<◌, ◌≤◌, ◌+◌, ◌++◌, IfOk, length, map, vec_len};
ghost use Rattle.value_tables.specs.Numbers.{number_of};
ghost use Rattle.value_tables.specs.Values.{object_at, value_at};
ghost use Rattle.context_scaling.specs.Scaling.{Fits, made_names, names_of, scale_row, scaled, object_row, stands};

use crate::partial_row::PartialRow;
use crate::plan::{Plan, PlanRecord};
use crate::scales::{Kind, Relation, ScaleValue, stands};
use attr_bits::Attrs;
use context_table::{Table, TableFault};
use derivation::Rows;
use fca_model::{MAX_OBJECTS, Memory, Name};
use std::alloc::Global;
use value_tables::{Values, number_of};

/// The table that the plan makes of the values.
pub fn scale(alloc: Global, values: &Values, plan: &Plan) -> Result<Table, Memory>
    requires { Fits plan.now values.now }
    ensures { IfOk result (λ table. table ≡ scaled values.now plan.now) }
{
    let objects = object_names(alloc, values)?;
    let attributes = copy_names(alloc, plan.names())?;
    let rows = object_rows(alloc, values, plan)?;
    match Table::new(alloc, None, objects, attributes, rows) {
        Ok(table) => Ok(table),
        Err(TableFault::Memory) => Err(Memory),
        Err(TableFault::TooMany) => unreachable!(),
        Err(TableFault::DuplicateAttribute(_)) => unreachable!(),
    }
}

/// Copies the names of the objects.
fn object_names(alloc: Global, values: &Values) -> Result<Vec<Name>, Memory>
    ensures names { IfOk result (λ names. names.items ≡ map (λ object. object.name) values.now.objects) }
    ensures few { IfOk result (λ names. vec_len names ≤ MAX_OBJECTS) }
{
    let mut names = Vec::with_capacity(alloc, values.len())?;
    for g in 0..values.len() {
        names.push(values.object(g).copy()?)?;
    }
    Ok(names)
}

/// Copies the names.
fn copy_names(alloc: Global, names: &[Name]) -> Result<Vec<Name>, Memory>
    ensures { IfOk result (λ v. v.items ≡ names.now) }
{
    let mut list = Vec::with_capacity(alloc, names.len())?;
    for name in names {
        list.push(name.copy()?)?;
    }
    Ok(list)
}

/// The rows of the objects.
fn object_rows(alloc: Global, values: &Values, plan: &Plan) -> Result<Rows, Memory>
    requires { Fits plan.now values.now }
    ensures { IfOk result (λ rows. rows ≡ record { width = length (made_names plan.now); rows = map (object_row plan.now) values.now.objects }) }
{
    let width = plan.names().len() as u32;
    let mut rows = Rows::new(alloc, width)?;
    for g in 0..values.len() {
        rows.push(object_row(values, plan, g, width))?;
    }
    Ok(rows)
}

/// The row of object g.
fn object_row(values: &Values, plan: &Plan, g: usize, width: u32) -> Attrs
    requires fits { Fits plan.now values.now }
    requires object { g < length values.now.objects }
    requires width { width ≡ length (made_names plan.now) }
    ensures { result ≡ object_row plan.now (object_at values.now g) }
{
    let mut row = PartialRow::new(width);
    for planned in plan.records() {
        put_record(&mut row, planned, values.value(g, planned.place));
    }
    row.finish()
}

/// Fills in which attributes of a record the text has.
fn put_record(row: &mut PartialRow, planned: &PlanRecord, text: &[u8])
    requires { length row.old.marks + length (names_of planned.now) ≤ row.old.width }
    ensures { row.new ≡ record row.old { marks = row.old.marks ++ scale_row planned.now text.now } }
{
    let number = number_of(text);
    match planned.kind {
        Kind::Nominal => put_relation(row, Relation::Equal, planned, text, number),
        Kind::Ordinal => put_relation(row, Relation::AtMost, planned, text, number),
        Kind::Interordinal => {
            put_relation(row, Relation::AtMost, planned, text, number);
            put_relation(row, Relation::AtLeast, planned, text, number);
        }
    }
}

/// Fills in whether the text stands in this relation to each scale value.
fn put_relation(
    row: &mut PartialRow,
    relation: Relation,
    planned: &PlanRecord,
    text: &[u8],
    number: Option<i64>,
)
    requires number { number ≡ number_of text.now }
    requires room { length row.old.marks + length planned.now.values ≤ row.old.width }
    ensures { row.new ≡ record row.old { marks = row.old.marks ++ map (stands text.now relation) planned.now.values } }
{
    for value in &planned.values {
        row.put(stands(text, number, relation, value));
    }
}
