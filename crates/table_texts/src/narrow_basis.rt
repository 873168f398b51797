//! The text of the basis of a narrow table, which is dropped before the text is written.

ghost use Rattle.std.specs.Prelude.{◌≡◌, ◌≤◌, IfOk, length};
ghost use Rattle.fca_model.specs.Pseudo.{basis};
ghost use Rattle.report_texts.specs.Reports.{basis_text};
ghost use Rattle.context_table.specs.Narrow.{context_in};

use crate::attribute_names::AttributeNames;
use crate::basis_lines::basis_text_in;
use context_table::{NarrowRows, NarrowTable};
use fca_model::{MAX_ATTRIBUTES, Memory};
use std::alloc::Global;

/// The basis of the table, one member a line.
pub fn narrow_basis_text(alloc: Global, table: NarrowTable) -> Result<Vec<u8>, Memory>
    ensures { IfOk result (λ v. v.items ≡ basis_text table.attributes (basis table.context)) }
{
    let (names, rows) = attributes_and_rows(alloc, table)?;
    match rows {
        NarrowRows::One(rows) => basis_text_in(alloc, &names, rows),
        NarrowRows::Two(rows) => basis_text_in(alloc, &names, rows),
        NarrowRows::Four(rows) => basis_text_in(alloc, &names, rows),
        NarrowRows::Eight(rows) => basis_text_in(alloc, &names, rows),
        NarrowRows::All(rows) => basis_text_in(alloc, &names, rows),
    }
}

/// The names of the attributes and the rows. The names of the objects are dropped.
fn attributes_and_rows(
    alloc: Global,
    table: NarrowTable,
) -> Result<(AttributeNames, NarrowRows), Memory>
    ensures names { IfOk result (λ parts. parts.0 ≡ table.attributes) }
    ensures rows { IfOk result (λ parts. context_in parts.1 ≡ table.context) }
    ensures each_attribute { IfOk result (λ parts. (context_in parts.1).width ≡ length table.attributes) }
    ensures few_attributes { IfOk result (λ parts. (context_in parts.1).width ≤ MAX_ATTRIBUTES) }
{
    let (objects, header, rows) = table.into_parts();
    drop(objects);
    let _rows = header.rows();
    match AttributeNames::of(alloc, &header) {
        Ok(names) => Ok((names, rows)),
        Err(_) => Err(Memory),
    }
}
