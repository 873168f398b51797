//! Narrow tables: rows in as few words as have room for them.

ghost use Rattle.std.specs.Prelude.{◌≡◌, ◌≤◌, ℕ, [], None, Some, IfOk, OnOk, IsErrOf, length, vec_len};
ghost use Rattle.context_table.specs.Table.{first_repeat, untitled_context};
ghost use Rattle.context_table.specs.Narrow.{context_in};

use crate::rows::{NarrowRows, narrow_rows};
use crate::{Table, TableFault};
use derivation::Rows;
use fca_model::{MAX_ATTRIBUTES, MAX_OBJECTS, Memory, Name};
use std::alloc::Global;
use std::marker::Model;

/// A context with the names of its objects and attributes, and no title. Its rows are in as few words as have room for them.
#[derive(Drop)]
pub struct NarrowTable {
    objects: Vec<Name>,
    /// A table of no objects, which has the names of the attributes.
    header: Table,
    rows: NarrowRows,
}

impl Model for NarrowTable {
    ghost use Rattle.std.specs.Prelude.{◌≡◌, ◌≤◌, [], None, length, vec_len};
    ghost use Rattle.fca_model.specs.Tables.{NamedContext};
    ghost use Rattle.fca_model.specs.declared.TheConstants.{MAX_OBJECTS};
    ghost use Rattle.context_table.specs.Narrow.{context_in};

    ghost Value = { NamedContext };

    ghost view = { λ t. record { title = None; objects = t.objects.items; attributes = t.header.attributes; context = context_in t.rows } };

    ghost invariant = { λ t. record {
      each_object : vec_len t.objects ≡ length (context_in t.rows).rows;
      few_objects : vec_len t.objects ≤ MAX_OBJECTS;
      width : t.header.context.width ≡ (context_in t.rows).width;
      untitled : t.header.title ≡ None;
      no_objects : t.header.objects ≡ [];
      no_rows : t.header.context.rows ≡ [];
    } };
}

impl NarrowTable {
    /// The table of these names and rows. It refuses the first attribute that has the name of an earlier one.
    pub fn new(
        alloc: Global,
        objects: Vec<Name>,
        attributes: Vec<Name>,
        rows: NarrowRows,
    ) -> Result<NarrowTable, TableFault>
        requires objects { vec_len objects ≡ length (context_in rows).rows }
        requires few_objects { vec_len objects ≤ MAX_OBJECTS }
        requires attributes { vec_len attributes ≡ (context_in rows).width }
        requires few_attributes { vec_len attributes ≤ MAX_ATTRIBUTES }
        ensures table { IfOk result (λ t. t ≡ record { title = None; objects = objects.items; attributes = attributes.items; context = context_in rows }) }
        ensures not_too_many { ¬ IsErrOf result TableFault.TooMany }
        ensures repeated { (i : ℕ) → result ≡ Err (TableFault.DuplicateAttribute i) → first_repeat attributes.items ≡ Some i }
        ensures differing { OnOk result (first_repeat attributes.items ≡ None) }
    {
        let none = Rows::new(alloc, attributes.len() as u32)?;
        match Table::new(alloc, None, Vec::new(alloc), attributes, none) {
            Ok(header) => Ok(NarrowTable {
                objects,
                header,
                rows,
            }),
            Err(fault) => Err(fault),
        }
    }

    /// The table without its title.
    pub fn of(alloc: Global, table: Table) -> Result<NarrowTable, Memory>
        ensures { IfOk result (λ narrow. narrow ≡ untitled_context table) }
    {
        let rows = narrow_rows(alloc, table.rows())?;
        let none = Rows::new(alloc, table.rows().width())?;
        let header = Table {
            title: None,
            objects: Vec::new(alloc),
            attributes: table.attributes,
            rows: none,
        };
        Ok(NarrowTable {
            objects: table.objects,
            header,
            rows,
        })
    }

    /// The names of the objects, a table of no objects that has the names of the attributes, and the rows.
    pub fn into_parts(self) -> (Vec<Name>, Table, NarrowRows)
        ensures objects { result.0.items ≡ self.objects }
        ensures attributes { result.1.attributes ≡ self.attributes }
        ensures context { context_in result.2 ≡ self.context }
        ensures each_object { vec_len result.0 ≡ length self.context.rows }
        ensures few_objects { vec_len result.0 ≤ MAX_OBJECTS }
        ensures width { result.1.context.width ≡ self.context.width }
        ensures untitled { result.1.title ≡ None }
        ensures no_objects { result.1.objects ≡ [] }
        ensures no_rows { result.1.context.rows ≡ [] }
    {
        (self.objects, self.header, self.rows)
    }
}
