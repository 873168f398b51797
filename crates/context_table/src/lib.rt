//! Tables: contexts whose objects and attributes have names.
#![tactic(auto)]

ghost use Rattle.std.specs.Prelude.{◌≡◌, ◌<◌, ◌≤◌, ◌↔◌, ◌∷◌, ◌++◌, ℕ, List, [], None, Some, All, IfOk, IfErr, OnOk, IsErrOf, IsTrue, not};
ghost use Rattle.std.specs.Prelude.{true, length, vec_len, slice_get, option_copied, position, bytes_eq};
ghost use Rattle.std.specs.List.{list_any};
ghost use Rattle.context_table.specs.Table.{IsTable, first_repeat};
ghost use Rattle.context_table.specs.Generated.{made_table};

mod generated;
mod narrow;
mod recipe;
mod rows;

use derivation::Rows;
use fca_model::{MAX_ATTRIBUTES, MAX_OBJECTS, Memory, NO_MEMORY, Name};
use generated::{CellGenerator, numbered_names};
use indexmap::IndexSet;
pub use narrow::NarrowTable;
pub use recipe::{MAX_DENSITY, Recipe};
pub use rows::{NarrowRows, narrow_rows};
use std::alloc::{AllocError, Global};
use std::marker::Model;
use thiserror::Error;

/// Why names and rows make no table.
#[derive(Debug, Drop, Error)]
pub enum TableFault {
    #[error("more objects than a table may have")]
    TooMany,
    /// The place of the attribute, counted from 0.
    #[error("attribute {0} has the name of an earlier one")]
    DuplicateAttribute(u32),
    #[error("{NO_MEMORY}")]
    Memory,
}

impl From<AllocError> for TableFault {
    ghost use Rattle.context_table.specs.declared.TableFault.TheVariants as fault;

    ghost from_gives = { λ _ e. e ≡ fault.Memory };

    fn from(_error: AllocError) -> TableFault {
        TableFault::Memory
    }
}

impl From<Memory> for TableFault {
    ghost use Rattle.context_table.specs.declared.TableFault.TheVariants as fault;

    ghost from_gives = { λ _ e. e ≡ fault.Memory };

    fn from(_error: Memory) -> TableFault {
        TableFault::Memory
    }
}

/// A context with the names of its objects and attributes, and perhaps a title.
#[derive(Drop)]
pub struct Table {
    title: Option<Name>,
    objects: Vec<Name>,
    attributes: IndexSet<Name>,
    rows: Rows,
}

impl Model for Table {
    ghost use Rattle.fca_model.specs.Tables.{NamedContext};
    ghost use Rattle.context_table.specs.Table.{IsTable};

    ghost Value = { NamedContext };

    ghost view = { λ t. record { title = t.title; objects = t.objects.items; attributes = t.attributes.keys; context = t.rows } };

    ghost invariant = { λ t. IsTable (record { title = t.title; objects = t.objects.items; attributes = t.attributes.keys; context = t.rows }) };
}

impl Table {
    /// The table of these names and rows. It refuses too many objects, and the first attribute that has the name of an earlier one.
    pub fn new(
        alloc: Global,
        title: Option<Name>,
        objects: Vec<Name>,
        attributes: Vec<Name>,
        rows: Rows,
    ) -> Result<Table, TableFault>
        requires objects { vec_len objects ≡ length rows.rows }
        requires attributes { vec_len attributes ≡ rows.width }
        ensures table { IfOk result (λ t. t ≡ record { title = title; objects = objects.items; attributes = attributes.items; context = rows }) }
        ensures too_many { IsErrOf result TableFault.TooMany ↔ (MAX_OBJECTS < vec_len objects) }
        ensures repeated { (i : ℕ) → result ≡ Err (TableFault.DuplicateAttribute i) → first_repeat attributes.items ≡ Some i }
        ensures differing { OnOk result (first_repeat attributes.items ≡ None) }
    {
        if objects.len() > MAX_OBJECTS {
            return Err(TableFault::TooMany);
        }
        let attributes = distinct_names(alloc, attributes)?;
        Ok(Table {
            title,
            objects,
            attributes,
            rows,
        })
    }

    /// The generated table: objects g1, g2 and so on, attributes m1, m2 and so on, and about `density` crosses in eight cells.
    /// A linear congruential generator (Knuth, MMIX) draws the cells row by row, from the seed on.
    pub fn make(
        alloc: Global,
        seed: u64,
        objects: u32,
        attributes: u32,
        density: u8,
    ) -> Result<Table, Memory>
        requires objects { objects ≤ MAX_OBJECTS }
        requires attributes { attributes ≤ MAX_ATTRIBUTES }
        ensures { IfOk result (λ table. table ≡ made_table seed objects attributes density) }
    {
        let rows = CellGenerator::new(seed, density).into_rows(alloc, objects, attributes)?;
        let objects = numbered_names(alloc, 'g', objects)?;
        let attributes = numbered_names(alloc, 'm', attributes)?;
        match Table::new(alloc, None, objects, attributes, rows) {
            Ok(table) => Ok(table),
            Err(TableFault::Memory) => Err(Memory),
            Err(TableFault::TooMany) => unreachable!(),
            Err(TableFault::DuplicateAttribute(_)) => unreachable!(),
        }
    }

    /// The title.
    pub fn title(&self) -> Option<&Name>
        ensures { option_copied result ≡ self.now.title }
    {
        self.title.as_ref()
    }

    /// The name of object i.
    pub fn object(&self, i: usize) -> &Name
        requires { i < length self.now.context.rows }
        ensures { Some result.now ≡ slice_get self.now.objects i }
    {
        &self.objects[i]
    }

    /// The name of attribute i.
    pub fn attribute_name(&self, i: u32) -> &Name
        requires { i < self.now.context.width }
        ensures { Some result.now ≡ slice_get self.now.attributes i }
    {
        &self.attributes.as_slice()[i as usize]
    }

    /// The rows.
    pub fn rows(&self) -> &Rows
        ensures rows { result.now ≡ self.now.context }
        ensures table { IsTable self.now }
    {
        &self.rows
    }

    /// The place of the attribute with this name.
    pub fn attribute(&self, name: &Name) -> Option<u32>
        ensures { result ≡ position (bytes_eq name.now) self.now.attributes }
    {
        match self.attributes.get_index_of(name) {
            Some(place) => Some(place as u32),
            None => None,
        }
    }

    /// The names of the objects.
    pub(crate) fn objects(&self) -> &[Name]
        ensures names { result.now ≡ self.now.objects }
        ensures table { IsTable self.now }
    {
        &self.objects
    }

    /// The names of the attributes.
    pub(crate) fn attributes(&self) -> &[Name]
        ensures names { result.now ≡ self.now.attributes }
        ensures table { IsTable self.now }
    {
        self.attributes.as_slice()
    }

    /// Whether both tables have the same attribute names in the same order.
    pub fn same_attributes(&self, other: &Table) -> bool
        ensures { IsTrue result ↔ (self.now.attributes ≡ other.now.attributes) }
    {
        self.attributes.as_slice() == other.attributes.as_slice()
    }

    /// Copies the table.
    pub fn copy(&self) -> Result<Table, Memory>
        ensures { IfOk result (λ t. t ≡ self.now) }
    {
        let alloc = *self.objects.allocator();
        let title = match &self.title {
            Some(title) => Some(title.copy()?),
            None => None,
        };
        let objects = copy_names(alloc, self.objects())?;
        let attributes = copy_names(alloc, self.attributes())?;
        let rows = self.rows.copy()?;
        match Table::new(alloc, title, objects, attributes, rows) {
            Ok(table) => Ok(table),
            // (the names were a table's, so no other fault can come)
            Err(_) => Err(Memory),
        }
    }
}

/// The names in their order. It refuses the first that stood before.
fn distinct_names(alloc: Global, names: Vec<Name>) -> Result<IndexSet<Name>, TableFault>
    requires { vec_len names ≤ MAX_ATTRIBUTES }
    ensures names { IfOk result (λ set. set.keys ≡ names.items) }
    ensures few { ¬ IsErrOf result TableFault.TooMany }
    ensures repeated { (i : ℕ) → result ≡ Err (TableFault.DuplicateAttribute i) → first_repeat names.items ≡ Some i }
    ensures differing { OnOk result (first_repeat names.items ≡ None) }
{
    let mut set = IndexSet::with_capacity(alloc, names.len())?;
    let mut place = 0;
    for name in names {
        let added = insert_name(&mut set, name)?;
        if !added {
            return Err(TableFault::DuplicateAttribute(place));
        }
        place += 1;
    }
    Ok(set)
}

/// Puts the name behind the others if it is not among them, and returns whether it did.
fn insert_name(set: &mut IndexSet<Name>, name: Name) -> Result<bool, Memory>
    ensures added { IfOk result (λ added. added ≡ not (list_any (bytes_eq name) set.old.keys)) }
    ensures keys { IfOk result (λ added. added ≡ true → set.new.keys ≡ set.old.keys ++ name ∷ []) }
{
    match set.insert_full(name) {
        Ok((_, added)) => Ok(added),
        Err(_) => Err(Memory),
    }
}

/// Copies the names.
fn copy_names(alloc: Global, names: &[Name]) -> Result<Vec<Name>, Memory>
    ensures { IfOk result (λ v. v.items ≡ names.now) }
{
    let mut list = Vec::with_capacity(alloc, names.len())?;
    for name in names {
        list.push(name.copy()?)?;
    }
    Ok(list)
}
