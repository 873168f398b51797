//! Tables of values.

ghost use Rattle.std.specs.Prelude.{◌≡◌, ◌<◌, ◌≤◌, None, Some, length, slice_get, position, bytes_eq, is_some};
ghost use Rattle.context_table.specs.Table.{first_repeat};
ghost use Rattle.value_tables.specs.Cells.{AreTable, table_of, texts};
ghost use Rattle.value_tables.specs.Values.{column, object_at, value_at};

use crate::cells::Cells;
use fca_model::{MAX_ATTRIBUTES, MAX_OBJECTS, Name};
use indexmap::IndexSet;
use std::marker::Model;

/// A table of values: contracts see the names of its attributes, and its objects, each with its name
/// and its values.
#[derive(Drop)]
pub struct Values {
    attributes: IndexSet<Name>,
    objects: Vec<Name>,
    cells: Cells,
}

impl Model for Values {
    ghost use Rattle.value_tables.specs.Cells.{AreTable, table_of, texts};
    ghost use Rattle.value_tables.specs.Values.{ValueTable};

    ghost Value = { ValueTable };

    ghost view = { λ v. table_of v.attributes.keys v.objects.items (texts v.cells) };

    ghost invariant = { λ v. AreTable v.attributes.keys v.objects.items v.cells };
}

impl Values {
    /// The table of these names and values.
    pub(crate) fn of(attributes: IndexSet<Name>, objects: Vec<Name>, cells: Cells) -> Values
        requires { AreTable attributes.keys objects.items cells }
        ensures { result ≡ table_of attributes.keys objects.items (texts cells) }
    {
        Values {
            attributes,
            objects,
            cells,
        }
    }

    /// The number of objects.
    pub fn len(&self) -> usize
        ensures len { result ≡ length self.now.objects }
        ensures few { result ≤ MAX_OBJECTS }
    {
        self.objects.len()
    }

    /// The number of attributes.
    pub fn width(&self) -> usize
        ensures width { result ≡ length self.now.attributes }
        ensures few { result ≤ MAX_ATTRIBUTES }
    {
        self.attributes.len()
    }

    /// The name of object g.
    pub fn object(&self, g: usize) -> &Name
        requires { g < length self.now.objects }
        ensures { result.now ≡ (object_at self.now g).name }
    {
        &self.objects[g]
    }

    /// The name of attribute m.
    pub fn attribute_name(&self, m: usize) -> &Name
        requires { m < length self.now.attributes }
        ensures { Some result.now ≡ slice_get self.now.attributes m }
    {
        &self.attributes.as_slice()[m]
    }

    /// The place of the attribute with this name.
    pub fn attribute(&self, name: &Name) -> Option<usize>
        ensures { result ≡ position (bytes_eq name.now) self.now.attributes }
    {
        self.attributes.get_index_of(name)
    }

    /// The value of attribute m that object g has. It is empty if there is none.
    pub fn value(&self, g: usize, m: usize) -> &[u8]
        requires object { g < length self.now.objects }
        requires attribute { m < length self.now.attributes }
        ensures { result.now ≡ value_at m (object_at self.now g) }
    {
        self.cells.get(g * self.attributes.len() + m)
    }
}
