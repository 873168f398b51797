//! For each attribute the objects that have it.

ghost use Rattle.std.specs.Prelude.{◌≡◌, ◌≤◌, ◌<◌, [], false, All, IfOk, length, map, take, filter, slice_index_or};
ghost use Rattle.std.specs.List.{range_with_len};
ghost use Rattle.extent_places.specs.Places.{column};

use crate::places::keep_having;
use derivation::RowsOf;
use fca_model::Memory;
use std::alloc::Global;
use std::marker::Model;

/// The objects of each attribute, in the order of the attributes. Each object has a byte, so one read tells whether it is there.
#[derive(Drop)]
pub struct Columns {
    lists: Vec<Vec<bool>>,
}

impl Model for Columns {
    ghost use Rattle.std.specs.Prelude.{List, Bool, map};

    ghost Value = { List (List Bool) };

    ghost view = { λ c. map (λ list. list.items) c.lists.items };
}

impl Columns {
    /// The columns of these rows.
    pub fn of<const W: usize>(alloc: Global, rows: &RowsOf<W>) -> Result<Columns, Memory>
        ensures { IfOk result (λ columns. columns ≡ map (column rows.now.rows) (range_with_len 0 rows.now.width)) }
    {
        let width = rows.width();
        let mut lists = Vec::with_capacity(alloc, width as usize)?;
        for attribute in 0..width {
            lists.push(column_of(alloc, rows, attribute)?)?;
        }
        Ok(Columns { lists })
    }

    /// Puts the places that are in column i into the front of `found`, and counts them.
    pub fn keep_having(&self, i: u32, places: &[u16], found: &mut [u16]) -> usize
        requires column { i < length self.now }
        requires inside { All (λ p. p < length (slice_index_or self.now i [])) places.now }
        requires room { length places.now ≤ length found.old }
        ensures found { take result found.new ≡ filter (λ p. slice_index_or (slice_index_or self.now i []) p false) places.now }
        ensures few { result ≤ length places.now }
        ensures room { length found.new ≡ length found.old }
    {
        keep_having(&self.lists[i as usize], places, found)
    }
}

/// Whether each object has the attribute.
fn column_of<const W: usize>(
    alloc: Global,
    rows: &RowsOf<W>,
    attribute: u32,
) -> Result<Vec<bool>, Memory>
    requires { attribute < rows.now.width }
    ensures { IfOk result (λ list. list.items ≡ column rows.now.rows attribute) }
{
    let _width = rows.width();
    let all = rows.as_slice();
    let mut having = Vec::new(alloc);
    having.resize(all.len(), false)?;
    for (place, row) in all.iter().enumerate() {
        having[place] = row.has(attribute);
    }
    Ok(having)
}
