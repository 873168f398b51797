//! The crosses of a table, by rows and by columns.

ghost use Rattle.std.specs.Prelude.{◌≡◌, ◌≤◌, ◌<◌, false, All, IfOk, length, take, filter, slice_index_or};
ghost use Rattle.fca_model.specs.Context.{extent};
ghost use Rattle.extent_places.specs.Places.{column};

use attr_bits::Bits;
use derivation::RowsOf;
use extent_places::{Columns, places_having};
use fca_model::{MAX_OBJECTS, Memory};
use lectic_concepts::supports_of;
use std::alloc::Global;
use std::marker::Model;

/// The rows of a context, in W words each, and the objects of each attribute with their number.
#[derive(Drop)]
pub struct CrossTable<'a, const W: usize> {
    rows: &'a RowsOf<W>,
    columns: Columns,
    supports: Vec<u32>,
}

impl<'a, const W: usize> Model for CrossTable<'a, W> {
    ghost use Rattle.std.specs.Prelude.{◌≡◌, ◌≤◌, map, length};
    ghost use Rattle.std.specs.List.{range_with_len};
    ghost use Rattle.extent_places.specs.Places.{column};
    ghost use Rattle.fca_model.specs.Context.{Context};
    ghost use Rattle.fca_model.specs.declared.TheConstants.{MAX_OBJECTS};

    ghost Value = { Context };

    ghost view = { λ s. s.rows.now };

    ghost invariant = { λ s. record {
      columns : s.columns ≡ map (column s.rows.now.rows) (range_with_len 0 s.rows.now.width);
      few : length s.rows.now.rows ≤ MAX_OBJECTS;
    } };
}

impl<'a, const W: usize> CrossTable<'a, W> {
    /// The crosses of these rows.
    pub fn new(alloc: Global, rows: &'a RowsOf<W>) -> Result<CrossTable<'a, W>, Memory>
        requires { length rows.now.rows ≤ MAX_OBJECTS }
        ensures { IfOk result (λ crosses. crosses ≡ rows.now) }
    {
        Ok(CrossTable {
            rows,
            columns: Columns::of(alloc, rows)?,
            supports: supports_of(alloc, rows)?,
        })
    }

    /// The rows.
    pub fn rows(&self) -> &RowsOf<W>
        ensures { result.now ≡ self.now }
    {
        self.rows
    }

    /// How many objects have each attribute.
    pub fn supports(&self) -> &[u32] {
        &self.supports
    }

    /// Puts those of the places whose objects have attribute i into the front of `found`, and gives their number.
    pub fn keep_having(&self, i: u32, places: &[u16], found: &mut [u16]) -> usize
        requires attribute { i < self.now.width }
        requires inside { All (λ p. p < length self.now.rows) places.now }
        requires room { length places.now ≤ length found.old }
        ensures found { take result found.new ≡ filter (λ p. slice_index_or (column self.now.rows i) p false) places.now }
        ensures few { result ≤ length places.now }
        ensures room { length found.new ≡ length found.old }
    {
        self.columns.keep_having(i, places, found)
    }

    /// The places of the objects that have all of the set.
    pub fn extent(&self, alloc: Global, set: &Bits<W>) -> Result<Vec<u16>, Memory>
        ensures { IfOk result (λ places. places.items ≡ extent self.now set.now) }
    {
        let _width = self.rows.width();
        places_having(alloc, self.rows, set)
    }
}
