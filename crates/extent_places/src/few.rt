//! Few objects set apart. Below their intent, an extent is a set of these objects in one word.

ghost use Rattle.std.specs.Prelude.{◌≡◌, ◌≤◌, ◌<◌, ◌*◌, [], true, IfOk, OnOk, length, slice_set};
ghost use Rattle.fca_model.specs.Context.{closure, extent};
ghost use Rattle.extent_places.specs.Few.{AreFew, HasNoObject, chosen};
ghost use Rattle.extent_places.specs.Places.{rows_at};

use crate::objects::{FEW_OBJECTS, ObjectSet, meet_of, objects_with, put_columns};
use attr_bits::Bits;
use derivation::RowsOf;
use fca_model::Memory;
use std::alloc::Global;

/// It pays to set few objects apart if no fewer attributes are left than this.
const MANY_LEFT: u32 = 8;

/// Few objects: their places in the table, their rows, and for each attribute the objects that have it.
#[derive(Drop)]
pub struct FewObjects<const W: usize> {
    places: Vec<u16>,
    rows: RowsOf<W>,
    columns: Vec<ObjectSet>,
}

/// An intent with its extent, a set of few objects.
#[derive(Drop)]
pub struct FewConcept<const W: usize> {
    /// The intent.
    pub intent: Bits<W>,
    /// Its extent.
    pub objects: ObjectSet,
}

/// Whether it pays to set so many objects apart where so many attributes are left.
pub fn pays_to_set_apart(count: usize, left: u32) -> bool
    ensures { result ≡ true → count ≤ FEW_OBJECTS }
{
    count <= FEW_OBJECTS && MANY_LEFT <= left
}

impl<const W: usize> FewObjects<W> {
    /// No objects.
    pub fn new(alloc: Global, width: u32) -> Result<FewObjects<W>, Memory>
        requires words { W ≤ 1024 }
        requires narrow { width ≤ 64 * W }
        ensures { IfOk result HasNoObject }
    {
        Ok(FewObjects {
            places: Vec::new(alloc),
            rows: RowsOf::new(alloc, width)?,
            columns: Vec::new(alloc),
        })
    }

    /// Sets the objects of a apart, in place of others, and gives the set of them all. They stand at these places.
    pub fn set_apart(
        &mut self,
        alloc: Global,
        rows: &RowsOf<W>,
        a: &Bits<W>,
        places: &[u16],
    ) -> Result<ObjectSet, Memory>
        requires few { length places.now ≤ FEW_OBJECTS }
        requires places { places.now ≡ extent rows.now a.now }
        ensures { IfOk result (λ all. AreFew rows.now a.now self.new all) }
    {
        let _width = rows.width();
        self.places.clear();
        self.places.extend_from_slice(places)?;
        put_rows(alloc, &mut self.rows, rows, a, places)?;
        put_columns(&mut self.columns, &self.rows)?;
        Ok(Bits::full(places.len() as u32))
    }

    /// The closure of a with attribute i.
    pub fn closure_with(
        &self,
        rows: &RowsOf<W>,
        a: &Bits<W>,
        objects: &ObjectSet,
        i: u32,
    ) -> FewConcept<W>
        requires wide { length a.now ≡ rows.now.width }
        requires inside { i < rows.now.width }
        requires objects { AreFew rows.now a.now self.now objects.now }
        ensures closed { result.intent ≡ closure rows.now (slice_set a.now i true) }
        ensures objects { AreFew rows.now result.intent self.now result.objects }
    {
        let _width = rows.width();
        let objects = objects_with(&self.rows, &self.columns, a, objects, i);
        let intent = meet_of(&self.rows, &objects, &a.with(i));
        FewConcept { intent, objects }
    }

    /// Puts the places of the objects of a into the list, in place of what it had.
    pub fn put_places(
        &self,
        rows: &RowsOf<W>,
        a: &Bits<W>,
        objects: &ObjectSet,
        found: &mut Vec<u16>,
    ) -> Result<(), Memory>
        requires { AreFew rows.now a.now self.now objects.now }
        ensures { OnOk result (found.new.items ≡ extent rows.now a.now) }
    {
        let _width = rows.width();
        let _words = a.width();
        put_chosen(objects, &self.places, found)?;
        Ok(())
    }
}

/// Puts the places whose objects are in the set into the list, in place of what it had.
fn put_chosen(objects: &ObjectSet, places: &[u16], found: &mut Vec<u16>) -> Result<(), Memory>
    requires { length objects.now ≡ length places.now }
    ensures { OnOk result (found.new.items ≡ chosen objects.now places.now) }
{
    let _width = objects.width();
    found.clear();
    let mut from = 0;
    while let Some(object) = objects.next_member(from) {
        found.push(places[object as usize])?;
        from = object + 1;
    }
    Ok(())
}

/// Keeps the rows of the objects of a, in place of the rows before. The objects stand at these places.
fn put_rows<const W: usize>(
    alloc: Global,
    kept: &mut RowsOf<W>,
    rows: &RowsOf<W>,
    a: &Bits<W>,
    places: &[u16],
) -> Result<(), Memory>
    requires { places.now ≡ extent rows.now a.now }
    ensures { OnOk result (kept.new ≡ record { width = rows.now.width; rows = rows_at rows.now.rows places.now }) }
{
    let _width = a.width();
    empty(alloc, kept, rows.width())?;
    let all = rows.as_slice();
    for place in places {
        kept.push(all[*place as usize])?;
    }
    Ok(())
}

/// Takes all rows away. The room stays for others of this width.
fn empty<const W: usize>(alloc: Global, rows: &mut RowsOf<W>, width: u32) -> Result<(), Memory>
    requires words { W ≤ 1024 }
    requires narrow { width ≤ 64 * W }
    ensures { OnOk result (rows.new ≡ record { width = width; rows = [] }) }
{
    if rows.width() != width {
        *rows = RowsOf::new(alloc, width)?;
        return Ok(());
    }
    while rows.len() > 0 {
        rows.pop();
    }
    Ok(())
}
