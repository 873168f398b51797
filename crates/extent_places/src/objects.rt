//! Sets of few objects, each in one word: a small extent, and the objects of each attribute among these.

ghost use Rattle.std.specs.Prelude.{◌≡◌, ◌≤◌, ◌<◌, ℕ, [], true, false, All, length, replicate, slice_set, slice_index_or, IfOk, OnOk};
ghost use Rattle.fca_model.specs.Sets.{within};
ghost use Rattle.fca_model.specs.Context.{closure};
ghost use Rattle.extent_places.specs.Objects.{AreColumns, HasObjects, alone};

use crate::members::{insert, put, without};
use attr_bits::Bits;
use derivation::RowsOf;
use fca_model::Memory;
use std::alloc::Global;

/// How many objects are few: so many as one word holds.
pub const FEW_OBJECTS: usize = 64;

/// How many attributes are few: with no more, a closure by columns takes less time than one by rows.
const FEW_ATTRIBUTES: u32 = 24;

/// A set of few objects.
pub type ObjectSet = Bits<1>;

/// The objects of each attribute, in the order of the attributes.
pub fn columns_of<const W: usize>(alloc: Global, rows: &RowsOf<W>) -> Result<Vec<ObjectSet>, Memory>
    requires { length rows.now.rows ≤ FEW_OBJECTS }
    ensures { IfOk result (λ columns. AreColumns rows.now columns.items) }
{
    let mut columns = Vec::new(alloc);
    put_columns(&mut columns, rows)?;
    Ok(columns)
}

/// Puts the objects of each attribute into the list, in place of what it had. If the rows are dense, the columns begin full, since then fewer members change.
pub(crate) fn put_columns<const W: usize>(
    columns: &mut Vec<ObjectSet>,
    rows: &RowsOf<W>,
) -> Result<(), Memory>
    requires { length rows.now.rows ≤ FEW_OBJECTS }
    ensures { OnOk result (AreColumns rows.now columns.new.items) }
{
    let width = rows.width();
    let dense = are_dense(rows);
    columns.clear();
    columns.resize(width as usize, all_or_none(rows.len() as u32, dense))?;
    fill_columns(columns, rows, dense);
    Ok(())
}

/// Whether about half of the cells or more have a cross.
fn are_dense<const W: usize>(rows: &RowsOf<W>) -> bool {
    let width = rows.width();
    let mut crosses = 0u32;
    for row in rows.as_slice() {
        crosses = crosses.saturating_add(row.size());
    }
    let half = u64::from(width / 2);
    half.saturating_mul(rows.len() as u64) < u64::from(crosses)
}

/// All of so many objects, or none.
fn all_or_none(count: u32, all: bool) -> ObjectSet
    requires { count ≤ FEW_OBJECTS }
    ensures { result ≡ replicate count all }
{
    if all {
        Bits::full(count)
    } else {
        Bits::empty(count)
    }
}

/// Makes columns that have all objects, or none, the columns of the rows.
fn fill_columns<const W: usize>(columns: &mut [ObjectSet], rows: &RowsOf<W>, all: bool)
    requires few { length rows.now.rows ≤ FEW_OBJECTS }
    requires wide { length columns.old ≡ rows.now.width }
    requires start { (i : ℕ) → i < rows.now.width → slice_index_or columns.old i [] ≡ replicate (length rows.now.rows) all }
    ensures { AreColumns rows.now columns.new }
{
    let attributes = Bits::full(rows.width());
    for (object, row) in rows.as_slice().iter().enumerate() {
        if all {
            put_object(columns, object as u32, &attributes.minus(row), false);
        } else {
            put_object(columns, object as u32, row, true);
        }
    }
}

/// Adds the object to the columns of these attributes if `member` is true, and else takes it out.
fn put_object<const W: usize>(
    columns: &mut [ObjectSet],
    object: u32,
    attributes: &Bits<W>,
    member: bool,
)
    requires wide { length columns.old ≡ length attributes.now }
    requires inside { All (λ column. object < length column) columns.old }
    ensures wide { length columns.new ≡ length columns.old }
    ensures those { (i : ℕ) → i < length attributes.now → slice_index_or attributes.now i false ≡ true
        → slice_index_or columns.new i [] ≡ slice_set (slice_index_or columns.old i []) object member }
    ensures others { (i : ℕ) → i < length attributes.now → slice_index_or attributes.now i false ≡ false
        → slice_index_or columns.new i [] ≡ slice_index_or columns.old i [] }
{
    let _width = attributes.width();
    let mut from = 0;
    while let Some(attribute) = attributes.next_member(from) {
        put(&mut columns[attribute as usize], object, member);
        from = attribute + 1;
    }
}

/// The objects of a. Those of a smaller set are given.
pub fn objects_above<const W: usize>(
    rows: &RowsOf<W>,
    columns: &[ObjectSet],
    smaller: &Bits<W>,
    objects: &ObjectSet,
    a: &Bits<W>,
) -> ObjectSet
    requires columns { AreColumns rows.now columns.now }
    requires objects { HasObjects rows.now smaller.now objects.now }
    requires larger { within smaller.now a.now ≡ true }
    requires wide { length smaller.now ≡ rows.now.width }
    requires even { length a.now ≡ rows.now.width }
    ensures { HasObjects rows.now a.now result }
{
    let _width = rows.width();
    let mut grown = *smaller;
    let mut having = *objects;
    while let Some(attribute) = a.first_missing(&grown) {
        insert(&mut grown, attribute);
        having = having.meet(&columns[attribute as usize]);
    }
    having
}

/// The objects of a with attribute i. Those of a are given.
pub fn objects_with<const W: usize>(
    rows: &RowsOf<W>,
    columns: &[ObjectSet],
    a: &Bits<W>,
    objects: &ObjectSet,
    i: u32,
) -> ObjectSet
    requires columns { AreColumns rows.now columns.now }
    requires objects { HasObjects rows.now a.now objects.now }
    requires wide { length a.now ≡ rows.now.width }
    requires inside { i < rows.now.width }
    ensures { HasObjects rows.now (slice_set a.now i true) result }
{
    let _width = rows.width();
    objects.meet(&columns[i as usize])
}

/// The closure of `least`, whose objects are given. It goes by columns if these are few, and else by rows.
pub fn closure_of<const W: usize>(
    rows: &RowsOf<W>,
    columns: &[ObjectSet],
    objects: &ObjectSet,
    least: &Bits<W>,
) -> Bits<W>
    requires columns { AreColumns rows.now columns.now }
    requires objects { HasObjects rows.now least.now objects.now }
    requires wide { length least.now ≡ rows.now.width }
    ensures { result ≡ closure rows.now least.now }
{
    if rows.width() <= FEW_ATTRIBUTES {
        return common_of(rows, columns, objects, least);
    }
    meet_of(rows, objects, least)
}

/// The closure of `least`, whose objects are given: its attributes, and those of the others that all of the objects have.
fn common_of<const W: usize>(
    rows: &RowsOf<W>,
    columns: &[ObjectSet],
    objects: &ObjectSet,
    least: &Bits<W>,
) -> Bits<W>
    requires columns { AreColumns rows.now columns.now }
    requires objects { HasObjects rows.now least.now objects.now }
    requires wide { length least.now ≡ rows.now.width }
    ensures { result ≡ closure rows.now least.now }
{
    let mut common = *least;
    let mut others = Bits::full(rows.width()).minus(least);
    while let Some(attribute) = others.next_member(0) {
        if have_all(objects, &columns[attribute as usize]) {
            insert(&mut common, attribute);
        }
        others = without(&others, attribute);
    }
    common
}

/// Whether all of the objects are in the column.
pub fn have_all(objects: &ObjectSet, column: &ObjectSet) -> bool
    ensures { result ≡ within objects.now column.now }
{
    objects.meet(column) == *objects
}

/// The closure of `least`, whose objects are given: the meet of their rows. Once it is `least`, the rows that are left change nothing.
pub(crate) fn meet_of<const W: usize>(
    rows: &RowsOf<W>,
    objects: &ObjectSet,
    least: &Bits<W>,
) -> Bits<W>
    requires objects { HasObjects rows.now least.now objects.now }
    requires wide { length least.now ≡ rows.now.width }
    ensures { result ≡ closure rows.now least.now }
{
    let _objects = objects.width();
    let all = rows.as_slice();
    let mut met = Bits::full(rows.width());
    let mut rest = *objects;
    while let Some(object) = rest.next_member(0) {
        met = met.meet(&all[object as usize]);
        if met == *least {
            return met;
        }
        rest = without(&rest, object);
    }
    met
}
