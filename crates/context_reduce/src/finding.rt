//! Finding the arrows of a table.

ghost use Rattle.std.specs.Prelude.{◌≡◌, ◌<◌, IfOk, All, length, map};
ghost use Rattle.std.specs.List.{range_with_len};
ghost use Rattle.context_reduce.specs.Reduce.{attributes_above};
ghost use Rattle.context_reduce.specs.Blocks.{AreBlocks};
ghost use Rattle.context_reduce.specs.Arrows.{arrow_of, arrow_at, arrow_table, TellIrreducibles};

use crate::arrow::{Arrow, Arrows};
use crate::columns::{attributes_above, column_order};
use crate::larger::{ColumnBlock, blocks_of, meet_of_strictly_larger};
use attr_bits::Attrs;
use context_table::Table;
use derivation::Rows;
use fca_model::Memory;
use std::alloc::Global;

/// The arrows of the table.
pub fn arrows(alloc: Global, table: &Table) -> Result<Arrows, Memory>
    ensures arrows { IfOk result (λ found. found ≡ arrow_table table.now.context) }
    ensures wide { IfOk result (λ found. All (λ list. length list ≡ table.now.context.width) found) }
    ensures irreducible { IfOk result (λ found. TellIrreducibles table.now.context found) }
{
    let rows = table.rows();
    let larger = all_attributes_above(alloc, rows)?;
    let blocks = blocks_of(alloc, rows)?;
    let mut lists = Vec::new(alloc);
    for g in 0..rows.len() {
        lists.push(arrows_of_object(alloc, rows, &blocks, &larger, g)?)?;
    }
    Ok(Arrows::of(lists))
}

/// For each attribute, those whose column strictly contains its column.
fn all_attributes_above(alloc: Global, rows: &Rows) -> Result<Vec<Attrs>, Memory>
    ensures { IfOk result (λ sets. sets.items ≡ map (attributes_above rows.now) (range_with_len 0 rows.now.width)) }
{
    let order = column_order(alloc, rows)?;
    let mut sets = Vec::new(alloc);
    for m in 0..rows.width() {
        sets.push(attributes_above(rows, &order, m))?;
    }
    Ok(sets)
}

/// The arrows of one object.
fn arrows_of_object(
    alloc: Global,
    rows: &Rows,
    blocks: &[ColumnBlock],
    larger: &[Attrs],
    g: usize,
) -> Result<Vec<Arrow>, Memory>
    requires object { g < length rows.now.rows }
    requires blocks { AreBlocks rows.now blocks.now }
    requires larger { larger.now ≡ map (attributes_above rows.now) (range_with_len 0 rows.now.width) }
    ensures { IfOk result (λ list. list.items ≡ map (arrow_at rows.now g) (range_with_len 0 rows.now.width)) }
{
    let row = rows.get(g);
    let shared = meet_of_strictly_larger(rows, blocks, &row);
    let mut list = Vec::new(alloc);
    for m in 0..rows.width() {
        let down = shared.has(m);
        let up = larger[m as usize].within(&row);
        list.push(arrow_of(row.has(m), down, up))?;
    }
    Ok(list)
}

/// A cross, or else the arrows that are there.
fn arrow_of(cross: bool, down: bool, up: bool) -> Arrow
    ensures { result ≡ arrow_of cross down up }
{
    match (cross, down, up) {
        (true, _, _) => Arrow::Cross,
        (false, true, true) => Arrow::Both,
        (false, true, false) => Arrow::Down,
        (false, false, true) => Arrow::Up,
        (false, false, false) => Arrow::Plain,
    }
}
