//! Extents in blocks, those of larger sets, and closures by them.

ghost use Rattle.std.specs.Prelude.{◌≡◌, ◌≤◌, ◌<◌, ◌&&◌, ◌+◌, ◌*◌, ◌^◌, ℕ, [], IfOk, OnOk, MatchOption, length, true, false};
ghost use Rattle.std.specs.List.{list_any};
ghost use Rattle.fca_model.specs.Sets.{within};
ghost use Rattle.fca_model.specs.Context.{closure};
ghost use Rattle.extent_blocks.specs.Blocks.{IsExtent, IsExtentWith, IsMeeting, IsMet, contains_at, has_at, in_block, in_column, in_blocks};

use crate::rows::{BLOCK, BlockSet, IndexedRows, places_above};
use attr_bits::Bits;
use derivation::RowsOf;
use fca_model::Memory;
use std::alloc::Global;
use std::marker::Model;

/// Rows are met one after another if their places are in no more blocks than this.
const FEW_BLOCKS: usize = 8;

/// Some places of one block.
#[derive(Clone, Copy)]
struct Block {
    /// The number of the block, from 0.
    number: usize,
    /// The places, counted from the first one of the block.
    objects: BlockSet,
}

/// Some places, as those of an extent. Blocks without places are left out.
#[derive(Drop)]
pub struct BlockExtent {
    blocks: Vec<Block>,
}

impl Model for BlockExtent {
    ghost use Rattle.std.specs.Prelude.{List, map};
    ghost use Rattle.extent_blocks.specs.Blocks.{NumberedBlock};

    ghost Value = { List NumberedBlock };

    ghost view = { λ n. map (λ x. record { number = x.number; objects = x.objects }) n.blocks.items };
}

impl BlockExtent {
    /// The places of the rows that contain a.
    pub fn of<const W: usize>(
        alloc: Global,
        indexed: &IndexedRows<W>,
        a: &Bits<W>,
    ) -> Result<BlockExtent, Memory>
        ensures { IfOk result (λ found. IsExtent indexed.now a.now found) }
    {
        let column = places_above(alloc, indexed.rows(), a)?;
        Ok(BlockExtent {
            blocks: number_blocks(alloc, &column)?,
        })
    }

    /// No places.
    pub fn new(alloc: Global) -> BlockExtent
        ensures { result ≡ [] }
    {
        BlockExtent {
            blocks: Vec::new(alloc),
        }
    }

    /// Takes the places of another extent whose rows have attribute i, in place of its own. The room is used again.
    pub fn set_having<const W: usize>(
        &mut self,
        other: &BlockExtent,
        indexed: &IndexedRows<W>,
        i: u32,
    ) -> Result<(), Memory>
        requires { i < indexed.now.width }
        ensures { OnOk result ((g : ℕ) → in_blocks self.new g ≡ (in_blocks other.now g && has_at indexed.now i g)) }
    {
        keep_in(&other.blocks, indexed.column(i), &mut self.blocks)
    }

    /// The closure of a, given that the places whose rows have attribute i are the extent of a.
    pub fn closure_among<const W: usize>(
        &self,
        indexed: &IndexedRows<W>,
        i: u32,
        a: &Bits<W>,
    ) -> Bits<W>
        requires inside { i < indexed.now.width }
        requires wide { length a.now ≡ indexed.now.width }
        requires extent { IsExtentWith indexed.now a.now i self.now }
        ensures { result ≡ closure indexed.now a.now }
    {
        let _width = indexed.rows().width();
        if self.blocks.len() <= FEW_BLOCKS {
            return self.closure_by_rows(indexed, i, a);
        }
        self.closure_by_columns(indexed, i, a)
    }

    /// What `closure_among` gives, by the meet of these rows one after another. `meet_of_rows` finds it in the blocks; this says it of the extent.
    fn closure_by_rows<const W: usize>(
        &self,
        indexed: &IndexedRows<W>,
        i: u32,
        a: &Bits<W>,
    ) -> Bits<W>
        requires inside { i < indexed.now.width }
        requires wide { length a.now ≡ indexed.now.width }
        requires extent { IsExtentWith indexed.now a.now i self.now }
        ensures { result ≡ closure indexed.now a.now }
    {
        let _width = indexed.rows().width();
        meet_of_rows(&self.blocks, indexed.column(i), indexed.rows(), a)
    }

    /// What `closure_among` gives, from few of these rows. As long as one of them lacks an attribute of the meet, it is met too.
    fn closure_by_columns<const W: usize>(
        &self,
        indexed: &IndexedRows<W>,
        i: u32,
        a: &Bits<W>,
    ) -> Bits<W>
        requires inside { i < indexed.now.width }
        requires wide { length a.now ≡ indexed.now.width }
        requires extent { IsExtentWith indexed.now a.now i self.now }
        ensures { result ≡ closure indexed.now a.now }
    {
        let rows = indexed.rows();
        let mut met = Bits::full(rows.width());
        let mut kept = *a;
        while let Some(k) = met.first_missing(&kept) {
            match self.place_lacking(indexed, i, k) {
                Some(place) => met = met.meet(&rows.as_slice()[place]),
                None => kept.insert(k),
            }
        }
        met
    }

    /// A place whose row has attribute i and lacks k, or none if each row that has i has k. `first_lacking` finds it in the blocks; this says it of the extent.
    fn place_lacking<const W: usize>(
        &self,
        indexed: &IndexedRows<W>,
        i: u32,
        k: u32,
    ) -> Option<usize>
        requires inside { i < indexed.now.width }
        requires other { k < indexed.now.width }
        ensures { MatchOption result
            ((g : ℕ) → in_blocks self.now g ≡ true → has_at indexed.now i g ≡ true → has_at indexed.now k g ≡ true)
            (λ g. (in_blocks self.now g ≡ true) × (has_at indexed.now i g ≡ true) × (has_at indexed.now k g ≡ false)) }
    {
        let _objects = indexed.rows().len();
        first_lacking(&self.blocks, indexed.column(i), indexed.column(k))
    }
}

impl Block {
    /// The places that are in the column, if there are any.
    fn meet(&self, column: &[BlockSet]) -> Option<Block>
        ensures { MatchOption result
            ((g : ℕ) → (in_block self.now.number self.now.objects g && in_column column.now g) ≡ false)
            (λ kept. (g : ℕ) → in_block kept.number kept.objects g ≡ (in_block self.now.number self.now.objects g && in_column column.now g)) }
    {
        let Some(having) = column.get(self.number) else {
            return None;
        };
        let objects = self.objects.meet(having);
        match objects.next_member(0) {
            None => None,
            Some(_) => Some(Block {
                number: self.number,
                objects,
            }),
        }
    }

    /// The first place that is in one column and not in the other, counted from the first one of the block.
    fn first_of(&self, having: &[BlockSet], lacking: &[BlockSet]) -> Option<u32>
        requires { length lacking.now ≡ length having.now }
        ensures { MatchOption result
            ((g : ℕ) → in_block self.now.number self.now.objects g ≡ true → in_column having.now g ≡ true → in_column lacking.now g ≡ true)
            (λ j. (j < 256) × (in_block self.now.number self.now.objects (self.now.number * 256 + j) ≡ true)
            × (in_column having.now (self.now.number * 256 + j) ≡ true) × (in_column lacking.now (self.now.number * 256 + j) ≡ false)) }
    {
        let _width = self.objects.width();
        let Some(with) = having.get(self.number) else {
            return None;
        };
        self.objects.meet(with).first_missing(&lacking[self.number])
    }

    /// The row at the last of the places that are in the column, or the full set if there is none. These rows contain a.
    fn last_row<const W: usize>(
        &self,
        column: &[BlockSet],
        rows: &RowsOf<W>,
        a: &Bits<W>,
    ) -> Bits<W>
        requires containing { (g : ℕ) → (in_block self.now.number self.now.objects g && in_column column.now g) ≡ true → contains_at rows.now a.now g ≡ true }
        ensures { IsMeeting rows.now a.now result }
    {
        let _places = (self.objects.width(), rows.len(), a.width());
        let Some(having) = column.get(self.number) else {
            return Bits::full(rows.width());
        };
        let left = self.objects.meet(having);
        match left.last_missing(&Bits::empty(BLOCK as u32), BLOCK as u32) {
            None => Bits::full(rows.width()),
            Some(j) => rows.as_slice()[self.number * BLOCK + j as usize],
        }
    }

    /// The meet of the set and the rows at the places that are in the column. All these rows contain a, so once the meet lies within a, the rows that are left
    /// change nothing.
    fn meet_rows<const W: usize>(
        &self,
        column: &[BlockSet],
        rows: &RowsOf<W>,
        a: &Bits<W>,
        start: &Bits<W>,
    ) -> Bits<W>
        requires start { IsMeeting rows.now a.now start.now }
        requires containing { (g : ℕ) → (in_block self.now.number self.now.objects g && in_column column.now g) ≡ true → contains_at rows.now a.now g ≡ true }
        ensures meeting { IsMeeting rows.now a.now result }
        ensures less { within result start.now ≡ true }
        ensures below { IsMet rows.now (λ g. in_block self.now.number self.now.objects g && in_column column.now g) result }
    {
        let _places = (self.objects.width(), rows.len());
        let Some(having) = column.get(self.number) else {
            return *start;
        };
        let left = self.objects.meet(having);
        let mut met = *start;
        let mut from = 0;
        while let Some(j) = left.next_member(from) {
            met = met.meet(&rows.as_slice()[self.number * BLOCK + j as usize]);
            if met.within(a) {
                return met;
            }
            from = j + 1;
        }
        met
    }
}

/// The closure of a, given that the places of the blocks that are in the column are the extent of a: the meet of their rows.
fn meet_of_rows<const W: usize>(
    blocks: &[Block],
    column: &[BlockSet],
    rows: &RowsOf<W>,
    a: &Bits<W>,
) -> Bits<W>
    requires wide { length a.now ≡ rows.now.width }
    requires extent { (g : ℕ) → (list_any (λ x. in_block x.number x.objects g) blocks.now && in_column column.now g) ≡ contains_at rows.now a.now g }
    ensures { result ≡ closure rows.now a.now }
{
    let _width = rows.width();
    let mut met = last_row(blocks, column, rows, a);
    for block in blocks {
        met = block.meet_rows(column, rows, a, &met);
    }
    met
}

/// The row at the last of the places of the blocks that are in the column, or the full set if the last block has none of these. The meet begins with it: where
/// the rows are sorted, it and the first one differ the most.
fn last_row<const W: usize>(
    blocks: &[Block],
    column: &[BlockSet],
    rows: &RowsOf<W>,
    a: &Bits<W>,
) -> Bits<W>
    requires extent { (g : ℕ) → (list_any (λ x. in_block x.number x.objects g) blocks.now && in_column column.now g) ≡ contains_at rows.now a.now g }
    ensures { IsMeeting rows.now a.now result }
{
    match blocks.last() {
        None => Bits::full(rows.width()),
        Some(block) => block.last_row(column, rows, a),
    }
}

/// Numbers the blocks of a column.
fn number_blocks(alloc: Global, column: &[BlockSet]) -> Result<Vec<Block>, Memory>
    ensures { IfOk result (λ blocks. (g : ℕ) → list_any (λ x. in_block x.number x.objects g) blocks.items ≡ in_column column.now g) }
{
    let mut blocks = Vec::with_capacity(alloc, column.len())?;
    for (number, objects) in column.iter().enumerate() {
        blocks.push(Block {
            number,
            objects: *objects,
        })?;
    }
    Ok(blocks)
}

/// Keeps the places of the blocks that are in the column, in place of what was kept before.
fn keep_in(blocks: &[Block], column: &[BlockSet], kept: &mut Vec<Block>) -> Result<(), Memory>
    ensures { OnOk result ((g : ℕ) → list_any (λ x. in_block x.number x.objects g) kept.new.items
        ≡ (list_any (λ x. in_block x.number x.objects g) blocks.now && in_column column.now g)) }
{
    kept.clear();
    for block in blocks {
        if let Some(fewer) = block.meet(column) {
            kept.push(fewer)?;
        }
    }
    Ok(())
}

/// A place of the blocks that is in one column and not in the other, or none if there is no such place.
fn first_lacking(blocks: &[Block], having: &[BlockSet], lacking: &[BlockSet]) -> Option<usize>
    requires same { length lacking.now ≡ length having.now }
    requires small { (g : ℕ) → in_column having.now g ≡ true → g < 2 ^ 64 }
    ensures { MatchOption result
        ((g : ℕ) → list_any (λ x. in_block x.number x.objects g) blocks.now ≡ true → in_column having.now g ≡ true → in_column lacking.now g ≡ true)
        (λ g. (list_any (λ x. in_block x.number x.objects g) blocks.now ≡ true) × (in_column having.now g ≡ true) × (in_column lacking.now g ≡ false)) }
{
    for block in blocks {
        if let Some(j) = block.first_of(having, lacking) {
            return Some(block.number * BLOCK + j as usize);
        }
    }
    None
}
