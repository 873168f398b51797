//! The parts of a generated table: cells that are drawn one by one, and names by number.

ghost use Rattle.std.specs.Prelude.{◌≡◌, ◌+◌, ◌≤◌, IfOk, None};
ghost use Rattle.attr_bits.specs.Words.{number_of};
ghost use Rattle.context_table.specs.Generated.{next_state, state_after, draws_cross, row_from, rows_from, numbered_names};
ghost use Rattle.fca_model.specs.Names.{name_fault};

use attr_bits::Attrs;
use derivation::Rows;
use fca_model::{MAX_ATTRIBUTES, Memory, Name, NameFault};
use itoa::Buffer;
use std::alloc::Global;

/// The factor of a step of the generator, from Knuth's MMIX.
const MULTIPLIER: u64 = 6_364_136_223_846_793_005;

/// The summand of a step of the generator, from Knuth's MMIX.
const INCREMENT: u64 = 1_442_695_040_888_963_407;

/// The number of bits below the three highest, which decide on a cell.
const LOWER: u32 = 61;

/// The number of cells that are put into a row at once.
const BLOCK: u32 = 64;

/// A linear congruential generator of cells.
#[derive(Drop)]
pub struct CellGenerator {
    state: u64,
    density: u8,
}

impl CellGenerator {
    /// A generator that begins at this seed. About `density` in eight of its cells are crosses.
    pub fn new(seed: u64, density: u8) -> CellGenerator
        ensures state { result.state ≡ seed }
        ensures density { result.density ≡ density }
    {
        CellGenerator {
            state: seed,
            density,
        }
    }

    /// Draws a cell, and returns whether it is a cross.
    fn next_cell(&mut self) -> bool
        ensures state { self.new.state ≡ next_state self.old.state }
        ensures density { self.new.density ≡ self.old.density }
        ensures cross { result ≡ draws_cross self.new.density self.new.state }
    {
        self.state = self.state.wrapping_mul(MULTIPLIER).wrapping_add(INCREMENT);
        self.state >> LOWER < u64::from(self.density)
    }

    /// Draws `count` cells as bits, from the lowest on.
    fn next_bits(&mut self, count: u32) -> u64
        requires { count ≤ 64 }
        ensures state { self.new.state ≡ state_after count self.old.state }
        ensures density { self.new.density ≡ self.old.density }
        ensures cells { result ≡ number_of (λ j. draws_cross self.old.density (state_after (j + 1) self.old.state)) count }
    {
        let mut bits = 0;
        for j in 0..count {
            if self.next_cell() {
                bits += 1u64 << j;
            }
        }
        bits
    }

    /// Draws a row of n cells.
    fn next_row(&mut self, n: u32) -> Attrs
        requires { n ≤ MAX_ATTRIBUTES }
        ensures state { self.new.state ≡ state_after n self.old.state }
        ensures density { self.new.density ≡ self.old.density }
        ensures row { result ≡ row_from self.old.density n self.old.state }
    {
        let mut row = Attrs::empty(n);
        for block in 0..n.div_ceil(BLOCK) {
            let from = BLOCK * block;
            row.insert_bits(from, self.next_bits((n - from).min(BLOCK)));
        }
        row
    }

    /// Draws `count` rows of n cells.
    pub fn into_rows(mut self, alloc: Global, count: u32, n: u32) -> Result<Rows, Memory>
        requires { n ≤ MAX_ATTRIBUTES }
        ensures { IfOk result (λ rows. rows ≡ record { width = n; rows = rows_from self.density count n self.state }) }
    {
        let mut rows = Rows::new(alloc, n)?;
        for _ in 0..count {
            rows.push(self.next_row(n))?;
        }
        Ok(rows)
    }
}

/// Names of a lower-case letter and a number, from 1 to `count`.
pub fn numbered_names(alloc: Global, letter: char, count: u32) -> Result<Vec<Name>, Memory>
    requires from_a { 97 ≤ letter }
    requires to_z { letter ≤ 122 }
    ensures { IfOk result (λ names. names.items ≡ numbered_names letter count) }
{
    let mut names = Vec::with_capacity(alloc, count as usize)?;
    let mut text = String::new(alloc);
    for i in 0..count {
        text.clear();
        text.push(letter)?;
        text.push_str(Buffer::new().format(i + 1))?;
        names.push(name_of(alloc, &text)?)?;
    }
    Ok(names)
}

/// The name with this text, which has no fault.
fn name_of(alloc: Global, text: &str) -> Result<Name, Memory>
    requires { name_fault text.now ≡ None }
    ensures { IfOk result (λ name. name ≡ text.now) }
{
    match Name::new(alloc, text) {
        Ok(name) => Ok(name),
        Err(NameFault::Memory) => Err(Memory),
        Err(_) => unreachable!(),
    }
}
