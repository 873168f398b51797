//! Cells of at most one byte, as nearly all are. No branch depends on what one of them says.

ghost use Rattle.std.specs.Prelude.{◌≡◌, ◌<◌, ◌≤◌, ◌+◌, ℕ, IsTrue, true, drop, if◌then◌else◌, length, slice_set};
ghost use Rattle.csv_context.specs.Lines.{fields_in};
ghost use Rattle.csv_context.specs.Cells as cell;
ghost use Rattle.csv_context.specs.Cells.{ReadTo, TakesCell};

use attr_bits::Attrs;
use fca_model::MAX_ATTRIBUTES;

/// A row that has the cells before a place, and the cells from there on.
#[derive(Drop)]
pub struct RowStart<'a> {
    pub row: Attrs,
    pub place: u32,
    pub left: &'a [u8],
}

/// The first cell, as its first two bytes show it, and the bytes behind its comma.
#[derive(Drop)]
struct FirstCell<'a> {
    is_short: bool,
    is_short_cross: bool,
    behind: &'a [u8],
}

/// Reads cells as long as each has at most one byte and bytes are behind it.
pub fn begin_row(width: u32, cells: &[u8]) -> RowStart<'_>
    requires { width ≤ MAX_ATTRIBUTES }
    ensures read { (i : ℕ) → ReadTo i width (fields_in cells.now) result.row result.place }
    ensures left { drop result.place (fields_in cells.now) ≡ fields_in result.left.now }
    ensures wide { length result.row ≡ width }
    ensures within { result.place ≤ width }
{
    let mut row = Attrs::empty(width);
    let mut place = 0;
    let mut left = cells;
    while left.len() > 1 && place < width {
        let cell = first_cell(left);
        if !cell.is_short {
            break;
        }
        put_cell(&mut row, place, cell.is_short_cross);
        left = cell.behind;
        place += 1;
    }
    RowStart { row, place, left }
}

/// Adds the attribute at this place if the cell is a cross.
pub fn put_cell(row: &mut Attrs, place: u32, cross: bool)
    requires { place < length row.old }
    ensures { row.new ≡ (if cross then slice_set row.old place true else row.old) }
{
    row.insert_bits(place - place % 64, u64::from(cross) << (place % 64));
}

fn first_cell(cells: &[u8]) -> FirstCell<'_>
    requires { 2 ≤ length cells.now }
    ensures cell { IsTrue result.is_short → TakesCell cells.now result.is_short_cross result.behind.now }
    ensures shorter { length result.behind.now < length cells.now }
{
    let first = cells[0];
    let size = usize::from(first != b',');
    FirstCell {
        is_short: begins_short(first) & (cells[size] == b','),
        is_short_cross: is_short_cross(first),
        behind: &cells[size + 1..],
    }
}

/// Whether the byte is a cell, or the comma behind an empty one.
fn begins_short(byte: u8) -> bool
    ensures { result ≡ cell.begins_short byte }
{
    is_short_cross(byte) | (byte == b'.') | (byte == b'0') | (byte == b',')
}

/// Whether a cell of this byte alone is a cross.
fn is_short_cross(byte: u8) -> bool
    ensures { result ≡ cell.is_short_cross byte }
{
    (byte == b'X') | (byte == b'x') | (byte == b'1')
}
