//! The readers of single lines.

ghost use Rattle.std.specs.Prelude.{◌≡◌, ◌≤◌, ◌*◌};
ghost use Rattle.cxt_format.specs.LineForms as line_form;
ghost use Rattle.text_pieces.specs.Telling.{Tells};

use crate::CxtFault;
use crate::cells::set_if_marks;
use attr_bits::Bits;
use fca_model::{MAX_ATTRIBUTES, Name, NameFault};
use std::alloc::Global;
use text_pieces::{is_blank_line, is_numeral, trim, value_of};

/// Whether the line is the letter B, with blanks round it.
pub fn is_b_line(line: &[u8]) -> bool
    ensures { result ≡ line_form.is_b_line line.now }
{
    trim(line) == b"B".as_slice()
}

/// The count on line `number`, which may be at most `most`.
pub fn count_of(most: usize, number: usize, line: &[u8]) -> Result<usize, CxtFault>
    ensures { result ≡ line_form.count_form most number line.now }
{
    let word = trim(line);
    if !is_numeral(word) {
        return Err(CxtFault::BadCount(number));
    }
    match value_of(word) {
        Some(count) if count <= most as u64 => Ok(count as usize),
        _ => Err(CxtFault::TooMany(number)),
    }
}

/// The title on line `number`.
pub fn title_of(alloc: Global, number: usize, line: &str) -> Result<Option<Name>, CxtFault>
    ensures { Tells CxtFault.Memory result (line_form.title_form number line.now) }
{
    match Name::new(alloc, line) {
        Ok(name) => Ok(Some(name)),
        Err(NameFault::Empty) => Ok(None),
        Err(NameFault::Long) => Err(CxtFault::LongName(number)),
        Err(NameFault::Line) => Err(CxtFault::BadName(number)),
        Err(NameFault::Memory) => Err(CxtFault::Memory),
    }
}

/// The name on line `number`.
pub fn name_of(alloc: Global, number: usize, line: &str) -> Result<Name, CxtFault>
    ensures { Tells CxtFault.Memory result (line_form.name_form number line.now) }
{
    match Name::new(alloc, line) {
        Ok(name) => Ok(name),
        Err(NameFault::Empty) => Err(CxtFault::EmptyName(number)),
        Err(NameFault::Long) => Err(CxtFault::LongName(number)),
        Err(NameFault::Line) => Err(CxtFault::BadName(number)),
        Err(NameFault::Memory) => Err(CxtFault::Memory),
    }
}

/// The row of `width` attributes on line `number`.
pub fn row_of<const W: usize>(width: u32, number: usize, line: &[u8]) -> Result<Bits<W>, CxtFault>
    requires few { width ≤ MAX_ATTRIBUTES }
    requires room { width ≤ 64 * W }
    ensures { result ≡ line_form.row_form width number line.now }
{
    if line.len() < width as usize {
        return Err(CxtFault::BadRow(number));
    }
    let (cells, rest) = line.split_at(width as usize);
    match set_if_marks(cells) {
        Some(row) if is_blank_line(rest) => Ok(row),
        _ => Err(CxtFault::BadRow(number)),
    }
}
