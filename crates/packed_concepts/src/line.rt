//! The line of a concept.

ghost use Rattle.std.specs.Prelude.{◌≡◌, ◌+◌, ◌*◌, ◌^◌, ◌<◌, ◌≤◌, ◌++◌, ℕ, OnOk, length, take};
ghost use Rattle.packed_concepts.specs.Lines.{line_of};
ghost use Rattle.packed_concepts.specs.Packing.{IsNamed};

use crate::names::Names;
use crate::pieces::{PIECE_ROOM, put_bytes};
use attr_bits::Bits;
use fca_model::Memory;

/// The most bytes of a line beside its number and its names: blanks, braces, an arrow and the line feed.
pub const PUNCTUATION: usize = 10;

/// The most digits of a number.
pub(crate) const DIGITS: usize = 20;

/// The most bytes of a line beside its names: a number and the punctuation.
pub(crate) const LONGEST_LINE: usize = PUNCTUATION + DIGITS;

/// The least number of bytes by which a text grows.
const STEP: usize = 65_536;

/// Makes the list long enough for so many bytes behind `end`.
pub fn make_room(bytes: &mut Vec<u8>, end: usize, room: usize) -> Result<(), Memory>
    requires { end ≤ length bytes.old.items }
    ensures text { take end bytes.new.items ≡ take end bytes.old.items }
    ensures kept { end ≤ length bytes.new.items }
    ensures room { OnOk result (end + room ≤ length bytes.new.items) }
{
    let len = bytes.len();
    if room <= len - end {
        return Ok(());
    }
    let Some(wanted) = end.checked_add(room.max(STEP)) else {
        return Err(Memory);
    };
    bytes.resize(wanted, 0)?;
    Ok(())
}

/// The bytes to be free for a line with so many digits, and with so many names in its first braces and in its second.
pub fn room_of(digits: usize, first: usize, second: usize) -> usize
    ensures { (x : ℕ) → result ≤ x → x < 2 ^ 63 → digits + (PUNCTUATION + PIECE_ROOM * (first + second)) ≤ x }
{
    first
        .saturating_add(second)
        .saturating_mul(PIECE_ROOM)
        .saturating_add(digits)
        .saturating_add(PUNCTUATION)
}

/// Puts the line at `start` and returns its end.
pub(crate) fn put_line<const W: usize>(
    text: &mut [u8],
    start: usize,
    names: &Names,
    digits: &[u8],
    a: &Bits<W>,
    places: &[u16],
) -> usize
    requires named { IsNamed names.now (a.now, places.now) }
    requires room { start + (length digits.now + (PUNCTUATION + PIECE_ROOM * (length a.now + length places.now))) ≤ length text.old }
    ensures text { take result text.new ≡ take start text.old ++ line_of names.now digits.now a.now places.now }
    ensures ends { result ≤ length text.new }
    ensures room { length text.new ≡ length text.old }
{
    let number = put_bytes(text, start, digits);
    let opened = put_bytes(text, number, b" {");
    let intent = names.put_intent(text, opened, a);
    let between = put_bytes(text, intent, b"} | {");
    let extent = names.put_extent(text, between, places);
    put_bytes(text, extent, b"}\n")
}
