//! The lines of covers.

ghost use Rattle.std.specs.Prelude.{◌≡◌, ◌+◌, ◌≤◌, ◌<◌, ◌++◌, IfOk, OnOk, length, take, codes};
ghost use Rattle.std.specs.List.{flat_map};
ghost use Rattle.report_texts.specs.Reports.{count_line, cover_line};
ghost use Rattle.table_texts.specs.Numerals.{AreNumerals};

use crate::heads::add_count_line;
use crate::numerals::extend_numerals;
use fca_model::Memory;
use packed_concepts::{BLOCK_BYTES, TextBlock, make_room, put_block, put_bytes};
use std::alloc::Global;

/// The bytes to be free where a line is put down: two numerals, and a byte behind each.
const LINE_ROOM: usize = 2 * BLOCK_BYTES + 2;

/// The text, followed by the number of the covers and their lines.
pub(crate) fn with_covers(
    alloc: Global,
    text: Vec<u8>,
    covers: &[(usize, usize)],
) -> Result<Vec<u8>, Memory>
    ensures { IfOk result (λ v. v.items ≡ text.items ++ (count_line (codes "covers ") (length covers.now) ++ flat_map cover_line covers.now)) }
{
    let mut bytes = text;
    add_count_line(&mut bytes, b"covers ", covers.len())?;
    let end = add_covers(alloc, &mut bytes, covers)?;
    bytes.truncate(end);
    Ok(bytes)
}

/// Puts the lines behind the text and returns their end. The digits of each number are made once.
fn add_covers(
    alloc: Global,
    bytes: &mut Vec<u8>,
    covers: &[(usize, usize)],
) -> Result<usize, Memory>
    ensures text { IfOk result (λ end. take end bytes.new.items ≡ bytes.old.items ++ flat_map cover_line covers.now) }
    ensures ends { IfOk result (λ end. end ≤ length bytes.new.items) }
{
    let mut end = bytes.len();
    let mut numerals = Vec::new(alloc);
    for pair in covers {
        end = add_cover(bytes, end, &mut numerals, pair.0, pair.1)?;
    }
    Ok(end)
}

/// Puts the line of the cover at `start`, makes room if necessary, and returns its end.
fn add_cover(
    bytes: &mut Vec<u8>,
    start: usize,
    numerals: &mut Vec<TextBlock>,
    upper: usize,
    lower: usize,
) -> Result<usize, Memory>
    requires start { start ≤ length bytes.old.items }
    requires numerals { AreNumerals numerals.old.items }
    ensures text { IfOk result (λ end. take end bytes.new.items ≡ take start bytes.old.items ++ cover_line (upper, lower)) }
    ensures ends { IfOk result (λ end. end ≤ length bytes.new.items) }
    ensures numerals { AreNumerals numerals.new.items }
{
    extend_numerals_over(numerals, upper.max(lower))?;
    make_room(bytes, start, LINE_ROOM)?;
    Ok(put_cover(bytes, start, numerals, upper, lower))
}

/// Makes the list long enough for the numeral of the place.
fn extend_numerals_over(numerals: &mut Vec<TextBlock>, place: usize) -> Result<(), Memory>
    requires { AreNumerals numerals.old.items }
    ensures numerals { AreNumerals numerals.new.items }
    ensures inside { OnOk result (place < length numerals.new.items) }
{
    if place < numerals.len() {
        return Ok(());
    }
    let Some(len) = place.checked_add(1) else {
        return Err(Memory);
    };
    extend_numerals(numerals, len)
}

/// Puts the line of the cover at `start` and returns its end.
fn put_cover(
    text: &mut [u8],
    start: usize,
    numerals: &[TextBlock],
    upper: usize,
    lower: usize,
) -> usize
    requires numerals { AreNumerals numerals.now }
    requires upper { upper < length numerals.now }
    requires lower { lower < length numerals.now }
    requires room { start + LINE_ROOM ≤ length text.old }
    ensures text { take result text.new ≡ take start text.old ++ cover_line (upper, lower) }
    ensures ends { result ≤ length text.new }
    ensures room { length text.new ≡ length text.old }
{
    let first = put_block(text, start, &numerals[upper]);
    let between = put_bytes(text, first, b" ");
    let second = put_block(text, between, &numerals[lower]);
    put_bytes(text, second, b"\n")
}
