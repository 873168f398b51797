//! The lines of packed concepts, written through a buffer.

ghost use Rattle.std.specs.Prelude.{◌≡◌, ◌+◌, ◌*◌, ◌^◌, ◌<◌, ◌≤◌, ◌++◌, [], All, IfOk, IfErr, OnOk, length, take};
ghost use Rattle.std.specs.List.{flat_map};
ghost use Rattle.expert_wire.specs.Parts.{WritesTo};
ghost use Rattle.expert_wire.specs.Texts.{ordinal};
ghost use Rattle.packed_concepts.specs.Lines.{line_of, lines_from};
ghost use Rattle.packed_concepts.specs.Packing.{IsNamed, HasRoomForLine};
ghost use Rattle.packed_concepts.specs.Passing.{HasPassed};
ghost use Rattle.packed_concepts.specs.Stretches.{lines_on, IsReady, HasRoomForLines};

use crate::line::{LONGEST_LINE, put_line};
use crate::names::Names;
use crate::page::ConceptPage;
use crate::pieces::PIECE_ROOM;
use crate::stretch::Stretch;
use attr_bits::Bits;
use expert_wire::write_bytes;
use fca_io::{Put, Sink};
use itoa::Buffer;

/// So many bytes that wait in the buffer are written.
pub(crate) const MANY_BYTES: usize = 1 << 18;

/// Makes room for so many bytes behind those that wait in the buffer up to `end`, and returns their end from then on. Bytes that wait are written, if
/// necessary.
fn make_way<K: Sink>(out: &mut K, buffer: &[u8], end: usize, room: usize) -> Result<usize, Put>
    requires end { end ≤ length buffer.now }
    requires room { room ≤ length buffer.now }
    ensures passed { IfOk result (λ start. HasPassed (K.held out.old) (K.held out.new) (K.faults out.old) (K.faults out.new) (K.beside out.old) (K.beside out.new)
        (K.read_counts_beside out.old) (K.read_counts_beside out.new) (take end buffer.now) (take start buffer.now) []) }
    ensures room { IfOk result (λ start. start + room ≤ length buffer.now) }
    ensures failed { IfErr result (λ fault. WritesTo K.held K.faults K.beside K.read_counts_beside out.old out.new
        (take end buffer.now) (Err fault)) }
{
    if end < MANY_BYTES && room <= buffer.len() - end {
        return Ok(end);
    }
    write_bytes(out, &buffer[..end])?;
    Ok(0)
}

/// Puts the line of the concept at the place behind the bytes that wait in the buffer, and returns its end. Bytes that wait are written before, if they are many
/// or leave no room.
fn pass_line<K: Sink, const W: usize>(
    out: &mut K,
    names: &Names,
    buffer: &mut [u8],
    end: usize,
    place: usize,
    intent: &Bits<W>,
    places: &[u16],
) -> Result<usize, Put>
    requires named { IsNamed names.now (intent.now, places.now) }
    requires enough { HasRoomForLine (length buffer.old) (intent.now, places.now) }
    requires end { end ≤ length buffer.old }
    requires few { place + 1 < 2 ^ 64 }
    ensures passed { IfOk result (λ new_end. HasPassed (K.held out.old) (K.held out.new) (K.faults out.old) (K.faults out.new) (K.beside out.old) (K.beside out.new)
        (K.read_counts_beside out.old) (K.read_counts_beside out.new) (take end buffer.old) (take new_end buffer.new)
        (line_of names.now (ordinal place) intent.now places.now)) }
    ensures end { IfOk result (λ new_end. new_end ≤ length buffer.new) }
    ensures failed { IfErr result (λ fault. WritesTo K.held K.faults K.beside K.read_counts_beside out.old out.new
        (take end buffer.old) (Err fault)) }
    ensures room { length buffer.new ≡ length buffer.old }
{
    let room = LONGEST_LINE + PIECE_ROOM * (intent.width() as usize + places.len());
    let start = make_way(out, buffer, end, room)?;
    let mut digits = Buffer::new();
    let number = digits.format(place + 1).as_bytes();
    Ok(put_line(buffer, start, names, number, intent, places))
}

/// Puts the lines of the stretch behind the bytes that wait, and returns their end.
pub(crate) fn pass_stretch<K: Sink, const W: usize>(
    out: &mut K,
    names: &Names,
    buffer: &mut [u8],
    end: usize,
    stretch: &Stretch<'_, W>,
) -> Result<usize, Put>
    requires ready { IsReady names.now stretch.now }
    requires enough { HasRoomForLines (length buffer.old) stretch.now }
    requires end { end ≤ length buffer.old }
    ensures passed { IfOk result (λ new_end. HasPassed (K.held out.old) (K.held out.new) (K.faults out.old) (K.faults out.new) (K.beside out.old) (K.beside out.new)
        (K.read_counts_beside out.old) (K.read_counts_beside out.new) (take end buffer.old) (take new_end buffer.new)
        (lines_on names.now stretch.now)) }
    ensures end { IfOk result (λ new_end. new_end ≤ length buffer.new) }
    ensures failed { IfErr result (λ fault. WritesTo K.held K.faults K.beside K.read_counts_beside out.old out.new
        (take end buffer.old ++ lines_on names.now stretch.now) (Err fault)) }
    ensures room { length buffer.new ≡ length buffer.old }
{
    let first = stretch.first();
    let (packed, all) = stretch.parts();
    let mut rest = all;
    let mut waits = end;
    let mut next = first;
    for one in packed {
        let (places, behind) = rest.split_at(one.count as usize);
        waits = pass_line(out, names, buffer, waits, next, &one.intent, places)?;
        next += 1;
        rest = behind;
    }
    Ok(waits)
}

/// Puts the lines of all pages behind the bytes that wait, and returns their end.
pub(crate) fn pass_pages<K: Sink, const W: usize>(
    out: &mut K,
    names: &Names,
    buffer: &mut [u8],
    end: usize,
    pages: &[ConceptPage<W>],
) -> Result<usize, Put>
    requires named { All (λ page. All (IsNamed names.now) page) pages.now }
    requires enough { All (λ page. All (HasRoomForLine (length buffer.old)) page) pages.now }
    requires end { end ≤ length buffer.old }
    requires few { length (flat_map (λ page. page) pages.now) < 2 ^ 64 }
    ensures passed { IfOk result (λ new_end. HasPassed (K.held out.old) (K.held out.new) (K.faults out.old) (K.faults out.new) (K.beside out.old) (K.beside out.new)
        (K.read_counts_beside out.old) (K.read_counts_beside out.new) (take end buffer.old) (take new_end buffer.new)
        (lines_from names.now 0 (flat_map (λ page. page) pages.now))) }
    ensures end { IfOk result (λ new_end. new_end ≤ length buffer.new) }
    ensures failed { IfErr result (λ fault. WritesTo K.held K.faults K.beside K.read_counts_beside out.old out.new
        (take end buffer.old ++ lines_from names.now 0 (flat_map (λ page. page) pages.now)) (Err fault)) }
    ensures room { length buffer.new ≡ length buffer.old }
{
    let mut waits = end;
    let mut next = 0;
    for page in pages {
        let count = page.len();
        waits = pass_stretch(out, names, buffer, waits, &Stretch::of_page(page, next))?;
        next += count;
    }
    Ok(waits)
}
