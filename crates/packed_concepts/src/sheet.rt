//! Sheets on which threads lay out lines.

ghost use Rattle.std.specs.Prelude.{◌≡◌, ◌+◌, ◌^◌, ◌<◌, ◌≤◌, ◌++◌, None, All, IfOk, IfSome, length, take, slice_index_or};
ghost use Rattle.std.specs.Option.{option_map};
ghost use Rattle.packed_concepts.specs.Lines.{line_of, lines_from};
ghost use Rattle.packed_concepts.specs.Packing.{IsNamed};
ghost use Rattle.packed_concepts.specs.Stretches.{job_lines, lines_on, IsReady};
ghost use Rattle.packed_concepts.specs.Sheets.{IsLaid};
ghost use Rattle.expert_wire.specs.Texts.{ordinal};

use crate::line::{DIGITS, put_line, room_of};
use crate::names::Names;
use crate::stretch::Stretch;
use attr_bits::Bits;
use fca_model::Memory;
use itoa::Buffer;
use std::alloc::Global;
use std::marker::Model;

/// Lines that a thread laid out, if there was room for all of them.
#[derive(Drop)]
pub(crate) struct Sheet {
    bytes: Vec<u8>,
    end: Option<usize>,
}

impl Model for Sheet {
    ghost use Rattle.std.specs.Prelude.{◌≤◌, ℕ, List, Option, IfSome, length, take};
    ghost use Rattle.std.specs.Option.{option_map};

    ghost Value = { Option (List ℕ) };

    ghost view = { λ s. option_map (λ end. take end s.bytes.items) s.end };

    ghost invariant = { λ s. IfSome s.end (λ end. end ≤ length s.bytes.items) };
}

impl Sheet {
    /// A sheet with room for so many bytes, on which there are no lines.
    pub(crate) fn new(alloc: Global, room: usize) -> Result<Sheet, Memory> {
        let mut bytes = Vec::new(alloc);
        bytes.resize(room, 0)?;
        Ok(Sheet { bytes, end: None })
    }

    /// The lines.
    pub(crate) fn text(&self) -> Option<&[u8]>
        ensures { option_map (λ text. text.now) result ≡ self.now }
    {
        let end = self.end?;
        Some(&self.bytes[..end])
    }

    /// Lays out the lines of the job, in place of those that were there.
    pub(crate) fn lay<const W: usize>(&mut self, names: &Names, job: &[Stretch<'_, W>])
        requires { All (IsReady names.now) job.now }
        ensures { IsLaid names.now job.now self.new }
    {
        self.end = put_job(&mut self.bytes, names, job);
    }
}

/// Puts the lines of the job at the front and returns their end, if there is room.
fn put_job<const W: usize>(text: &mut [u8], names: &Names, job: &[Stretch<'_, W>]) -> Option<usize>
    requires { All (IsReady names.now) job.now }
    ensures text { IfSome result (λ end. take end text.new ≡ job_lines names.now job.now) }
    ensures ends { IfSome result (λ end. end ≤ length text.new) }
    ensures room { length text.new ≡ length text.old }
{
    let mut end = 0;
    for stretch in job {
        end = put_stretch(text, end, names, stretch)?;
    }
    Some(end)
}

/// Puts the lines of the stretch at `start` and returns their end, if there is room.
fn put_stretch<const W: usize>(
    text: &mut [u8],
    start: usize,
    names: &Names,
    stretch: &Stretch<'_, W>,
) -> Option<usize>
    requires ready { IsReady names.now stretch.now }
    requires start { start ≤ length text.old }
    ensures text { IfSome result (λ end. take end text.new ≡ take start text.old ++ lines_on names.now stretch.now) }
    ensures ends { IfSome result (λ end. end ≤ length text.new) }
    ensures room { length text.new ≡ length text.old }
{
    let mut next = stretch.first();
    let (packed, all) = stretch.parts();
    let mut rest = all;
    let mut end = start;
    for one in packed {
        let (places, behind) = rest.split_at(one.count as usize);
        end = put_numbered(text, end, names, next, &one.intent, places)?;
        next += 1;
        rest = behind;
    }
    Some(end)
}

/// Puts the line of the concept at the place at `start` and returns its end, if there is room.
fn put_numbered<const W: usize>(
    text: &mut [u8],
    start: usize,
    names: &Names,
    place: usize,
    intent: &Bits<W>,
    places: &[u16],
) -> Option<usize>
    requires named { IsNamed names.now (intent.now, places.now) }
    requires start { start ≤ length text.old }
    requires few { place + 1 < 2 ^ 64 }
    ensures text { IfSome result (λ end. take end text.new ≡ take start text.old ++ line_of names.now (ordinal place) intent.now places.now) }
    ensures ends { IfSome result (λ end. end ≤ length text.new) }
    ensures room { length text.new ≡ length text.old }
{
    let room = room_of(DIGITS, intent.width() as usize, places.len());
    if text.len() - start < room {
        return None;
    }
    let mut digits = Buffer::new();
    let number = digits.format(place + 1).as_bytes();
    Some(put_line(text, start, names, number, intent, places))
}
