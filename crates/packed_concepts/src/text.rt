//! The text of packed concepts.

ghost use Rattle.std.specs.Prelude.{◌≡◌, ◌<◌, ◌≤◌, ◌++◌, All, IfOk, IfSome, IfNone, length, take};
ghost use Rattle.std.specs.List.{flat_map};
ghost use Rattle.expert_wire.specs.Parts.{WritesTo};
ghost use Rattle.packed_concepts.specs.Lines.{count_line_of, lines_text};
ghost use Rattle.packed_concepts.specs.Packing.{IsNamed, HasRoomForLine};
ghost use Rattle.packed_concepts.specs.Pages.{concepts_on};
ghost use Rattle.packed_concepts.specs.Stretches.{all_lines, IsReady, HasRoomForLines};

use crate::gauge::SHARE;
use crate::jobs::{MOST_WEIGHT, line_jobs, stretches_of};
use crate::line::{DIGITS, room_of};
use crate::names::Names;
use crate::page::ConceptPage;
use crate::pages::NarrowPages;
use crate::pieces::put_bytes;
use crate::rounds::{processors, sheets_of, write_jobs};
use crate::sheet::Sheet;
use crate::stretch::Stretch;
use crate::writing::{MANY_BYTES, pass_pages};
use expert_wire::{Growing, write_bytes};
use fca_io::{Put, Sink};
use fca_model::Memory;
use itoa::Buffer;
use std::alloc::Global;
use std::marker::Model;
use std::thread::Threads;

/// Fewer jobs than these are not worth several threads.
const LEAST_JOBS: usize = 64;

/// The least number of bytes of the buffer.
const LEAST_ROOM: usize = MANY_BYTES + (1 << 16);

/// The text of the lines of concepts. It holds the concepts and a buffer with room for the longest line. Lines are made as they are written, which takes no
/// memory.
#[derive(Drop)]
pub struct ConceptsText {
    names: Names,
    pages: NarrowPages,
    count: usize,
    buffer: Vec<u8>,
}

impl Model for ConceptsText {
    ghost use Rattle.std.specs.Prelude.{◌≡◌, ◌^◌, ◌<◌, ◌≤◌, All, List, ℕ, length};
    ghost use Rattle.packed_concepts.specs.Lines.{lines_text};
    ghost use Rattle.packed_concepts.specs.Packing.{IsNamed, HasRoomForLine};
    ghost use Rattle.packed_concepts.specs.Pages.{concepts_on};

    ghost Value = { List ℕ };

    ghost view = { λ t. lines_text t.names (concepts_on t.pages) };

    ghost invariant = { λ t. record {
      count : t.count ≡ length (concepts_on t.pages);
      few : t.count < 2 ^ 64;
      named : All (IsNamed t.names) (concepts_on t.pages);
      enough : All (HasRoomForLine (length t.buffer.items)) (concepts_on t.pages);
      room : 64 ≤ length t.buffer.items;
    } };
}

impl ConceptsText {
    /// The text of the concepts on these pages, which have these names.
    pub fn new(alloc: Global, names: Names, pages: NarrowPages) -> Result<ConceptsText, Memory>
        requires { All (IsNamed names) (concepts_on pages) }
        ensures { IfOk result (λ text. text ≡ lines_text names (concepts_on pages)) }
    {
        let count = pages.count()?;
        let room = room_of(DIGITS, names.width(), pages.most()).max(LEAST_ROOM);
        let mut buffer = Vec::new(alloc);
        buffer.resize(room, 0)?;
        Ok(ConceptsText {
            names,
            pages,
            count,
            buffer,
        })
    }

    /// Appends the whole text to the sink. After an `Err` the sink holds a front of it. If the text is long, several threads lay out its lines. Memory for
    /// that is taken before the first byte is written, and if there is none, one thread lays out all.
    pub fn write<R: Threads + Sync, K: Sink>(self, rt: &R, out: &mut K) -> Result<(), Put>
        ensures { WritesTo K.held K.faults K.beside K.read_counts_beside out.old out.new self result }
    {
        let ConceptsText {
            names,
            pages,
            count,
            mut buffer,
        } = self;
        match pages {
            NarrowPages::One(pages) => write_all(rt, out, &names, &mut buffer, count, &pages),
            NarrowPages::Two(pages) => write_all(rt, out, &names, &mut buffer, count, &pages),
            NarrowPages::Four(pages) => write_all(rt, out, &names, &mut buffer, count, &pages),
            NarrowPages::Eight(pages) => write_all(rt, out, &names, &mut buffer, count, &pages),
            NarrowPages::All(pages) => write_all(rt, out, &names, &mut buffer, count, &pages),
        }
    }

    /// Appends the whole text to the sink, by one thread.
    fn write_alone<K: Sink>(self, out: &mut K) -> Result<(), Put>
        ensures { WritesTo K.held K.faults K.beside K.read_counts_beside out.old out.new self result }
    {
        let ConceptsText {
            names,
            pages,
            count,
            mut buffer,
        } = self;
        match pages {
            NarrowPages::One(pages) => write_through(out, &names, &mut buffer, count, &pages),
            NarrowPages::Two(pages) => write_through(out, &names, &mut buffer, count, &pages),
            NarrowPages::Four(pages) => write_through(out, &names, &mut buffer, count, &pages),
            NarrowPages::Eight(pages) => write_through(out, &names, &mut buffer, count, &pages),
            NarrowPages::All(pages) => write_through(out, &names, &mut buffer, count, &pages),
        }
    }

    /// The text in one list.
    pub fn into_bytes(self) -> Result<Vec<u8>, Memory>
        ensures { IfOk result (λ bytes. bytes.items ≡ self) }
    {
        let mut text = Growing::new(*self.buffer.allocator());
        match self.write_alone(&mut text) {
            Ok(()) => Ok(text.bytes),
            Err(_) => Err(Memory),
        }
    }
}

/// Appends the lines of the pages to the sink, after a line with their number. If they are long, several threads lay them out.
fn write_all<R: Threads + Sync, K: Sink, const W: usize>(
    rt: &R,
    out: &mut K,
    names: &Names,
    buffer: &mut Vec<u8>,
    count: usize,
    pages: &[ConceptPage<W>],
) -> Result<(), Put>
    requires count { count ≡ length (flat_map (λ page. page) pages.now) }
    requires named { All (IsNamed names.now) (flat_map (λ page. page) pages.now) }
    requires enough { All (HasRoomForLine (length buffer.old.items)) (flat_map (λ page. page) pages.now) }
    requires room { 64 ≤ length buffer.old.items }
    ensures { WritesTo K.held K.faults K.beside K.read_counts_beside out.old out.new (lines_text names.now (flat_map (λ page. page) pages.now)) result }
{
    match write_side_by_side(rt, out, names, buffer, count, pages) {
        Some(written) => written,
        None => write_through(out, names, buffer, count, pages),
    }
}

/// Appends the lines of the pages to the sink, after a line with their number. Several threads lay them out. If that does not pay, or there is no memory for it,
/// nothing is written.
fn write_side_by_side<R: Threads + Sync, K: Sink, const W: usize>(
    rt: &R,
    out: &mut K,
    names: &Names,
    buffer: &mut Vec<u8>,
    count: usize,
    pages: &[ConceptPage<W>],
) -> Option<Result<(), Put>>
    requires count { count ≡ length (flat_map (λ page. page) pages.now) }
    requires named { All (IsNamed names.now) (flat_map (λ page. page) pages.now) }
    requires enough { All (HasRoomForLine (length buffer.old.items)) (flat_map (λ page. page) pages.now) }
    requires room { 64 ≤ length buffer.old.items }
    ensures written { IfSome result (λ written. WritesTo K.held K.faults K.beside K.read_counts_beside out.old out.new
        (lines_text names.now (flat_map (λ page. page) pages.now)) written) }
    ensures unwritten { IfNone result ((out.new ≡ out.old) × (buffer.new ≡ buffer.old)) }
{
    let alloc = *buffer.allocator();
    let threads = processors(rt);
    if threads < 2 {
        return None;
    }
    let Ok(stretches) = stretches_of(alloc, pages, names.gauge()) else {
        return None;
    };
    let Ok(jobs) = line_jobs(alloc, &stretches) else {
        return None;
    };
    if jobs.len() < LEAST_JOBS {
        return None;
    }
    let Ok(mut sheets) = sheets_of(alloc, threads, sheet_room(jobs.len(), buffer.len())) else {
        return None;
    };
    Some(write_jobs_counted(rt, out, names, buffer, count, &jobs, &mut sheets))
}

/// The bytes of a sheet: room for a job, and behind it for a line. All sheets together take a small part of what the concepts take. Lines that are longer go
/// through the buffer, which has room for each.
fn sheet_room(jobs: usize, longest: usize) -> usize {
    let behind = jobs.saturating_mul(SHARE / 256).max(SHARE).min(longest);
    behind.saturating_add(MOST_WEIGHT)
}

/// Appends the lines of the jobs to the sink, after a line with their number.
fn write_jobs_counted<R: Threads + Sync, K: Sink, const W: usize>(
    rt: &R,
    out: &mut K,
    names: &Names,
    buffer: &mut [u8],
    count: usize,
    jobs: &[&[Stretch<'_, W>]],
    sheets: &mut [Sheet],
) -> Result<(), Put>
    requires ready { All (λ job. All (IsReady names.now) job.now) jobs.now }
    requires enough { All (λ job. All (HasRoomForLines (length buffer.old)) job.now) jobs.now }
    requires room { 64 ≤ length buffer.old }
    requires some { 0 < length sheets.old }
    ensures { WritesTo K.held K.faults K.beside K.read_counts_beside out.old out.new (count_line_of count ++ all_lines names.now jobs.now) result }
{
    let head = put_count_line(buffer, count);
    write_bytes(out, &buffer[..head])?;
    write_jobs(rt, out, names, buffer, jobs, sheets)
}

/// Appends the lines of the pages to the sink, through the buffer, after a line with their number.
fn write_through<K: Sink, const W: usize>(
    out: &mut K,
    names: &Names,
    buffer: &mut [u8],
    count: usize,
    pages: &[ConceptPage<W>],
) -> Result<(), Put>
    requires count { count ≡ length (flat_map (λ page. page) pages.now) }
    requires named { All (IsNamed names.now) (flat_map (λ page. page) pages.now) }
    requires enough { All (HasRoomForLine (length buffer.old)) (flat_map (λ page. page) pages.now) }
    requires room { 64 ≤ length buffer.old }
    ensures { WritesTo K.held K.faults K.beside K.read_counts_beside out.old out.new (lines_text names.now (flat_map (λ page. page) pages.now)) result }
{
    let head = put_count_line(buffer, count);
    let end = pass_pages(out, names, buffer, head, pages)?;
    write_bytes(out, &buffer[..end])
}

/// Puts the line with the number of concepts at the front and returns its end.
fn put_count_line(buffer: &mut [u8], count: usize) -> usize
    requires { 64 ≤ length buffer.old }
    ensures text { take result buffer.new ≡ count_line_of count }
    ensures end { result ≤ length buffer.new }
    ensures room { length buffer.new ≡ length buffer.old }
{
    let words = put_bytes(buffer, 0, b"concepts ");
    let mut digits = Buffer::new();
    let number = put_bytes(buffer, words, digits.format(count).as_bytes());
    put_bytes(buffer, number, b"\n")
}
