//! Lines that several threads lay out on sheets, round by round. After each round the sheets are written in their order.

ghost use Rattle.std.specs.Prelude.{◌≡◌, ◌<◌, ◌≤◌, All, IfOk, length, slice_index_or};
ghost use Rattle.expert_wire.specs.Parts.{WritesTo};
ghost use Rattle.packed_concepts.specs.Stretches.{job_lines, all_lines, IsReady, HasRoomForLines};
ghost use Rattle.packed_concepts.specs.Sheets.{IsLaid, EachLaid};

use crate::names::Names;
use crate::sheet::Sheet;
use crate::stretch::Stretch;
use crate::writing::pass_stretch;
use expert_wire::write_bytes;
use fca_io::{Put, Sink};
use fca_model::Memory;
use std::alloc::Global;
use std::thread;
use std::thread::{Threads, available_parallelism};

/// The number of processors.
pub fn processors(rt: &impl Threads) -> usize {
    available_parallelism(rt).map_or(1, |count| count.get())
}

/// So many sheets, with room for so many bytes each.
pub(crate) fn sheets_of(alloc: Global, count: usize, room: usize) -> Result<Vec<Sheet>, Memory>
    ensures { IfOk result (λ sheets. length sheets.items ≡ count) }
{
    let mut sheets = Vec::with_capacity(alloc, count)?;
    for _ in 0..count {
        sheets.push(Sheet::new(alloc, room)?)?;
    }
    Ok(sheets)
}

/// Appends the lines of the jobs to the sink. The jobs of a round are laid out side by side, and those for which a sheet has no room go through the buffer.
pub(crate) fn write_jobs<R: Threads + Sync, K: Sink, const W: usize>(
    rt: &R,
    out: &mut K,
    names: &Names,
    buffer: &mut [u8],
    jobs: &[&[Stretch<'_, W>]],
    sheets: &mut [Sheet],
) -> Result<(), Put>
    requires ready { All (λ job. All (IsReady names.now) job.now) jobs.now }
    requires enough { All (λ job. All (HasRoomForLines (length buffer.old)) job.now) jobs.now }
    requires some { 0 < length sheets.old }
    ensures { WritesTo K.held K.faults K.beside K.read_counts_beside out.old out.new (all_lines names.now jobs.now) result }
{
    let mut from = 0;
    while from < jobs.len() {
        let end = from + sheets.len().min(jobs.len() - from);
        let round = &jobs[from..end];
        lay_out(rt, names, round, sheets);
        write_round(out, names, buffer, round, sheets)?;
        from = end;
    }
    Ok(())
}

/// Lays out each job on the sheet at its place. Each has a thread.
fn lay_out<R: Threads + Sync, const W: usize>(
    rt: &R,
    names: &Names,
    jobs: &[&[Stretch<'_, W>]],
    sheets: &mut [Sheet],
)
    requires ready { All (λ job. All (IsReady names.now) job.now) jobs.now }
    requires even { length jobs.now ≤ length sheets.old }
    ensures laid { EachLaid names.now jobs.now sheets.new }
    ensures room { length sheets.new ≡ length sheets.old }
{
    let threads = sheets.len().max(1);
    thread::for_each_mut(
        rt,
        sheets,
        threads,
        &|place: usize, sheet: &mut Sheet|
            requires { All (λ job. All (IsReady names.now) job.now) jobs.now }
            ensures { (j : _) → place < length jobs.entry.now → IsLaid names.entry.now (slice_index_or jobs.entry.now place j).now sheet.new }
        { lay_job(names, jobs, place, sheet) },
    );
}

/// Lays out the job at the place, if there is one.
fn lay_job<const W: usize>(
    names: &Names,
    jobs: &[&[Stretch<'_, W>]],
    place: usize,
    sheet: &mut Sheet,
)
    requires { All (λ job. All (IsReady names.now) job.now) jobs.now }
    ensures { (j : _) → place < length jobs.now → IsLaid names.now (slice_index_or jobs.now place j).now sheet.new }
{
    if place < jobs.len() {
        sheet.lay(names, jobs[place]);
    }
}

/// Appends the lines of the jobs to the sink, each from the sheet at its place.
fn write_round<K: Sink, const W: usize>(
    out: &mut K,
    names: &Names,
    buffer: &mut [u8],
    jobs: &[&[Stretch<'_, W>]],
    sheets: &[Sheet],
) -> Result<(), Put>
    requires ready { All (λ job. All (IsReady names.now) job.now) jobs.now }
    requires enough { All (λ job. All (HasRoomForLines (length buffer.old)) job.now) jobs.now }
    requires even { length jobs.now ≤ length sheets.now }
    requires laid { EachLaid names.now jobs.now sheets.now }
    ensures written { WritesTo K.held K.faults K.beside K.read_counts_beside out.old out.new (all_lines names.now jobs.now) result }
    ensures room { length buffer.new ≡ length buffer.old }
{
    for place in 0..jobs.len() {
        write_job(out, names, buffer, jobs[place], &sheets[place])?;
    }
    Ok(())
}

/// Appends the lines of the job to the sink: those on the sheet, or through the buffer if it has none.
fn write_job<K: Sink, const W: usize>(
    out: &mut K,
    names: &Names,
    buffer: &mut [u8],
    job: &[Stretch<'_, W>],
    sheet: &Sheet,
) -> Result<(), Put>
    requires ready { All (IsReady names.now) job.now }
    requires enough { All (HasRoomForLines (length buffer.old)) job.now }
    requires laid { IsLaid names.now job.now sheet.now }
    ensures written { WritesTo K.held K.faults K.beside K.read_counts_beside out.old out.new (job_lines names.now job.now) result }
    ensures room { length buffer.new ≡ length buffer.old }
{
    match sheet.text() {
        Some(text) => write_bytes(out, text),
        None => write_stretches(out, names, buffer, job),
    }
}

/// Appends the lines of the stretches to the sink, through the buffer.
fn write_stretches<K: Sink, const W: usize>(
    out: &mut K,
    names: &Names,
    buffer: &mut [u8],
    job: &[Stretch<'_, W>],
) -> Result<(), Put>
    requires ready { All (IsReady names.now) job.now }
    requires enough { All (HasRoomForLines (length buffer.old)) job.now }
    ensures written { WritesTo K.held K.faults K.beside K.read_counts_beside out.old out.new (job_lines names.now job.now) result }
    ensures room { length buffer.new ≡ length buffer.old }
{
    for stretch in job {
        let end = pass_stretch(out, names, buffer, 0, stretch)?;
        write_bytes(out, &buffer[..end])?;
    }
    Ok(())
}
