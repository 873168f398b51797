//! Branches grouped into jobs of about the same work.

ghost use Rattle.std.specs.Prelude.{◌≡◌, ◌<◌, ◌≤◌, ◌++◌, All, IfOk, length};
ghost use Rattle.std.specs.List.{flat_map};
ghost use Rattle.fca_model.specs.Context.{Context};
ghost use Rattle.table_texts.specs.Tops.{IsTop, branches, all_branches};

use crate::tops::Top;
use concept_walk::CrossTable;
use fca_model::Memory;
use std::alloc::Global;

/// About the number of jobs.
const JOBS: usize = 64;

/// The number of parts in which each expected object is counted.
const PARTS: usize = 4;

/// The work of a line beside its objects, in such parts.
const LINE_WORK: usize = 64;

/// About how many of so many cells have a cross.
#[derive(Clone, Copy, Drop)]
pub(crate) struct Density {
    crossed: usize,
    cells: usize,
}

/// The density of the table, from the branches of the least intent alone and of its children.
pub(crate) fn density_of<const W: usize>(children: &[Top<W>]) -> Density {
    let mut crossed = 0usize;
    let mut most = 0usize;
    for child in children {
        crossed = crossed.saturating_add(child.places.len());
        most = most.max(child.places.len());
    }
    Density {
        crossed: crossed.saturating_sub(most),
        cells: most.saturating_mul(children.len().saturating_sub(1)),
    }
}

/// Jobs of about the same work, which have the branches in their order. `group_tops` says that nothing is lost, and this says what it means for branches.
pub(crate) fn branch_jobs<'a, const W: usize>(
    alloc: Global,
    crosses: &CrossTable<'_, W>,
    tops: &'a [Top<W>],
    density: Density,
) -> Result<Vec<&'a [Top<W>]>, Memory>
    requires { All (IsTop crosses.now) tops.now }
    ensures tops { IfOk result (λ jobs. All (λ job. All (IsTop crosses.now) job.now) jobs.items) }
    ensures branches { IfOk result (λ jobs. all_branches crosses.now jobs.items ≡ branches crosses.now tops.now) }
{
    let _width = crosses.rows().width();
    let jobs = group_tops(alloc, tops, density)?;
    Ok(jobs)
}

/// The branches, split into jobs. The answer is the same wherever they are split.
fn group_tops<const W: usize>(
    alloc: Global,
    tops: &[Top<W>],
    density: Density,
) -> Result<Vec<&[Top<W>]>, Memory>
    ensures { IfOk result (λ jobs. flat_map (λ job. job.now) jobs.items ≡ tops.now) }
{
    let share = work_of(tops, density) / JOBS;
    let mut jobs = Vec::new(alloc);
    let mut rest = tops;
    while !rest.is_empty() {
        let (job, behind) = rest.split_at(len_of_first_job(rest, density, share));
        jobs.push(job)?;
        rest = behind;
    }
    Ok(jobs)
}

/// The number of branches of the first job: at least one.
fn len_of_first_job<const W: usize>(tops: &[Top<W>], density: Density, share: usize) -> usize
    requires { 0 < length tops.now }
    ensures some { 0 < result }
    ensures inside { result ≤ length tops.now }
{
    let mut work = 0usize;
    for (place, top) in tops.iter().enumerate() {
        work = work.saturating_add(work_at(top, density));
        if share < work {
            return place + 1;
        }
    }
    tops.len()
}

/// A guess at the work of the branches.
fn work_of<const W: usize>(tops: &[Top<W>], density: Density) -> usize {
    let mut work = 0usize;
    for top in tops {
        work = work.saturating_add(work_at(top, density));
    }
    work
}

/// A guess at the work of the branch. Each set of attributes that are left counts as an intent, as long as some objects are expected to have it, and the line
/// of an intent is the longer, the more objects are expected.
fn work_at<const W: usize>(top: &Top<W>, density: Density) -> usize {
    let left = top.intent.width().saturating_sub(top.from) as usize;
    let mut objects = top.places.len().saturating_mul(PARTS);
    let mut sets = 1usize;
    let mut work = 1usize;
    for size in 0..left {
        if objects == 0 {
            return work;
        }
        work = work.saturating_add(sets.saturating_mul(objects.saturating_add(LINE_WORK)));
        sets = sets.saturating_mul(left - size) / (size + 1);
        objects = objects.saturating_mul(density.crossed) / density.cells.max(1);
    }
    work
}
