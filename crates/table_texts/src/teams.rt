//! Jobs that several threads do. A thread takes the next job after it has done one, so all have work until no job is left.

ghost use Rattle.std.specs.Prelude.{◌≡◌, ◌≤◌, [], false, All, IfOk, length};
ghost use Rattle.table_texts.specs.Tops.{IsTop, HasGathered, EachGathered};
ghost use Rattle.table_texts.specs.Teams.{IsDone};

use crate::filling::gather_job;
use crate::tops::Top;
use concept_walk::{CrossTable, Gathering};
use fca_model::Memory;
use packed_concepts::processors;
use std::alloc::Global;
use std::sync::atomic::{AtomicUsize, Ordering};
use std::thread;
use std::thread::Threads;

/// A job that is done: its place, and what was gathered.
#[derive(Drop)]
pub(crate) struct DoneJob<const W: usize> {
    pub(crate) place: usize,
    pub(crate) gathering: Gathering<W>,
}

/// Gathers the concepts of each job. Each processor has a thread.
pub(crate) fn gather_jobs<R: Threads + Sync, const W: usize>(
    rt: &R,
    alloc: Global,
    crosses: &CrossTable<'_, W>,
    jobs: &[&[Top<W>]],
) -> Result<Vec<Gathering<W>>, Memory>
    requires { All (λ job. All (IsTop crosses.now) job.now) jobs.now }
    ensures even { IfOk result (λ gatherings. length gatherings.items ≡ length jobs.now) }
    ensures gatherings { IfOk result (λ gatherings. EachGathered crosses.now gatherings.items jobs.now) }
{
    let _width = crosses.rows().width();
    let next = AtomicUsize::new(0);
    let mut team = team_of(alloc, processors(rt))?;
    let threads = team.len().max(1);
    thread::for_each_mut(
        rt,
        &mut team,
        threads,
        &|_: usize, done: &mut Vec<DoneJob<W>>|
            requires { All (λ job. All (IsTop crosses.now) job.now) jobs.now × All (IsDone crosses.now jobs.now) done.old.items }
            ensures { All (IsDone crosses.entry.now jobs.entry.now) done.new.items }
        {
            // If a gathering finds no room in the list, its concepts are missing.
            let _kept = take_jobs(alloc, crosses, jobs, &next, done);
        },
    );
    let mut gatherings = empty_gatherings(alloc, jobs.len())?;
    put_all(crosses, jobs, team, &mut gatherings);
    Ok(gatherings)
}

/// So many lists of jobs that are done, all empty.
fn team_of<const W: usize>(alloc: Global, count: usize) -> Result<Vec<Vec<DoneJob<W>>>, Memory>
    ensures { IfOk result (λ team. All (λ done. done.items ≡ []) team.items) }
{
    let mut team = Vec::new(alloc);
    for _ in 0..count {
        team.push(Vec::new(alloc))?;
    }
    Ok(team)
}

/// Takes one job after the other while any is left, does it and puts it last. All threads count up the place of the next job.
fn take_jobs<const W: usize>(
    alloc: Global,
    crosses: &CrossTable<'_, W>,
    jobs: &[&[Top<W>]],
    next: &AtomicUsize,
    done: &mut Vec<DoneJob<W>>,
) -> Result<(), Memory>
    requires tops { All (λ job. All (IsTop crosses.now) job.now) jobs.now }
    requires done { All (IsDone crosses.now jobs.now) done.old.items }
    ensures { All (IsDone crosses.now jobs.now) done.new.items }
{
    let _width = crosses.rows().width();
    for _ in 0..jobs.len() {
        let place = next.fetch_add(1, Ordering::Relaxed);
        if jobs.len() <= place {
            return Ok(());
        }
        let gathering = gather_job(alloc, crosses, jobs[place]);
        done.push(DoneJob { place, gathering })?;
    }
    Ok(())
}

/// So many gatherings, in all of which concepts are missing.
fn empty_gatherings<const W: usize>(
    alloc: Global,
    count: usize,
) -> Result<Vec<Gathering<W>>, Memory>
    requires { W ≤ 1024 }
    ensures even { IfOk result (λ gatherings. length gatherings.items ≡ count) }
    ensures missing { IfOk result (λ gatherings. All (λ gathering. gathering.whole ≡ false) gatherings.items) }
{
    let mut gatherings = Vec::with_capacity(alloc, count)?;
    for _ in 0..count {
        let mut gathering = Gathering::new(alloc);
        gathering.whole = false;
        gatherings.push(gathering)?;
    }
    Ok(gatherings)
}

/// Puts all gatherings at the places of their jobs.
fn put_all<const W: usize>(
    crosses: &CrossTable<'_, W>,
    jobs: &[&[Top<W>]],
    team: Vec<Vec<DoneJob<W>>>,
    gatherings: &mut [Gathering<W>],
)
    requires done { All (λ done. All (IsDone crosses.now jobs.now) done.items) team.items }
    requires even { length gatherings.old ≡ length jobs.now }
    requires gatherings { EachGathered crosses.now gatherings.old jobs.now }
    ensures even { length gatherings.new ≡ length jobs.now }
    ensures gatherings { EachGathered crosses.now gatherings.new jobs.now }
{
    let _width = crosses.rows().width();
    for done in team {
        put_gatherings(crosses, jobs, done, gatherings);
    }
}

/// Puts the gatherings at the places of their jobs.
fn put_gatherings<const W: usize>(
    crosses: &CrossTable<'_, W>,
    jobs: &[&[Top<W>]],
    done: Vec<DoneJob<W>>,
    gatherings: &mut [Gathering<W>],
)
    requires done { All (IsDone crosses.now jobs.now) done.items }
    requires even { length gatherings.old ≡ length jobs.now }
    requires gatherings { EachGathered crosses.now gatherings.old jobs.now }
    ensures even { length gatherings.new ≡ length jobs.now }
    ensures gatherings { EachGathered crosses.now gatherings.new jobs.now }
{
    let _width = crosses.rows().width();
    for one in done {
        gatherings[one.place] = one.gathering;
    }
}
