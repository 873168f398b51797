//! The concepts of branches, gathered on a page.

ghost use Rattle.std.specs.Prelude.{◌≡◌, All, OnOk};
ghost use Rattle.concept_walk.specs.Gatherings.{Fills};
ghost use Rattle.table_texts.specs.Tops.{IsTop, branches, HasGathered};

use crate::tops::Top;
use concept_walk::{CrossTable, Gathering, WorkListPool, gather_branch};
use fca_model::Memory;
use std::alloc::Global;

/// Gathers the concepts of the branches of the job.
pub(crate) fn gather_job<const W: usize>(
    alloc: Global,
    crosses: &CrossTable<'_, W>,
    job: &[Top<W>],
) -> Gathering<W>
    requires { All (IsTop crosses.now) job.now }
    ensures { HasGathered crosses.now result job.now }
{
    let _width = crosses.rows().width();
    let mut gathering = Gathering::new(alloc);
    gathering.whole = gather_tops(alloc, crosses, job, &mut gathering).is_ok();
    gathering
}

/// Adds the concepts of the branches.
pub(crate) fn gather_tops<const W: usize>(
    alloc: Global,
    crosses: &CrossTable<'_, W>,
    tops: &[Top<W>],
    gathering: &mut Gathering<W>,
) -> Result<(), Memory>
    requires { All (IsTop crosses.now) tops.now }
    ensures { OnOk result (Fills crosses.now gathering.old gathering.new (branches crosses.now tops.now)) }
{
    let _width = crosses.rows().width();
    let mut pool = WorkListPool::new(alloc, crosses.rows())?;
    for top in tops {
        gather_branch(alloc, crosses, gathering, &top.node(crosses), &mut pool)?;
    }
    Ok(())
}
