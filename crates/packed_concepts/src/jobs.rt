//! All concepts in stretches, and these grouped into jobs, the lines of each of which a sheet has room for.

ghost use Rattle.std.specs.Prelude.{◌≡◌, ◌^◌, ◌<◌, ◌≤◌, ◌++◌, IfOk, length};
ghost use Rattle.std.specs.List.{flat_map};
ghost use Rattle.packed_concepts.specs.Stretches.{concepts_of, Follow};

use crate::gauge::{Gauge, SHARE};
use crate::page::ConceptPage;
use crate::stretch::{Stretch, stretches_on};
use fca_model::Memory;
use std::alloc::Global;

/// About the most bytes of the lines of a job.
pub(crate) const MOST_WEIGHT: usize = SHARE + SHARE / 2;

/// The concepts of the pages in stretches.
pub(crate) fn stretches_of<'a, const W: usize>(
    alloc: Global,
    pages: &'a [ConceptPage<W>],
    gauge: Gauge,
) -> Result<Vec<Stretch<'a, W>>, Memory>
    requires { length (flat_map (λ page. page) pages.now) < 2 ^ 64 }
    ensures concepts { IfOk result (λ made. concepts_of made.items ≡ flat_map (λ page. page) pages.now) }
    ensures follow { IfOk result (λ made. Follow 0 made.items) }
{
    let mut made = Vec::new(alloc);
    let mut next = 0;
    for page in pages {
        let mut own = stretches_on(alloc, page, next, gauge)?;
        made.append(&mut own)?;
        next += page.len();
    }
    Ok(made)
}

/// The stretches, grouped into jobs. The answer is the same wherever they are split.
pub(crate) fn line_jobs<'a, 'b, const W: usize>(
    alloc: Global,
    stretches: &'a [Stretch<'b, W>],
) -> Result<Vec<&'a [Stretch<'b, W>]>, Memory>
    ensures { IfOk result (λ jobs. flat_map (λ job. job.now) jobs.items ≡ stretches.now) }
{
    let mut jobs = Vec::new(alloc);
    let mut from = 0;
    while from < stretches.len() {
        let end = from + len_of_first_job(&stretches[from..]);
        jobs.push(&stretches[from..end])?;
        from = end;
    }
    Ok(jobs)
}

/// The number of stretches of the first job: at least one.
fn len_of_first_job<const W: usize>(stretches: &[Stretch<'_, W>]) -> usize
    requires { 0 < length stretches.now }
    ensures some { 0 < result }
    ensures inside { result ≤ length stretches.now }
{
    let mut weight = stretches[0].weight();
    for place in 1..stretches.len() {
        weight = weight.saturating_add(stretches[place].weight());
        if MOST_WEIGHT < weight {
            return place;
        }
    }
    stretches.len()
}
