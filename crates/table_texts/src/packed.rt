//! The concepts of a table, packed. If it pays, several threads find them, each on pages of its own.

ghost use Rattle.std.specs.Prelude.{◌≡◌, ◌≤◌, true, All, IfOk, length, map};
ghost use Rattle.std.specs.List.{flat_map};
ghost use Rattle.fca_model.specs.Pseudo.{intents};
ghost use Rattle.lectic_concepts.specs.Concepts.{concepts};
ghost use Rattle.report_texts.specs.Reports.{concepts_text};
ghost use Rattle.context_table.specs.Narrow.{context_in};
ghost use Rattle.packed_concepts.specs.Pages.{concepts_on};
ghost use Rattle.concept_walk.specs.Gatherings.{concept_at};
ghost use Rattle.table_texts.specs.Tops.{IsTop, branches};

use crate::filling::gather_tops;
use crate::jobs::{branch_jobs, density_of};
use crate::teams::gather_jobs;
use crate::tops::{Top, least_large_bulk, pays, root_of, split_large};
use concept_walk::{CrossTable, Gathering, table_names};
use context_table::{NarrowRows, NarrowTable};
use derivation::RowsOf;
use fca_model::{MAX_OBJECTS, Memory};
use packed_concepts::{ConceptPage, ConceptsText, Names, NarrowPages};
use std::alloc::Global;
use std::thread::Threads;

/// All concepts of the table, one a line. If it pays, several threads find them.
pub fn narrow_concepts_text<R: Threads + Sync>(
    rt: &R,
    alloc: Global,
    table: NarrowTable,
) -> Result<ConceptsText, Memory>
    ensures { IfOk result (λ text. text ≡ concepts_text table (concepts table.context)) }
{
    let (names, rows) = names_and_rows(alloc, table)?;
    let pages = narrow_pages(rt, alloc, rows)?;
    let text = ConceptsText::new(alloc, names, pages)?;
    Ok(text)
}

/// The names of the table, each with a comma and a space behind it, and its rows.
pub(crate) fn names_and_rows(
    alloc: Global,
    table: NarrowTable,
) -> Result<(Names, NarrowRows), Memory>
    ensures names { IfOk result (λ parts. parts.0 ≡ record { attributes = table.attributes; objects = table.objects }) }
    ensures rows { IfOk result (λ parts. context_in parts.1 ≡ table.context) }
    ensures each_attribute { IfOk result (λ parts. length table.attributes ≡ table.context.width) }
    ensures each_object { IfOk result (λ parts. length table.objects ≡ length table.context.rows) }
    ensures few_objects { IfOk result (λ parts. length (context_in parts.1).rows ≤ MAX_OBJECTS) }
{
    let (objects, header, rows) = table.into_parts();
    let _rows = header.rows();
    match table_names(alloc, objects, &header) {
        Ok(names) => Ok((names, rows)),
        Err(_) => Err(Memory),
    }
}

/// The concepts of the rows.
fn narrow_pages<R: Threads + Sync>(
    rt: &R,
    alloc: Global,
    rows: NarrowRows,
) -> Result<NarrowPages, Memory>
    requires { length (context_in rows).rows ≤ MAX_OBJECTS }
    ensures { IfOk result (λ pages. concepts_on pages ≡ map (concept_at (context_in rows)) (intents (context_in rows))) }
{
    Ok(match rows {
        NarrowRows::One(rows) => NarrowPages::One(pages_of(rt, alloc, &rows)?),
        NarrowRows::Two(rows) => NarrowPages::Two(pages_of(rt, alloc, &rows)?),
        NarrowRows::Four(rows) => NarrowPages::Four(pages_of(rt, alloc, &rows)?),
        NarrowRows::Eight(rows) => NarrowPages::Eight(pages_of(rt, alloc, &rows)?),
        NarrowRows::All(rows) => NarrowPages::All(pages_of(rt, alloc, &rows)?),
    })
}

/// The concepts of the rows, in as many words as those have.
fn pages_of<R: Threads + Sync, const W: usize>(
    rt: &R,
    alloc: Global,
    rows: &RowsOf<W>,
) -> Result<Vec<ConceptPage<W>>, Memory>
    requires { length rows.now.rows ≤ MAX_OBJECTS }
    ensures { IfOk result (λ pages. flat_map (λ page. page) pages.items ≡ map (concept_at rows.now) (intents rows.now)) }
{
    let _width = rows.width();
    let crosses = CrossTable::new(alloc, rows)?;
    let root = root_of(alloc, &crosses)?;
    let children = split_large(alloc, &crosses, &root, 0)?;
    if pays(&children) {
        let pages = many_pages(rt, alloc, &crosses, &children)?;
        return Ok(pages);
    }
    let page = one_page(alloc, &crosses, &root)?;
    let mut pages = Vec::new(alloc);
    pages.push(page)?;
    Ok(pages)
}

/// The concepts of the branches, which are all, on one page.
pub(crate) fn one_page<const W: usize>(
    alloc: Global,
    crosses: &CrossTable<'_, W>,
    tops: &[Top<W>],
) -> Result<ConceptPage<W>, Memory>
    requires tops { All (IsTop crosses.now) tops.now }
    requires whole { branches crosses.now tops.now ≡ intents crosses.now }
    ensures { IfOk result (λ page. page ≡ map (concept_at crosses.now) (intents crosses.now)) }
{
    let _width = crosses.rows().width();
    let mut gathering = Gathering::new(alloc);
    gather_tops(alloc, crosses, tops, &mut gathering)?;
    Ok(gathering.concepts)
}

/// The concepts of the branches, which are all, on pages that several threads fill. The branches are laid out once more, and large ones twice.
fn many_pages<R: Threads + Sync, const W: usize>(
    rt: &R,
    alloc: Global,
    crosses: &CrossTable<'_, W>,
    tops: &[Top<W>],
) -> Result<Vec<ConceptPage<W>>, Memory>
    requires tops { All (IsTop crosses.now) tops.now }
    requires whole { branches crosses.now tops.now ≡ intents crosses.now }
    ensures { IfOk result (λ pages. flat_map (λ page. page) pages.items ≡ map (concept_at crosses.now) (intents crosses.now)) }
{
    let _width = crosses.rows().width();
    let more = split_large(alloc, crosses, tops, 0)?;
    let finer = split_large(alloc, crosses, &more, least_large_bulk(&more))?;
    let jobs = branch_jobs(alloc, crosses, &finer, density_of(tops))?;
    let gatherings = gather_jobs(rt, alloc, crosses, &jobs)?;
    let pages = whole_pages(alloc, gatherings)?;
    Ok(pages)
}

/// The pages that were filled, unless a concept is missing.
fn whole_pages<const W: usize>(
    alloc: Global,
    gatherings: Vec<Gathering<W>>,
) -> Result<Vec<ConceptPage<W>>, Memory>
    requires { W ≤ 1024 }
    ensures whole { IfOk result (λ made. All (λ gathering. gathering.whole ≡ true) gatherings.entry.items) }
    ensures concepts { IfOk result (λ made. made.items ≡ map (λ gathering. gathering.concepts) gatherings.entry.items) }
{
    let mut made = Vec::with_capacity(alloc, gatherings.len())?;
    for gathering in gatherings {
        if !gathering.whole {
            return Err(Memory);
        }
        made.push(gathering.concepts)?;
    }
    Ok(made)
}
