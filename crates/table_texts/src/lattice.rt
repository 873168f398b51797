//! The text of the lattice of a table.

ghost use Rattle.std.specs.Prelude.{◌≡◌, ◌≤◌, ◌++◌, All, IfOk, length, map, codes};
ghost use Rattle.std.specs.List.{flat_map};
ghost use Rattle.fca_model.specs.Pseudo.{covers, intents};
ghost use Rattle.lectic_concepts.specs.Concepts.{concepts};
ghost use Rattle.report_texts.specs.Reports.{count_line, cover_line, lattice_text};
ghost use Rattle.context_table.specs.Narrow.{context_in};
ghost use Rattle.packed_concepts.specs.Lines.{lines_text};
ghost use Rattle.packed_concepts.specs.Packing.{IsNamed};
ghost use Rattle.packed_concepts.specs.Pages.{concepts_on};
ghost use Rattle.concept_walk.specs.Gatherings.{concept_at};
ghost use Rattle.table_texts.specs.Lattices.{IsLattice};

use crate::cover_lines::with_covers;
use crate::packed::{names_and_rows, one_page};
use crate::tops::root_of;
use concept_walk::CrossTable;
use context_table::{NarrowRows, NarrowTable};
use derivation::RowsOf;
use fca_model::{MAX_OBJECTS, Memory};
use lattice_covers::covers_of;
use packed_concepts::{ConceptPage, ConceptsText, Names, NarrowPages};
use std::alloc::Global;

/// Concepts and covers.
#[derive(Drop)]
struct Lattice {
    pages: NarrowPages,
    covers: Vec<(usize, usize)>,
}

/// All concepts of the table and then the covers, one a line.
pub fn narrow_lattice_text(alloc: Global, table: NarrowTable) -> Result<Vec<u8>, Memory>
    ensures { IfOk result (λ v. v.items ≡ lattice_text table (concepts table.context) (covers table.context)) }
{
    let (names, rows) = names_and_rows(alloc, table)?;
    let lattice = lattice_of(alloc, rows)?;
    lines_with_covers(alloc, names, lattice)
}

/// The lines of the concepts and then those of the covers.
fn lines_with_covers(alloc: Global, names: Names, lattice: Lattice) -> Result<Vec<u8>, Memory>
    requires { All (IsNamed names) (concepts_on lattice.pages) }
    ensures { IfOk result (λ v. v.items ≡ lines_text names (concepts_on lattice.pages)
        ++ (count_line (codes "covers ") (length lattice.covers.items) ++ flat_map cover_line lattice.covers.items)) }
{
    let Lattice { pages, covers } = lattice;
    let text = lines_text(alloc, names, pages)?;
    with_covers(alloc, text, &covers)
}

/// The lines of the concepts.
fn lines_text(alloc: Global, names: Names, pages: NarrowPages) -> Result<Vec<u8>, Memory>
    requires { All (IsNamed names) (concepts_on pages) }
    ensures { IfOk result (λ v. v.items ≡ lines_text names (concepts_on pages)) }
{
    ConceptsText::new(alloc, names, pages)?.into_bytes()
}

/// The lattice of the rows.
fn lattice_of(alloc: Global, rows: NarrowRows) -> Result<Lattice, Memory>
    requires { length (context_in rows).rows ≤ MAX_OBJECTS }
    ensures { IfOk result (IsLattice (context_in rows)) }
{
    match rows {
        NarrowRows::One(rows) => {
            let (pages, covers) = lattice_in(alloc, &rows)?;
            Ok(Lattice {
                pages: NarrowPages::One(pages),
                covers,
            })
        }
        NarrowRows::Two(rows) => {
            let (pages, covers) = lattice_in(alloc, &rows)?;
            Ok(Lattice {
                pages: NarrowPages::Two(pages),
                covers,
            })
        }
        NarrowRows::Four(rows) => {
            let (pages, covers) = lattice_in(alloc, &rows)?;
            Ok(Lattice {
                pages: NarrowPages::Four(pages),
                covers,
            })
        }
        NarrowRows::Eight(rows) => {
            let (pages, covers) = lattice_in(alloc, &rows)?;
            Ok(Lattice {
                pages: NarrowPages::Eight(pages),
                covers,
            })
        }
        NarrowRows::All(rows) => {
            let (pages, covers) = lattice_in(alloc, &rows)?;
            Ok(Lattice {
                pages: NarrowPages::All(pages),
                covers,
            })
        }
    }
}

/// The concepts of the rows, on one page, and their covers.
fn lattice_in<const W: usize>(
    alloc: Global,
    rows: &RowsOf<W>,
) -> Result<(Vec<ConceptPage<W>>, Vec<(usize, usize)>), Memory>
    requires { length rows.now.rows ≤ MAX_OBJECTS }
    ensures concepts { IfOk result (λ lattice. flat_map (λ page. page) lattice.0.items ≡ map (concept_at rows.now) (intents rows.now)) }
    ensures covers { IfOk result (λ lattice. lattice.1.items ≡ covers rows.now) }
{
    let _width = rows.width();
    let crosses = CrossTable::new(alloc, rows)?;
    let root = root_of(alloc, &crosses)?;
    let page = one_page(alloc, &crosses, &root)?;
    let intents = page.intents(alloc)?;
    let covers = covers_of(alloc, rows, &intents)?;
    let mut pages = Vec::new(alloc);
    pages.push(page)?;
    Ok((pages, covers))
}
