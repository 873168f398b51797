//! The texts of concepts and of their covers.

ghost use Rattle.std.specs.Prelude.{◌≡◌, ◌++◌, ℕ, [], length, codes, IfOk, OnOk, slice_get, unwrap_or};
ghost use Rattle.std.specs.List.{flat_map, enumerate_from};
ghost use Rattle.expert_wire.specs.Texts.{names_in_braces};
ghost use Rattle.report_texts.specs.Reports.{count_line, names_at, concept_line, concepts_text, cover_line, lattice_text};

use crate::count_line::write_count_line;
use context_table::Table;
use expert_wire::{Draft, Part};
use fca_model::Memory;
use lectic_concepts::Concept;
use std::alloc::Global;

/// The concepts, one a line.
pub fn concepts_text(alloc: Global, table: &Table, concepts: &[Concept]) -> Result<Vec<u8>, Memory>
    ensures { IfOk result (λ v. v.items ≡ concepts_text table.now concepts.now) }
{
    let mut draft = Draft::new(alloc);
    write_concepts(&mut draft, table, concepts)?;
    Ok(draft.into_bytes())
}

/// The concepts and then the covers, one a line.
pub fn lattice_text(
    alloc: Global,
    table: &Table,
    concepts: &[Concept],
    covers: &[(usize, usize)],
) -> Result<Vec<u8>, Memory>
    ensures { IfOk result (λ v. v.items ≡ lattice_text table.now concepts.now covers.now) }
{
    let mut draft = Draft::new(alloc);
    write_concepts(&mut draft, table, concepts)?;
    write_count_line(&mut draft, b"covers ", covers.len())?;
    write_covers(&mut draft, covers)?;
    Ok(draft.into_bytes())
}

/// Appends the number of concepts, and a line for each.
fn write_concepts(draft: &mut Draft, table: &Table, concepts: &[Concept]) -> Result<(), Memory>
    ensures { OnOk result (draft.new ≡ draft.old ++ concepts_text table.now concepts.now) }
{
    write_count_line(draft, b"concepts ", concepts.len())?;
    for (place, concept) in concepts.iter().enumerate() {
        write_line(draft, table, place, concept)?;
    }
    Ok(())
}

/// Appends a line for each cover.
fn write_covers(draft: &mut Draft, covers: &[(usize, usize)]) -> Result<(), Memory>
    ensures { OnOk result (draft.new ≡ draft.old ++ flat_map cover_line covers.now) }
{
    for pair in covers {
        draft.append_ordinal(pair.0)?;
        draft.append_bytes(b" ")?;
        draft.append_ordinal(pair.1)?;
        draft.append_bytes(b"\n")?;
    }
    Ok(())
}

/// Appends the line of the concept at this place.
fn write_line(
    draft: &mut Draft,
    table: &Table,
    place: usize,
    concept: &Concept,
) -> Result<(), Memory>
    ensures { OnOk result (draft.new ≡ draft.old ++ concept_line table.now place concept.now) }
{
    draft.append_parts(
        table,
        &[
            Part::Ordinal(place),
            Part::Bytes(b" "),
            Part::Braces(concept.intent),
            Part::Bytes(b" | "),
        ],
    )?;
    write_objects(draft, table, concept.extent.as_slice())?;
    draft.append_bytes(b"\n")
}

/// Appends the names of the objects at these places, in braces.
fn write_objects(draft: &mut Draft, table: &Table, places: &[usize]) -> Result<(), Memory>
    ensures { OnOk result (draft.new ≡ draft.old ++ names_in_braces (names_at table.now.objects places.now)) }
{
    draft.append_bytes(b"{")?;
    let mut between = b"".as_slice();
    for place in places {
        draft.append_bytes(between)?;
        draft.append_bytes(object_text(table, *place).as_bytes())?;
        between = b", ".as_slice();
    }
    draft.append_bytes(b"}")
}

/// The name of the object. It is empty if the table has no such object.
pub fn object_text(table: &Table, place: usize) -> &str
    ensures { result.now ≡ unwrap_or (slice_get table.now.objects place) [] }
{
    if place < table.rows().len() {
        table.object(place).text()
    } else {
        ""
    }
}
