//! Lists of implications as texts.

ghost use Rattle.std.specs.Prelude.{◌≡◌, ◌++◌, ℕ, codes, IfOk, OnOk};
ghost use Rattle.report_texts.specs.Reports.{implication_line, implication_lines, basis_text, direct_text};

use crate::count_line::write_count_line;
use context_table::Table;
use expert_wire::{Draft, Part};
use fca_model::Memory;
use implication_closure::{Implication, ImplicationList};
use std::alloc::Global;

/// The members of a basis, one a line.
pub fn basis_text(alloc: Global, table: &Table, list: &ImplicationList) -> Result<Vec<u8>, Memory>
    ensures { IfOk result (λ v. v.items ≡ basis_text table.now.attributes list.now.members) }
{
    let mut draft = Draft::new(alloc);
    write_count_line(&mut draft, b"basis ", list.as_slice().len())?;
    write_implications(&mut draft, table, b"", list.as_slice())?;
    Ok(draft.into_bytes())
}

/// The members of a direct basis, one a line.
pub fn direct_text(alloc: Global, table: &Table, list: &ImplicationList) -> Result<Vec<u8>, Memory>
    ensures { IfOk result (λ v. v.items ≡ direct_text table.now.attributes list.now.members) }
{
    let mut draft = Draft::new(alloc);
    write_count_line(&mut draft, b"direct ", list.as_slice().len())?;
    write_implications(&mut draft, table, b"", list.as_slice())?;
    Ok(draft.into_bytes())
}

/// Appends a line for each implication: the words, its number, and its arrow text. Numbers begin at 1.
pub fn write_implications(
    draft: &mut Draft,
    table: &Table,
    words: &[u8],
    list: &[Implication],
) -> Result<(), Memory>
    ensures { OnOk result (draft.new ≡ draft.old ++ implication_lines words.now table.now.attributes list.now) }
{
    for (place, implication) in list.iter().enumerate() {
        write_implication(draft, table, words, place, implication)?;
    }
    Ok(())
}

/// Appends the line of one implication: the words, its number, and its arrow text.
pub fn write_implication(
    draft: &mut Draft,
    table: &Table,
    words: &[u8],
    place: usize,
    implication: &Implication,
) -> Result<(), Memory>
    ensures { OnOk result (draft.new ≡ draft.old ++ implication_line words.now table.now.attributes place implication.now) }
{
    let gained = implication.conclusion.minus(&implication.premise);
    draft.append_parts(
        table,
        &[
            Part::Bytes(words),
            Part::Ordinal(place),
            Part::Bytes(b" "),
            Part::Braces(implication.premise),
            Part::Bytes(b" -> "),
            Part::Braces(gained),
            Part::Bytes(b"\n"),
        ],
    )
}
