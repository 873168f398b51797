//! The text of an exploration.

ghost use Rattle.std.specs.Prelude.{◌≡◌, ◌++◌, List, true, length, filter, IfOk, OnOk};
ghost use Rattle.std.specs.List.{flat_map};
ghost use Rattle.fca_model.specs.Tables.{Text};
ghost use Rattle.expert_scripts.specs.Transcripts.{SettingsCanBeWritten};
ghost use Rattle.basis_report.specs.Comments.{are_lines};
ghost use Rattle.basis_report.specs.Explorations.{SpellsBefore, records_row, recorded_line, recorded_section, accepted_section};
ghost use Rattle.basis_report.specs.Explorations.{open_section, conclusions_by_premise, in_lectic_order, basis_section, explore_text};

use crate::names::{look_at_attributes, look_at_rows};
use attr_bits::Attrs;
use context_table::Table;
use expert_scripts::write_transcript;
use expert_wire::{Draft, Part};
use explore_state::{Entry, Event, Explore, Implication, Question, Reply};
use fca_model::Memory;
use report_texts::{write_count_line, write_implications};
use std::alloc::Global;
use std::collections::BTreeMap;

/// The transcript of the exploration, and then its results. If its settings can be written, the text is a script that gives the same
/// exploration of the same table, also if lines that begin with `#` follow.
pub fn explore_text(alloc: Global, explore: &Explore) -> Result<Vec<u8>, Memory>
    ensures text { IfOk result (λ v. v.items ≡ explore_text explore.now.opening.table explore.now.opening.settings explore.now.journal) }
    ensures reads_back { OnOk result ((lines : List Text) → are_lines lines ≡ true
        → SettingsCanBeWritten explore.now.opening.table.context.width explore.now.opening.settings
        → SpellsBefore explore.now.opening.table explore.now.opening.settings explore.now.journal lines) }
{
    let table = explore.table();
    look_at_attributes(table);
    look_at_rows(explore.journal());
    let mut draft = Draft::new(alloc);
    write_exploration(alloc, &mut draft, explore)?;
    Ok(draft.into_bytes())
}

/// Appends the transcript and the results.
fn write_exploration(alloc: Global, draft: &mut Draft, explore: &Explore) -> Result<(), Memory>
    ensures { OnOk result (draft.new ≡ draft.old
        ++ explore_text explore.now.opening.table explore.now.opening.settings explore.now.journal) }
{
    let table = explore.table();
    write_transcript(draft, table, explore.settings(), explore.journal())?;
    write_recorded(draft, table, explore.journal())?;
    write_accepted(draft, table, explore.known(), explore.accepted())?;
    write_open(draft, table, explore.open_questions())?;
    write_basis(
        alloc,
        draft,
        table,
        explore.accepted(),
        explore.open_questions(),
    )
}

/// Appends the recorded rows.
pub(crate) fn write_recorded(
    draft: &mut Draft,
    table: &Table,
    journal: &[Entry],
) -> Result<(), Memory>
    ensures { OnOk result (draft.new ≡ draft.old ++ recorded_section journal.now) }
{
    write_count_line(draft, b"# recorded ", count_recorded_rows(journal))?;
    for entry in journal {
        write_row(draft, table, entry)?;
    }
    Ok(())
}

/// The number of recorded rows.
fn count_recorded_rows(journal: &[Entry]) -> usize
    ensures { result ≡ length (filter (λ entry. records_row entry.event entry.reply) journal.now) }
{
    journal.iter().filter(|entry| records_row(entry)).count()
}

/// Whether the entry records a row.
fn records_row(entry: &Entry) -> bool
    ensures { result ≡ records_row entry.now.event entry.now.reply }
{
    matches!(
        (&entry.event, &entry.reply),
        (Event::Row { .. }, Reply::Taken(_))
    )
}

/// Appends the line of the row, if the entry records one.
fn write_row(draft: &mut Draft, table: &Table, entry: &Entry) -> Result<(), Memory>
    ensures { OnOk result (draft.new ≡ draft.old ++ recorded_line entry.now.event entry.now.reply) }
{
    match (&entry.event, &entry.reply) {
        (Event::Row { name, row, .. }, Reply::Taken(place)) => draft.append_parts(
            table,
            &[
                Part::Bytes(b"# "),
                Part::Ordinal(*place),
                Part::Bytes(b" "),
                Part::Pattern(*row),
                Part::Bytes(b" "),
                Part::Bytes(name.bytes()),
                Part::Bytes(b"\n"),
            ],
        ),
        _ => Ok(()),
    }
}

/// Appends the accepted implications with their numbers among all rules. The known implications come first.
pub(crate) fn write_accepted(
    draft: &mut Draft,
    table: &Table,
    known: &[Implication],
    accepted: &[Implication],
) -> Result<(), Memory>
    ensures { OnOk result (draft.new ≡ draft.old ++ accepted_section table.now.attributes (length known.now) accepted.now) }
{
    write_count_line(draft, b"# accepted ", accepted.len())?;
    for (place, implication) in accepted.iter().enumerate() {
        draft.append_rule(table, b"# ", known.len() + place, implication)?;
    }
    Ok(())
}

/// Appends the open questions.
pub(crate) fn write_open(
    draft: &mut Draft,
    table: &Table,
    questions: &[Question],
) -> Result<(), Memory>
    ensures { OnOk result (draft.new ≡ draft.old ++ open_section table.now.attributes questions.now) }
{
    write_count_line(draft, b"# open ", questions.len())?;
    for question in questions {
        draft.append_full_text(table, b"# ", question)?;
    }
    Ok(())
}

/// Appends the accepted implications in the lectic order of their premises, if no question is open.
pub(crate) fn write_basis(
    alloc: Global,
    draft: &mut Draft,
    table: &Table,
    accepted: &[Implication],
    questions: &[Question],
) -> Result<(), Memory>
    ensures { OnOk result (draft.new ≡ draft.old ++ basis_section table.now.attributes accepted.now questions.now) }
{
    if !questions.is_empty() {
        return Ok(());
    }
    write_count_line(draft, b"# basis ", accepted.len())?;
    let ordered = in_lectic_order(alloc, accepted)?;
    write_implications(draft, table, b"# ", &ordered)
}

/// The implications in the lectic order of their premises.
fn in_lectic_order(alloc: Global, accepted: &[Implication]) -> Result<Vec<Implication>, Memory>
    ensures { IfOk result (λ v. v.items ≡ in_lectic_order accepted.now) }
{
    let conclusions = conclusions_by_premise(alloc, accepted)?;
    let mut ordered = Vec::with_capacity(alloc, conclusions.len())?;
    for (premise, conclusion) in &conclusions {
        ordered.push(Implication {
            premise: *premise,
            conclusion: *conclusion,
        })?;
    }
    Ok(ordered)
}

/// The conclusions by their premises.
fn conclusions_by_premise(
    alloc: Global,
    accepted: &[Implication],
) -> Result<BTreeMap<Attrs, Attrs>, Memory>
    ensures { IfOk result (λ m. m.entries ≡ conclusions_by_premise accepted.now) }
{
    let mut conclusions = BTreeMap::new(alloc);
    for implication in accepted {
        conclusions.insert(implication.premise, implication.conclusion)?;
    }
    Ok(conclusions)
}
