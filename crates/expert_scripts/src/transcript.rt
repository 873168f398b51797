//! The transcript of an exploration.

ghost use Rattle.std.specs.Prelude.{◌≡◌, ◌++◌, ◌≤◌, Some, codes, decimal, IfOk, OnOk};
ghost use Rattle.std.specs.List.{flat_map};
ghost use Rattle.fca_io.specs.Transfers.{AppendsFront};
ghost use Rattle.exploration_terms.specs.Settings.{settings_of, name_of};
ghost use Rattle.expert_wire.specs.Texts.{line_end};
ghost use Rattle.fca_model.specs.Exploration.{is_expert};
ghost use Rattle.expert_scripts.specs.Transcripts.{event_text, entries_text, entry_lines, known_line, name_line_at, names_text};
ghost use Rattle.expert_scripts.specs.Transcripts.{settings_text, opening_text, transcript};

use context_table::Table;
use expert_wire::{Draft, Part};
use exploration_terms::{Entry, Event, ExpertNames, Settings};
use fca_model::{MAX_EXPERTS, Memory};
use implication_closure::Implication;
use std::alloc::Global;

/// The transcript of an exploration with these settings and this journal.
pub fn transcript_text(
    alloc: Global,
    table: &Table,
    settings: &Settings,
    journal: &[Entry],
) -> Result<Vec<u8>, Memory>
    ensures { IfOk result (λ v. v.items ≡ transcript table.now.attributes (settings_of settings.now) journal.now) }
{
    let mut draft = Draft::new(alloc);
    write_transcript(&mut draft, table, settings, journal)?;
    Ok(draft.into_bytes())
}

/// Appends the transcript of an exploration with these settings and this journal. After an `Err` the draft has gained a front of it.
pub fn write_transcript(
    draft: &mut Draft,
    table: &Table,
    settings: &Settings,
    journal: &[Entry],
) -> Result<(), Memory>
    ensures whole { OnOk result (draft.new ≡ draft.old ++ transcript table.now.attributes (settings_of settings.now) journal.now) }
    ensures front { AppendsFront (Some draft.old) (Some draft.new) (transcript table.now.attributes (settings_of settings.now) journal.now) }
{
    write_opening(draft, table, settings)?;
    write_entries(draft, table, journal)
}

/// Appends the heading, and the settings if they are not plain.
fn write_opening(draft: &mut Draft, table: &Table, settings: &Settings) -> Result<(), Memory>
    ensures whole { OnOk result (draft.new ≡ draft.old ++ opening_text table.now.attributes (settings_of settings.now)) }
    ensures front { AppendsFront (Some draft.old) (Some draft.new) (opening_text table.now.attributes (settings_of settings.now)) }
{
    if settings.is_plain() {
        return draft.append_parts(table, &[Part::Bytes(b"exploration 1\n")]);
    }
    draft.append_parts(table, &[Part::Bytes(b"exploration 2\n")])?;
    write_settings(draft, table, settings)
}

/// Appends the lines of the settings.
fn write_settings(draft: &mut Draft, table: &Table, settings: &Settings) -> Result<(), Memory>
    ensures whole { OnOk result (draft.new ≡ draft.old ++ settings_text table.now.attributes (settings_of settings.now)) }
    ensures front { AppendsFront (Some draft.old) (Some draft.new) (settings_text table.now.attributes (settings_of settings.now)) }
{
    let holders = u64::from(settings.holders);
    draft.append_parts(
        table,
        &[
            Part::Bytes(b"holders "),
            Part::Number(holders),
            Part::Bytes(b"\n"),
        ],
    )?;
    write_known(draft, table, settings.known.as_slice())?;
    write_names(draft, table, &settings.names)
}

/// Appends a line for each known implication.
fn write_known(draft: &mut Draft, table: &Table, known: &[Implication]) -> Result<(), Memory>
    ensures whole { OnOk result (draft.new ≡ draft.old ++ flat_map (known_line table.now.attributes) known.now) }
    ensures front { AppendsFront (Some draft.old) (Some draft.new) (flat_map (known_line table.now.attributes) known.now) }
{
    for implication in known {
        draft.append_full_text(table, b"known ", implication)?;
    }
    Ok(())
}

/// Appends a line for each expert with a name.
fn write_names(draft: &mut Draft, table: &Table, names: &ExpertNames) -> Result<(), Memory>
    ensures whole { OnOk result (draft.new ≡ draft.old ++ names_text names.now) }
    ensures front { AppendsFront (Some draft.old) (Some draft.new) (names_text names.now) }
{
    for expert in 1..MAX_EXPERTS + 1 {
        write_name(draft, table, names, expert)?;
    }
    Ok(())
}

/// Appends the line of the expert, if the expert has a name.
fn write_name(
    draft: &mut Draft,
    table: &Table,
    names: &ExpertNames,
    expert: u8,
) -> Result<(), Memory>
    ensures whole { OnOk result (draft.new ≡ draft.old ++ name_line_at expert (name_of expert names.now)) }
    ensures front { AppendsFront (Some draft.old) (Some draft.new) (name_line_at expert (name_of expert names.now)) }
{
    match names.get(expert) {
        Some(name) => draft.append_parts(
            table,
            &[
                Part::Bytes(b"expert "),
                Part::Number(u64::from(expert)),
                Part::Bytes(b" "),
                Part::Bytes(name.bytes()),
                Part::Bytes(b"\n"),
            ],
        ),
        None => Ok(()),
    }
}

/// Appends the lines of the journal.
fn write_entries(draft: &mut Draft, table: &Table, journal: &[Entry]) -> Result<(), Memory>
    ensures whole { OnOk result (draft.new ≡ draft.old ++ entries_text table.now.attributes journal.now) }
    ensures front { AppendsFront (Some draft.old) (Some draft.new) (entries_text table.now.attributes journal.now) }
{
    for entry in journal {
        write_entry(draft, table, entry)?;
    }
    Ok(())
}

/// Appends the line of the event and the comment with the reply.
fn write_entry(draft: &mut Draft, table: &Table, entry: &Entry) -> Result<(), Memory>
    ensures whole { OnOk result (draft.new ≡ draft.old ++ entry_lines table.now.attributes entry.now) }
    ensures front { AppendsFront (Some draft.old) (Some draft.new) (entry_lines table.now.attributes entry.now) }
{
    write_event(draft, table, &entry.event)?;
    draft.append_parts(table, &[Part::Bytes(b"# ")])?;
    draft.append_reply(table, &entry.reply)
}

/// Appends the line of the event.
fn write_event(draft: &mut Draft, table: &Table, event: &Event) -> Result<(), Memory>
    ensures whole { OnOk result (draft.new ≡ draft.old ++ (event_text event.now ++ line_end)) }
    ensures front { AppendsFront (Some draft.old) (Some draft.new) (event_text event.now ++ line_end) }
{
    match event {
        Event::Draw { expert } => write_expert(draft, table, b"draw ", *expert),
        Event::Confirm { expert } => write_expert(draft, table, b"confirm ", *expert),
        Event::Row { expert, name, row } => draft.append_parts(
            table,
            &[
                Part::Bytes(b"row "),
                Part::Number(u64::from(*expert)),
                Part::Bytes(b" "),
                Part::Pattern(*row),
                Part::Bytes(b" "),
                Part::Bytes(name.bytes()),
                Part::Bytes(b"\n"),
            ],
        ),
        Event::Leave { expert } => write_expert(draft, table, b"leave ", *expert),
    }
}

/// Appends a line of the words and the number of the expert.
fn write_expert(draft: &mut Draft, table: &Table, words: &[u8], expert: u8) -> Result<(), Memory>
    ensures whole { OnOk result (draft.new ≡ draft.old ++ ((words.now ++ decimal expert) ++ line_end)) }
    ensures front { AppendsFront (Some draft.old) (Some draft.new) ((words.now ++ decimal expert) ++ line_end) }
{
    draft.append_parts(
        table,
        &[
            Part::Bytes(words),
            Part::Number(u64::from(expert)),
            Part::Bytes(b"\n"),
        ],
    )
}
