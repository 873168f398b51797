//! The text of an exploration in pieces. A thread may write each of them.

ghost use Rattle.std.specs.Prelude.{◌≡◌, List, true, IfOk, OnOk};
ghost use Rattle.std.specs.List.{flat_map};
ghost use Rattle.fca_model.specs.Tables.{Text};
ghost use Rattle.expert_scripts.specs.Transcripts.{SettingsCanBeWritten};
ghost use Rattle.basis_report.specs.Comments.{are_lines};
ghost use Rattle.basis_report.specs.Explorations.{SpellsBefore, explore_text, transcript_of, sections_before_basis, basis_section_of};

use crate::explorations::{write_accepted, write_basis, write_open, write_recorded};
use crate::names::{look_at_attributes, look_at_rows};
use expert_scripts::transcript_text;
use expert_wire::Draft;
use explore_state::Explore;
use fca_model::Memory;
use std::alloc::Global;
use std::thread::{Threads, join_mut};

/// The text of the exploration in three pieces: the transcript; the lists of recorded rows, accepted implications and open questions; and
/// the basis. Threads write them at the same time, if threads can be had. It reads back as `explore_text` does.
pub fn explore_pieces<R: Threads>(
    rt: &R,
    alloc: Global,
    explore: &Explore,
) -> Result<Vec<Vec<u8>>, Memory>
    ensures text { IfOk result (λ pieces. flat_map (λ piece. piece.items) pieces.items
        ≡ explore_text explore.now.opening.table explore.now.opening.settings explore.now.journal) }
    ensures reads_back { OnOk result ((lines : List Text) → are_lines lines ≡ true
        → SettingsCanBeWritten explore.now.opening.table.context.width explore.now.opening.settings
        → SpellsBefore explore.now.opening.table explore.now.opening.settings explore.now.journal lines) }
{
    look_at_attributes(explore.table());
    look_at_rows(explore.journal());
    make_pieces(rt, &alloc, explore)
}

/// The pieces. The allocator is lent: proofs lose what a thread writes if the thread owns it.
fn make_pieces<R: Threads>(
    rt: &R,
    alloc: &Global,
    explore: &Explore,
) -> Result<Vec<Vec<u8>>, Memory>
    ensures { IfOk result (λ pieces. flat_map (λ piece. piece.items) pieces.items
        ≡ explore_text explore.now.opening.table explore.now.opening.settings explore.now.journal) }
{
    let (mut first, mut second) = (Err(Memory), Err(Memory));
    let (front, behind) = (&mut first, &mut second);
    join_mut(
        rt,
        &mut ||
            ensures { IfOk front.exit.now (λ v. v.items ≡ transcript_of explore.entry.now) }
        {
            *front = transcript_piece(*alloc, explore);
        },
        &mut ||
            ensures { IfOk behind.exit.now (λ p. (p.0.items ≡ sections_before_basis explore.entry.now) × (p.1.items ≡ basis_section_of explore.entry.now)) }
        {
            *behind = lists_and_basis(rt, alloc, explore);
        },
    );
    let transcript = first?;
    let (lists, basis) = second?;
    Ok(vec![in *alloc; transcript, lists, basis]?)
}

/// The piece of the lists, and that of the basis.
fn lists_and_basis<R: Threads>(
    rt: &R,
    alloc: &Global,
    explore: &Explore,
) -> Result<(Vec<u8>, Vec<u8>), Memory>
    ensures { IfOk result (λ p. (p.0.items ≡ sections_before_basis explore.now) × (p.1.items ≡ basis_section_of explore.now)) }
{
    let (mut first, mut second) = (Err(Memory), Err(Memory));
    let (lists, basis) = (&mut first, &mut second);
    join_mut(
        rt,
        &mut ||
            ensures { IfOk lists.exit.now (λ v. v.items ≡ sections_before_basis explore.entry.now) }
        {
            *lists = lists_piece(*alloc, explore);
        },
        &mut ||
            ensures { IfOk basis.exit.now (λ v. v.items ≡ basis_section_of explore.entry.now) }
        {
            *basis = basis_piece(*alloc, explore);
        },
    );
    Ok((first?, second?))
}

/// The piece of the transcript.
fn transcript_piece(alloc: Global, explore: &Explore) -> Result<Vec<u8>, Memory>
    ensures { IfOk result (λ v. v.items ≡ transcript_of explore.now) }
{
    transcript_text(
        alloc,
        explore.table(),
        explore.settings(),
        explore.journal(),
    )
}

/// The piece of the recorded rows, the accepted implications and the open questions.
fn lists_piece(alloc: Global, explore: &Explore) -> Result<Vec<u8>, Memory>
    ensures { IfOk result (λ v. v.items ≡ sections_before_basis explore.now) }
{
    let table = explore.table();
    let mut draft = Draft::new(alloc);
    write_recorded(&mut draft, table, explore.journal())?;
    write_accepted(&mut draft, table, explore.known(), explore.accepted())?;
    write_open(&mut draft, table, explore.open_questions())?;
    Ok(draft.into_bytes())
}

/// The piece of the basis.
fn basis_piece(alloc: Global, explore: &Explore) -> Result<Vec<u8>, Memory>
    ensures { IfOk result (λ v. v.items ≡ basis_section_of explore.now) }
{
    let mut draft = Draft::new(alloc);
    write_basis(
        alloc,
        &mut draft,
        explore.table(),
        explore.accepted(),
        explore.open_questions(),
    )?;
    Ok(draft.into_bytes())
}
