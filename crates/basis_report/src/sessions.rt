//! The endings of sessions.

ghost use Rattle.std.specs.Prelude.{◌≡◌, ◌++◌, true, map, IfOk, OnOk};
ghost use Rattle.basis_report.specs.Comments.{are_lines, AreComments};
ghost use Rattle.basis_report.specs.Sessions.{session_line, sessions_text};

use expert_wire::Draft;
use fca_model::Memory;
use report_texts::write_count_line;
use std::alloc::Global;

/// The endings of the sessions of all experts, in words.
pub fn sessions_text(alloc: Global, endings: &[&str]) -> Result<Vec<u8>, Memory>
    ensures text { IfOk result (λ v. v.items ≡ sessions_text (map (λ words. words.now) endings.now)) }
    ensures skipped { are_lines (map (λ words. words.now) endings.now) ≡ true → IfOk result (λ v. AreComments v.items) }
{
    let mut draft = Draft::new(alloc);
    write_count_line(&mut draft, b"# sessions ", endings.len())?;
    for (place, words) in endings.iter().enumerate() {
        write_session(&mut draft, place, words)?;
    }
    Ok(draft.into_bytes())
}

/// Appends the line of the expert at the place.
fn write_session(draft: &mut Draft, place: usize, words: &str) -> Result<(), Memory>
    ensures { OnOk result (draft.new ≡ draft.old ++ session_line place words.now) }
{
    draft.append_bytes(b"# ")?;
    draft.append_ordinal(place)?;
    draft.append_bytes(b" ")?;
    draft.append_bytes(words.as_bytes())?;
    draft.append_bytes(b"\n")
}
