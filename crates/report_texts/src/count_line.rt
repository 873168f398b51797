//! The line that heads a list.

ghost use Rattle.std.specs.Prelude.{◌≡◌, ◌++◌, OnOk};
ghost use Rattle.report_texts.specs.Reports.{count_line};

use expert_wire::Draft;
use fca_model::Memory;
use itoa::Buffer;

/// Appends the line that heads a list: the words, and the number of its members.
pub fn write_count_line(draft: &mut Draft, words: &[u8], count: usize) -> Result<(), Memory>
    ensures { OnOk result (draft.new ≡ draft.old ++ count_line words.now count) }
{
    draft.append_bytes(words)?;
    draft.append_bytes(Buffer::new().format(count).as_bytes())?;
    draft.append_bytes(b"\n")
}
