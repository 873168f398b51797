//! The line that heads a list.

ghost use Rattle.std.specs.Prelude.{◌≡◌, ◌++◌, OnOk, OnErr, IfOk};
ghost use Rattle.report_texts.specs.Reports.{count_line};

use fca_model::Memory;
use itoa::Buffer;
use std::alloc::Global;

/// The line of the words and the number.
pub(crate) fn count_line(alloc: Global, words: &[u8], count: usize) -> Result<Vec<u8>, Memory>
    ensures { IfOk result (λ head. head.items ≡ count_line words.now count) }
{
    let mut head = Vec::new(alloc);
    head.extend_from_slice(words)?;
    head.extend_from_slice(Buffer::new().format(count).as_bytes())?;
    head.extend_from_slice(b"\n")?;
    Ok(head)
}

/// Appends the line of the words and the number. After an `Err` the text is as it was.
pub(crate) fn add_count_line(text: &mut Vec<u8>, words: &[u8], count: usize) -> Result<(), Memory>
    ensures added { OnOk result (text.new.items ≡ text.old.items ++ count_line words.now count) }
    ensures unchanged { OnErr result (text.new.items ≡ text.old.items) }
{
    let head = count_line(*text.allocator(), words, count)?;
    text.extend_from_slice(&head)?;
    Ok(())
}
