//! The reader of narrow tables.

ghost use Rattle.std.specs.Prelude.{◌≡◌, ◌<◌, ◌≤◌, ◌^◌, [], IfOk, length};
ghost use Rattle.text_pieces.specs.Lines.{lines};
ghost use Rattle.context_table.specs.Narrow.{context_in};
ghost use Rattle.cxt_format.specs.Form as form;
ghost use Rattle.text_pieces.specs.Telling.{Tells};
ghost use Rattle.cxt_format.specs.Form.{Parses};
ghost use Rattle.cxt_format.specs.Untitled.{untitled_form};

use crate::CxtFault;
use crate::read::{
    Head, read_attributes, read_end, read_head, read_objects, read_rows, without_bom,
};
use attr_bits::WordCount;
use context_table::{NarrowRows, NarrowTable};
use fca_model::{MAX_ATTRIBUTES, MAX_OBJECTS};
use std::alloc::Global;
use text_pieces::Lines;

/// Reads the table that the bytes of a file write, without its title. Each row goes at once into as few words as have room for it.
pub fn read_narrow_cxt(alloc: Global, bytes: &[u8]) -> Result<NarrowTable, CxtFault>
    ensures { Tells CxtFault.Memory result (untitled_form (form.cxt_form bytes.now)) }
{
    match str::from_utf8(bytes) {
        Ok(text) => read_narrow_text(alloc, text),
        Err(fault) => Err(CxtFault::NotUtf8(fault.valid_up_to())),
    }
}

fn read_narrow_text(alloc: Global, text: &str) -> Result<NarrowTable, CxtFault>
    requires { length text.now < 2 ^ 63 }
    ensures { Tells CxtFault.Memory result (untitled_form (form.table_form (lines (form.without_bom text.now)))) }
{
    let mut lines = Lines::new(without_bom(text));
    let head = read_head(alloc, &mut lines)?;
    read_narrow_body(alloc, head, &mut lines)
}

/// Reads what stands behind the head.
fn read_narrow_body(
    alloc: Global,
    head: Head,
    lines: &mut Lines<'_>,
) -> Result<NarrowTable, CxtFault>
    requires objects { head.objects ≤ MAX_OBJECTS }
    requires attributes { head.attributes ≤ MAX_ATTRIBUTES }
    ensures { Tells CxtFault.Memory result (untitled_form (form.body_form head lines.old)) }
{
    let objects = read_objects(alloc, head.objects, lines)?;
    let attributes = read_attributes(alloc, head.attributes, lines)?;
    let rows = read_narrow_rows(alloc, head.attributes as u32, head.objects, lines)?;
    read_end(lines)?;
    match NarrowTable::new(alloc, objects, attributes, rows) {
        Ok(table) => Ok(table),
        Err(_) => Err(CxtFault::Memory),
    }
}

/// Reads the rows into as few words as have room for them.
fn read_narrow_rows(
    alloc: Global,
    width: u32,
    count: usize,
    lines: &mut Lines<'_>,
) -> Result<NarrowRows, CxtFault>
    requires { width ≤ MAX_ATTRIBUTES }
    ensures form { Parses (λ rows. (context_in rows).rows) result (form.rows_form width [] count lines.old) lines.new }
    ensures width { IfOk result (λ rows. (context_in rows).width ≡ width) }
    ensures counted { IfOk result (λ rows. length (context_in rows).rows ≡ count) }
{
    Ok(match WordCount::of(width) {
        WordCount::One => NarrowRows::One(read_rows(alloc, width, count, lines)?),
        WordCount::Two => NarrowRows::Two(read_rows(alloc, width, count, lines)?),
        WordCount::Four => NarrowRows::Four(read_rows(alloc, width, count, lines)?),
        WordCount::Eight => NarrowRows::Eight(read_rows(alloc, width, count, lines)?),
        WordCount::All => NarrowRows::All(read_rows(alloc, width, count, lines)?),
    })
}
