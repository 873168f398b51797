//! The writer of tables.

ghost use Rattle.std.specs.Prelude.{◌≡◌, ◌≤◌, ◌+◌, ◌-◌, ◌++◌, ◌∷◌, [], IfOk, OnOk, Ok, map, length, take, drop};
ghost use Rattle.std.specs.Option.{ForSome};
ghost use Rattle.std.specs.Fmt.{decimal};
ghost use Rattle.fca_model.specs.Names.{IsName};
ghost use Rattle.text_pieces.specs.Lines.{text_of};
ghost use Rattle.text_pieces.specs.Marks.{marks_of};
ghost use Rattle.cxt_format.specs.Form.{cxt_form};
ghost use Rattle.text_pieces.specs.Lists.{EachName};
ghost use Rattle.cxt_format.specs.Written.{cxt_text, head_lines, title_line};

use attr_bits::Attrs;
use context_table::Table;
use derivation::Rows;
use fca_model::Memory;
use std::alloc::Global;
use text_pieces::marks_of;

/// The number of characters of a row that are written at once.
const BLOCK: u32 = 64;

/// The bytes of so many characters.
const BLOCK_BYTES: usize = BLOCK as usize;

/// Writes the table.
pub fn write_cxt(alloc: Global, table: &Table) -> Result<Vec<u8>, Memory>
    ensures written { IfOk result (λ text. text.items ≡ cxt_text table.now) }
    ensures reads_back { IfOk result (λ text. cxt_form text.items ≡ Ok table.now) }
{
    let mut text = Vec::new(alloc);
    write_head(alloc, &mut text, table)?;
    write_objects(&mut text, table)?;
    write_attributes(&mut text, table)?;
    write_rows(&mut text, table.rows())?;
    Ok(text)
}

fn write_head(alloc: Global, text: &mut Vec<u8>, table: &Table) -> Result<(), Memory>
    ensures written { OnOk result (text.new.items ≡ text.old.items ++ text_of (head_lines table.now)) }
    ensures named { OnOk result (ForSome table.now.title IsName) }
{
    write_line(text, b"B")?;
    write_title(text, table)?;
    write_number(alloc, text, table.rows().len())?;
    write_number(alloc, text, table.rows().width() as usize)?;
    write_line(text, b"")?;
    Ok(())
}

fn write_title(text: &mut Vec<u8>, table: &Table) -> Result<(), Memory>
    ensures written { OnOk result (text.new.items ≡ text.old.items ++ title_line table.now.title ++ 10 ∷ []) }
    ensures named { OnOk result (ForSome table.now.title IsName) }
{
    match table.title() {
        Some(title) => write_line(text, title.bytes()),
        None => write_line(text, b""),
    }
}

fn write_number(alloc: Global, text: &mut Vec<u8>, number: usize) -> Result<(), Memory>
    ensures { OnOk result (text.new.items ≡ text.old.items ++ decimal number ++ 10 ∷ []) }
{
    let digits = format!(in alloc; "{number}")?;
    write_line(text, digits.as_bytes())
}

fn write_objects(text: &mut Vec<u8>, table: &Table) -> Result<(), Memory>
    ensures written { OnOk result (text.new.items ≡ text.old.items ++ text_of table.now.objects) }
    ensures named { OnOk result (EachName table.now.objects) }
{
    for i in 0..table.rows().len() {
        write_line(text, table.object(i).bytes())?;
    }
    Ok(())
}

fn write_attributes(text: &mut Vec<u8>, table: &Table) -> Result<(), Memory>
    ensures written { OnOk result (text.new.items ≡ text.old.items ++ text_of table.now.attributes) }
    ensures named { OnOk result (EachName table.now.attributes) }
{
    for i in 0..table.rows().width() {
        write_line(text, table.attribute_name(i).bytes())?;
    }
    Ok(())
}

fn write_rows(text: &mut Vec<u8>, rows: &Rows) -> Result<(), Memory>
    ensures { OnOk result (text.new.items ≡ text.old.items ++ text_of (map marks_of rows.now.rows)) }
{
    for i in 0..rows.len() {
        write_row(text, &rows.get(i))?;
    }
    Ok(())
}

fn write_row(text: &mut Vec<u8>, row: &Attrs) -> Result<(), Memory>
    ensures { OnOk result (text.new.items ≡ text.old.items ++ marks_of row.now ++ 10 ∷ []) }
{
    for block in 0..row.width().div_ceil(BLOCK) {
        let from = BLOCK * block;
        let end = row.width().min(from + BLOCK);
        let marks = marks_of::<BLOCK_BYTES>(row, from, end);
        text.extend_from_slice(&marks[..(end - from) as usize])?;
    }
    text.push(b'\n')?;
    Ok(())
}

fn write_line(text: &mut Vec<u8>, line: &[u8]) -> Result<(), Memory>
    ensures { OnOk result (text.new.items ≡ text.old.items ++ line.now ++ 10 ∷ []) }
{
    text.extend_from_slice(line)?;
    text.push(b'\n')?;
    Ok(())
}
