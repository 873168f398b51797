//! The reader of tables.

ghost use Rattle.std.specs.Prelude.{◌≡◌, ◌<◌, ◌≤◌, ◌-◌, ◌*◌, ◌^◌, [], IfOk, false, length, vec_len, bytes_eq};
ghost use Rattle.std.specs.List.{list_any};
ghost use Rattle.text_pieces.specs.Lines.{lines};
ghost use Rattle.cxt_format.specs.LineForms as line_form;
ghost use Rattle.cxt_format.specs.Form as form;
ghost use Rattle.text_pieces.specs.Telling.{Tells};
ghost use Rattle.cxt_format.specs.Form.{Parses};

use crate::CxtFault;
use crate::line_readers::{count_of, is_b_line, name_of, row_of, title_of};
use attr_bits::{Bits, WORDS};
use context_table::Table;
use derivation::RowsOf;
use fca_model::{MAX_ATTRIBUTES, MAX_OBJECTS, Name};
use indexmap::IndexSet;
use std::alloc::Global;
use text_pieces::Lines;

/// The title and the numbers of objects and attributes, which stand before the names.
#[derive(Drop)]
pub struct Head {
    title: Option<Name>,
    pub(crate) objects: usize,
    pub(crate) attributes: usize,
}

/// Reads the table that the bytes of a file write.
pub fn read_cxt(alloc: Global, bytes: &[u8]) -> Result<Table, CxtFault>
    ensures { Tells CxtFault.Memory result (form.cxt_form bytes.now) }
{
    match str::from_utf8(bytes) {
        Ok(text) => read_text(alloc, text),
        Err(fault) => Err(CxtFault::NotUtf8(fault.valid_up_to())),
    }
}

fn read_text(alloc: Global, text: &str) -> Result<Table, CxtFault>
    requires { length text.now < 2 ^ 63 }
    ensures { Tells CxtFault.Memory result (form.table_form (lines (form.without_bom text.now))) }
{
    let mut lines = Lines::new(without_bom(text));
    let head = read_head(alloc, &mut lines)?;
    read_body(alloc, head, &mut lines)
}

/// The text without the byte order mark before it.
pub(crate) fn without_bom(text: &str) -> &str
    ensures { result.now ≡ form.without_bom text.now }
{
    text.strip_prefix('\u{FEFF}').unwrap_or(text)
}

pub(crate) fn read_head(alloc: Global, lines: &mut Lines<'_>) -> Result<Head, CxtFault>
    ensures form { Parses (λ head. head) result (form.head_form lines.old) lines.new }
    ensures objects { IfOk result (λ head. head.objects ≤ MAX_OBJECTS) }
    ensures attributes { IfOk result (λ head. head.attributes ≤ MAX_ATTRIBUTES) }
{
    next_b_line(lines)?;
    let title = next_title(alloc, lines)?;
    let objects = next_count(MAX_OBJECTS, lines)?;
    let attributes = next_count(MAX_ATTRIBUTES as usize, lines)?;
    lines.skip_blank();
    Ok(Head {
        title,
        objects,
        attributes,
    })
}

fn read_body(alloc: Global, head: Head, lines: &mut Lines<'_>) -> Result<Table, CxtFault>
    requires objects { head.objects ≤ MAX_OBJECTS }
    requires attributes { head.attributes ≤ MAX_ATTRIBUTES }
    ensures { Tells CxtFault.Memory result (form.body_form head lines.old) }
{
    let objects = read_objects(alloc, head.objects, lines)?;
    let attributes = read_attributes(alloc, head.attributes, lines)?;
    let rows = read_rows::<WORDS>(alloc, head.attributes as u32, head.objects, lines)?;
    read_end(lines)?;
    match Table::new(alloc, head.title, objects, attributes, rows) {
        Ok(table) => Ok(table),
        Err(_) => Err(CxtFault::Memory),
    }
}

fn next_b_line(lines: &mut Lines<'_>) -> Result<(), CxtFault>
    ensures { Parses (λ x. x) result (form.next line_form.b_form lines.old) lines.new }
{
    let number = lines.number();
    match lines.next() {
        Some(line) => {
            if is_b_line(line.as_bytes()) {
                Ok(())
            } else {
                Err(CxtFault::NotB)
            }
        }
        None => Err(CxtFault::Ended(number)),
    }
}

fn next_title(alloc: Global, lines: &mut Lines<'_>) -> Result<Option<Name>, CxtFault>
    ensures { Parses (λ x. x) result (form.next line_form.title_form lines.old) lines.new }
{
    let number = lines.number();
    match lines.next() {
        Some(line) => title_of(alloc, number, line),
        None => Err(CxtFault::Ended(number)),
    }
}

fn next_count(most: usize, lines: &mut Lines<'_>) -> Result<usize, CxtFault>
    ensures form { Parses (λ x. x) result (form.next (line_form.count_form most) lines.old) lines.new }
    ensures within { IfOk result (λ count. count ≤ most) }
{
    let number = lines.number();
    match lines.next() {
        Some(line) => count_of(most, number, line.as_bytes()),
        None => Err(CxtFault::Ended(number)),
    }
}

fn next_name(alloc: Global, lines: &mut Lines<'_>) -> Result<Name, CxtFault>
    ensures { Parses (λ x. x) result (form.next line_form.name_form lines.old) lines.new }
{
    let number = lines.number();
    match lines.next() {
        Some(line) => name_of(alloc, number, line),
        None => Err(CxtFault::Ended(number)),
    }
}

fn next_row<const W: usize>(width: u32, lines: &mut Lines<'_>) -> Result<Bits<W>, CxtFault>
    requires few { width ≤ MAX_ATTRIBUTES }
    requires room { width ≤ 64 * W }
    ensures form { Parses (λ x. x) result (form.next_row width lines.old) lines.new }
    ensures wide { IfOk result (λ row. length row ≡ width) }
{
    if width == 0 {
        return Ok(Bits::empty(0));
    }
    match lines.next_filled() {
        Some((number, line)) => row_of(width, number, line.as_bytes()),
        None => Err(CxtFault::Ended(lines.number())),
    }
}

pub(crate) fn read_objects(
    alloc: Global,
    count: usize,
    lines: &mut Lines<'_>,
) -> Result<Vec<Name>, CxtFault>
    ensures form { Parses (λ names. names.items) result (form.objects_form [] count lines.old) lines.new }
    ensures counted { IfOk result (λ names. vec_len names ≡ count) }
{
    let mut names = Vec::new(alloc);
    for _place in 0..count {
        names.push(next_name(alloc, lines)?)?;
    }
    Ok(names)
}

pub(crate) fn read_attributes(
    alloc: Global,
    count: usize,
    lines: &mut Lines<'_>,
) -> Result<Vec<Name>, CxtFault>
    ensures form { Parses (λ names. names.items) result (form.attributes_form [] count lines.old) lines.new }
    ensures counted { IfOk result (λ names. vec_len names ≡ count) }
{
    let names = read_new_names(alloc, count, lines)?;
    Ok(names.into_iter().collect(alloc)?)
}

/// Reads attribute names in their order. They are looked up by hash.
fn read_new_names(
    alloc: Global,
    count: usize,
    lines: &mut Lines<'_>,
) -> Result<IndexSet<Name>, CxtFault>
    ensures form { Parses (λ names. names.keys) result (form.attributes_form [] count lines.old) lines.new }
    ensures counted { IfOk result (λ names. length names.keys ≡ count) }
{
    let mut names = IndexSet::new(alloc);
    for _place in 0..count {
        names.insert(next_attribute(alloc, &names, lines)?)?;
    }
    Ok(names)
}

fn next_attribute(
    alloc: Global,
    names: &IndexSet<Name>,
    lines: &mut Lines<'_>,
) -> Result<Name, CxtFault>
    ensures form { Parses (λ x. x) result (form.next (line_form.attribute_form names.now.keys) lines.old) lines.new }
    ensures new { IfOk result (λ name. list_any (bytes_eq name) names.now.keys ≡ false) }
{
    let number = lines.number();
    match next_name(alloc, lines) {
        Ok(name) => {
            if names.contains(&name) {
                Err(CxtFault::DuplicateAttribute(number))
            } else {
                Ok(name)
            }
        }
        Err(fault) => Err(fault),
    }
}

/// Reads the rows, in as many words as the caller wants.
pub(crate) fn read_rows<const W: usize>(
    alloc: Global,
    width: u32,
    count: usize,
    lines: &mut Lines<'_>,
) -> Result<RowsOf<W>, CxtFault>
    requires width { width ≤ MAX_ATTRIBUTES }
    requires room { width ≤ 64 * W }
    requires words { W ≤ 1024 }
    ensures form { Parses (λ rows. rows.rows) result (form.rows_form width [] count lines.old) lines.new }
    ensures width { IfOk result (λ rows. rows.width ≡ width) }
    ensures counted { IfOk result (λ rows. length rows.rows ≡ count) }
{
    let mut rows = RowsOf::new(alloc, width)?;
    for _place in 0..count {
        rows.push(next_row(width, lines)?)?;
    }
    Ok(rows)
}

/// Reads the blank lines that are left. It refuses any other line.
pub(crate) fn read_end(lines: &mut Lines<'_>) -> Result<(), CxtFault>
    ensures { result ≡ form.end_form lines.old }
{
    match lines.next_filled() {
        Some((number, _)) => Err(CxtFault::Trailing(number)),
        None => Ok(()),
    }
}
