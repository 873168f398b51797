//! The lines of the basis.

ghost use Rattle.std.specs.Prelude.{◌≡◌, ◌+◌, ◌*◌, ◌≤◌, ◌++◌, [], IfOk, length, take, codes};
ghost use Rattle.fca_model.specs.Pseudo.{basis};
ghost use Rattle.implication_closure.specs.Closing.{HaveWidth};
ghost use Rattle.expert_wire.specs.Texts.{arrow_text, line_end};
ghost use Rattle.report_texts.specs.Reports.{implication_line, basis_text};

use crate::attribute_names::AttributeNames;
use crate::heads::count_line;
use attr_bits::Bits;
use derivation::RowsOf;
use fca_model::{Implication, MAX_ATTRIBUTES, Memory};
use implication_closure::ImplicationList;
use itoa::Buffer;
use lectic_basis::known_with_basis_in_words;
use packed_concepts::{PIECE_ROOM, PUNCTUATION, make_room, put_bytes, room_of};
use std::alloc::Global;

/// The basis of these rows, one member a line, with these names of attributes. The rows are dropped before the text is written.
pub(crate) fn basis_text_in<const W: usize>(
    alloc: Global,
    names: &AttributeNames,
    rows: RowsOf<W>,
) -> Result<Vec<u8>, Memory>
    requires wide { rows.width ≡ length names.now }
    requires few { rows.width ≤ MAX_ATTRIBUTES }
    ensures { IfOk result (λ v. v.items ≡ basis_text names.now (basis rows.entry)) }
{
    let nothing = ImplicationList::new(alloc, rows.width())?;
    let list = known_with_basis_in_words(alloc, rows, &nothing)?;
    implications_text(alloc, names, list.as_slice())
}

/// The implications, one a line, after a line with their number.
fn implications_text<const W: usize>(
    alloc: Global,
    names: &AttributeNames,
    members: &[Implication<Bits<W>>],
) -> Result<Vec<u8>, Memory>
    requires { HaveWidth (length names.now) members.now }
    ensures { IfOk result (λ v. v.items ≡ basis_text names.now members.now) }
{
    let mut bytes = count_line(alloc, b"basis ", members.len())?;
    let mut end = bytes.len();
    for (place, member) in members.iter().enumerate() {
        end = add_implication(&mut bytes, end, names, place, member)?;
    }
    bytes.truncate(end);
    Ok(bytes)
}

/// Puts the line of the implication at `start`, makes room if necessary, and returns its end.
fn add_implication<const W: usize>(
    bytes: &mut Vec<u8>,
    start: usize,
    names: &AttributeNames,
    place: usize,
    member: &Implication<Bits<W>>,
) -> Result<usize, Memory>
    requires start { start ≤ length bytes.old.items }
    requires premise { length member.now.premise ≡ length names.now }
    requires conclusion { length member.now.conclusion ≡ length names.now }
    ensures text { IfOk result (λ end. take end bytes.new.items ≡ take start bytes.old.items ++ implication_line [] names.now place member.now) }
    ensures ends { IfOk result (λ end. end ≤ length bytes.new.items) }
{
    let Some(number) = place.checked_add(1) else {
        return Err(Memory);
    };
    let mut buffer = Buffer::new();
    let digits = buffer.format(number).as_bytes();
    let widths = (member.premise.width(), member.conclusion.width());
    make_room(
        bytes,
        start,
        room_of(digits.len(), widths.0 as usize, widths.1 as usize),
    )?;
    Ok(put_implication(bytes, start, names, digits, member))
}

/// Puts the line with these digits at `start` and returns its end.
fn put_implication<const W: usize>(
    text: &mut [u8],
    start: usize,
    names: &AttributeNames,
    digits: &[u8],
    member: &Implication<Bits<W>>,
) -> usize
    requires premise { length member.now.premise ≡ length names.now }
    requires conclusion { length member.now.conclusion ≡ length names.now }
    requires room { start + (length digits.now + (PUNCTUATION + PIECE_ROOM * (length member.now.premise + length member.now.conclusion))) ≤ length text.old }
    ensures text { take result text.new ≡ take start text.old ++ (digits.now ++ (codes " " ++ (arrow_text names.now member.now ++ line_end))) }
    ensures ends { result ≤ length text.new }
    ensures room { length text.new ≡ length text.old }
{
    let gained = member.conclusion.minus(&member.premise);
    let number = put_bytes(text, start, digits);
    let opened = put_bytes(text, number, b" {");
    let premise = names.put(text, opened, &member.premise);
    let between = put_bytes(text, premise, b"} -> {");
    let conclusion = names.put(text, between, &gained);
    put_bytes(text, conclusion, b"}\n")
}
