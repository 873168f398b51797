//! Verdicts: whether an implication holds, and why.

ghost use Rattle.std.specs.Prelude.{◌≡◌, ◌<◌, ◌++◌, ℕ, [], true, Some, length, codes, IfOk, OnOk, slice_index_or, nat_lt};
ghost use Rattle.std.specs.List.{flat_map, list_all};
ghost use Rattle.fca_model.specs.Implications.{rule, follows};
ghost use Rattle.fca_model.specs.Pseudo.{basis};
ghost use Rattle.canonical_basis.specs.Derivations.{derivation, is_sound};
ghost use Rattle.basis_report.specs.Verdicts.{step_line, derivation_text, refutation_text, follows_text};

use attr_bits::Attrs;
use canonical_basis::{Derivation, derive};
use context_table::Table;
use expert_wire::{Draft, Part};
use fca_model::Memory;
use implication_closure::{Implication, ImplicationList};
use report_texts::{object_text, write_count_line, write_implication};
use std::alloc::Global;
use std::thread::Threads;

/// The verdict on the implication from p to c. The basis is made only if no row refutes the implication.
pub fn verdict_text<R: Threads + Sync>(
    rt: &R,
    alloc: Global,
    table: &Table,
    p: &Attrs,
    c: &Attrs,
) -> Result<Vec<u8>, Memory>
    requires premise { length p.now ≡ table.now.context.width }
    requires conclusion { length c.now ≡ table.now.context.width }
    ensures { IfOk result (λ v. v.items ≡ follows_text table.now (basis table.now.context) p.now c.now) }
{
    if let Some(place) = table.rows().refuter(p, c) {
        let mut draft = Draft::new(alloc);
        write_refutation(&mut draft, table, place)?;
        return Ok(draft.into_bytes());
    }
    let list = canonical_basis::basis(rt, alloc, table.rows())?;
    follows_text(alloc, table, &list, p, c)
}

/// The verdict on the implication from p to c: a derivation from the basis, or the first row that refutes the implication.
pub fn follows_text(
    alloc: Global,
    table: &Table,
    list: &ImplicationList,
    p: &Attrs,
    c: &Attrs,
) -> Result<Vec<u8>, Memory>
    requires basis { list.now ≡ record { width = table.now.context.width; members = basis table.now.context } }
    requires premise { length p.now ≡ table.now.context.width }
    requires conclusion { length c.now ≡ table.now.context.width }
    ensures { IfOk result (λ v. v.items ≡ follows_text table.now list.now.members p.now c.now) }
{
    let mut draft = Draft::new(alloc);
    match table.rows().refuter(p, c) {
        Some(place) => write_refutation(&mut draft, table, place)?,
        None => {
            let derivation = derivation_of(alloc, list, p, c)?;
            write_derivation(&mut draft, table, list.as_slice(), derivation.as_slice())?;
        }
    }
    Ok(draft.into_bytes())
}

/// The derivation of an implication that follows from the list.
fn derivation_of(
    alloc: Global,
    list: &ImplicationList,
    p: &Attrs,
    c: &Attrs,
) -> Result<Derivation, Memory>
    requires premise { length p.now ≡ list.now.width }
    requires conclusion { length c.now ≡ list.now.width }
    requires follows { follows list.now.width list.now.members (rule p.now c.now) ≡ true }
    ensures derivation { IfOk result (λ steps. derivation list.now p.now c.now ≡ Some steps) }
    ensures in_range { IfOk result (λ steps. list_all (λ i. nat_lt i (length list.now.members)) steps ≡ true) }
{
    match derive(alloc, list, p, c)? {
        Some(derivation) => Ok(derivation),
        None => unreachable!(),
    }
}

/// Appends that the implication holds, and the steps of its derivation.
fn write_derivation(
    draft: &mut Draft,
    table: &Table,
    members: &[Implication],
    steps: &[usize],
) -> Result<(), Memory>
    requires { list_all (λ i. nat_lt i (length members.now)) steps.now ≡ true }
    ensures { OnOk result (draft.new ≡ draft.old ++ derivation_text table.now.attributes members.now steps.now) }
{
    draft.append_parts(table, &[Part::Bytes(b"holds\n")])?;
    write_count_line(draft, b"steps ", steps.len())?;
    for step in steps {
        write_implication(draft, table, b"", *step, &members[*step])?;
    }
    Ok(())
}

/// Appends the row at the place, which refutes the implication.
fn write_refutation(draft: &mut Draft, table: &Table, place: usize) -> Result<(), Memory>
    requires { place < length table.now.context.rows }
    ensures { OnOk result (draft.new ≡ draft.old ++ refutation_text table.now place) }
{
    draft.append_parts(
        table,
        &[
            Part::Bytes(b"refuted "),
            Part::Ordinal(place),
            Part::Bytes(b" "),
            Part::Pattern(table.rows().get(place)),
            Part::Bytes(b" "),
            Part::Bytes(object_text(table, place).as_bytes()),
            Part::Bytes(b"\n"),
        ],
    )
}
