//! The texts of the nominal scale of three.

use crate::tables::nominal_table;
use basis_report::{basis_text, concepts_text, lattice_text};
use canonical_basis::basis;
use fca_model::Memory;
use lattice_covers::covers;
use lectic_concepts::{all_concepts, all_intents};
use std::rt::HostRuntime;

#[test]
fn five_concepts_are_written(rt: HostRuntime) -> Result<(), Memory> {
    let table = nominal_table(rt.alloc())?;
    let concepts = all_concepts(rt.alloc(), table.rows())?;
    let text = concepts_text(rt.alloc(), &table, &concepts)?;
    assert!(&rt;
        text.as_slice()
            == b"concepts 5\n1 {} | {1, 2, 3}\n2 {c} | {3}\n3 {b} | {2}\n4 {a} | {1}\n5 {a, b, c} | {}\n".as_slice()
    );
    Ok(())
}

#[test]
fn their_lattice_is_written(rt: HostRuntime) -> Result<(), Memory> {
    let table = nominal_table(rt.alloc())?;
    let concepts = all_concepts(rt.alloc(), table.rows())?;
    let intents = all_intents(rt.alloc(), table.rows())?;
    let pairs = covers(rt.alloc(), table.rows(), &intents)?;
    let text = lattice_text(rt.alloc(), &table, &concepts, &pairs)?;
    assert!(&rt;
        text.ends_with(b"5 {a, b, c} | {}\ncovers 6\n1 2\n1 3\n1 4\n2 5\n3 5\n4 5\n".as_slice())
    );
    Ok(())
}

#[test]
fn three_implications_are_written(rt: HostRuntime) -> Result<(), Memory> {
    let table = nominal_table(rt.alloc())?;
    let list = basis(&rt, rt.alloc(), table.rows())?;
    let text = basis_text(rt.alloc(), &table, &list)?;
    assert!(&rt;
        text.as_slice()
            == b"basis 3\n1 {b, c} -> {a}\n2 {a, c} -> {b}\n3 {a, b} -> {c}\n".as_slice()
    );
    Ok(())
}
