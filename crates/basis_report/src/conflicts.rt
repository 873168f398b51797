//! Conflicts: the rows that oracles dropped.

ghost use Rattle.std.specs.Prelude.{◌≡◌, ◌≤◌, ◌<◌, ◌++◌, ℕ, [], Some, length, map, IfOk, OnOk, slice_index_or};
ghost use Rattle.std.specs.List.{flat_map};
ghost use Rattle.fca_model.specs.declared.TheConstants.{MAX_OBJECTS};
ghost use Rattle.fca_model.specs.Implications.{rule};
ghost use Rattle.fca_model.specs.Exploration.{rules_of};
ghost use Rattle.explore_state.specs.History.{state_of};
ghost use Rattle.basis_report.specs.Comments.{AreComments};
ghost use Rattle.basis_report.specs.Conflicts.{dropped_rows_at, dropped_rows_of, dropped_rows_from, conflict_line, conflicts_text};

use crate::names::{look_at_attributes, look_at_oracles};
use attr_bits::Attrs;
use context_table::Table;
use expert_wire::{Draft, Part};
use explore_state::{Explore, Implication};
use fca_model::Memory;
use oracle_expert::Oracle;
use report_texts::{object_text, write_count_line};
use std::alloc::Global;

/// The rows that the oracles of the experts dropped, each with the rule that it broke.
pub fn conflicts_text(
    alloc: Global,
    explore: &Explore,
    oracles: &[Oracle],
) -> Result<Vec<u8>, Memory>
    requires { length oracles.now ≤ explore.now.opening.experts }
    ensures text { IfOk result (λ v. v.items
        ≡ conflicts_text explore.now.opening.table.attributes (rules_of (state_of explore.now)) (map (λ o. (o.table, o.conflicts)) oracles.now)) }
    ensures skipped { IfOk result (λ v. AreComments v.items) }
{
    let table = explore.table();
    look_at_attributes(table);
    look_at_oracles(oracles);
    let rules = explore.rules();
    let _experts = explore.experts();
    let mut draft = Draft::new(alloc);
    write_count_line(&mut draft, b"# conflicts ", count_all_dropped_rows(oracles))?;
    for (oracle_place, oracle) in oracles.iter().enumerate() {
        write_dropped(&mut draft, table, rules, oracle_place, oracle)?;
    }
    Ok(draft.into_bytes())
}

/// The number of rows that all oracles dropped.
fn count_all_dropped_rows(oracles: &[Oracle]) -> usize
    requires { length oracles.now < 256 }
    ensures { result ≡ length (dropped_rows_from 0 (map (λ o. (o.table, o.conflicts)) oracles.now)) }
{
    let mut count = 0;
    for oracle in oracles {
        count += count_dropped_rows(oracle);
    }
    count
}

/// The number of rows that the oracle dropped. It does not depend on the place of the oracle.
fn count_dropped_rows(oracle: &Oracle) -> usize
    ensures count { (e : ℕ) → result ≡ length (dropped_rows_of e oracle.now.table oracle.now.conflicts) }
    ensures few { result ≤ MAX_OBJECTS }
{
    let mut count = 0;
    for place in 0..oracle.table().rows().len() {
        if oracle.conflict(place).is_some() {
            count += 1;
        }
    }
    count
}

/// Appends the lines of the rows that the oracle at the place dropped.
fn write_dropped(
    draft: &mut Draft,
    table: &Table,
    rules: &[Implication],
    oracle_place: usize,
    oracle: &Oracle,
) -> Result<(), Memory>
    ensures { OnOk result (draft.new ≡ draft.old
        ++ flat_map (conflict_line table.now.attributes rules.now) (dropped_rows_of oracle_place oracle.now.table oracle.now.conflicts)) }
{
    let own_table = oracle.table();
    for place in 0..own_table.rows().len() {
        if let Some(broken) = oracle.conflict(place) {
            write_conflict(draft, table, rules, oracle_place, own_table, place, broken)?;
        }
    }
    Ok(())
}

/// Appends the line of the row at the place of the oracle's own table. The row broke a rule.
fn write_conflict(
    draft: &mut Draft,
    table: &Table,
    rules: &[Implication],
    oracle_place: usize,
    own_table: &Table,
    place: usize,
    broken: usize,
) -> Result<(), Memory>
    requires { place < length own_table.now.context.rows }
    ensures { OnOk result (draft.new ≡ draft.old
        ++ flat_map (conflict_line table.now.attributes rules.now) (dropped_rows_at oracle_place own_table.now place (Some broken))) }
{
    draft.append_parts(
        table,
        &[
            Part::Bytes(b"# "),
            Part::Ordinal(oracle_place),
            Part::Bytes(b" "),
            Part::Ordinal(place),
            Part::Bytes(b" "),
            Part::Pattern(own_table.rows().get(place)),
            Part::Bytes(b" "),
            Part::Bytes(object_text(own_table, place).as_bytes()),
        ],
    )?;
    draft.append_rule(table, b" ", broken, &implication_at(rules, broken))
}

/// The implication at the place. It is one between sets of no attribute if there is none.
fn implication_at(rules: &[Implication], place: usize) -> Implication
    ensures { result ≡ slice_index_or rules.now place (rule [] []) }
{
    match rules.get(place) {
        Some(implication) => *implication,
        None => Implication {
            premise: Attrs::empty(0),
            conclusion: Attrs::empty(0),
        },
    }
}
