//! Surveys: what is counted of a table and of an exploration of it.

ghost use Rattle.std.specs.Prelude.{◌≡◌, ◌++◌, IfOk, OnOk};
ghost use Rattle.basis_report.specs.Surveys.{crosses, survey_text};

use context_table::Table;
use expert_wire::Draft;
use fca_model::Memory;
use report_texts::write_count_line;
use std::alloc::Global;

/// The numbers of objects, attributes and crosses of the table, of its concepts, of the members of its basis, and of the implications
/// that an exploration of it accepted.
pub fn survey_text(
    alloc: Global,
    table: &Table,
    concepts: usize,
    basis: usize,
    accepted: usize,
) -> Result<Vec<u8>, Memory>
    ensures { IfOk result (λ v. v.items ≡ survey_text table.now concepts basis accepted) }
{
    let mut draft = Draft::new(alloc);
    write_survey(&mut draft, table, concepts, basis, accepted)?;
    Ok(draft.into_bytes())
}

/// Appends the numbers, one a line.
fn write_survey(
    draft: &mut Draft,
    table: &Table,
    concepts: usize,
    basis: usize,
    accepted: usize,
) -> Result<(), Memory>
    ensures { OnOk result (draft.new ≡ draft.old ++ survey_text table.now concepts basis accepted) }
{
    write_count_line(draft, b"objects ", table.rows().len())?;
    write_count_line(draft, b"attributes ", table.rows().width() as usize)?;
    write_count_line(draft, b"crosses ", crosses(table))?;
    write_count_line(draft, b"concepts ", concepts)?;
    write_count_line(draft, b"basis ", basis)?;
    write_count_line(draft, b"explored ", accepted)
}

/// The number of crosses of the table.
fn crosses(table: &Table) -> usize
    ensures { result ≡ crosses table.now.context }
{
    let mut crosses = 0;
    for row in table.rows().as_slice() {
        crosses += row.size() as usize;
    }
    crosses
}
