//! Names in tables and journals are valid. Each function looks at each name once and changes nothing, so that its contract can say so.

ghost use Rattle.std.specs.Prelude.{◌≡◌, true};
ghost use Rattle.std.specs.List.{list_all};
ghost use Rattle.expert_wire.specs.Patterns.{is_name};
ghost use Rattle.expert_scripts.specs.Scripts.{HasRowName};
ghost use Rattle.text_pieces.specs.Lists.{EachName};
ghost use Rattle.basis_report.specs.Explorations.{EachNamed};

use context_table::Table;
use explore_state::{Entry, Event};
use oracle_expert::Oracle;

/// Looks at the names of the attributes.
pub(crate) fn look_at_attributes(table: &Table)
    ensures { EachName table.now.attributes }
{
    for attribute in 0..table.rows().width() {
        let _name = table.attribute_name(attribute).bytes();
    }
}

/// Looks at the names of the objects.
fn look_at_objects(table: &Table)
    ensures { list_all is_name table.now.objects ≡ true }
{
    for object in 0..table.rows().len() {
        let _name = table.object(object).bytes();
    }
}

/// Looks at the names of the objects in the tables of the oracles.
pub(crate) fn look_at_oracles(oracles: &[Oracle])
    ensures { list_all (λ o. list_all is_name o.table.objects) oracles.now ≡ true }
{
    for oracle in oracles {
        look_at_objects(oracle.table());
    }
}

/// Looks at the names of the rows that experts gave.
pub(crate) fn look_at_rows(journal: &[Entry])
    ensures { EachNamed journal.now }
{
    for entry in journal {
        look_at_row(&entry.event);
    }
}

/// Looks at the name of the row, if the event gives one.
fn look_at_row(event: &Event)
    ensures { HasRowName event.now }
{
    if let Event::Row { name, .. } = event {
        let _name = name.bytes();
    }
}
