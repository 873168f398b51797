//! Names of experts, by the words of their files.

ghost use Rattle.std.specs.Prelude.{◌≡◌, ◌≤◌, ◌&&◌, IfOk, OnOk, None, Some, cond, true, length};
ghost use Rattle.std.specs.Ordering.{nat_cmp};
ghost use Rattle.std.specs.BTreeMap.{insert_entry};
ghost use Rattle.std.specs.Str.{is_utf8};
ghost use Rattle.fca_model.specs.declared.TheConstants.{MAX_EXPERTS};
ghost use Rattle.fca_model.specs.Exploration.{is_expert};
ghost use Rattle.exploration_terms.specs.Settings.{name_of};
ghost use Rattle.expert_wire.specs.Patterns.{is_name};
ghost use Rattle.explore_command.specs.Starts.{is_named, names_by_files};

use expert_wire::utf8_text;
use explore_state::ExpertNames;
use fca_model::{Memory, Name, NameFault, Word};
use std::alloc::Global;

/// The names of the experts by their files, or no names if experts are not named.
pub(crate) fn names_by_files(
    alloc: Global,
    wants_names: bool,
    files: &[Word],
) -> Result<ExpertNames, Memory>
    requires { length files.now ≤ MAX_EXPERTS }
    ensures { IfOk result (λ list. list ≡ names_by_files wants_names files.now) }
{
    let mut list = ExpertNames::new(alloc);
    if !wants_names {
        return Ok(list);
    }
    let mut expert = 1;
    for file in files {
        add_name(alloc, &mut list, expert, file)?;
        expert += 1;
    }
    Ok(list)
}

/// Names the expert by the word of its file, if the word is a name.
fn add_name(alloc: Global, list: &mut ExpertNames, expert: u8, file: &Word) -> Result<(), Memory>
    requires expert { is_expert expert ≡ true }
    requires unnamed { name_of expert list.old ≡ None }
    ensures { OnOk result (list.new ≡ cond (is_named file.now) (insert_entry nat_cmp list.old expert file.now) list.old) }
{
    if let Some(name) = name_in(alloc, file)? {
        list.add(expert, name)?;
    }
    Ok(())
}

/// The name that the word is, if it is one.
fn name_in(alloc: Global, file: &Word) -> Result<Option<Name>, Memory>
    ensures { IfOk result (λ name. name ≡ cond (is_named file.now) (Some file.now) None) }
{
    let Some(text) = utf8_text(file.bytes()) else {
        return Ok(None);
    };
    match Name::new(alloc, text) {
        Ok(name) => Ok(Some(name)),
        Err(NameFault::Memory) => Err(Memory),
        Err(_) => Ok(None),
    }
}
