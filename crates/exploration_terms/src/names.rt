//! Names of experts.

ghost use Rattle.std.specs.Prelude.{◌≡◌, ◌↔◌, [], IfOk, OnErr, None, true, false, option_copied};
ghost use Rattle.std.specs.Ordering.{nat_cmp};
ghost use Rattle.std.specs.BTreeMap.{insert_entry};
ghost use Rattle.fca_model.specs.Exploration.{is_expert};
ghost use Rattle.exploration_terms.specs.Settings.{name_of};

use fca_model::{Memory, Name};
use std::alloc::Global;
use std::collections::BTreeMap;
use std::marker::Model;

/// Names by the numbers of experts, in ascending order of the numbers, each number once. Contracts see the list of pairs.
#[derive(Drop)]
pub struct ExpertNames {
    names: BTreeMap<u8, Name>,
}

impl Model for ExpertNames {
    ghost use Rattle.std.specs.Prelude.{List, ℕ};
    ghost use Rattle.fca_model.specs.Exploration.{RowName};

    ghost Value = { List (ℕ × RowName) };

    ghost view = { λ a. a.names.entries };
}

impl ExpertNames {
    /// The empty list of names, which takes no memory.
    pub fn new(alloc: Global) -> ExpertNames
        ensures { result ≡ [] }
    {
        ExpertNames {
            names: BTreeMap::new(alloc),
        }
    }

    /// Names the expert. The result says whether it had no name before; an expert that has a name keeps it.
    pub fn add(&mut self, e: u8, name: Name) -> Result<bool, Memory>
        requires { is_expert e ≡ true }
        ensures new { IfOk result (λ is_new. (is_new ≡ true) ↔ (name_of e self.old ≡ None)) }
        ensures added { IfOk result (λ is_new. is_new ≡ true → self.new ≡ insert_entry nat_cmp self.old e name) }
        ensures kept { IfOk result (λ is_new. is_new ≡ false → self.new ≡ self.old) }
        ensures err { OnErr result (self.new ≡ self.old) }
    {
        if self.names.contains_key(&e) {
            return Ok(false);
        }
        self.names.insert(e, name)?;
        Ok(true)
    }

    /// The name of the expert.
    pub fn get(&self, e: u8) -> Option<&Name>
        ensures { option_copied result ≡ name_of e self.now }
    {
        self.names.get(&e)
    }

    /// Whether no expert has a name.
    pub fn is_empty(&self) -> bool
        ensures { (result ≡ true) ↔ (self.now ≡ []) }
    {
        self.names.is_empty()
    }
}
