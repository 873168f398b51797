//! The settings with which an exploration is opened.

ghost use Rattle.std.specs.Prelude.{◌≡◌, ◌≤◌, ◌↔◌, IfOk, true};
ghost use Rattle.fca_model.specs.Exploration.{plain};
ghost use Rattle.exploration_terms.specs.Settings.{settings_of};

use crate::names::ExpertNames;
use fca_model::{MAX_ATTRIBUTES, MAX_EXPERTS, Memory};
use implication_closure::ImplicationList;
use std::alloc::Global;

/// The settings of an exploration. No event changes them.
#[derive(Drop)]
pub struct Settings {
    /// The implications that are known beforehand. Only sets that respect them are asked about.
    pub known: ImplicationList,
    /// The most experts that may hold one question.
    pub holders: u8,
    /// Names of experts.
    pub names: ExpertNames,
}

impl Settings {
    /// The settings in which nothing is known of n attributes, all experts may hold one question, and no expert has a name.
    pub fn plain(alloc: Global, n: u32) -> Result<Settings, Memory>
        requires { n ≤ MAX_ATTRIBUTES }
        ensures width { IfOk result (λ settings. settings.known.width ≡ n) }
        ensures plain { IfOk result (λ settings. settings_of settings ≡ plain) }
    {
        Ok(Settings {
            known: ImplicationList::new(alloc, n)?,
            holders: MAX_EXPERTS,
            names: ExpertNames::new(alloc),
        })
    }

    /// Whether nothing is known, all experts may hold one question, and no expert has a name.
    pub fn is_plain(&self) -> bool
        ensures { (result ≡ true) ↔ (settings_of self.now ≡ plain) }
    {
        self.known.as_slice().is_empty() && self.holders == MAX_EXPERTS && self.names.is_empty()
    }
}
