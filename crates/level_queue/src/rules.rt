//! The implications that a row has to respect.

ghost use Rattle.std.specs.Prelude.{◌≡◌, ◌++◌, ◌∷◌, [], OnOk, OnErr, IfOk, length};
ghost use Rattle.fca_model.specs.Implications.{Rule};
ghost use Rattle.level_queue.specs.Rules.{RuleParts};

use fca_model::Memory;
use implication_closure::{Implication, ImplicationList};
use std::alloc::Global;
use std::marker::Model;

/// The known implications, the accepted ones, and all of them, the known ones first. If nothing is known, the accepted ones are all, and stand once.
#[derive(Drop)]
pub(crate) struct Rules {
    known: ImplicationList,
    accepted: ImplicationList,
    all: ImplicationList,
}

impl Model for Rules {
    ghost use Rattle.level_queue.specs.Rules.{RuleParts, AreTogether};

    ghost Value = { RuleParts };

    ghost view = { λ a. record { width = a.accepted.width; known = a.known.members; accepted = a.accepted.members } };

    ghost invariant = { λ a. AreTogether a.known a.accepted a.all };
}

impl Rules {
    /// What is known, with nothing accepted.
    pub(crate) fn new(alloc: Global, known: &ImplicationList) -> Result<Rules, Memory>
        ensures { IfOk result (λ rules. rules ≡ record { width = known.now.width; known = known.now.members; accepted = [] }) }
    {
        Ok(Rules {
            known: known.copy(alloc)?,
            accepted: ImplicationList::new(alloc, known.width())?,
            all: known.copy(alloc)?,
        })
    }

    /// The accepted implications.
    pub(crate) fn accepted(&self) -> &ImplicationList
        ensures { result.now ≡ record { width = self.now.width; members = self.now.accepted } }
    {
        &self.accepted
    }

    /// The known implications and then the accepted ones.
    pub(crate) fn all(&self) -> &ImplicationList
        ensures { result.now ≡ record { width = self.now.width; members = self.now.known ++ self.now.accepted } }
    {
        if self.known.as_slice().is_empty() {
            &self.accepted
        } else {
            &self.all
        }
    }

    /// Puts the implication last among the accepted ones.
    pub(crate) fn push(&mut self, i: &Implication) -> Result<(), Memory>
        requires premise { length i.now.premise ≡ self.old.width }
        requires conclusion { length i.now.conclusion ≡ self.old.width }
        ensures ok { OnOk result (self.new ≡ record { width = self.old.width; known = self.old.known; accepted = self.old.accepted ++ i.now ∷ [] }) }
        ensures err { OnErr result (self.new ≡ self.old) }
    {
        self.accepted.push(*i)?;
        if self.known.as_slice().is_empty() {
            return Ok(());
        }
        if let Err(error) = self.all.push(*i) {
            self.accepted.pop();
            return Err(error);
        }
        Ok(())
    }

    /// Takes the last accepted implication away, if there is one.
    pub(crate) fn pop(&mut self)
        ensures { (parts : RuleParts) (i : Rule)
            → self.old ≡ record { width = parts.width; known = parts.known; accepted = parts.accepted ++ i ∷ [] }
            → self.new ≡ parts }
    {
        if !self.accepted.as_slice().is_empty() {
            self.accepted.pop();
            if !self.known.as_slice().is_empty() {
                self.all.pop();
            }
        }
    }
}
