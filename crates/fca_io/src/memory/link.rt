//! A listener in memory.

ghost use Rattle.std.specs.Prelude.{◌≡◌, ◌≤◌, ◌↔◌, ◌⊎◌, ℕ, true, false, [], List, Some, is_some, Result, vec_len, IfOk, OnOk, OnErr, IsOk};
ghost use Rattle.std.specs.Prelude.{IsErr, IsTrue};
ghost use Rattle.std.specs.Option.{option_map};
ghost use Rattle.fca_io.specs.Faults.{Rose};
ghost use Rattle.fca_io.specs.Forms.{failure_plan_of, fails_next, after_call, with_fault};
ghost use Rattle.fca_io.specs.Links.{AcceptsFirst, with_given, IsWithinRoom};

use super::end::MemoryEnd;
use super::plan::FailingCalls;
use crate::listener::Listener;
use crate::outside::Failed;
use fca_model::Memory;
use std::alloc::Global;
use std::marker::Model;

/// A listener in memory for one address, with its ends and a list of the calls that fail.
#[derive(Drop)]
pub struct MemoryLink {
    address: Vec<u8>,
    listens: bool,
    to_come: Vec<MemoryEnd>,
    given: Vec<MemoryEnd>,
    /// The most ends that are to come or were given back.
    room: usize,
    calls: FailingCalls,
}

impl Model for MemoryLink {
    ghost use Rattle.std.specs.Prelude.{◌+◌, ◌≤◌, vec_len, vec_capacity};
    ghost use Rattle.fca_io.specs.Links.{Link};

    ghost Value = { Link };

    ghost view = { λ l. record { address = l.address.items; listens = l.listens; ends = record { to_come = l.to_come.items; given = l.given.items; room = l.room }; plan = l.calls } };

    ghost invariant = { λ l. record { within : vec_len l.given + vec_len l.to_come ≤ l.room; made : l.room ≤ vec_capacity l.given } };
}

impl MemoryLink {
    /// A listener that does not listen yet. Its calls of `open` and `accept` with the numbers `fails`, counted together
    /// from 1, fail.
    pub fn new(
        alloc: Global,
        address: &[u8],
        ends: Vec<MemoryEnd>,
        fails: &[usize],
    ) -> Result<MemoryLink, Memory>
        ensures address { IfOk result (λ link. link.address ≡ address.now) }
        ensures closed { IfOk result (λ link. link.listens ≡ false) }
        ensures ends { IfOk result (λ link. link.ends ≡ record { to_come = ends.items; given = []; room = vec_len ends }) }
        ensures calls { IfOk result (λ link. link.plan ≡ failure_plan_of fails.now) }
    {
        let room = ends.len();
        Ok(MemoryLink {
            address: Vec::from_slice(alloc, address)?,
            listens: false,
            to_come: ends,
            given: Vec::with_capacity(alloc, room)?,
            room,
            calls: FailingCalls::new(alloc, fails)?,
        })
    }

    /// The ends that were given back, in their order.
    pub fn given(&self) -> &[MemoryEnd]
        ensures { result.now ≡ self.now.ends.given }
    {
        &self.given
    }
}

impl Listener for MemoryLink {
    type End = MemoryEnd;

    ghost use Rattle.std.specs.Prelude.{Some};

    ghost listens = { λ l. l.listens };

    ghost listens_at = { λ l. Some l.address };

    ghost ends = { λ l. Some l.ends };

    ghost open_faults = { λ l _. l.plan.faults };

    ghost accept_faults = { λ l. l.plan.faults };

    fn open(&mut self, address: &[u8]) -> Result<(), Failed>
        requires { self.old.listens ≡ false }

        // Which call succeeds.
        ensures succeeds { IsOk result ↔ ((fails_next self.old.plan ≡ false) × (self.old.address ≡ address.now)) }
        ensures plan { OnOk result (self.new.plan ≡ after_call self.old.plan) }
        ensures failing { IsTrue (fails_next self.old.plan) → self.new.plan ≡ after_call self.old.plan }
        ensures another { fails_next self.old.plan ≡ false → OnErr result (self.new.plan ≡ with_fault (after_call self.old.plan)) }

        ensures opened { OnOk result ((self.new.listens ≡ true) × (self.new.address ≡ address.now)) }
        ensures closed { OnErr result ((self.new.listens ≡ false) × (self.new.address ≡ self.old.address)) }
        ensures tells { is_some (Some self.new.address) ≡ is_some (Some self.old.address) }
        ensures ends { self.new.ends ≡ self.old.ends }
        ensures within { IsWithinRoom (Some self.old.ends) }
        ensures quiet { OnOk result (self.new.plan.faults ≡ self.old.plan.faults) }
        ensures failed { OnErr result (Rose self.old.plan.faults self.new.plan.faults) }
        ensures only_rise { self.old.plan.faults ≤ self.new.plan.faults }
    {
        if self.calls.next_fails() {
            return Err(Failed);
        }
        if self.address.as_slice() != address {
            self.calls.count_fault();
            return Err(Failed);
        }
        self.listens = true;
        Ok(())
    }

    fn accept(&mut self) -> Result<MemoryEnd, Failed>
        requires { self.old.listens ≡ true }

        // Which call fails.
        ensures fails { IsErr result ↔ (IsTrue (fails_next self.old.plan) ⊎ (self.old.ends.to_come ≡ [])) }
        ensures plan { OnOk result (self.new.plan ≡ after_call self.old.plan) }
        ensures failing { IsTrue (fails_next self.old.plan) → self.new.plan ≡ after_call self.old.plan }
        ensures no_more { fails_next self.old.plan ≡ false → OnErr result (self.new.plan ≡ with_fault (after_call self.old.plan)) }

        ensures first { IfOk result (λ end. AcceptsFirst (Some self.old.ends) (Some self.new.ends) end) }
        ensures none { OnErr result (self.new.ends ≡ self.old.ends) }
        ensures within { IsWithinRoom (Some self.old.ends) }
        ensures same { (self.new.listens ≡ self.old.listens) × (self.new.address ≡ self.old.address) }
        ensures quiet { OnOk result (self.new.plan.faults ≡ self.old.plan.faults) }
        ensures failed { OnErr result (Rose self.old.plan.faults self.new.plan.faults) }
        ensures only_rise { self.old.plan.faults ≤ self.new.plan.faults }
    {
        if self.calls.next_fails() {
            return Err(Failed);
        }
        if self.to_come.is_empty() {
            self.calls.count_fault();
            return Err(Failed);
        }
        Ok(self.to_come.remove(0))
    }

    fn give_back(&mut self, end: MemoryEnd)
        ensures plan { self.new.plan ≡ self.old.plan }

        ensures given { Some self.new.ends ≡ option_map (with_given end) (Some self.old.ends) }
        ensures within { IsWithinRoom (Some self.old.ends) }
        ensures same { (self.new.listens ≡ self.old.listens) × (self.new.address ≡ self.old.address) }
        ensures quiet { self.new.plan.faults ≡ self.old.plan.faults }
    {
        if self.given.len() + self.to_come.len() < self.room {
            self.given.push_reserved(end);
        }
    }
}
