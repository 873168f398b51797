//! A sink in memory.

ghost use Rattle.std.specs.Prelude.{◌≡◌, ◌≤◌, ◌<◌, ◌-◌, ◌↔◌, ◌⊎◌, [], false, length, min, Some, Result, IfOk, IsErr, IsTrue, OnOk, OnErr};
ghost use Rattle.std.specs.Io.KnownBytes.{WriteAppends, Keeps};
ghost use Rattle.fca_io.specs.Faults.{Rose, counts_whole};
ghost use Rattle.fca_io.specs.Forms.{failure_plan_of, fails_next, after_call, with_fault, BoundedSink};

use super::plan::{FailingCalls, one_more};
use crate::outside::{Failed, Sink};
use fca_model::Memory;
use std::alloc::Global;
use std::marker::Model;

/// A sink in memory with a list of the calls that fail. A call without room for a byte fails too.
#[derive(Drop)]
pub struct MemorySink {
    bytes: Vec<u8>,
    /// The most bytes that it holds.
    room: usize,
    /// The most bytes that one call takes.
    most: usize,
    /// How many calls took all their bytes.
    whole_writes: usize,
    calls: FailingCalls,
}

impl Model for MemorySink {
    ghost use Rattle.std.specs.Prelude.{◌<◌, ◌≤◌, ◌^◌, vec_len, vec_capacity};
    ghost use Rattle.fca_io.specs.Forms.{BoundedSink};

    ghost Value = { BoundedSink };

    ghost view = { λ s. record { bytes = s.bytes.items; most = s.most; room = s.room; whole_writes = s.whole_writes; plan = s.calls } };

    ghost invariant = { λ s. record { moves : 0 < s.most; fits : vec_len s.bytes ≤ s.room; made : s.room ≤ vec_capacity s.bytes; counted : s.whole_writes < 2 ^ 64 } };
}

impl MemorySink {
    /// An empty sink with room for `room` bytes. Its calls with the numbers `fails`, counted from 1, fail; other calls take
    /// at most `most` bytes.
    pub fn new(
        alloc: Global,
        room: usize,
        fails: &[usize],
        most: usize,
    ) -> Result<MemorySink, Memory>
        requires { 0 < most }
        ensures { IfOk result (λ sink. sink ≡ record { bytes = []; most = most; room = room; whole_writes = 0; plan = failure_plan_of fails.now }) }
    {
        Ok(MemorySink {
            bytes: Vec::with_capacity(alloc, room)?,
            room,
            most,
            whole_writes: 0,
            calls: FailingCalls::new(alloc, fails)?,
        })
    }

    /// The bytes that were written.
    pub fn written(&self) -> &[u8]
        ensures { result.now ≡ self.now.bytes }
    {
        &self.bytes
    }
}

impl Sink for MemorySink {
    ghost use Rattle.std.specs.Prelude.{Some, None};

    ghost held = { λ s. Some s.bytes };

    ghost faults = { λ s. s.plan.faults };

    ghost beside = { λ _. None };

    ghost whole_writes = { λ s. Some s.whole_writes };

    ghost read_counts_beside = { λ _. record { reads = None; faults = 0 } };

    fn write(&mut self, from: &[u8]) -> Result<usize, Failed>
        requires { 0 < length from.now }

        // Which call fails, and how much each other call takes.
        ensures fails { IsErr result ↔ (IsTrue (fails_next self.old.plan) ⊎ (self.old.room ≡ length self.old.bytes)) }
        ensures count { IfOk result (λ count. count ≡ min (min (length from.now) self.old.most) (self.old.room - length self.old.bytes)) }
        ensures plan { OnOk result (self.new.plan ≡ after_call self.old.plan) }
        ensures failing { IsTrue (fails_next self.old.plan) → self.new.plan ≡ after_call self.old.plan }
        ensures full { fails_next self.old.plan ≡ false → OnErr result (self.new.plan ≡ with_fault (after_call self.old.plan)) }
        ensures most { self.new.most ≡ self.old.most }
        ensures room { self.new.room ≡ self.old.room }

        ensures some { IfOk result (λ count. 0 < count) }
        ensures bound { IfOk result (λ count. count ≤ length from.now) }
        ensures bytes { WriteAppends (Some self.old.bytes) (Some self.new.bytes) result from.now }
        ensures counted { Some self.new.whole_writes ≡ counts_whole (length from.now) result (Some self.old.whole_writes) }
        ensures quiet { OnOk result (self.new.plan.faults ≡ self.old.plan.faults) }
        ensures failed { OnErr result (Rose self.old.plan.faults self.new.plan.faults) }
        ensures only_rise { self.old.plan.faults ≤ self.new.plan.faults }
    {
        if self.calls.next_fails() {
            return Err(Failed);
        }
        let count = from.len().min(self.most).min(self.room - self.bytes.len());
        if count == 0 || self.bytes.extend_from_slice(&from[..count]).is_err() {
            self.calls.count_fault();
            return Err(Failed);
        }
        if count == from.len() {
            self.whole_writes = one_more(self.whole_writes);
        }
        Ok(count)
    }
}
