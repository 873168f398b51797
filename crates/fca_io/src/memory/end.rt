//! An end in memory.

ghost use Rattle.std.specs.Prelude.{◌≡◌, ◌≤◌, ◌<◌, ◌-◌, ◌↔◌, ◌⊎◌, [], false, length, drop, min, Some, Result, IfOk, IsErr, IsTrue, OnOk, OnErr};
ghost use Rattle.std.specs.Io.{ReadsAtMost};
ghost use Rattle.std.specs.Io.KnownBytes.{ReadConsumes, WriteAppends, Keeps};
ghost use Rattle.fca_io.specs.Faults.{Rose, counts_whole};
ghost use Rattle.fca_io.specs.Forms.{failure_plan_of, fails_next, after_call, with_fault};

use super::sink::MemorySink;
use super::source::MemorySource;
use crate::listener::Duplex;
use crate::outside::{Failed, Sink, Source};
use fca_model::Memory;
use std::alloc::Global;
use std::marker::Model;

/// An end in memory with lists of the reads and of the writes that fail.
#[derive(Drop)]
pub struct MemoryEnd {
    source: MemorySource,
    sink: MemorySink,
}

impl Model for MemoryEnd {
    ghost use Rattle.fca_io.specs.Links.{Wire};

    ghost Value = { Wire };

    ghost view = { λ e. record { incoming = e.source; outgoing = e.sink } };
}

impl MemoryEnd {
    /// An end with the bytes to be read and room for `room` bytes written. Its reads and its writes with the numbers
    /// `read_fails` and `write_fails`, each counted from 1, fail; others move at most `most` bytes.
    pub fn new(
        alloc: Global,
        bytes: &[u8],
        room: usize,
        read_fails: &[usize],
        write_fails: &[usize],
        most: usize,
    ) -> Result<MemoryEnd, Memory>
        requires { 0 < most }
        ensures incoming { IfOk result (λ end. end.incoming ≡ record { bytes = bytes.now; most = most; plan = failure_plan_of read_fails.now }) }
        ensures outgoing { IfOk result (λ end. end.outgoing ≡ record { bytes = []; most = most; room = room; whole_writes = 0; plan = failure_plan_of write_fails.now }) }
    {
        Ok(MemoryEnd {
            source: MemorySource::new(alloc, bytes, read_fails, most)?,
            sink: MemorySink::new(alloc, room, write_fails, most)?,
        })
    }

    /// The bytes that were written.
    pub fn written(&self) -> &[u8]
        ensures { result.now ≡ self.now.outgoing.bytes }
    {
        self.sink.written()
    }
}

impl Source for MemoryEnd {
    ghost use Rattle.std.specs.Prelude.{Some};

    ghost left = { λ e. Some e.incoming.bytes };

    ghost faults = { λ e. e.incoming.plan.faults };

    ghost reads = { λ e. Some e.incoming.plan.made };

    ghost beside = { λ e. Some e.outgoing.bytes };

    ghost faults_beside = { λ e. e.outgoing.plan.faults };

    fn read(&mut self, into: &mut [u8]) -> Result<usize, Failed>
        requires { 0 < length into.old }

        // Which call fails, and how much each other call moves.
        ensures fails { IsErr result ↔ IsTrue (fails_next self.old.incoming.plan) }
        ensures count { IfOk result (λ count. count ≡ min (min (length into.old) self.old.incoming.most) (length self.old.incoming.bytes)) }
        ensures plan { self.new.incoming.plan ≡ after_call self.old.incoming.plan }
        ensures most { self.new.incoming.most ≡ self.old.incoming.most }
        ensures beyond { IfOk result (λ count. drop count into.new ≡ drop count into.old) }
        ensures untouched { OnErr result (into.new ≡ into.old) }

        ensures bound { ReadsAtMost result into.new }
        ensures bytes { ReadConsumes (Some self.old.incoming.bytes) (Some self.new.incoming.bytes) result into.new }
        ensures quiet { OnOk result (self.new.incoming.plan.faults ≡ self.old.incoming.plan.faults) }
        ensures failed { OnErr result (Rose self.old.incoming.plan.faults self.new.incoming.plan.faults) }
        ensures only_rise { self.old.incoming.plan.faults ≤ self.new.incoming.plan.faults }

        ensures other { self.new.outgoing ≡ self.old.outgoing }
    {
        self.source.read(into)
    }
}

impl Sink for MemoryEnd {
    ghost use Rattle.std.specs.Prelude.{Some};

    ghost held = { λ e. Some e.outgoing.bytes };

    ghost faults = { λ e. e.outgoing.plan.faults };

    ghost beside = { λ e. Some e.incoming.bytes };

    ghost whole_writes = { λ e. Some e.outgoing.whole_writes };

    ghost read_counts_beside = { λ e. record { reads = Some e.incoming.plan.made; faults = e.incoming.plan.faults } };

    fn write(&mut self, from: &[u8]) -> Result<usize, Failed>
        requires { 0 < length from.now }

        // Which call fails, and how much each other call takes.
        ensures fails { IsErr result ↔ (IsTrue (fails_next self.old.outgoing.plan) ⊎ (self.old.outgoing.room ≡ length self.old.outgoing.bytes)) }
        ensures count { IfOk result (λ count. count ≡ min (min (length from.now) self.old.outgoing.most) (self.old.outgoing.room - length self.old.outgoing.bytes)) }
        ensures plan { OnOk result (self.new.outgoing.plan ≡ after_call self.old.outgoing.plan) }
        ensures failing { IsTrue (fails_next self.old.outgoing.plan) → self.new.outgoing.plan ≡ after_call self.old.outgoing.plan }
        ensures full { fails_next self.old.outgoing.plan ≡ false → OnErr result (self.new.outgoing.plan ≡ with_fault (after_call self.old.outgoing.plan)) }
        ensures most { self.new.outgoing.most ≡ self.old.outgoing.most }
        ensures room { self.new.outgoing.room ≡ self.old.outgoing.room }

        ensures some { IfOk result (λ count. 0 < count) }
        ensures bound { IfOk result (λ count. count ≤ length from.now) }
        ensures bytes { WriteAppends (Some self.old.outgoing.bytes) (Some self.new.outgoing.bytes) result from.now }
        ensures counted { Some self.new.outgoing.whole_writes ≡ counts_whole (length from.now) result (Some self.old.outgoing.whole_writes) }
        ensures quiet { OnOk result (self.new.outgoing.plan.faults ≡ self.old.outgoing.plan.faults) }
        ensures failed { OnErr result (Rose self.old.outgoing.plan.faults self.new.outgoing.plan.faults) }
        ensures only_rise { self.old.outgoing.plan.faults ≤ self.new.outgoing.plan.faults }

        ensures other { self.new.incoming ≡ self.old.incoming }
    {
        self.sink.write(from)
    }
}

impl Duplex for MemoryEnd {
    ghost use Rattle.std.proofs.Common.{refl};

    ghost held_beside = { λ _. refl };

    ghost writes_beside = { λ _. refl };

    ghost left_beside = { λ _. refl };

    ghost reads_beside = { λ _. refl };
}
