//! Sources in memory.

ghost use Rattle.std.specs.Prelude.{◌≡◌, ◌≤◌, ◌<◌, ◌↔◌, length, take, drop, min, Result, IfOk, IsOk, IsErr, IsTrue, OnOk, OnErr};
ghost use Rattle.std.specs.Io.{ReadsAtMost};
ghost use Rattle.std.specs.Io.KnownBytes.{ReadConsumes, Keeps};
ghost use Rattle.fca_io.specs.Faults.{Rose};
ghost use Rattle.fca_io.specs.Forms.{failure_plan_of, fails_next, after_call};

use super::plan::FailingCalls;
use crate::outside::{Failed, Source};
use fca_model::Memory;
use std::alloc::{AllocError, Global};
use std::marker::Model;

/// Bytes, some of which were read.
#[derive(Drop)]
struct Unread {
    bytes: Vec<u8>,
    /// How many bytes were read.
    at: usize,
}

impl Model for Unread {
    ghost use Rattle.std.specs.Prelude.{ℕ, ◌≤◌, List, drop, vec_len};

    ghost Value = { List ℕ };

    ghost view = { λ u. drop u.at u.bytes.items };

    ghost invariant = { λ u. u.at ≤ vec_len u.bytes };
}

impl Unread {
    fn new(alloc: Global, bytes: &[u8]) -> Result<Unread, AllocError>
        ensures { IfOk result (λ unread. unread ≡ bytes.now) }
    {
        Ok(Unread {
            bytes: Vec::from_slice(alloc, bytes)?,
            at: 0,
        })
    }

    /// Moves as many bytes as are left and fit, but no more than `most`. The result is their number.
    fn move_into(&mut self, into: &mut [u8], most: usize) -> usize
        ensures count { result ≡ min (min (length into.old) most) (length self.old) }
        ensures moved { take result into.new ≡ take result self.old }
        ensures beyond { drop result into.new ≡ drop result into.old }
        ensures left { self.new ≡ drop result self.old }
    {
        let rest = &self.bytes[self.at..];
        let count = into.len().min(most).min(rest.len());
        into[..count].copy_from_slice(&rest[..count]);
        self.at += count;
        count
    }
}

/// A source in memory with a list of the calls that fail.
#[derive(Drop)]
pub struct MemorySource {
    unread: Unread,
    /// The most bytes that one call moves.
    most: usize,
    calls: FailingCalls,
}

impl Model for MemorySource {
    ghost use Rattle.std.specs.Prelude.{◌<◌};
    ghost use Rattle.fca_io.specs.Forms.{Stream};

    ghost Value = { Stream };

    ghost view = { λ s. record { bytes = s.unread; most = s.most; plan = s.calls } };

    ghost invariant = { λ s. 0 < s.most };
}

impl MemorySource {
    /// A source of the bytes. Its calls with the numbers `fails`, counted from 1, fail; other calls move at most `most`
    /// bytes.
    pub fn new(
        alloc: Global,
        bytes: &[u8],
        fails: &[usize],
        most: usize,
    ) -> Result<MemorySource, Memory>
        requires { 0 < most }
        ensures { IfOk result (λ source. source ≡ record { bytes = bytes.now; most = most; plan = failure_plan_of fails.now }) }
    {
        Ok(MemorySource {
            unread: Unread::new(alloc, bytes)?,
            most,
            calls: FailingCalls::new(alloc, fails)?,
        })
    }
}

impl Source for MemorySource {
    ghost use Rattle.std.specs.Prelude.{Some, None};

    ghost left = { λ s. Some s.bytes };

    ghost faults = { λ s. s.plan.faults };

    ghost reads = { λ s. Some s.plan.made };

    ghost beside = { λ _. None };

    ghost faults_beside = { λ _. 0 };

    fn read(&mut self, into: &mut [u8]) -> Result<usize, Failed>
        requires { 0 < length into.old }

        // Which call fails, and how much each other call moves.
        ensures fails { IsErr result ↔ IsTrue (fails_next self.old.plan) }
        ensures count { IfOk result (λ count. count ≡ min (min (length into.old) self.old.most) (length self.old.bytes)) }
        ensures plan { self.new.plan ≡ after_call self.old.plan }
        ensures most { self.new.most ≡ self.old.most }
        ensures beyond { IfOk result (λ count. drop count into.new ≡ drop count into.old) }
        ensures untouched { OnErr result (into.new ≡ into.old) }

        ensures bound { ReadsAtMost result into.new }
        ensures bytes { ReadConsumes (Some self.old.bytes) (Some self.new.bytes) result into.new }
        ensures quiet { OnOk result (self.new.plan.faults ≡ self.old.plan.faults) }
        ensures failed { OnErr result (Rose self.old.plan.faults self.new.plan.faults) }
        ensures only_rise { self.old.plan.faults ≤ self.new.plan.faults }
    {
        if self.calls.next_fails() {
            return Err(Failed);
        }
        Ok(self.unread.move_into(into, self.most))
    }
}

/// A source in memory that never fails.
#[derive(Drop)]
pub struct SureSource {
    unread: Unread,
}

impl Model for SureSource {
    ghost use Rattle.std.specs.Prelude.{ℕ, List};

    ghost Value = { List ℕ };

    ghost view = { λ s. s.unread };
}

impl SureSource {
    /// A source of the bytes.
    pub fn new(alloc: Global, bytes: &[u8]) -> Result<SureSource, Memory>
        ensures { IfOk result (λ source. source ≡ bytes.now) }
    {
        Ok(SureSource {
            unread: Unread::new(alloc, bytes)?,
        })
    }
}

impl Source for SureSource {
    ghost use Rattle.std.specs.Prelude.{Some, None};

    ghost left = { λ s. Some s };

    ghost faults = { λ _. 0 };

    ghost reads = { λ _. None };

    ghost beside = { λ _. None };

    ghost faults_beside = { λ _. 0 };

    fn read(&mut self, into: &mut [u8]) -> Result<usize, Failed>
        requires { 0 < length into.old }

        // No call fails, and each moves all that is left and fits.
        ensures ok { IsOk result }
        ensures count { IfOk result (λ count. count ≡ min (length into.old) (length self.old)) }
        ensures beyond { IfOk result (λ count. drop count into.new ≡ drop count into.old) }

        ensures bound { ReadsAtMost result into.new }
        ensures bytes { ReadConsumes (Some self.old) (Some self.new) result into.new }
    {
        Ok(self.unread.move_into(into, usize::MAX))
    }
}
