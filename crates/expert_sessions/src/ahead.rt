//! Reading lines: the bytes that were read and not served yet.

ghost use Rattle.std.specs.Prelude.{◌≡◌, ◌≤◌, ◌<◌, ◌↔◌, ◌+◌, [], IfOk, IfErr, OnOk, OnErr, IsTrue, MatchOption, length, take, drop};
ghost use Rattle.std.specs.Io.KnownBytes.{IsAtEnd};
ghost use Rattle.std.specs.Option.{option_map};
ghost use Rattle.fca_io.specs.Faults.{Rose, one_more};
ghost use Rattle.fca_model.specs.declared.TheConstants.{LINE_BYTES};
ghost use Rattle.expert_sessions.specs.Lines.{HasNoFeed};
ghost use Rattle.expert_sessions.specs.Moves.{end_state_of};
ghost use Rattle.expert_sessions.specs.Courses.{ReadsOn, HasFeedAt, LacksLine};
ghost use Rattle.expert_sessions.specs.Order.{ReadsForLine};

use crate::ended::Ended;
use fca_io::{Duplex, Failed};
use fca_model::{LINE_BYTES, Memory};
use std::alloc::Global;
use std::marker::Model;

/// The most bytes of a line, with its line feed.
const MOST: usize = LINE_BYTES + 1;

/// The bytes that were read ahead.
#[derive(Drop)]
pub(crate) struct ReadAhead {
    bytes: Vec<u8>,
}

impl Model for ReadAhead {
    ghost use Rattle.std.specs.Prelude.{ℕ, List, ◌≤◌, ◌+◌, vec_len, vec_capacity};
    ghost use Rattle.fca_model.specs.declared.TheConstants.{LINE_BYTES};

    ghost Value = { List ℕ };

    ghost view = { λ a. a.bytes.items };

    ghost invariant = { λ a. record { few : vec_len a.bytes ≤ LINE_BYTES + 1; made : LINE_BYTES + 1 ≤ vec_capacity a.bytes } };
}

impl ReadAhead {
    /// Room for one line, with nothing read.
    pub(crate) fn new(alloc: Global) -> Result<ReadAhead, Memory>
        ensures { IfOk result (λ ahead. ahead ≡ []) }
    {
        Ok(ReadAhead {
            bytes: Vec::with_capacity(alloc, MOST)?,
        })
    }

    /// Reads until there is a whole line, and gives the place of its line feed.
    pub(crate) fn read_line<E: Duplex>(&mut self, end: &mut E) -> Result<usize, Ended>
        ensures read { ReadsOn
            (end_state_of E.Source.left E.Sink.held E.Source.faults E.Sink.faults end.old)
            (end_state_of E.Source.left E.Sink.held E.Source.faults E.Sink.faults end.new)
            self.old self.new }
        ensures order { ReadsForLine E.Source.left E.Sink.held E.Source.reads E.Source.faults E.Sink.faults self.old end.old end.new }
        ensures line { IfOk result (HasFeedAt self.new) }
        ensures quiet { OnOk result (E.Source.faults end.new ≡ E.Source.faults end.old) }
        ensures short { IfOk result (λ at. at ≤ LINE_BYTES) }
        ensures none { IfErr result (LacksLine
            (end_state_of E.Source.left E.Sink.held E.Source.faults E.Sink.faults end.old)
            (end_state_of E.Source.left E.Sink.held E.Source.faults E.Sink.faults end.new)
            self.new) }
    {
        loop {
            if let Some(at) = self.feed() {
                return Ok(at);
            }
            if self.is_full() {
                return Err(Ended::LongLine);
            }
            match self.read(end) {
                Ok(0) => return Err(Ended::EndOfInput),
                Ok(_) => {}
                Err(_) => return Err(Ended::ReadFault),
            }
        }
    }

    /// The bytes before this place.
    pub(crate) fn line(&self, at: usize) -> &[u8]
        requires { at ≤ length self.now }
        ensures { result.now ≡ take at self.now }
    {
        &self.bytes[..at]
    }

    /// Forgets so many bytes at the front.
    pub(crate) fn forget(&mut self, count: usize)
        requires { count ≤ length self.old }
        ensures { self.new ≡ drop count self.old }
    {
        let left = self.bytes.len() - count;
        self.bytes.copy_within(count.., 0);
        self.bytes.truncate(left);
    }

    /// The place of the first line feed.
    fn feed(&self) -> Option<usize>
        ensures place { MatchOption result (HasNoFeed self.now) (HasFeedAt self.now) }
        ensures few { length self.now ≤ LINE_BYTES + 1 }
    {
        first_feed(&self.bytes)
    }

    /// Whether there is no room for another byte.
    fn is_full(&self) -> bool
        ensures full { IsTrue result ↔ (length self.now ≡ LINE_BYTES + 1) }
        ensures few { length self.now ≤ LINE_BYTES + 1 }
    {
        self.bytes.len() == MOST
    }

    /// Reads once, and gives the number of bytes that came. It is 0 only at the end of the input.
    fn read<E: Duplex>(&mut self, end: &mut E) -> Result<usize, Failed>
        requires room { length self.old ≤ LINE_BYTES }
        ensures read { ReadsOn
            (end_state_of E.Source.left E.Sink.held E.Source.faults E.Sink.faults end.old)
            (end_state_of E.Source.left E.Sink.held E.Source.faults E.Sink.faults end.new)
            self.old self.new }
        ensures counted { E.Source.reads end.new ≡ option_map one_more (E.Source.reads end.old) }
        ensures count { IfOk result (λ count. length self.new ≡ length self.old + count) }
        ensures end { IfOk result (λ count. count ≡ 0 → IsAtEnd (E.Source.left end.new)) }
        ensures quiet { OnOk result (E.Source.faults end.new ≡ E.Source.faults end.old) }
        ensures failed { OnErr result ((self.new ≡ self.old) × Rose (E.Source.faults end.old) (E.Source.faults end.new)) }
    {
        let mut chunk = [0; MOST];
        let room = MOST - self.bytes.len();
        let count = end.read(&mut chunk[..room])?;
        match self.bytes.extend_from_slice(&chunk[..count]) {
            Ok(()) => Ok(count),
            Err(_) => unreachable!(),
        }
    }
}

/// The place of the first line feed.
fn first_feed(bytes: &[u8]) -> Option<usize>
    ensures { MatchOption result (HasNoFeed bytes.now) (HasFeedAt bytes.now) }
{
    for (at, byte) in bytes.iter().enumerate() {
        if *byte == b'\n' {
            return Some(at);
        }
    }
    None
}
