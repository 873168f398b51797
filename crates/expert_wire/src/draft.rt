//! A text that grows in memory.

ghost use Rattle.std.specs.Prelude.{◌≡◌, ◌<◌, ◌≤◌, ◌++◌, [], length, Some, OnOk, OnErr, IfOk};
ghost use Rattle.std.specs.Io.KnownBytes.{WriteAppends};
ghost use Rattle.fca_io.specs.Faults.{Rose};
ghost use Rattle.fca_io.specs.Transfers.{AppendsFront};
ghost use Rattle.expert_wire.specs.Parts.{parts_text};
ghost use Rattle.expert_wire.specs.Texts.{line_end, ordinal, full_text};
ghost use Rattle.expert_wire.specs.Replies.{reply_line, numbered_rule};

use crate::parts::{Part, write_parts};
use crate::replies::{write_full_text, write_reply, write_rule};
use attr_bits::Attrs;
use context_table::Table;
use fca_io::{Failed, Sink};
use fca_model::{Memory, Reply};
use implication_closure::Implication;
use itoa::Buffer;
use std::alloc::Global;
use std::marker::Model;

/// A text that is written line by line. Contracts see its bytes. After an `Err` the draft has gained a front of what was to be appended.
#[derive(Drop)]
pub struct Draft {
    sink: Growing,
}

impl Model for Draft {
    ghost use Rattle.std.specs.Prelude.{List, ℕ};

    ghost Value = { List ℕ };

    ghost view = { λ d. d.sink.bytes.items };
}

impl Draft {
    /// An empty text. It takes no memory yet.
    pub fn new(alloc: Global) -> Draft
        ensures { result ≡ [] }
    {
        Draft {
            sink: Growing::new(alloc),
        }
    }

    /// The text.
    pub fn into_bytes(self) -> Vec<u8>
        ensures { result.items ≡ self }
    {
        self.sink.bytes
    }

    /// Appends the bytes.
    pub fn append_bytes(&mut self, bytes: &[u8]) -> Result<(), Memory>
        ensures whole { OnOk result (self.new ≡ self.old ++ bytes.now) }
        ensures kept { OnErr result (self.new ≡ self.old) }
    {
        self.sink.bytes.extend_from_slice(bytes)?;
        Ok(())
    }

    /// Appends the number of the place. Numbers begin at 1.
    pub fn append_ordinal(&mut self, place: usize) -> Result<(), Memory>
        ensures whole { OnOk result (self.new ≡ self.old ++ ordinal place) }
        ensures kept { OnErr result (self.new ≡ self.old) }
    {
        match place.checked_add(1) {
            Some(number) => self.append_bytes(Buffer::new().format(number).as_bytes()),
            None => self.append_bytes(Buffer::new().format(place as u128 + 1).as_bytes()),
        }
    }

    /// Appends the parts.
    pub fn append_parts(&mut self, table: &Table, parts: &[Part<'_>]) -> Result<(), Memory>
        ensures whole { OnOk result (self.new ≡ self.old ++ parts_text table.now.attributes parts.now) }
        ensures front { AppendsFront (Some self.old) (Some self.new) (parts_text table.now.attributes parts.now) }
    {
        match write_parts(&mut self.sink, table, parts) {
            Ok(()) => Ok(()),
            Err(_) => Err(Memory),
        }
    }

    /// Appends the line of the reply.
    pub fn append_reply(&mut self, table: &Table, reply: &Reply<Attrs>) -> Result<(), Memory>
        ensures whole { OnOk result (self.new ≡ self.old ++ reply_line table.now.attributes reply.now) }
        ensures front { AppendsFront (Some self.old) (Some self.new) (reply_line table.now.attributes reply.now) }
    {
        match write_reply(&mut self.sink, table, reply) {
            Ok(()) => Ok(()),
            Err(_) => Err(Memory),
        }
    }

    /// Appends a line: the words, and the full text of the implication.
    pub fn append_full_text(
        &mut self,
        table: &Table,
        words: &[u8],
        implication: &Implication,
    ) -> Result<(), Memory>
        ensures whole { OnOk result (self.new ≡ self.old ++ ((words.now ++ full_text table.now.attributes implication.now) ++ line_end)) }
        ensures front { AppendsFront (Some self.old) (Some self.new)
            ((words.now ++ full_text table.now.attributes implication.now) ++ line_end) }
    {
        match write_full_text(&mut self.sink, table, words, implication) {
            Ok(()) => Ok(()),
            Err(_) => Err(Memory),
        }
    }

    /// Appends a line: the words, the number of the place, and the full text of the rule.
    pub fn append_rule(
        &mut self,
        table: &Table,
        words: &[u8],
        place: usize,
        rule: &Implication,
    ) -> Result<(), Memory>
        ensures whole { OnOk result (self.new
            ≡ self.old ++ ((words.now ++ numbered_rule table.now.attributes place rule.now) ++ line_end)) }
        ensures front { AppendsFront (Some self.old) (Some self.new)
            ((words.now ++ numbered_rule table.now.attributes place rule.now) ++ line_end) }
    {
        match write_rule(&mut self.sink, table, words, place, rule) {
            Ok(()) => Ok(()),
            Err(_) => Err(Memory),
        }
    }
}

/// Bytes that grow as they are written. It is a fault if memory runs out.
#[derive(Drop)]
pub struct Growing {
    /// The bytes.
    pub bytes: Vec<u8>,
    faults: u64,
}

impl Growing {
    /// No bytes. It takes no memory yet.
    pub fn new(alloc: Global) -> Growing
        ensures { result.bytes.items ≡ [] }
    {
        Growing {
            bytes: Vec::new(alloc),
            faults: 0,
        }
    }
}

impl Sink for Growing {
    ghost use Rattle.std.specs.Prelude.{Some, None};

    ghost held = { λ s. Some s.bytes.items };

    ghost faults = { λ s. s.faults };

    ghost whole_writes = { λ _. None };

    ghost beside = { λ _. None };

    ghost read_counts_beside = { λ _. record { reads = None; faults = 0 } };

    fn write(&mut self, from: &[u8]) -> Result<usize, Failed> {
        match self.bytes.extend_from_slice(from) {
            Ok(()) => Ok(from.len()),
            Err(_) => {
                self.faults = self.faults.saturating_add(1);
                Err(Failed)
            }
        }
    }
}
