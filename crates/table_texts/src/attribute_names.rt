//! The names of attributes, laid out once, so that those of a set that lacks few of them are copied in few moves.

ghost use Rattle.std.specs.Prelude.{◌≡◌, ◌+◌, ◌-◌, ◌*◌, ◌≤◌, ◌++◌, ◌∷◌, [], IfOk, OnOk, length, take, drop};
ghost use Rattle.expert_wire.specs.Texts.{comma_list, names_of};
ghost use Rattle.packed_concepts.specs.Listing.{with_comma};
ghost use Rattle.table_texts.specs.Joined.{joined, AreJoined};

use attr_bits::Bits;
use concept_walk::attribute_pieces;
use context_table::Table;
use fca_model::Memory;
use packed_concepts::{PIECE_BYTES, PIECE_ROOM, Pieces, end_without_comma, put_bytes, put_set};
use std::alloc::Global;
use std::marker::Model;

/// A set has nearly all attributes if it lacks at most one of so many.
const NEARLY_ALL_DIVISOR: u32 = 4;

/// The names of attributes, each with a comma and a space behind it: as pieces, and in one text with the place at which each begins.
#[derive(Drop)]
pub(crate) struct AttributeNames {
    pieces: Pieces,
    text: Vec<u8>,
    starts: Vec<usize>,
}

impl Model for AttributeNames {
    ghost use Rattle.std.specs.Prelude.{List, map};
    ghost use Rattle.fca_model.specs.Tables.{Text};
    ghost use Rattle.packed_concepts.specs.Listing.{without_comma, HaveCommas};
    ghost use Rattle.table_texts.specs.Joined.{AreJoined};

    ghost Value = { List Text };

    ghost view = { λ n. map without_comma n.pieces };

    ghost invariant = { λ n. record {
      commas : HaveCommas n.pieces;
      joined : AreJoined (map without_comma n.pieces) n.text.items n.starts.items;
    } };
}

impl AttributeNames {
    /// The names of the table's attributes.
    pub(crate) fn of(alloc: Global, table: &Table) -> Result<AttributeNames, Memory>
        ensures { IfOk result (λ names. names ≡ table.now.attributes) }
    {
        let pieces = attribute_pieces(alloc, table)?;
        let (text, starts) = join_names(alloc, table)?;
        Ok(AttributeNames {
            pieces,
            text,
            starts,
        })
    }

    /// Puts the names of the members at `start` and returns their end.
    pub(crate) fn put<const W: usize>(&self, text: &mut [u8], start: usize, set: &Bits<W>) -> usize
        requires wide { length set.now ≡ length self.now }
        requires room { start + PIECE_ROOM * length set.now ≤ length text.old }
        ensures text { take result text.new ≡ take start text.old ++ comma_list (names_of self.now set.now) }
        ensures ends { result ≤ start + PIECE_BYTES * length set.now }
        ensures room { length text.new ≡ length text.old }
    {
        let lacking = set.width() - set.size();
        if lacking <= set.width() / NEARLY_ALL_DIVISOR {
            let end = self.put_nearly_all(text, start, set);
            return end_without_comma(start, end);
        }
        put_set(&self.pieces, text, start, set)
    }

    /// Puts the names of the members, each with a comma and a space behind it, at `start` and returns their end. Those between two attributes that the set
    /// lacks are copied at once.
    fn put_nearly_all<const W: usize>(&self, text: &mut [u8], start: usize, set: &Bits<W>) -> usize
        requires wide { length set.now ≡ length self.now }
        requires room { start + PIECE_ROOM * length set.now ≤ length text.old }
        ensures text { take result text.new ≡ take start text.old ++ joined (names_of self.now set.now) }
        ensures ends { result ≤ start + PIECE_BYTES * length set.now }
        ensures room { length text.new ≡ length text.old }
    {
        let _names = &self.pieces;
        let lacking = Bits::full(set.width()).minus(set);
        let mut end = start;
        let mut from = 0;
        while let Some(other) = lacking.next_member(from) {
            end = self.put_between(text, end, from, other);
            from = other + 1;
        }
        self.put_between(text, end, from, set.width())
    }

    /// Puts the names from attribute `from` up to attribute `to` at `start` and returns their end.
    fn put_between(&self, text: &mut [u8], start: usize, from: u32, to: u32) -> usize
        requires order { from ≤ to }
        requires inside { to ≤ length self.now }
        requires room { start + length (joined self.now) ≤ length text.old + length (joined (take from self.now)) }
        ensures text { take result text.new ≡ take start text.old ++ joined (drop from (take to self.now)) }
        ensures ends { result + length (joined (take from self.now)) ≡ start + length (joined (take to self.now)) }
        ensures room { length text.new ≡ length text.old }
    {
        let first = self.starts[from as usize];
        let last = self.starts[to as usize];
        put_bytes(text, start, &self.text[first..last])
    }
}

/// The names of the table's attributes in one text, and where each begins. The end of the last stands behind these places.
fn join_names(alloc: Global, table: &Table) -> Result<(Vec<u8>, Vec<usize>), Memory>
    ensures { IfOk result (λ text. AreJoined table.now.attributes text.0.items text.1.items) }
{
    let width = table.rows().width();
    let mut text = Vec::new(alloc);
    let mut starts = Vec::new(alloc);
    starts.push(0)?;
    for attribute in 0..width {
        let name = table.attribute_name(attribute).bytes();
        join_name(&mut text, &mut starts, name)?;
    }
    Ok((text, starts))
}

/// Puts the name last, with a comma and a space behind it, and the place behind them.
fn join_name(text: &mut Vec<u8>, starts: &mut Vec<usize>, name: &[u8]) -> Result<(), Memory>
    ensures text { OnOk result (text.new.items ≡ text.old.items ++ with_comma name.now) }
    ensures starts { OnOk result (starts.new.items ≡ starts.old.items ++ length text.new.items ∷ []) }
{
    text.extend_from_slice(name)?;
    text.extend_from_slice(b", ")?;
    starts.push(text.len())?;
    Ok(())
}
