//! The names of a table, as pieces for lists of names.

ghost use Rattle.std.specs.Prelude.{◌≡◌, ◌+◌, ◌-◌, ◌*◌, ◌≤◌, ◌<◌, ◌++◌, All, List, length, map, take, cond, nat_lt};
ghost use Rattle.std.specs.List.{concat};
ghost use Rattle.fca_model.specs.Tables.{Text};
ghost use Rattle.expert_wire.specs.Texts.{comma_list, names_of};
ghost use Rattle.packed_concepts.specs.Listing.{with_comma, without_comma, HaveCommas};
ghost use Rattle.packed_concepts.specs.Lines.{names_at};

use crate::gauge::Gauge;
use crate::pieces::{PIECE_BYTES, PIECE_ROOM, Pieces};
use attr_bits::Bits;
use std::marker::Model;

/// The names of attributes and of objects, each with a comma and a space behind it.
#[derive(Drop)]
pub struct Names {
    attributes: Pieces,
    objects: Pieces,
}

impl Model for Names {
    ghost use Rattle.std.specs.Prelude.{map};
    ghost use Rattle.packed_concepts.specs.Lines.{TableNames};
    ghost use Rattle.packed_concepts.specs.Listing.{without_comma, HaveCommas};

    ghost Value = { TableNames };

    ghost view = { λ n. record { attributes = map without_comma n.attributes; objects = map without_comma n.objects } };

    ghost invariant = { λ n. record { attributes : HaveCommas n.attributes; objects : HaveCommas n.objects } };
}

impl Names {
    /// The names whose pieces these are.
    pub fn new(attributes: Pieces, objects: Pieces) -> Names
        requires attributes { HaveCommas attributes }
        requires objects { HaveCommas objects }
        ensures { result ≡ record { attributes = map without_comma attributes; objects = map without_comma objects } }
    {
        Names {
            attributes,
            objects,
        }
    }

    /// The number of attributes.
    pub fn width(&self) -> usize
        ensures { result ≡ length self.now.attributes }
    {
        self.attributes.len()
    }

    /// About the lengths of names.
    pub(crate) fn gauge(&self) -> Gauge {
        Gauge {
            attribute: self.attributes.mean(),
            object: self.objects.mean(),
        }
    }

    /// Puts the names of the attributes in the set at `start` and returns their end.
    pub fn put_intent<const W: usize>(&self, text: &mut [u8], start: usize, set: &Bits<W>) -> usize
        requires few { length set.now ≤ length self.now.attributes }
        requires room { start + PIECE_ROOM * length set.now ≤ length text.old }
        ensures text { take result text.new ≡ take start text.old ++ comma_list (names_of self.now.attributes set.now) }
        ensures ends { result ≤ start + PIECE_BYTES * length set.now }
        ensures room { length text.new ≡ length text.old }
    {
        put_set(&self.attributes, text, start, set)
    }

    /// Puts the names of the objects at these places at `start` and returns their end.
    pub fn put_extent(&self, text: &mut [u8], start: usize, places: &[u16]) -> usize
        requires inside { All (λ p. p < length self.now.objects) places.now }
        requires room { start + PIECE_ROOM * length places.now ≤ length text.old }
        ensures text { take result text.new ≡ take start text.old ++ comma_list (names_at self.now.objects places.now) }
        ensures ends { result ≤ start + PIECE_BYTES * length places.now }
        ensures room { length text.new ≡ length text.old }
    {
        let end = put_places(&self.objects, text, start, places);
        end_without_comma(start, end)
    }
}

/// Puts the names of the members, whose pieces these are, at `start` and returns their end.
pub fn put_set<const W: usize>(
    pieces: &Pieces,
    text: &mut [u8],
    start: usize,
    set: &Bits<W>,
) -> usize
    requires few { length set.now ≤ length pieces.now }
    requires room { start + PIECE_ROOM * length set.now ≤ length text.old }
    ensures text { (names : List Text) → pieces.now ≡ map with_comma names → take result text.new ≡ take start text.old ++ comma_list (names_of names set.now) }
    ensures ends { result ≤ start + PIECE_BYTES * length set.now }
    ensures room { length text.new ≡ length text.old }
{
    let end = put_members(pieces, text, start, set);
    end_without_comma(start, end)
}

/// Puts the pieces of the members at `start` and returns their end.
fn put_members<const W: usize>(
    pieces: &Pieces,
    text: &mut [u8],
    start: usize,
    set: &Bits<W>,
) -> usize
    requires few { length set.now ≤ length pieces.now }
    requires room { start + PIECE_ROOM * length set.now ≤ length text.old }
    ensures text { take result text.new ≡ take start text.old ++ concat (names_of pieces.now set.now) }
    ensures begins { start ≤ result }
    ensures ends { result ≤ start + PIECE_BYTES * length set.now }
    ensures room { length text.new ≡ length text.old }
{
    let _width = set.width();
    let mut end = start;
    let mut from = 0;
    while let Some(member) = set.next_member(from) {
        end = pieces.put(member as usize, text, end);
        from = member + 1;
    }
    end
}

/// Puts the pieces at these places at `start` and returns their end.
fn put_places(pieces: &Pieces, text: &mut [u8], start: usize, places: &[u16]) -> usize
    requires inside { All (λ p. p < length pieces.now) places.now }
    requires room { start + PIECE_ROOM * length places.now ≤ length text.old }
    ensures text { take result text.new ≡ take start text.old ++ concat (names_at pieces.now places.now) }
    ensures begins { start ≤ result }
    ensures ends { result ≤ start + PIECE_BYTES * length places.now }
    ensures room { length text.new ≡ length text.old }
{
    let mut end = start;
    for place in places {
        end = pieces.put(*place as usize, text, end);
    }
    end
}

/// The end without the last comma and space, if any name stands between.
pub fn end_without_comma(start: usize, end: usize) -> usize
    ensures { result ≡ cond (nat_lt start end) (end - 2) end }
{
    if start < end {
        end.saturating_sub(2)
    } else {
        end
    }
}
