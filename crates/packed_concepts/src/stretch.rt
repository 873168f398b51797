//! Concepts on a page, the lines of which are laid out together.

ghost use Rattle.std.specs.Prelude.{◌≡◌, ◌+◌, ◌^◌, ◌<◌, ◌≤◌, IfOk, length, take};
ghost use Rattle.packed_concepts.specs.Packing.{total, unpacked};
ghost use Rattle.packed_concepts.specs.Stretches.{concepts_of, Follow};

use crate::gauge::{Gauge, SHARE};
use crate::page::{ConceptPage, IntentAndCount};
use fca_model::Memory;
use std::alloc::Global;
use std::marker::Model;

/// Concepts one behind the other on a page, and the place of the first among all concepts.
#[derive(Drop)]
pub(crate) struct Stretch<'a, const W: usize> {
    first: usize,
    packed: &'a [IntentAndCount<W>],
    places: &'a [u16],
    weight: usize,
}

impl<'a, const W: usize> Model for Stretch<'a, W> {
    ghost use Rattle.std.specs.Prelude.{◌≡◌, ◌≤◌, length};
    ghost use Rattle.packed_concepts.specs.Packing.{total, unpacked};
    ghost use Rattle.packed_concepts.specs.Stretches.{StretchConcepts};

    ghost Value = { StretchConcepts };

    ghost view = { λ s. record { first = s.first; concepts = unpacked s.packed.now s.places.now } };

    ghost invariant = { λ s. record {
      words : W ≤ 1024;
      fits : total s.packed.now ≡ length s.places.now;
    } };
}

impl<'a, const W: usize> Stretch<'a, W> {
    /// The concepts of the page, the first of which is at this place.
    pub(crate) fn of_page(page: &'a ConceptPage<W>, first: usize) -> Stretch<'a, W>
        ensures { result ≡ record { first = first; concepts = page.now } }
    {
        let _count = page.len();
        let (packed, places) = page.parts();
        Stretch {
            first,
            packed,
            places,
            weight: 0,
        }
    }

    /// The place of the first concept.
    pub(crate) fn first(&self) -> usize
        ensures first { result ≡ self.now.first }
        ensures words { W ≤ 1024 }
    {
        self.first
    }

    /// A guess at the bytes of the lines.
    pub(crate) fn weight(&self) -> usize {
        self.weight
    }

    /// The intents with the numbers of their objects, and the places of these objects.
    pub(crate) fn parts(&self) -> (&[IntentAndCount<W>], &[u16])
        ensures concepts { unpacked result.0.now result.1.now ≡ self.now.concepts }
        ensures fits { total result.0.now ≡ length result.1.now }
    {
        (self.packed, self.places)
    }
}

/// The concepts of the page in stretches. The answer is the same wherever it is cut.
pub(crate) fn stretches_on<'a, const W: usize>(
    alloc: Global,
    page: &'a ConceptPage<W>,
    first: usize,
    gauge: Gauge,
) -> Result<Vec<Stretch<'a, W>>, Memory>
    requires { first + length page.now < 2 ^ 64 }
    ensures concepts { IfOk result (λ made. concepts_of made.items ≡ page.now) }
    ensures follow { IfOk result (λ made. Follow first made.items) }
{
    let _count = page.len();
    let (mut packed, mut places) = page.parts();
    let mut next = first;
    let mut made = Vec::new(alloc);
    while !packed.is_empty() {
        let cut = first_cut(packed, gauge);
        let (own, packed_behind) = packed.split_at(cut.concepts);
        let (own_places, places_behind) = places.split_at(cut.objects);
        made.push(Stretch {
            first: next,
            packed: own,
            places: own_places,
            weight: cut.weight,
        })?;
        next += cut.concepts;
        packed = packed_behind;
        places = places_behind;
    }
    Ok(made)
}

/// The first concepts: how many, how many objects they have together, and a guess at the bytes of their lines.
#[derive(Clone, Copy)]
struct Cut {
    concepts: usize,
    objects: usize,
    weight: usize,
}

/// As many of the first concepts as a sheet has room for, by the guess; at least one.
fn first_cut<const W: usize>(packed: &[IntentAndCount<W>], gauge: Gauge) -> Cut
    requires some { 0 < length packed.now }
    requires fits { total packed.now < 2 ^ 64 }
    ensures some { 0 < result.concepts }
    ensures inside { result.concepts ≤ length packed.now }
    ensures objects { result.objects ≡ total (take result.concepts packed.now) }
{
    let mut cut = Cut {
        concepts: 0,
        objects: 0,
        weight: 0,
    };
    for one in packed {
        cut.concepts += 1;
        cut.objects += one.count as usize;
        cut.weight = cut.weight.saturating_add(gauge.line(one));
        if SHARE < cut.weight {
            return cut;
        }
    }
    cut
}
