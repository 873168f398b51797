//! Concepts one behind the other: their intents as sets, and the places of their objects in one list.

ghost use Rattle.std.specs.Prelude.{◌≡◌, ◌≤◌, ◌++◌, ◌∷◌, [], All, IfOk, OnOk, OnErr, length, map};
ghost use Rattle.packed_concepts.specs.Packing.{total, unpacked};

use attr_bits::Bits;
use fca_model::Memory;
use std::alloc::Global;
use std::marker::Model;

/// An intent and the number of its objects.
#[derive(Clone, Copy)]
pub struct IntentAndCount<const W: usize> {
    /// The intent.
    pub intent: Bits<W>,
    /// The number of its objects.
    pub count: u32,
}

/// Concepts in the order in which they were added, each an intent and the places of its objects.
#[derive(Drop)]
pub struct ConceptPage<const W: usize> {
    packed: Vec<IntentAndCount<W>>,
    places: Vec<u16>,
    end: usize,
    most: usize,
}

impl<const W: usize> Model for ConceptPage<W> {
    ghost use Rattle.std.specs.Prelude.{◌≡◌, ◌≤◌, All, List, ℕ, length, take};
    ghost use Rattle.fca_model.specs.Sets.{Set};
    ghost use Rattle.packed_concepts.specs.Packing.{total, unpacked};

    ghost Value = { List (Set × List ℕ) };

    ghost view = { λ p. unpacked p.packed.items (take p.end p.places.items) };

    ghost invariant = { λ p. record {
      words : W ≤ 1024;
      fits : total p.packed.items ≡ p.end;
      ends : p.end ≤ length p.places.items;
      most : All (λ c. c.count ≤ p.most) p.packed.items;
    } };
}

impl<const W: usize> ConceptPage<W> {
    /// No concept. It takes no memory yet.
    pub fn new(alloc: Global) -> ConceptPage<W>
        requires { W ≤ 1024 }
        ensures { result ≡ [] }
    {
        ConceptPage {
            packed: Vec::new(alloc),
            places: Vec::new(alloc),
            end: 0,
            most: 0,
        }
    }

    /// Adds the concept of this intent, whose objects stand at these places. After an `Err` the page is as it was.
    pub fn add(&mut self, intent: &Bits<W>, places: &[u16]) -> Result<(), Memory>
        ensures added { OnOk result (self.new ≡ self.old ++ (intent.now, places.now) ∷ []) }
        ensures unchanged { OnErr result (self.new ≡ self.old) }
    {
        let Ok(count) = u32::try_from(places.len()) else {
            return Err(Memory);
        };
        self.places.truncate(self.end);
        self.places.extend_from_slice(places)?;
        self.packed.push(IntentAndCount {
            intent: *intent,
            count,
        })?;
        self.end = self.places.len();
        self.most = self.most.max(places.len());
        Ok(())
    }

    /// The number of concepts.
    pub fn len(&self) -> usize
        ensures count { result ≡ length self.now }
        ensures words { W ≤ 1024 }
    {
        self.packed.len()
    }

    /// At least the number of objects of each concept.
    pub(crate) fn most(&self) -> usize
        ensures { All (λ c. length c.1 ≤ result) self.now }
    {
        self.most
    }

    /// The intents.
    pub fn intents(&self, alloc: Global) -> Result<Vec<Bits<W>>, Memory>
        ensures { IfOk result (λ intents. intents.items ≡ map (λ c. c.0) self.now) }
    {
        let intents = intents_of(alloc, &self.packed)?;
        Ok(intents)
    }

    /// The intents with the numbers of their objects, and the places of these objects.
    pub(crate) fn parts(&self) -> (&[IntentAndCount<W>], &[u16])
        ensures concepts { unpacked result.0.now result.1.now ≡ self.now }
        ensures fits { total result.0.now ≡ length result.1.now }
    {
        (&self.packed, &self.places[..self.end])
    }
}

/// The intents.
fn intents_of<const W: usize>(
    alloc: Global,
    packed: &[IntentAndCount<W>],
) -> Result<Vec<Bits<W>>, Memory>
    requires { W ≤ 1024 }
    ensures { IfOk result (λ intents. intents.items ≡ map (λ p. p.intent) packed.now) }
{
    let mut intents = Vec::with_capacity(alloc, packed.len())?;
    for one in packed {
        intents.push(one.intent)?;
    }
    Ok(intents)
}
