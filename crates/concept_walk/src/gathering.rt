//! The concepts of the intents that were met.

ghost use Rattle.std.specs.Prelude.{◌≡◌, ◌≤◌, ◌∷◌, [], true, OnOk, OnErr};
ghost use Rattle.fca_model.specs.Context.{extent};
ghost use Rattle.concept_walk.specs.Gatherings.{Fills};

use crate::cross_table::CrossTable;
use attr_bits::Bits;
use fca_model::Memory;
use packed_concepts::ConceptPage;
use std::alloc::Global;

/// A page that is filled with concepts, and whether all of them found room in memory.
#[derive(Drop)]
pub struct Gathering<const W: usize> {
    /// The concepts.
    pub concepts: ConceptPage<W>,
    /// Whether no concept is missing. The code that fills the gathering sets it.
    pub whole: bool,
}

impl<const W: usize> Gathering<W> {
    /// A gathering with no concept. It takes no memory yet.
    pub fn new(alloc: Global) -> Gathering<W>
        requires { W ≤ 1024 }
        ensures concepts { result.concepts ≡ [] }
        ensures whole { result.whole ≡ true }
    {
        Gathering {
            concepts: ConceptPage::new(alloc),
            whole: true,
        }
    }

    /// Adds the concept of a, whose objects stand at these places. After an `Err` the gathering is as it was.
    pub fn add(
        &mut self,
        crosses: &CrossTable<'_, W>,
        a: &Bits<W>,
        places: &[u16],
    ) -> Result<(), Memory>
        requires { places.now ≡ extent crosses.now a.now }
        ensures added { OnOk result (Fills crosses.now self.old self.new (a.now ∷ [])) }
        ensures unchanged { OnErr result (self.new.concepts ≡ self.old.concepts) }
        ensures whole { self.new.whole ≡ self.old.whole }
    {
        let _width = crosses.rows().width();
        self.concepts.add(a, places)?;
        Ok(())
    }
}
