//! Lists of places, such as extents.

ghost use Rattle.std.specs.Prelude.{◌≡◌, [], ◌∷◌, ◌++◌, OnOk, OnErr};

use crate::Memory;
use std::alloc::Global;
use std::marker::Model;

/// A list of places, counted from 0. Contracts see the list of numbers.
#[derive(Drop)]
pub struct Places {
    places: Vec<usize>,
}

impl Model for Places {
    ghost use Rattle.std.specs.Prelude.{List, ℕ};

    ghost Value = { List ℕ };

    ghost view = { λ list. list.places.items };
}

impl Places {
    /// The empty list, which takes no memory.
    pub fn new(alloc: Global) -> Places
        ensures { result ≡ [] }
    {
        Places {
            places: Vec::new(alloc),
        }
    }

    /// Puts the place last.
    pub fn push(&mut self, place: usize) -> Result<(), Memory>
        ensures ok { OnOk result (self.new ≡ self.old ++ place ∷ []) }
        ensures err { OnErr result (self.new ≡ self.old) }
    {
        self.places.push(place)?;
        Ok(())
    }

    /// The places in their order.
    pub fn as_slice(&self) -> &[usize]
        ensures { result.now ≡ self.now }
    {
        self.places.as_slice()
    }
}
