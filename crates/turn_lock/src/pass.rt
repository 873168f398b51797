//! The right to take turns.

ghost use Rattle.std.specs.Prelude.{◌≡◌, ◌≤◌, ◌<◌, ◌↔◌, true, false};

use crate::logged::Logged;
use crate::view::View;
use atomic_table::Seat;
use std::marker::Model;

/// The right of one holder to take turns. Contracts see it as `PassModel` of `specs/Passes.antt`: the history that it has seen, and its own entries in it.
#[derive(Drop)]
pub struct Pass<V: Logged> {
    pub(crate) number: u8,
    pub(crate) made: u64,
    pub(crate) turns: u64,
    pub(crate) seat: Seat<V, View<V::Base, V::Entry>>,
}

impl<V: Logged> Model for Pass<V> {
    ghost use Rattle.std.specs.Prelude.{◌≡◌, ◌≤◌};
    ghost use Rattle.turn_lock.specs.Passes.{PassModel};
    ghost use Rattle.turn_lock.specs.Seats.{pass_of, IsIdle};

    ghost Value = { PassModel V.Base V.Entry };

    ghost view = { λ s. pass_of s.seat };

    ghost invariant = { λ s. IsIdle V.by s.seat × (s.number ≡ s.seat.me.0.number) × (s.made ≡ s.seat.me.0.drawn) × (s.turns ≡ s.seat.me.0.turns) × (s.made ≤ s.turns) };
}

impl<V: Logged> Pass<V> {
    /// The number of the pass.
    pub fn number(&self) -> u8
        ensures { result ≡ self.now.number }
    {
        self.number
    }

    /// The number of turns made so far.
    pub fn made(&self) -> u64
        ensures number { result ≡ self.now.made }
        ensures most { result ≤ self.now.turns }
    {
        self.made
    }

    /// Whether the pass has made all its turns.
    pub fn is_spent(&self) -> bool
        ensures spent { (result ≡ true) ↔ (self.now.made ≡ self.now.turns) }
        ensures left { result ≡ false → self.now.made < self.now.turns }
    {
        self.made == self.turns
    }
}
