//! The rule of the table, and what each of its steps does.

use crate::logged::Logged;
use crate::view::View;
use atomic_table::{Join, Play, Split, TableRule};
use std::marker::PhantomData;
use std::snapshot::Snapshot;

/// What the table knows from its opening on: the value as it was then, and how many turns a pass may make.
#[derive(Drop)]
pub struct Key<V> {
    pub value: Snapshot<V>,
    pub turns: u64,
}

/// The rule of the lock.
pub struct TurnRule<V> {
    of: PhantomData<V>,
}

impl<V: Logged> TableRule<V, View<V::Base, V::Entry>, Key<V>> for TurnRule<V> {
    ghost use Rattle.turn_lock.specs.Turns.{Turned};
    ghost use Rattle.turn_lock.specs.Steps.{first_view};

    ghost holds = { λ key. Turned V.base V.history V.legal V.by (V.base key.value.value) key.turns };

    ghost first = { λ key. first_view (V.base key.value.value) key.turns };
}

/// A ticket is drawn.
pub struct Drawing<V> {
    of: PhantomData<V>,
}

impl<V: Logged> Play<V, View<V::Base, V::Entry>> for Drawing<V> {
    ghost use Rattle.turn_lock.specs.Steps.{Drew};

    ghost then = { Drew };
}

/// A pass looks whether its turn has come.
pub struct Coming<V> {
    of: PhantomData<V>,
}

impl<V: Logged> Play<V, View<V::Base, V::Entry>> for Coming<V> {
    ghost use Rattle.turn_lock.specs.Steps.{Came};

    ghost then = { Came V.base V.history V.legal V.by };
}

/// A turn ends.
pub struct TurnEnd<V> {
    of: PhantomData<V>,
}

impl<V: Logged> Play<V, View<V::Base, V::Entry>> for TurnEnd<V> {
    ghost use Rattle.turn_lock.specs.Steps.{Ended};

    ghost then = { Ended V.history V.by };
}

/// Pass 1 makes one more pass.
pub struct Another<V> {
    of: PhantomData<V>,
}

impl<V: Logged> Split<View<V::Base, V::Entry>> for Another<V> {
    ghost use Rattle.turn_lock.specs.Steps.{one_more, newcomer};

    ghost left = { one_more };

    ghost right = { newcomer };
}

/// A pass is joined to pass 1.
pub struct Gathering<V> {
    of: PhantomData<V>,
}

impl<V: Logged> Join<View<V::Base, V::Entry>> for Gathering<V> {
    ghost use Rattle.turn_lock.specs.Steps.{joined_with, joined_away};

    ghost both = { joined_with };

    ghost spent = { joined_away };
}
