//! Who applies the event of a turn.

ghost use Rattle.std.specs.Prelude.{◌≡◌, ◌++◌, ◌∷◌, [], IfOk, OnErr};

use crate::logged::Logged;
use fca_model::Memory;

/// One that applies an event to a value: the value itself, or a helper.
pub trait Applies<V: Logged> {
    /// Applies the event. The value changes as by its own `apply`.
    fn apply(&self, value: &mut V, event: V::Event) -> Result<V::Reply, Memory>
        requires { V.admits (V.base value.old) event }
        ensures base { V.base value.new ≡ V.base value.old }
        ensures entry { IfOk result (λ reply. V.history value.new ≡ V.history value.old ++ V.entry event reply ∷ []) }
        ensures memory { OnErr result (V.history value.new ≡ V.history value.old) }
        ensures legal { V.legal (V.base value.new) (V.history value.new) };
}

/// The value applies each event by itself.
#[derive(Clone, Copy, Debug)]
pub struct Alone;

impl<V: Logged> Applies<V> for Alone {
    fn apply(&self, value: &mut V, event: V::Event) -> Result<V::Reply, Memory> {
        value.apply(event)
    }
}
