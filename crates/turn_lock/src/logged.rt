//! A value that changes by events alone, and keeps a history of them.

ghost use Rattle.std.specs.Prelude.{◌≡◌, ◌++◌, ◌∷◌, ℕ, List, [], IfOk, OnErr};

use fca_model::Memory;

/// A value that changes by events alone. Its history is the list of the events so far, each with its reply.
pub trait Logged: Drop + Send {
    /// What changes the value.
    type Event: Drop;

    /// What an event is answered.
    type Reply: Drop;

    /// An event with its reply.
    type Entry;

    /// What a look at the value shows.
    type Seen;

    /// What no event changes.
    type Base;

    /// What the value was opened with. No call changes it.
    ghost base: { Self → Self.Base };

    /// The entries of all events so far.
    ghost history: { Self → List Self.Entry };

    /// Which histories can come about over a base.
    ghost legal: { Self.Base → List Self.Entry → Type 0 };

    /// What `seen` may answer after a history.
    ghost shows: { Self.Base → List Self.Entry → Self.Seen → Type 0 };

    /// The events that a base admits.
    ghost admits: { Self.Base → Self.Event → Type 0 };

    /// The entry of an event and its reply.
    ghost entry: { Self.Event → Self.Reply → Self.Entry };

    /// The number of the pass that an event is of.
    ghost number: { Self.Event → ℕ };

    /// The number of the pass that an entry is of.
    ghost by: { Self.Entry → ℕ };

    /// An entry is of the pass that its event is of.
    ghost by_entry: { (event : Self.Event) (reply : Self.Reply) → by (entry event reply) ≡ number event };

    /// Each history that a legal one goes on from is legal.
    ghost prefix: { (b : Self.Base) (h k : List Self.Entry) → legal b (h ++ k) → legal b h };

    /// Applies the event, and puts one entry on the history. Out of memory, it puts none.
    fn apply(&mut self, event: Self::Event) -> Result<Self::Reply, Memory>
        requires { admits (base self.old) event }
        ensures base { base self.new ≡ base self.old }
        ensures entry { IfOk result (λ reply. history self.new ≡ history self.old ++ entry event reply ∷ []) }
        ensures memory { OnErr result (history self.new ≡ history self.old) }
        ensures legal { legal (base self.new) (history self.new) };

    /// Looks at the value.
    fn seen(&self) -> Self::Seen
        ensures { shows (base self.now) (history self.now) result };

    /// Shows that the history is legal. The body has nothing to do.
    fn attest_legal(&self)
        ensures { legal (base self.now) (history self.now) };
}
