//! What the rule of the lock knows of each pass. No value of these types is made.

use std::collections::LinkedList;

/// The number and the own entries of a pass that was joined to pass 1.
pub struct JoinedPass<E> {
    pub number: u64,
    pub own: LinkedList<E>,
}

/// What a pass knows, over the base B and entries E of the lock.
pub struct View<B, E> {
    /// 0 for a pass that was joined to pass 1.
    pub number: u64,
    /// The base of the lock.
    pub base: Option<B>,

    /// How many turns a pass may make.
    pub turns: u64,

    /// The history that the pass has seen.
    pub seen: LinkedList<E>,

    /// The pass's own entries.
    pub own: LinkedList<E>,

    /// The number of tickets drawn.
    pub drawn: u64,
    /// The ticket that is out, if any.
    pub ticket: Option<u64>,

    /// Whether the turn is the pass's. Then the pass has the value.
    pub mine: bool,

    /// For how many passes the view stands.
    pub stands: u64,

    /// Of pass 1, how many passes were made with the lock.
    pub passes: u64,

    /// Of pass 1, the passes that were joined to it.
    pub joined: LinkedList<JoinedPass<E>>,

    /// Of pass 1, what it and each pass joined to it had seen.
    pub joined_seen: LinkedList<LinkedList<E>>,
}
