//! The lock: making it with its passes, turns, and closing it.

ghost use Rattle.std.specs.Prelude.{◌≡◌, ◌+◌, ◌-◌, ◌<◌, ◌≤◌, ◌↔◌, ◌∷◌, false, [], IfOk, IfErr, IsErrOf, All, map};
ghost use Rattle.turn_lock.specs.Passes.{badge, badges, roll, Belongs, IsFresh, Looked, TakesTurn, ClosesWith};
ghost use Rattle.fca_model.specs.declared.TheConstants.{MAX_TURNS};
ghost use Rattle.turn_lock.specs.Seats.{Fits, Stays, Making, all_gathered};
ghost use Rattle.turn_lock.specs.Steps.{first_view};

use crate::applies::{Alone, Applies};
use crate::fault::TurnFault;
use crate::logged::Logged;
use crate::pass::Pass;
use crate::queue::Queue;
use crate::rule::{Another, Gathering, Key, TurnRule};
use crate::turn;
use crate::view::View;
use atomic_table::{Seat, Shared, Table};
use fca_model::Memory;
use std::alloc::Global;
use std::marker::Model;
use std::snapshot::Snapshot;
use std::sync::Wait;

/// A lock over a value. Contracts see it as `Lock` of `specs/Passes.antt`.
#[derive(Drop)]
pub struct TurnLock<V: Logged> {
    passes: u8,
    queue: Queue,
    table: Table<V, View<V::Base, V::Entry>, Key<V>, TurnRule<V>, Global>,
}

impl<V: Logged> Model for TurnLock<V> {
    ghost use Rattle.std.specs.Prelude.{◌≡◌, ◌<◌};
    ghost use Rattle.turn_lock.specs.Passes.{Lock};

    ghost Value = { Lock V.Base };

    ghost view = { λ s. record { id = s.table.shared.table_id; base = V.base s.table.shared.key.value.value; turns = s.table.shared.key.turns; passes = s.passes } };

    ghost invariant = { λ s. (s.table.shared.table_id.words ≡ 2) × (s.table.shared.table_id.slots ≡ 1) × (0 < s.passes) };
}

impl<V: Logged> TurnLock<V> {
    ghost use Rattle.turn_lock.specs.declared.fault.TurnFault.TheVariants as fault;

    /// Makes the lock and its passes, which are numbered from 1 in their order. Each pass may make `turns` turns.
    pub fn new(
        alloc: Global,
        value: V,
        passes: u8,
        turns: u64,
    ) -> Result<(TurnLock<V>, Vec<Pass<V>>), Memory>
        requires count { (1 ≤ passes) × (passes ≤ 64) }
        requires turns { (1 ≤ turns) × (turns ≤ MAX_TURNS) }
        requires new { V.history value ≡ [] }
        ensures lock { IfOk result (λ r. (r.0.base ≡ V.base value) × (r.0.turns ≡ turns) × (r.0.passes ≡ passes)) }
        ensures passes { IfOk result (λ r. map badge r.1.items ≡ roll r.0) }
        ensures belong { IfOk result (λ r. All (Belongs r.0) r.1.items) }
        ensures fresh { IfOk result (λ r. All IsFresh r.1.items) }
    {
        TurnLock::make(alloc, value, passes, turns)
    }

    /// Makes the table with the value, the passes and the queue, and puts them together. That the passes belong to the lock follows from their
    /// badges, whatever was made, so `new` proves it from the clauses here.
    fn make(
        alloc: Global,
        value: V,
        passes: u8,
        turns: u64,
    ) -> Result<(TurnLock<V>, Vec<Pass<V>>), Memory>
        requires count { (1 ≤ passes) × (passes ≤ 64) }
        requires turns { (1 ≤ turns) × (turns ≤ MAX_TURNS) }
        requires new { V.history value ≡ [] }
        ensures lock { IfOk result (λ r. (r.0.base ≡ V.base value) × (r.0.turns ≡ turns) × (r.0.passes ≡ passes)) }
        ensures passes { IfOk result (λ r. map badge r.1.items ≡ roll r.0) }
        ensures fresh { IfOk result (λ r. All IsFresh r.1.items) }
    {
        let (table, seat) = atomic_table_of(alloc, value, turns)?;
        let all = all_passes(alloc, &table.shared, seat, passes, turns)?;
        let queue = Queue::new(passes);
        Ok((
            TurnLock {
                passes,
                queue,
                table,
            },
            all,
        ))
    }

    /// One turn that applies the event.
    pub fn with_turn<R: Wait>(
        &self,
        rt: &R,
        pass: &mut Pass<V>,
        event: V::Event,
    ) -> Result<V::Reply, TurnFault>
        requires lock { Belongs self.now pass.old }
        requires admits { V.admits self.now.base event }
        requires number { V.number event ≡ pass.old.number }
        ensures { TakesTurn V.legal V.by self.now.base (V.entry event) pass.old result pass.new }
    {
        self.with_turn_by(rt, &Alone, pass, event)
    }

    /// One turn in which the helper applies the event.
    pub fn with_turn_by<A: Applies<V>, R: Wait>(
        &self,
        rt: &R,
        helper: &A,
        pass: &mut Pass<V>,
        event: V::Event,
    ) -> Result<V::Reply, TurnFault>
        requires lock { Belongs self.now pass.old }
        requires admits { V.admits self.now.base event }
        requires number { V.number event ≡ pass.old.number }
        ensures { TakesTurn V.legal V.by self.now.base (V.entry event) pass.old result pass.new }
    {
        if pass.made == pass.turns {
            return Err(TurnFault::Spent);
        }
        let shared = &self.table.shared;
        let reply = turn::run_turn(shared, &self.queue, rt, helper, &mut pass.seat, event);
        pass.made += 1;
        match reply {
            Ok(reply) => Ok(reply),
            Err(Memory) => Err(TurnFault::Memory),
        }
    }

    /// One turn that only looks.
    pub fn see<R: Wait>(&self, rt: &R, pass: &mut Pass<V>) -> Result<V::Seen, TurnFault>
        requires lock { Belongs self.now pass.old }
        ensures same { badge pass.new ≡ badge pass.old }
        ensures looked { IfOk result (λ seen. Looked V.legal V.by self.now.base pass.old pass.new × V.shows self.now.base pass.new.seen seen) }
        ensures only { IfErr result (λ e. e ≡ fault.Spent) }
        ensures spent { IsErrOf result fault.Spent ↔ (pass.old.made ≡ pass.old.turns) }
        ensures unchanged { IsErrOf result fault.Spent → pass.new ≡ pass.old }
        ensures within { pass.old.made ≤ pass.old.turns }
    {
        if pass.made == pass.turns {
            return Err(TurnFault::Spent);
        }
        let seen = turn::see(&self.table.shared, &self.queue, rt, &mut pass.seat);
        pass.made += 1;
        Ok(seen)
    }

    /// Takes the passes back, in their order, and gives the value.
    pub fn close(self, mut passes: Vec<Pass<V>>) -> V
        requires passes { map badge passes.items ≡ roll self }
        ensures base { V.base result ≡ self.base }
        ensures entries { ClosesWith V.legal V.by self.base (V.history result) passes.items }
    {
        let TurnLock {
            passes: _,
            queue: _,
            table,
        } = self;
        let first = passes.remove(0);
        let Pass {
            number: _,
            made: _,
            turns: _,
            mut seat,
        } = first;
        gather(&table.shared, &mut seat, passes);
        let mut closed = table.close_with(seat);
        let value = closed.take(0);
        closed.free();
        value
    }
}

/// The table with the value in its slot, and the seat of pass 1.
fn atomic_table_of<V: Logged>(
    alloc: Global,
    value: V,
    turns: u64,
) -> Result<
    (
        Table<V, View<V::Base, V::Entry>, Key<V>, TurnRule<V>, Global>,
        Seat<V, View<V::Base, V::Entry>>,
    ),
    Memory,
>
    requires turns { turns ≤ MAX_TURNS }
    requires new { V.history value ≡ [] }
    ensures lock { IfOk result (λ r. Fits r.0.shared.table_id r.1) }
    ensures key { IfOk result (λ r. (V.base r.0.shared.key.value.value ≡ V.base value) × (r.0.shared.key.turns ≡ turns)) }
    ensures first { IfOk result (λ r. r.1.me ≡ (first_view (V.base value) turns, [])) }
{
    value.attest_legal();
    let key = Key {
        value: Snapshot::of(&value),
        turns,
    };
    let mut slots = Vec::new(alloc);
    slots.push(value)?;
    match Table::new(alloc, &[0, 0], slots, &key) {
        Ok(made) => Ok(made),
        Err(_refused) => Err(Memory),
    }
}

/// All passes in their order. Pass 1 has the seat.
fn all_passes<V: Logged>(
    alloc: Global,
    shared: &Shared<V, View<V::Base, V::Entry>, Key<V>, TurnRule<V>>,
    mut seat: Seat<V, View<V::Base, V::Entry>>,
    passes: u8,
    turns: u64,
) -> Result<Vec<Pass<V>>, Memory>
    requires lock { Fits shared.now.table_id seat }
    requires count { (1 ≤ passes) × (passes ≤ 64) }
    requires first { Making turns 1 seat }
    ensures badges { IfOk result (λ v. map badge v.items ≡ record { lock = seat.table_id; number = 1; base = seat.me.0.base; turns = turns; passes = passes }
        ∷ badges seat.table_id seat.me.0.base turns 2 (passes - 1)) }
    ensures fresh { IfOk result (λ v. All IsFresh v.items) }
{
    let mut all = make_more(alloc, shared, &mut seat, passes, turns)?;
    let first = Pass {
        number: 1,
        made: 0,
        turns,
        seat,
    };
    all.insert(0, first)?;
    Ok(all)
}

/// Splits the passes from 2 on off pass 1.
fn make_more<V: Logged>(
    alloc: Global,
    shared: &Shared<V, View<V::Base, V::Entry>, Key<V>, TurnRule<V>>,
    seat: &mut Seat<V, View<V::Base, V::Entry>>,
    passes: u8,
    turns: u64,
) -> Result<Vec<Pass<V>>, Memory>
    requires lock { Fits shared.now.table_id seat.old }
    requires count { (1 ≤ passes) × (passes ≤ 64) }
    requires first { Making turns 1 seat.old }
    ensures lock { Stays seat.old seat.new }
    ensures first { IfOk result (λ _. Making turns passes seat.new × (seat.new.me.0.base ≡ seat.old.me.0.base)) }
    ensures badges { IfOk result (λ v. map badge v.items ≡ badges seat.old.table_id seat.old.me.0.base turns 2 (passes - 1)) }
    ensures fresh { IfOk result (λ v. All IsFresh v.items) }
{
    let mut others = Vec::new(alloc);
    for i in 1..passes {
        let other = shared.split_seat::<Another<V>>(seat);
        let pass = Pass {
            number: i + 1,
            made: 0,
            turns,
            seat: other,
        };
        others.push(pass)?;
    }
    Ok(others)
}

/// Joins all passes to pass 1.
fn gather<V: Logged>(
    shared: &Shared<V, View<V::Base, V::Entry>, Key<V>, TurnRule<V>>,
    seat: &mut Seat<V, View<V::Base, V::Entry>>,
    passes: Vec<Pass<V>>,
)
    requires lock { Fits shared.now.table_id seat.old }
    requires first { (seat.old.me.1 ≡ []) × (seat.old.me.0.number ≡ 1) × (seat.old.me.0.mine ≡ false) }
    requires others { All (λ p. p.lock ≡ seat.old.table_id) passes.items }
    ensures lock { Stays seat.old seat.new }
    ensures gathered { seat.new.me ≡ (all_gathered seat.old.me.0 passes.items, []) }
{
    for pass in passes {
        let Pass {
            number: _,
            made: _,
            turns: _,
            seat: other,
        } = pass;
        shared.join_seat::<Gathering<V>>(seat, other);
    }
}
