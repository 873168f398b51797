//! One turn, step by step.

ghost use mathlib.Core.Option.{none};
ghost use Rattle.atomic_table.specs.Table.{step};
ghost use Rattle.std.specs.Bool.{MatchBool};
ghost use Rattle.std.specs.Prelude.{◌≡◌, ◌+◌, ◌*◌, ◌<◌, false, true, ◌∷◌, [], Some, None, IfOk, OnErr};
ghost use Rattle.turn_lock.specs.Passes.{badge, Entered, Looked};
ghost use Rattle.turn_lock.specs.Seats.{pass_of, IsIdle, Waits, Fits, Stays};
ghost use Rattle.turn_lock.specs.Steps.{Drew, Came, HasTurn, MayEnd, ended_view};

use crate::applies::Applies;
use crate::logged::Logged;
use crate::queue::{NAPS, QUIET_SPINS, Queue, SPINS, nap};
use crate::rule::{Coming, Drawing, Key, TurnEnd, TurnRule};
use crate::view::View;
use atomic_table::{Seat, Shared};
use fca_model::Memory;
use std::hint;
use std::sync::Wait;
use std::thread::Parker;
use std::time::Duration;

/// Whether each ticket that was drawn has had its turn. It looks for a while.
fn is_quiet<V: Logged>(shared: &Shared<V, View<V::Base, V::Entry>, Key<V>, TurnRule<V>>) -> bool
    requires { shared.now.table_id.words ≡ 2 }
{
    for _ in 0..QUIET_SPINS {
        if shared.peek(0) == shared.peek(1) {
            return true;
        }
        hint::spin_loop();
    }
    false
}

/// Waits until each ticket that was drawn has had its turn, or for some naps.
fn wait_for_quiet<V: Logged, R: Wait>(
    shared: &Shared<V, View<V::Base, V::Entry>, Key<V>, TurnRule<V>>,
    rt: &R,
)
    requires { shared.now.table_id.words ≡ 2 }
{
    for naps in 0..NAPS {
        if is_quiet(shared) {
            return;
        }
        Parker::new().park_timeout(rt, nap(naps));
    }
}

/// Draws a ticket. If there are other passes, it first waits until the lock is quiet, though not for ever.
fn draw_ticket<V: Logged, R: Wait>(
    shared: &Shared<V, View<V::Base, V::Entry>, Key<V>, TurnRule<V>>,
    queue: &Queue,
    rt: &R,
    seat: &mut Seat<V, View<V::Base, V::Entry>>,
) -> u64
    requires lock { Fits shared.now.table_id seat.old }
    requires idle { IsIdle V.by seat.old }
    requires left { seat.old.me.0.drawn < seat.old.me.0.turns * seat.old.me.0.stands }
    ensures lock { Stays seat.old seat.new }
    ensures drew { Drew (step 1 0 1 0 none) seat.old.me result seat.new.me }
{
    if queue.is_shared() {
        wait_for_quiet(shared, rt);
    }
    shared.fetch_add::<Drawing<V>>(seat, 0, 1)
}

/// Looks once whether the turn of the pass has come, and gives the number of ended turns.
fn come<V: Logged>(
    shared: &Shared<V, View<V::Base, V::Entry>, Key<V>, TurnRule<V>>,
    seat: &mut Seat<V, View<V::Base, V::Entry>>,
) -> u64
    requires lock { Fits shared.now.table_id seat.old }
    requires waits { (0 < seat.old.me.0.number) × (seat.old.me.0.mine ≡ false) }
    ensures lock { Stays seat.old seat.new }
    ensures came { Came V.base V.history V.legal V.by (step 1 1 0 0 none) seat.old.me result seat.new.me }
{
    shared.load::<Coming<V>>(seat, 1)
}

/// Whether the ticket's turn has come.
fn has_come<V: Logged>(
    shared: &Shared<V, View<V::Base, V::Entry>, Key<V>, TurnRule<V>>,
    seat: &mut Seat<V, View<V::Base, V::Entry>>,
    ticket: u64,
) -> bool
    requires lock { Fits shared.now.table_id seat.old }
    requires waits { Waits ticket seat.old }
    ensures lock { Stays seat.old seat.new }
    ensures come { MatchBool result (HasTurn V.base V.history V.legal V.by seat.old.me seat.new.me) (seat.new.me ≡ seat.old.me) }
{
    come(shared, seat) == ticket
}

/// Waits until the ticket's turn has come.
fn wait<V: Logged, R: Wait>(
    shared: &Shared<V, View<V::Base, V::Entry>, Key<V>, TurnRule<V>>,
    queue: &Queue,
    rt: &R,
    seat: &mut Seat<V, View<V::Base, V::Entry>>,
    ticket: u64,
)
    requires lock { Fits shared.now.table_id seat.old }
    requires waits { Waits ticket seat.old }
    ensures lock { Stays seat.old seat.new }
    ensures turn { HasTurn V.base V.history V.legal V.by seat.old.me seat.new.me }
{
    let mut looks = 0u32;
    for _ in rt.forever() {
        if has_come(shared, seat, ticket) {
            return;
        }
        let turns = ticket.abs_diff(shared.peek(1));
        if turns <= 1 && looks < SPINS {
            looks += 1;
            hint::spin_loop();
        } else {
            let most = Duration::from_millis(turns);
            queue.place(ticket).park_timeout(rt, most);
        }
    }
    unreachable!()
}

/// Gives the slot back, and ends the turn.
fn end<V: Logged>(
    shared: &Shared<V, View<V::Base, V::Entry>, Key<V>, TurnRule<V>>,
    queue: &Queue,
    seat: &mut Seat<V, View<V::Base, V::Entry>>,
)
    requires lock { Fits shared.now.table_id seat.old }
    requires turn { MayEnd V.base V.history V.legal V.by seat.old.me }
    ensures lock { Stays seat.old seat.new }
    ensures ended { (value : V) → seat.old.me.1 ≡ (0, value) ∷ []
        → (seat.new.me.1 ≡ []) × (seat.new.me.0 ≡ ended_view V.by (V.history value) seat.old.me.0) }
{
    let ended = shared.fetch_add::<TurnEnd<V>>(seat, 1, 1);
    let next = ended.wrapping_add(1);
    if queue.is_shared() && shared.peek(0) > next {
        queue.call(next);
    }
}

/// One turn with this event, by a pass that has a turn left.
pub fn run_turn<V: Logged, A: Applies<V>, R: Wait>(
    shared: &Shared<V, View<V::Base, V::Entry>, Key<V>, TurnRule<V>>,
    queue: &Queue,
    rt: &R,
    helper: &A,
    seat: &mut Seat<V, View<V::Base, V::Entry>>,
    event: V::Event,
) -> Result<V::Reply, Memory>
    requires lock { Fits shared.now.table_id seat.old }
    requires idle { IsIdle V.by seat.old }
    requires left { seat.old.me.0.drawn < seat.old.me.0.turns }
    requires event { (b : V.Base) → seat.old.me.0.base ≡ Some b → V.admits b event }
    requires number { V.number event ≡ seat.old.me.0.number }
    ensures lock { Stays seat.old seat.new }
    ensures idle { IsIdle V.by seat.new }
    ensures same { badge (pass_of seat.new) ≡ badge (pass_of seat.old) }
    ensures made { seat.new.me.0.drawn ≡ seat.old.me.0.drawn + 1 }
    ensures entry { IfOk result (λ reply. (b : V.Base) → seat.old.me.0.base ≡ Some b → Entered V.legal V.by b (pass_of seat.old) (V.entry event reply) (pass_of seat.new)) }
    ensures memory { OnErr result ((b : V.Base) → seat.old.me.0.base ≡ Some b → Looked V.legal V.by b (pass_of seat.old) (pass_of seat.new)) }
{
    let ticket = draw_ticket(shared, queue, rt, seat);
    wait(shared, queue, rt, seat, ticket);
    let reply = helper.apply(seat.slot_mut(shared, 0), event);
    end(shared, queue, seat);
    reply
}

/// One turn that only looks.
pub fn see<V: Logged, R: Wait>(
    shared: &Shared<V, View<V::Base, V::Entry>, Key<V>, TurnRule<V>>,
    queue: &Queue,
    rt: &R,
    seat: &mut Seat<V, View<V::Base, V::Entry>>,
) -> V::Seen
    requires lock { Fits shared.now.table_id seat.old }
    requires idle { IsIdle V.by seat.old }
    requires left { seat.old.me.0.drawn < seat.old.me.0.turns }
    ensures lock { Stays seat.old seat.new }
    ensures idle { IsIdle V.by seat.new }
    ensures same { badge (pass_of seat.new) ≡ badge (pass_of seat.old) }
    ensures made { seat.new.me.0.drawn ≡ seat.old.me.0.drawn + 1 }
    ensures looked { (b : V.Base) → seat.old.me.0.base ≡ Some b → Looked V.legal V.by b (pass_of seat.old) (pass_of seat.new) }
    ensures shown { (b : V.Base) → seat.old.me.0.base ≡ Some b → V.shows b seat.new.me.0.seen result }
{
    let ticket = draw_ticket(shared, queue, rt, seat);
    wait(shared, queue, rt, seat, ticket);
    let seen = seat.slot_mut(shared, 0).seen();
    end(shared, queue, seat);
    seen
}
