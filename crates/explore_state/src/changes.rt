//! What an event does, once its reply is known.

ghost use Rattle.std.specs.Prelude.{◌≡◌, ◌≤◌, ◌<◌, ◌++◌, ◌∷◌, [], ℕ, List, OnOk, OnErr, IsOk, Some, true, false, length, vec_capacity};
ghost use Rattle.fca_model.specs.Context.{Context};
ghost use Rattle.fca_model.specs.Implications.{Rule, respects_all};
ghost use Rattle.fca_model.specs.declared.Event.TheVariants.{Confirm};
ghost use Rattle.fca_model.specs.declared.Reply.TheVariants.{Taken};
ghost use Rattle.fca_model.specs.declared.TheConstants.{MAX_EXPERTS};
ghost use Rattle.fca_model.specs.Exploration.{State, RowName, held_by, given_back, after, after_draw, after_confirm, after_row};
ghost use Rattle.exploration_terms.specs.Recorded.{is_recorded};
ghost use Rattle.explore_state.specs.Kept.{IsShown, IsDue, IsTimely, with_held};

use crate::held::{give_back, question_of};
use crate::{Event, Hold, Reply};
use attr_bits::Attrs;
use fca_model::Memory;
use level_queue::{LevelQueue, LevelSearch};

/// Changes the queue and the holds by the event, which got this reply.
pub(crate) fn change<S: LevelSearch>(
    search: &S,
    queue: &mut LevelQueue,
    held: &mut Vec<Hold>,
    event: &Event,
    reply: &Reply,
) -> Result<(), Memory>
    requires due { IsDue queue.old.known queue.old.context queue.old.accepted held.old.items event.now reply.now }
    requires room { MAX_EXPERTS ≤ vec_capacity held.old }
    ensures ok { (s : State) → IsShown s queue.old.context queue.old.accepted held.old.items
        → OnOk result (IsShown (after s event.now reply.now)
        queue.new.context queue.new.accepted held.new.items) }
    ensures known { queue.new.known ≡ queue.old.known }
    ensures err { OnErr result ((queue.new ≡ queue.old) × (held.new.items ≡ held.old.items)) }
    ensures room { vec_capacity held.new ≡ vec_capacity held.old }
    ensures succeeds { is_recorded reply.now ≡ false → IsOk result }
{
    match event {
        Event::Draw { expert } => {
            after_draw(held, *expert, reply);
            Ok(())
        }
        Event::Confirm { expert } => after_confirmation(search, queue, held, *expert, reply),
        Event::Row { expert, row, .. } => after_row(search, queue, held, *expert, row, reply),
        Event::Leave { expert } => {
            give_back(held, *expert);
            Ok(())
        }
    }
}

/// Gives the expert's hold back. Then the expert holds the question that it was asked.
fn after_draw(held: &mut Vec<Hold>, expert: u8, reply: &Reply)
    requires room { length (given_back expert held.old.items) < vec_capacity held.old }
    ensures shown { (s : State) (K : Context) (acc : List Rule) → IsShown s K acc held.old.items
        → IsShown (after_draw expert s reply.now) K acc held.new.items }
    ensures room { vec_capacity held.new ≡ vec_capacity held.old }
{
    give_back(held, expert);
    if let Reply::Ask(question) = reply {
        held.push_reserved(Hold {
            expert,
            question: *question,
        });
    }
}

/// Accepts the question if the reply says so, and gives the hold back.
fn after_confirmation<S: LevelSearch>(
    search: &S,
    queue: &mut LevelQueue,
    held: &mut Vec<Hold>,
    expert: u8,
    reply: &Reply,
) -> Result<(), Memory>
    requires due { IsDue queue.old.known queue.old.context queue.old.accepted held.old.items (Confirm expert) reply.now }
    ensures ok { (s : State) → IsShown s queue.old.context queue.old.accepted held.old.items
        → OnOk result (IsShown (after_confirm expert s reply.now)
        queue.new.context queue.new.accepted held.new.items) }
    ensures known { queue.new.known ≡ queue.old.known }
    ensures err { OnErr result ((queue.new ≡ queue.old) × (held.new.items ≡ held.old.items)) }
    ensures room { vec_capacity held.new ≡ vec_capacity held.old }
    ensures succeeds { is_recorded reply.now ≡ false → IsOk result }
{
    match reply {
        Reply::NotHeld => Ok(()),
        Reply::Accepted(_) => {
            accept_hold(search, queue, held, expert)?;
            give_back(held, expert);
            Ok(())
        }
        _ => {
            give_back(held, expert);
            Ok(())
        }
    }
}

/// Accepts the question that the expert holds.
fn accept_hold<S: LevelSearch>(
    search: &S,
    queue: &mut LevelQueue,
    held: &[Hold],
    expert: u8,
) -> Result<(), Memory>
    requires { (q : Rule) → held_by expert held.now ≡ Some q
        → IsTimely queue.old.known queue.old.context queue.old.accepted q }
    ensures ok { OnOk result (queue.new ≡ record {
      context = queue.old.context;
      known = queue.old.known;
      accepted = with_held (held_by expert held.now) queue.old.accepted;
    }) }
    ensures err { OnErr result (queue.new ≡ queue.old) }
{
    let Some(question) = question_of(held, expert) else {
        return Ok(());
    };
    match queue.place_of(&question) {
        Some(place) => queue.accept_by(search, place),
        None => unreachable!(),
    }
}

/// Records a row that was taken, and gives the hold back if the question is settled.
fn after_row<S: LevelSearch>(
    search: &S,
    queue: &mut LevelQueue,
    held: &mut Vec<Hold>,
    expert: u8,
    row: &Attrs,
    reply: &Reply,
) -> Result<(), Memory>
    requires wide { length row.now ≡ queue.old.context.width }
    requires respecting { (k : ℕ) → reply.now ≡ Taken k
        → respects_all (queue.old.known ++ queue.old.accepted) row.now ≡ true }
    ensures ok { (s : State) (name : RowName)
        → IsShown s queue.old.context queue.old.accepted held.old.items
        → OnOk result (IsShown (after_row expert name row.now s reply.now)
        queue.new.context queue.new.accepted held.new.items) }
    ensures known { queue.new.known ≡ queue.old.known }
    ensures err { OnErr result ((queue.new ≡ queue.old) × (held.new.items ≡ held.old.items)) }
    ensures room { vec_capacity held.new ≡ vec_capacity held.old }
    ensures succeeds { is_recorded reply.now ≡ false → IsOk result }
{
    match reply {
        Reply::Taken(_) => {
            queue.take_row_by(search, *row)?;
            give_back(held, expert);
            Ok(())
        }
        Reply::SupersededRow(..) => {
            give_back(held, expert);
            Ok(())
        }
        _ => Ok(()),
    }
}
