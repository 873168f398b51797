//! Many sessions at once: one expert for each end, all at one gate.

ghost use Rattle.std.specs.Prelude.{◌≡◌, ◌≤◌, ◌<◌, ◌+◌, ◌⊎◌, ℕ, [], All, IfOk, IfErr, map, vec_len};
ghost use Rattle.fca_model.specs.declared.TheConstants.{MAX_LINES, MAX_TURNS};
ghost use Rattle.fca_model.specs.Exploration.{own};
ghost use Rattle.turn_lock.specs.Passes.{badge, roll, IsFresh};
ghost use Rattle.expert_gate.specs.Histories.{IsHistory};
ghost use Rattle.expert_sessions.specs.Serving.{EachTalks};
ghost use Rattle.expert_sessions.specs.Rooms.{IsEmpty, HasRoom};

use crate::ended::Ended;
use crate::seats::{SessionSeat, Terms, fill_seats, run_seats, split_into};
use expert_gate::{ExpertPass, Gate};
use explore_state::Explore;
use fca_io::Duplex;
use fca_model::Memory;
use std::alloc::Global;
use std::sync::Wait;
use std::thread::Threads;

/// An exploration by sessions, once all have ended.
#[derive(Drop)]
pub struct Served<E> {
    /// The exploration, with its journal.
    pub explore: Explore,
    /// The ends, in the order of their experts.
    pub ends: Vec<E>,
    /// How each session ended.
    pub ended: Vec<Ended>,
}

/// Memory ran out before the first session.
#[derive(Drop)]
pub struct Unserved<E> {
    /// The ends as they were.
    pub ends: Vec<E>,
}

/// Lets experts go through an exploration in which nothing was done yet. Expert k works over the k-th end. At most `lines` lines are
/// answered there, and each expert may make `turns` turns.
pub fn serve_ends<R: Threads + Wait + Sync, E: Duplex + Send + Drop>(
    rt: &R,
    alloc: Global,
    explore: Explore,
    ends: Vec<E>,
    lines: u32,
    turns: u64,
) -> Result<Served<E>, Unserved<E>>
    requires new { explore.journal ≡ [] }
    requires ends { explore.opening.experts ≡ vec_len ends }
    requires lines { (1 ≤ lines) × (lines ≤ MAX_LINES) }
    requires turns { (lines + 1 < turns) × (turns ≤ MAX_TURNS) }
    ensures opening { IfOk result (λ r. r.explore.opening ≡ explore.opening) }
    ensures history { IfOk result (λ r. IsHistory r.explore.opening r.explore.journal) }
    ensures talks { IfOk result (λ r. EachTalks E.Source.left E.Sink.held E.Source.reads E.Source.faults E.Sink.faults explore.opening.table lines
        r.explore.journal 1 ends.items r.ends.items r.ended.items) }
    ensures others { IfOk result (λ r. (e : ℕ) → (e ≡ 0) ⊎ (vec_len ends < e) → own r.explore.journal e ≡ []) }
    ensures untouched { IfErr result (λ e. e.ends ≡ ends) }
{
    let Ok(hall) = open_hall(alloc, explore, lines, turns) else {
        return Err(Unserved { ends });
    };
    let Hall {
        terms,
        gate,
        passes,
        room,
    } = hall;
    let mut seats = fill_seats(room.seats, passes, ends);
    run_seats(rt, alloc, &gate, &terms, &mut seats);
    let (passes, ends, ended) = split_into(seats, room.passes, room.ends, room.ended);
    Ok(Served {
        explore: gate.close(passes),
        ends,
        ended,
    })
}

/// Room for the seats and for what they hold.
#[derive(Drop)]
struct Room<E> {
    seats: Vec<SessionSeat<E>>,
    passes: Vec<ExpertPass>,
    ends: Vec<E>,
    ended: Vec<Ended>,
}

/// All that the sessions need.
struct Hall<E> {
    terms: Terms,
    gate: Gate,
    passes: Vec<ExpertPass>,
    room: Room<E>,
}

/// Opens the gate of the exploration, and makes room for its experts.
fn open_hall<E: Drop>(
    alloc: Global,
    explore: Explore,
    lines: u32,
    turns: u64,
) -> Result<Hall<E>, Memory>
    requires new { explore.journal ≡ [] }
    requires lines { (1 ≤ lines) × (lines ≤ MAX_LINES) }
    requires turns { (1 ≤ turns) × (turns ≤ MAX_TURNS) }
    ensures terms { IfOk result (λ h. (h.terms.table ≡ explore.opening.table) × (h.terms.lines ≡ lines)) }
    ensures base { IfOk result (λ h. h.gate.base ≡ explore.opening) }
    ensures counts { IfOk result (λ h. (h.gate.turns ≡ turns) × (h.gate.passes ≡ explore.opening.experts)) }
    ensures some { IfOk result (λ h. 1 ≤ h.gate.passes) }
    ensures passes { IfOk result (λ h. map badge h.passes.items ≡ roll h.gate) }
    ensures fresh { IfOk result (λ h. All IsFresh h.passes.items) }
    ensures empty { IfOk result (λ h. IsEmpty h.room) }
    ensures room { IfOk result (λ h. HasRoom explore.opening.experts h.room) }
{
    let Ok((terms, room)) = prepare(alloc, &explore, lines) else {
        drop(explore);
        return Err(Memory);
    };
    let (gate, passes) = Gate::open(alloc, explore, turns)?;
    Ok(Hall {
        terms,
        gate,
        passes,
        room,
    })
}

/// The terms of the sessions over the exploration, and room for its experts.
fn prepare<E: Drop>(
    alloc: Global,
    explore: &Explore,
    lines: u32,
) -> Result<(Terms, Room<E>), Memory>
    requires lines { (1 ≤ lines) × (lines ≤ MAX_LINES) }
    ensures terms { IfOk result (λ r. (r.0.table ≡ explore.now.opening.table) × (r.0.lines ≡ lines)) }
    ensures empty { IfOk result (λ r. IsEmpty r.1) }
    ensures room { IfOk result (λ r. HasRoom explore.now.opening.experts r.1) }
{
    let room = make_room(alloc, usize::from(explore.experts()))?;
    let table = explore.table().copy()?;
    let most_threads = u32::from(explore.experts());
    let terms = Terms {
        table,
        lines,
        most_threads,
    };
    Ok((terms, room))
}

/// Room for so many seats.
fn make_room<E: Drop>(alloc: Global, count: usize) -> Result<Room<E>, Memory>
    ensures empty { IfOk result IsEmpty }
    ensures room { IfOk result (HasRoom count) }
{
    Ok(Room {
        seats: Vec::with_capacity(alloc, count)?,
        passes: Vec::with_capacity(alloc, count)?,
        ends: Vec::with_capacity(alloc, count)?,
        ended: Vec::with_capacity(alloc, count)?,
    })
}
