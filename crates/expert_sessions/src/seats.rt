//! The seats of many sessions, side by side on threads.

ghost use Rattle.std.specs.Prelude.{◌≡◌, ◌≤◌, ◌<◌, ◌+◌, [], All, map, vec_len, vec_capacity};
ghost use Rattle.std.specs.Thread.{IsSync};
ghost use Rattle.fca_model.specs.declared.TheConstants.{MAX_LINES};
ghost use Rattle.turn_lock.specs.Passes.{Belongs, IsFresh, badge};
ghost use Rattle.expert_sessions.specs.Moves.{end_state_of};
ghost use Rattle.expert_sessions.specs.Order.{ReadsWhereAnswered};
ghost use Rattle.expert_sessions.specs.Talks.{HasTalked};
ghost use Rattle.expert_gate.specs.Seats.{EachSeat};
ghost use Rattle.expert_sessions.specs.Serving.{IsReady, Suits, HasSat, entries_alone};

use crate::ended::Ended;
use crate::talk::session;
use context_table::Table;
use expert_gate::{ExpertPass, Gate, Seated};
use explore_state::SideBySide;
use fca_io::Duplex;
use std::alloc::Global;
use std::sync::Wait;
use std::thread::{Threads, join_mut};

/// One expert's place: its pass, its end, and how its session ended.
#[derive(Drop)]
pub struct SessionSeat<E> {
    pub(crate) pass: ExpertPass,
    pub(crate) end: E,
    pub(crate) ended: Ended,
}

/// The terms of all sessions: the table, the most lines of each session, and the most threads of a turn, which all other sessions
/// wait for.
#[derive(Drop)]
pub(crate) struct Terms {
    pub(crate) table: Table,
    pub(crate) lines: u32,
    pub(crate) most_threads: u32,
    pub(crate) ghost some: { 1 ≤ lines },
    pub(crate) ghost few: { lines ≤ MAX_LINES },
}

/// Runs the session of each seat.
pub(crate) fn run_seats<R: Threads + Wait + Sync, E: Duplex + Send>(
    rt: &R,
    alloc: Global,
    gate: &Gate,
    terms: &Terms,
    seats: &mut Vec<SessionSeat<E>>,
)
    requires ready { All (IsReady gate.now) seats.old.items }
    requires terms { Suits gate.now terms.now.table terms.now.lines }
    ensures { EachSeat (HasSat E.Source.left E.Sink.held E.Source.reads E.Source.faults E.Sink.faults terms.now.table terms.now.lines)
        seats.old.items seats.new.items }
{
    run_halves(rt, &alloc, gate, terms, seats.as_mut_slice())
}

/// Runs the seats in halves. The allocator is lent: if the threads held it, what they write would be lost.
fn run_halves<R: Threads + Wait + Sync, E: Duplex + Send>(
    rt: &R,
    alloc: &Global,
    gate: &Gate,
    terms: &Terms,
    seats: &mut [SessionSeat<E>],
)
    requires ready { All (IsReady gate.now) seats.old }
    requires terms { Suits gate.now terms.now.table terms.now.lines }
    ensures { EachSeat (HasSat E.Source.left E.Sink.held E.Source.reads E.Source.faults E.Sink.faults terms.now.table terms.now.lines)
        seats.old seats.new }
{
    if seats.len() == 0 {
        return;
    }
    if seats.len() == 1 {
        run_seat(rt, *alloc, gate, terms, &mut seats[0]);
        return;
    }
    let (front, back) = seats.split_at_mut(seats.len() / 2);
    join_mut(
        rt,
        &mut ||
            requires { IsSync R.row × All (IsReady gate.now) front.now × Suits gate.now terms.now.table terms.now.lines }
            ensures { EachSeat (HasSat E.Source.left E.Sink.held E.Source.reads E.Source.faults E.Sink.faults terms.entry.now.table terms.entry.now.lines)
                front.entry.now front.exit.now }
        { run_halves(rt, alloc, gate, terms, front) },
        &mut ||
            requires { IsSync R.row × All (IsReady gate.now) back.now × Suits gate.now terms.now.table terms.now.lines }
            ensures { EachSeat (HasSat E.Source.left E.Sink.held E.Source.reads E.Source.faults E.Sink.faults terms.entry.now.table terms.entry.now.lines)
                back.entry.now back.exit.now }
        { run_halves(rt, alloc, gate, terms, back) },
    );
}

/// Runs the session of one seat.
fn run_seat<R: Threads + Wait + Sync, E: Duplex>(
    rt: &R,
    alloc: Global,
    gate: &Gate,
    terms: &Terms,
    seat: &mut SessionSeat<E>,
)
    requires ready { IsReady gate.now seat.old }
    requires terms { Suits gate.now terms.now.table terms.now.lines }
    ensures { HasSat E.Source.left E.Sink.held E.Source.reads E.Source.faults E.Sink.faults terms.now.table terms.now.lines
        seat.old seat.new }
{
    seat.ended = serve_one(rt, alloc, gate, terms, &mut seat.pass, &mut seat.end);
}

/// The session of the pass's expert.
fn serve_one<R: Threads + Wait + Sync, E: Duplex>(
    rt: &R,
    alloc: Global,
    gate: &Gate,
    terms: &Terms,
    pass: &mut ExpertPass,
    end: &mut E,
) -> Ended
    requires lock { Belongs gate.now pass.old }
    requires fresh { IsFresh pass.old }
    requires terms { Suits gate.now terms.now.table terms.now.lines }
    ensures same { badge pass.new ≡ badge pass.old }
    ensures talk { HasTalked terms.now.table pass.new.number terms.now.lines
        (end_state_of E.Source.left E.Sink.held E.Source.faults E.Sink.faults end.old)
        (end_state_of E.Source.left E.Sink.held E.Source.faults E.Sink.faults end.new)
        (entries_alone []) (entries_alone pass.new.own) result }
    ensures order { ReadsWhereAnswered E.Source.left E.Sink.held E.Source.reads E.Source.faults E.Sink.faults
        terms.now.table pass.new.number end.old end.new }
{
    let expert = pass.number();
    let search = SideBySide {
        rt,
        most_threads: terms.most_threads,
    };
    let mut desk = Seated {
        rt,
        search: &search,
        gate,
        pass,
    };
    session(alloc, &mut desk, &terms.table, expert, end, terms.lines)
}

/// Makes a seat for each pass, with the end at the same place of its list. The list of seats has room for them.
pub(crate) fn fill_seats<E: Drop>(
    mut seats: Vec<SessionSeat<E>>,
    passes: Vec<ExpertPass>,
    ends: Vec<E>,
) -> Vec<SessionSeat<E>>
    requires empty { seats.items ≡ [] }
    requires many { vec_len passes ≡ vec_len ends }
    requires room { vec_len ends ≤ vec_capacity seats }
    ensures passes { map (λ seat. seat.pass) result.items ≡ passes.items }
    ensures ends { map (λ seat. seat.end) result.items ≡ ends.items }
{
    let mut ends = ends.into_iter();
    for pass in passes {
        let Some(end) = ends.next() else {
            unreachable!()
        };
        seats.push_reserved(SessionSeat {
            pass,
            end,
            ended: Ended::Memory,
        });
    }
    seats
}

/// Puts what the seats hold into lists that have room for it.
pub(crate) fn split_into<E: Drop>(
    seats: Vec<SessionSeat<E>>,
    mut passes: Vec<ExpertPass>,
    mut ends: Vec<E>,
    mut all_ended: Vec<Ended>,
) -> (Vec<ExpertPass>, Vec<E>, Vec<Ended>)
    requires empty { (passes.items ≡ []) × (ends.items ≡ []) × (all_ended.items ≡ []) }
    requires room { (vec_len seats ≤ vec_capacity passes)
        × (vec_len seats ≤ vec_capacity ends) × (vec_len seats ≤ vec_capacity all_ended) }
    ensures passes { result.0.items ≡ map (λ seat. seat.pass) seats.items }
    ensures ends { result.1.items ≡ map (λ seat. seat.end) seats.items }
    ensures ended { result.2.items ≡ map (λ seat. seat.ended) seats.items }
{
    for seat in seats {
        let SessionSeat { pass, end, ended } = seat;
        passes.push_reserved(pass);
        ends.push_reserved(end);
        all_ended.push_reserved(ended);
    }
    (passes, ends, all_ended)
}
