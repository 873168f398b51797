//! The seats of a panel, side by side.

ghost use Rattle.std.specs.Prelude.{All};
ghost use Rattle.std.specs.Thread.{IsSync};
ghost use Rattle.expert_gate.specs.Seats.{EachSeat};
ghost use Rattle.expert_panel.specs.Seats.{IsSeatOf, HasRunSeat};

use crate::attend::attend;
use crate::seat::Seat;
use expert_gate::Gate;
use explore_state::SideBySide;
use fca_model::MAX_EXPERTS;
use oracle_expert::Expert;
use std::alloc::Global;
use std::sync::Wait;
use std::thread::{Threads, join_mut};

/// Each seat's expert draws, answers and learns the replies, until it is done or a turn or an answer is refused. The experts wait for
/// each other's turns, so a turn may use as many threads as there are experts.
pub fn run_panel<X: Expert + Send, R: Threads + Wait + Sync>(
    rt: &R,
    alloc: Global,
    gate: &Gate,
    seats: &mut [Seat<X>],
)
    requires { All (IsSeatOf X.width gate.now) seats.old }
    ensures { EachSeat (HasRunSeat X.width X.memory X.answers X.learns gate.now.base) seats.old seats.new }
{
    let most_threads = seats.len().min(MAX_EXPERTS as usize) as u32;
    run_halves(rt, &alloc, &most_threads, gate, seats)
}

/// Runs the seats in halves. The allocator and the number of threads are lent: if the threads held them, what they write would be
/// lost.
fn run_halves<X: Expert + Send, R: Threads + Wait + Sync>(
    rt: &R,
    alloc: &Global,
    most_threads: &u32,
    gate: &Gate,
    seats: &mut [Seat<X>],
)
    requires { All (IsSeatOf X.width gate.now) seats.old }
    ensures { EachSeat (HasRunSeat X.width X.memory X.answers X.learns gate.now.base) seats.old seats.new }
{
    if seats.len() == 0 {
        return;
    }
    if seats.len() == 1 {
        run_seat(rt, *alloc, *most_threads, gate, &mut seats[0]);
        return;
    }
    let (front, back) = seats.split_at_mut(seats.len() / 2);
    join_mut(
        rt,
        &mut ||
            requires { IsSync R.row × All (IsSeatOf X.width gate.now) front.now }
            ensures { EachSeat (HasRunSeat X.width X.memory X.answers X.learns gate.entry.now.base) front.entry.now front.exit.now }
        { run_halves(rt, alloc, most_threads, gate, front) },
        &mut ||
            requires { IsSync R.row × All (IsSeatOf X.width gate.now) back.now }
            ensures { EachSeat (HasRunSeat X.width X.memory X.answers X.learns gate.entry.now.base) back.entry.now back.exit.now }
        { run_halves(rt, alloc, most_threads, gate, back) },
    );
}

/// Runs one seat. Its turns may use so many threads.
fn run_seat<X: Expert + Send, R: Threads + Wait + Sync>(
    rt: &R,
    alloc: Global,
    most_threads: u32,
    gate: &Gate,
    seat: &mut Seat<X>,
)
    requires { IsSeatOf X.width gate.now seat.old }
    ensures { HasRunSeat X.width X.memory X.answers X.learns gate.now.base seat.old seat.new }
{
    let search = SideBySide { rt, most_threads };
    let end = attend(rt, alloc, &search, gate, &mut seat.pass, &mut seat.expert);
    seat.ended = Some(end);
}
