//! Two seats at once.

ghost use Rattle.std.specs.Prelude.{◌≡◌, [], IfOk, map};

use crate::tables::opened;
use expert_gate::{ExpertPass, Gate};
use expert_panel::{Seat, SeatEnd, run_panel, seat_experts};
use explore_state::{Entry, Event, Explore, Question, Reply};
use fca_model::{MAX_TURNS, Memory};
use oracle_expert::{Answer, Expert};
use std::alloc::Global;
use std::hint;
use std::sync::Wait;
use std::sync::atomic::{AtomicU64, Ordering};
use std::test::Fail;
use std::thread::Threads;

/// How often an expert looks whether the other was asked, before it gives up.
const LOOKS: u64 = 500_000_000;

/// Confirms, and holds each answer until the other expert was asked.
#[derive(Drop)]
struct Meeting<'a> {
    asked: &'a AtomicU64,
    other: &'a AtomicU64,
    met: bool,
}

impl Expert for Meeting<'_> {
    type Memory = ();

    ghost memory = { λ _. tt };

    ghost width = { λ _. 2 };

    ghost answers = { λ _ _ _ _. Unit {0} };

    ghost learns = { λ _ _ _. Unit {0} };

    fn answer(&mut self, _alloc: Global, _question: &Question) -> Result<Answer, Memory> {
        self.asked.store(1, Ordering::SeqCst);
        for _ in 0..LOOKS {
            if self.other.load(Ordering::SeqCst) == 1 {
                self.met = true;
                break;
            }
            hint::spin_loop();
        }
        Ok(Answer::Confirm)
    }

    fn told(&mut self, _reply: &Reply) {}
}

/// Draws once: it has no memory for an answer.
#[derive(Drop)]
struct Silent;

impl Expert for Silent {
    type Memory = ();

    ghost memory = { λ _. tt };

    ghost width = { λ _. 2 };

    ghost answers = { λ _ _ _ _. Unit {0} };

    ghost learns = { λ _ _ _. Unit {0} };

    fn answer(&mut self, _alloc: Global, _question: &Question) -> Result<Answer, Memory> {
        Err(Memory)
    }

    fn told(&mut self, _reply: &Reply) {}
}

/// The passes of the seats.
fn passes_of(alloc: Global, seats: Vec<Seat<Silent>>) -> Result<Vec<ExpertPass>, Memory>
    ensures { IfOk result (λ passes. passes.items ≡ map (λ seat. seat.pass) seats.items) }
{
    let mut passes = Vec::new(alloc);
    for seat in seats {
        let Seat {
            pass,
            expert: _,
            ended: _,
        } = seat;
        passes.push(pass)?;
    }
    Ok(passes)
}

/// The exploration after two experts drew once, each on a thread of its own.
fn two_draws<R: Threads + Wait + Sync>(rt: &R, alloc: Global) -> Result<Explore, Memory> {
    let (gate, passes) = Gate::open(alloc, opened(alloc, 2)?, MAX_TURNS)?;
    let mut experts = Vec::new(alloc);
    experts.push(Silent)?;
    experts.push(Silent)?;
    if passes.len() != experts.len() {
        return Err(Memory);
    }
    let mut seats = seat_experts(alloc, passes, experts)?;
    run_panel(rt, alloc, &gate, seats.as_mut_slice());
    let passes = passes_of(alloc, seats)?;
    Ok(gate.close(passes))
}

/// The expert of a draw, and 0 of another event.
fn expert_of(entry: &Entry) -> u8 {
    match entry.event {
        Event::Draw { expert } => expert,
        _ => 0,
    }
}

/// Whether the entry is a draw to which the question from the empty set was put.
fn is_first_draw(entry: &Entry) -> bool {
    expert_of(entry) != 0
        && matches!(&entry.reply, Reply::Ask(question) if question.premise.size() == 0)
}

#[test]
fn two_threads_draw(rt: HostRuntime) -> Result<(), Fail> {
    let explore = two_draws(&rt, rt.alloc())?;
    let [first, second] = explore.journal() else {
        panic!(rt; "not two entries")
    };
    assert!(rt; is_first_draw(first) && is_first_draw(second));
    assert_ne!(rt; expert_of(first), expert_of(second));
    Ok(())
}

/// Whether each of two experts was asked while the other held its answer.
fn meet<R: Threads + Wait + Sync>(rt: &R, alloc: Global) -> Result<bool, Memory> {
    let (gate, passes) = Gate::open(alloc, opened(alloc, 2)?, MAX_TURNS)?;
    let flags = [AtomicU64::new(0), AtomicU64::new(0)];
    let mut experts = Vec::new(alloc);
    experts.push(Meeting {
        asked: &flags[0],
        other: &flags[1],
        met: false,
    })?;
    experts.push(Meeting {
        asked: &flags[1],
        other: &flags[0],
        met: false,
    })?;
    if passes.len() != experts.len() {
        return Err(Memory);
    }
    let mut seats = seat_experts(alloc, passes, experts)?;
    run_panel(rt, alloc, &gate, seats.as_mut_slice());
    Ok(seats.iter().all(|seat| seat.expert.met && seat.ended == Some(SeatEnd::Done)))
}

#[test]
fn two_seats_run_at_once(rt: HostRuntime) -> Result<(), Fail> {
    let Ok(met) = meet(&rt, rt.alloc()) else {
        panic!(rt; "memory")
    };
    assert!(rt; met);
    Ok(())
}
