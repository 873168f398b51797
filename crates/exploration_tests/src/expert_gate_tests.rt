//! Turns at a gate, and experts who have the exploration alone.

ghost use Rattle.std.specs.Prelude.{◌≡◌};
ghost use Rattle.turn_lock.specs.Passes.{Belongs};

use crate::tables::{named, opened};
use attr_bits::Attrs;
use expert_gate::{Desk, ExpertPass, Gate, Seen, Solo};
use explore_state::{Explore, Reply};
use fca_model::{MAX_TURNS, Memory, Name};
use std::alloc::Global;
use std::sync::Wait;
use std::test::Fail;
use turn_lock::TurnFault;

/// What looks show after a draw, after a counterexample, and after an implication is accepted.
fn looks<R: Wait>(
    rt: &R,
    gate: &Gate,
    pass: &mut ExpertPass,
    name: Name,
) -> Result<[Seen; 3], TurnFault>
    requires lock { Belongs gate.now pass.old }
    requires width { gate.now.base.table.context.width ≡ 2 }
{
    let _question = gate.draw(rt, pass)?;
    let asked = gate.see(rt, pass)?;
    let _taken = gate.row(rt, pass, name, Attrs::empty(2))?;
    let recorded = gate.see(rt, pass)?;
    let _question = gate.draw(rt, pass)?;
    let _accepted = gate.confirm(rt, pass)?;
    let accepted = gate.see(rt, pass)?;
    Ok([asked, recorded, accepted])
}

fn looks_at_a_gate<R: Wait>(rt: &R, alloc: Global) -> Result<[Seen; 3], TurnFault> {
    let (gate, mut passes) = Gate::open(alloc, opened(alloc, 1)?, MAX_TURNS)?;
    let Some(mut pass) = passes.pop() else {
        return Err(TurnFault::Memory);
    };
    looks(rt, &gate, &mut pass, named(alloc, "p")?)
}

#[test]
fn looks_count_events(rt: HostRuntime) -> Result<(), Fail> {
    let Ok(seen) = looks_at_a_gate(&rt, rt.alloc()) else {
        panic!(rt; "memory")
    };
    let numbers = [(1, 0, 0, 1), (2, 1, 0, 2), (4, 1, 1, 1)];
    for (seen, (events, rows, accepted, questions)) in seen.iter().zip(numbers) {
        assert_eq!(rt;
            *seen,
            Seen {
                events,
                rows,
                accepted,
                questions
            }
        );
    }
    Ok(())
}

/// The answers to two draws at a gate of one turn, and the exploration once it is closed.
fn two_draws<R: Wait>(
    rt: &R,
    alloc: Global,
) -> Result<([Result<Reply, TurnFault>; 2], Explore), Memory> {
    let (gate, mut passes) = Gate::open(alloc, opened(alloc, 1)?, 1)?;
    let Some(mut pass) = passes.pop() else {
        return Err(Memory);
    };
    let answers = [gate.draw(rt, &mut pass), gate.draw(rt, &mut pass)];
    passes.push(pass)?;
    Ok((answers, gate.close(passes)))
}

#[test]
fn a_gate_of_one_turn_is_spent(rt: HostRuntime) -> Result<(), Fail> {
    let (answers, explore) = two_draws(&rt, rt.alloc())?;
    assert!(rt; matches!(answers, [Ok(Reply::Ask(_)), Err(TurnFault::Spent)]));
    assert_eq!(rt; explore.journal().len(), 1);
    Ok(())
}

/// A counterexample, an implication, and the leave.
fn explored<D: Desk>(desk: &mut D, name: Name) -> Result<[Reply; 5], TurnFault>
    requires { D.attribute_count desk.old ≡ 2 }
{
    Ok([
        desk.draw()?,
        desk.row(name, Attrs::empty(2))?,
        desk.draw()?,
        desk.confirm()?,
        desk.leave()?,
    ])
}

fn explored_alone(alloc: Global) -> Result<[Reply; 5], TurnFault> {
    let mut explore = opened(alloc, 1)?;
    let mut desk = Solo {
        explore: &mut explore,
        expert: 1,
    };
    explored(&mut desk, named(alloc, "p")?)
}

#[test]
fn a_solo_desk_explores(rt: HostRuntime) -> Result<(), Fail> {
    let Ok(replies) = explored_alone(rt.alloc()) else {
        panic!(rt; "memory")
    };
    assert!(rt; matches!(replies[0], Reply::Ask(_)));
    assert!(rt; matches!(replies[1], Reply::Taken(0)));
    assert!(rt; matches!(replies[3], Reply::Accepted(0)));
    assert!(rt; matches!(replies[4], Reply::Left));
    Ok(())
}
