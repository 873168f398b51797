//! A pass of a lock takes a turn, looks, and has no turn left.

ghost use Rattle.std.proofs.Common.{refl};
ghost use Rattle.std.specs.Prelude.{◌≡◌};

use fca_model::Memory;
use std::alloc::Global;
use std::sync::Wait;
use std::test::Fail;
use turn_lock::{Logged, TurnFault, TurnLock};

/// The numbers of the passes that took a turn, in their order.
#[derive(Drop)]
struct Callers {
    numbers: Vec<u8>,
}

impl Logged for Callers {
    type Event = u8;

    type Reply = usize;

    type Entry = u8;

    type Seen = usize;

    type Base = ();

    ghost base = { λ _. tt };

    ghost history = { λ s. s.numbers.items };

    ghost legal = { λ _ _. Unit {0} };

    ghost shows = { λ _ _ _. Unit {0} };

    ghost admits = { λ _ _. Unit {0} };

    ghost entry = { λ event _. event };

    ghost number = { λ event. event };

    ghost by = { λ entry. entry };

    ghost by_entry = { λ _ _. refl };

    ghost prefix = { λ _ _ _ _. tt };

    fn apply(&mut self, event: u8) -> Result<usize, Memory> {
        self.numbers.push(event)?;
        Ok(self.numbers.len())
    }

    fn seen(&self) -> usize {
        self.numbers.len()
    }

    fn attest_legal(&self) {}
}

/// What the one pass of a lock with two turns is answered: a turn, a look, and a turn too many.
fn turns<R: Wait>(rt: &R, alloc: Global) -> Result<[Result<usize, TurnFault>; 3], Memory> {
    let callers = Callers {
        numbers: Vec::new(alloc),
    };
    let (lock, mut passes) = TurnLock::new(alloc, callers, 1, 2)?;
    let Some(mut pass) = passes.pop() else {
        return Err(Memory);
    };
    let number = pass.number();
    Ok([
        lock.with_turn(rt, &mut pass, number),
        lock.see(rt, &mut pass),
        lock.with_turn(rt, &mut pass, number),
    ])
}

#[test]
fn a_pass_takes_two_turns(rt: HostRuntime) -> Result<(), Fail> {
    let answers = turns(&rt, rt.alloc())?;
    assert!(rt; matches!(answers, [Ok(1), Ok(1), Err(TurnFault::Spent)]));
    Ok(())
}
