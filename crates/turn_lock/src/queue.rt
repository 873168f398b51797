//! How passes wait for their turns.
//!
//! This is a matter of time alone. The rule of the lock says nothing of it, and a pass that wakes looks again.

ghost use Rattle.std.specs.Prelude.{◌≡◌, ◌*◌, ◌^◌, ◌<◌, ◌↔◌, IsTrue, min};
ghost use Rattle.std.specs.Duration.{as_nanos};

use std::array;
use std::thread::Parker;
use std::time::Duration;

/// One place for each pass that a lock may have. So if two tickets have one place, the later is drawn after the turn of the earlier.
const PLACES: usize = 64;

/// How often a pass with a ticket looks before it sleeps.
pub const SPINS: u32 = 2048;

/// How often a pass without a ticket looks before it naps. This takes less time than a turn, so the holder may have the next turns too.
pub const QUIET_SPINS: u32 = 64;

/// The most naps of a pass before it draws a ticket behind others.
pub const NAPS: u32 = 16;

/// The most times that a nap is twice as long as the one before.
const GROWTHS: u32 = 5;

/// The microseconds of the first nap.
const FIRST_NAP: u64 = 32;

/// The places where passes with tickets sleep until they are called, and how many passes there are.
#[derive(Drop)]
pub struct Queue {
    places: [Parker; PLACES],
    passes: u8,
}

impl Queue {
    /// The queue of a lock with so many passes.
    pub fn new(passes: u8) -> Queue
        ensures { result.passes ≡ passes }
    {
        Queue {
            places: array::from_fn(|_| Parker::new()),
            passes,
        }
    }

    /// Whether a pass may have to wait for another.
    pub fn is_shared(&self) -> bool
        ensures { IsTrue result ↔ (1 < self.now.passes) }
    {
        self.passes > 1
    }

    /// Where the pass with this ticket sleeps.
    pub fn place(&self, ticket: u64) -> &Parker {
        &self.places[(ticket % PLACES as u64) as usize]
    }

    /// Wakes the pass that has this ticket, if it sleeps.
    pub fn call(&self, ticket: u64) {
        self.place(ticket).unpark();
    }
}

/// The length of the next nap of a pass that has napped so often.
pub fn nap(naps: u32) -> Duration
    ensures { as_nanos result ≡ FIRST_NAP * 2 ^ min naps GROWTHS * 1_000 }
{
    Duration::from_micros(FIRST_NAP << naps.min(GROWTHS))
}
