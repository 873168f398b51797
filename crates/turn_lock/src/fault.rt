//! Why a turn was refused.

ghost use Rattle.std.specs.Prelude.{◌≡◌};

use fca_model::{Memory, NO_MEMORY};
use thiserror::Error;

/// Why a turn came to no reply.
#[derive(Clone, Copy, Debug, Error)]
pub enum TurnFault {
    /// The pass has made all its turns. No turn was made.
    #[error("no turn is left")]
    Spent,

    /// The turn was made, and no event was logged.
    #[error("{NO_MEMORY}")]
    Memory,
}

impl From<Memory> for TurnFault {
    ghost use Rattle.turn_lock.specs.declared.fault.TurnFault.TheVariants as fault;

    ghost from_gives = { λ _ e. e ≡ fault.Memory };

    fn from(_memory: Memory) -> TurnFault {
        TurnFault::Memory
    }
}
