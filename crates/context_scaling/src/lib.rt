//! Conceptual scaling: a table of values and a plan become a context (Ganter and Wille, "Formal Concept
//! Analysis", 1999). The reader of tables of values, which stands in `value_tables`, is given out with it.
#![tactic(auto)]

ghost use Rattle.std.specs.Prelude.{◌≡◌};

mod back;
pub mod laws;
mod partial_row;
mod plan;
mod read;
mod scales;
mod scaling;

pub use back::{Back, read_back};
use fca_model::{Memory, NO_MEMORY};
pub use plan::{Plan, PlanRecord};
pub use read::read_plan;
pub use scales::{Kind, Relation, ScaleValue};
pub use scaling::scale;
use std::alloc::{AllocError, AllocFailed};
use std::fmt;
use text_pieces::faults::{BAD_NAME, NOT_UTF8, TOO_MANY_ATTRIBUTES, UNKNOWN_ATTRIBUTE};
use thiserror::Error;
pub use value_tables::{Values, ValuesFault, read_values};

/// Why bytes are no plan for a table of values. Records and fields are numbered from 1, objects from 0.
#[derive(Drop, Error)]
pub enum PlanFault {
    /// The number of bytes before the first that begins no whole character.
    #[error("byte {0}: {NOT_UTF8}")]
    NotUtf8(usize),
    #[error("record {0}: bad kind")]
    BadKind(usize),
    #[error("record {0}: {UNKNOWN_ATTRIBUTE}")]
    UnknownAttribute(usize),
    #[error("record {0}: field {1}: bad scale value")]
    BadScale(usize, usize),
    #[error("record {0}: the value of object {1} is no number")]
    BadValue(usize, usize),
    #[error("record {0}: field {1}: {BAD_NAME}")]
    BadName(usize, usize),
    #[error("record {0}: {TOO_MANY_ATTRIBUTES}")]
    TooMany(usize),
    #[error("{NO_MEMORY}")]
    Memory,
}

impl fmt::Debug for PlanFault {
    fn fmt<W: fmt::Write>(&self, f: &mut fmt::Formatter<W>) -> fmt::Result {
        fmt::Display::fmt(self, f)
    }
}

impl From<AllocError> for PlanFault {
    ghost use Rattle.context_scaling.specs.declared.PlanFault.TheVariants as fault;

    ghost from_gives = { λ _ e. e ≡ fault.Memory };

    fn from(_error: AllocError) -> PlanFault {
        PlanFault::Memory
    }
}

impl<T: Drop> From<AllocFailed<T>> for PlanFault {
    ghost use Rattle.context_scaling.specs.declared.PlanFault.TheVariants as fault;

    ghost from_gives = { λ _ e. e ≡ fault.Memory };

    fn from(_error: AllocFailed<T>) -> PlanFault {
        PlanFault::Memory
    }
}

impl From<Memory> for PlanFault {
    ghost use Rattle.context_scaling.specs.declared.PlanFault.TheVariants as fault;

    ghost from_gives = { λ _ e. e ≡ fault.Memory };

    fn from(_error: Memory) -> PlanFault {
        PlanFault::Memory
    }
}
