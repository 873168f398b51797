//! Tables of values: the reader of `.csv` files whose cells are values and not crosses, and the tests of
//! their fields.
#![tactic(auto)]

ghost use Rattle.std.specs.Prelude.{◌≡◌};

mod cells;
mod fields;
pub mod laws;
mod numbers;
mod pieces;
mod read;
mod values;

use fca_model::{Memory, NO_MEMORY};
pub use fields::{FieldKind, first_bad, name_at};
pub use numbers::number_of;
pub use read::read_values;
use std::alloc::{AllocError, AllocFailed};
use std::fmt;
use text_pieces::faults::{DUPLICATE_ATTRIBUTE, NO_HEADER, NOT_UTF8, RAGGED, TOO_MANY};
use thiserror::Error;
pub use values::Values;

/// Why bytes are no table of values. Records and fields are numbered from 1.
#[derive(Drop, Error)]
pub enum ValuesFault {
    /// The number of bytes before the first that begins no whole character.
    #[error("byte {0}: {NOT_UTF8}")]
    NotUtf8(usize),
    #[error("{NO_HEADER}")]
    NoHeader,
    #[error("record {0}: {TOO_MANY}")]
    TooMany(usize),
    #[error("record {0}: {RAGGED}")]
    RaggedRecord(usize),
    #[error("record {0}: field {1}: bad field")]
    BadField(usize, usize),
    #[error("record 1: field {0}: {DUPLICATE_ATTRIBUTE}")]
    DuplicateAttribute(usize),
    #[error("{NO_MEMORY}")]
    Memory,
}

impl fmt::Debug for ValuesFault {
    fn fmt<W: fmt::Write>(&self, f: &mut fmt::Formatter<W>) -> fmt::Result {
        fmt::Display::fmt(self, f)
    }
}

impl From<AllocError> for ValuesFault {
    ghost use Rattle.value_tables.specs.declared.ValuesFault.TheVariants as fault;

    ghost from_gives = { λ _ e. e ≡ fault.Memory };

    fn from(_error: AllocError) -> ValuesFault {
        ValuesFault::Memory
    }
}

impl<T: Drop> From<AllocFailed<T>> for ValuesFault {
    ghost use Rattle.value_tables.specs.declared.ValuesFault.TheVariants as fault;

    ghost from_gives = { λ _ e. e ≡ fault.Memory };

    fn from(_error: AllocFailed<T>) -> ValuesFault {
        ValuesFault::Memory
    }
}

impl From<Memory> for ValuesFault {
    ghost use Rattle.value_tables.specs.declared.ValuesFault.TheVariants as fault;

    ghost from_gives = { λ _ e. e ≡ fault.Memory };

    fn from(_error: Memory) -> ValuesFault {
        ValuesFault::Memory
    }
}
