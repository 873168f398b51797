//! The Burmeister form of tables: the reader and the writer of `.cxt` files.
#![tactic(auto)]

ghost use Rattle.std.specs.Prelude.{◌≡◌};

mod cells;
pub mod laws;
mod line_readers;
mod narrow;
mod read;
mod write;

use fca_model::{Memory, NO_MEMORY};
pub use narrow::read_narrow_cxt;
pub use read::read_cxt;
use std::alloc::{AllocError, AllocFailed};
use std::error::Error;
use std::fmt;
use text_pieces::faults::{
    BAD_NAME, DUPLICATE_ATTRIBUTE, Description, EMPTY_NAME, FaultPlace, LONG_NAME, NOT_UTF8,
    TOO_MANY,
};
pub use write::write_cxt;

const NOT_B: &str = "not B";

const BAD_COUNT: &str = "bad count";

const ENDED: &str = "ended";

const BAD_ROW: &str = "bad row";

const TRAILING_TEXT: &str = "trailing text";

/// Why bytes are no table in the Burmeister form. Lines are numbered from 1.
#[derive(Drop)]
pub enum CxtFault {
    /// The number of bytes before the first that begins no whole character.
    NotUtf8(usize),
    NotB,
    BadCount(usize),
    TooMany(usize),
    Ended(usize),
    EmptyName(usize),
    LongName(usize),
    BadName(usize),
    DuplicateAttribute(usize),
    BadRow(usize),
    Trailing(usize),
    Memory,
}

impl CxtFault {
    ghost use Rattle.cxt_format.specs.Faults.{description};

    /// The place of the fault and the words for it.
    pub fn description(&self) -> Description
        ensures { result ≡ description self.now }
    {
        let (place, words) = match self {
            CxtFault::NotUtf8(at) => (FaultPlace::Byte(*at), NOT_UTF8),
            CxtFault::NotB => (FaultPlace::Line(1), NOT_B),
            CxtFault::BadCount(line) => (FaultPlace::Line(*line), BAD_COUNT),
            CxtFault::TooMany(line) => (FaultPlace::Line(*line), TOO_MANY),
            CxtFault::Ended(line) => (FaultPlace::Line(*line), ENDED),
            CxtFault::EmptyName(line) => (FaultPlace::Line(*line), EMPTY_NAME),
            CxtFault::LongName(line) => (FaultPlace::Line(*line), LONG_NAME),
            CxtFault::BadName(line) => (FaultPlace::Line(*line), BAD_NAME),
            CxtFault::DuplicateAttribute(line) => (FaultPlace::Line(*line), DUPLICATE_ATTRIBUTE),
            CxtFault::BadRow(line) => (FaultPlace::Line(*line), BAD_ROW),
            CxtFault::Trailing(line) => (FaultPlace::Line(*line), TRAILING_TEXT),
            CxtFault::Memory => (FaultPlace::Whole, NO_MEMORY),
        };
        Description { place, words }
    }
}

impl fmt::Display for CxtFault {
    ghost use Rattle.std.specs.Prelude.{Some};
    ghost use Rattle.text_pieces.specs.Faults.{description_text};
    ghost use Rattle.cxt_format.specs.Faults.{description};

    ghost output = { λ fault. Some (description_text (description fault)) };

    fn fmt<W: fmt::Write>(&self, f: &mut fmt::Formatter<W>) -> fmt::Result {
        self.description().fmt(f)
    }
}

impl fmt::Debug for CxtFault {
    fn fmt<W: fmt::Write>(&self, f: &mut fmt::Formatter<W>) -> fmt::Result {
        fmt::Display::fmt(self, f)
    }
}

impl Error for CxtFault {}

impl From<AllocError> for CxtFault {
    ghost use Rattle.cxt_format.specs.declared.CxtFault.TheVariants as fault;

    ghost from_gives = { λ _ e. e ≡ fault.Memory };

    fn from(_error: AllocError) -> CxtFault {
        CxtFault::Memory
    }
}

impl<T: Drop> From<AllocFailed<T>> for CxtFault {
    ghost use Rattle.cxt_format.specs.declared.CxtFault.TheVariants as fault;

    ghost from_gives = { λ _ e. e ≡ fault.Memory };

    fn from(_error: AllocFailed<T>) -> CxtFault {
        CxtFault::Memory
    }
}

impl From<Memory> for CxtFault {
    ghost use Rattle.cxt_format.specs.declared.CxtFault.TheVariants as fault;

    ghost from_gives = { λ _ e. e ≡ fault.Memory };

    fn from(_error: Memory) -> CxtFault {
        CxtFault::Memory
    }
}
