//! The CSV form of tables: the reader and the writer of `.csv` files, and the reader of records for other forms.
#![tactic(auto)]

ghost use Rattle.std.specs.Prelude.{◌≡◌};

mod cells;
mod fields;
pub mod laws;
mod lines;
mod read;
mod records;
mod write;

use fca_model::{Memory, NO_MEMORY};
pub use fields::{as_text, field_at};
pub use lines::{next_field, next_line, read_fields, unquoted_bytes};
pub use read::read_csv;
pub use records::{next_record, open};
use std::alloc::{AllocError, AllocFailed};
use std::error::Error;
use std::fmt;
use text_pieces::faults::{
    BAD_NAME, DUPLICATE_ATTRIBUTE, Description, EMPTY_NAME, FaultPlace, LONG_NAME, NO_HEADER,
    NOT_UTF8, RAGGED, TOO_MANY_ATTRIBUTES,
};
pub use write::write_csv;

const BAD_CELL: &str = "bad cell";

const TOO_MANY_OBJECTS: &str = "too many objects";

/// Why bytes are no table in the CSV form. Records and fields are numbered from 1.
#[derive(Drop)]
pub enum CsvFault {
    /// The number of bytes before the first that begins no whole character.
    NotUtf8(usize),
    NoHeader,
    RaggedRecord(usize),
    BadCell(usize, usize),
    EmptyName(usize, usize),
    LongName(usize, usize),
    BadName(usize, usize),
    DuplicateAttribute(usize),
    TooManyAttributes,
    TooManyObjects,
    Memory,
}

impl CsvFault {
    ghost use Rattle.csv_context.specs.Faults.{description};

    /// The place of the fault and the words for it.
    pub fn description(&self) -> Description
        ensures { result ≡ description self.now }
    {
        let (place, words) = match self {
            CsvFault::NotUtf8(at) => (FaultPlace::Byte(*at), NOT_UTF8),
            CsvFault::NoHeader => (FaultPlace::Whole, NO_HEADER),
            CsvFault::RaggedRecord(record) => (FaultPlace::Record(*record), RAGGED),
            CsvFault::BadCell(record, field) => (FaultPlace::Field(*record, *field), BAD_CELL),
            CsvFault::EmptyName(record, field) => (FaultPlace::Field(*record, *field), EMPTY_NAME),
            CsvFault::LongName(record, field) => (FaultPlace::Field(*record, *field), LONG_NAME),
            CsvFault::BadName(record, field) => (FaultPlace::Field(*record, *field), BAD_NAME),
            CsvFault::DuplicateAttribute(field) => (
                FaultPlace::Field(1, *field),
                DUPLICATE_ATTRIBUTE,
            ),
            CsvFault::TooManyAttributes => (FaultPlace::Whole, TOO_MANY_ATTRIBUTES),
            CsvFault::TooManyObjects => (FaultPlace::Whole, TOO_MANY_OBJECTS),
            CsvFault::Memory => (FaultPlace::Whole, NO_MEMORY),
        };
        Description { place, words }
    }
}

impl fmt::Display for CsvFault {
    ghost use Rattle.std.specs.Prelude.{Some};
    ghost use Rattle.text_pieces.specs.Faults.{description_text};
    ghost use Rattle.csv_context.specs.Faults.{description};

    ghost output = { λ fault. Some (description_text (description fault)) };

    fn fmt<W: fmt::Write>(&self, f: &mut fmt::Formatter<W>) -> fmt::Result {
        self.description().fmt(f)
    }
}

impl fmt::Debug for CsvFault {
    fn fmt<W: fmt::Write>(&self, f: &mut fmt::Formatter<W>) -> fmt::Result {
        fmt::Display::fmt(self, f)
    }
}

impl Error for CsvFault {}

impl From<AllocError> for CsvFault {
    ghost use Rattle.csv_context.specs.declared.CsvFault.TheVariants as fault;

    ghost from_gives = { λ _ e. e ≡ fault.Memory };

    fn from(_error: AllocError) -> CsvFault {
        CsvFault::Memory
    }
}

impl<T: Drop> From<AllocFailed<T>> for CsvFault {
    ghost use Rattle.csv_context.specs.declared.CsvFault.TheVariants as fault;

    ghost from_gives = { λ _ e. e ≡ fault.Memory };

    fn from(_error: AllocFailed<T>) -> CsvFault {
        CsvFault::Memory
    }
}

impl From<Memory> for CsvFault {
    ghost use Rattle.csv_context.specs.declared.CsvFault.TheVariants as fault;

    ghost from_gives = { λ _ e. e ≡ fault.Memory };

    fn from(_error: Memory) -> CsvFault {
        CsvFault::Memory
    }
}
