//! Why a command stops and writes no text.

ghost use Rattle.std.specs.Prelude.{◌≡◌, option_copied, unwrap_or};
ghost use Rattle.command_io.specs.Endings.{stop_status};
ghost use Rattle.command_io.specs.ErrLines.{stop_origin, file_at_fault};

use context_scaling::PlanFault;
use csv_context::CsvFault;
use cxt_format::CxtFault;
use expert_scripts::{KnownFault, ScriptFault};
use fca_model::{Memory, Word};
use std::alloc::{AllocError, AllocFailed};
use value_tables::ValuesFault;

/// Where bytes come from that a command reads.
#[derive(Clone, Copy)]
pub enum Origin {
    /// The first file that its words name.
    File,
    /// The known file.
    Known,
    /// A file that they name after these, by its place among those.
    Later(usize),
    Input,
}

/// Why a command writes no text.
#[derive(Drop)]
pub enum Stop {
    NoCommand,
    TooLong(Origin),
    NoCxt(Origin, CxtFault),
    NoCsv(Origin, CsvFault),
    BadValues(Origin, ValuesFault),
    BadPlan(Origin, PlanFault),
    NoKnown(KnownFault),
    /// The row at the first place breaks the known implication at the second. The origin says what the message names: the table if a known file has the
    /// implication, the script if it says it itself.
    RowBreaks(Origin, usize, usize),
    NoScript(ScriptFault),
    UnknownAttribute,
    /// An expert's table has other attributes than the table that is explored.
    OtherAttributes(Origin),
    ReadFault(Origin),
    ListenerFault,
    Memory,
}

impl From<Memory> for Stop {
    ghost use Rattle.command_io.specs.declared.stop.Stop.TheVariants as stop;

    ghost from_gives = { λ _ s. s ≡ stop.Memory };

    fn from(_memory: Memory) -> Stop {
        Stop::Memory
    }
}

impl From<AllocError> for Stop {
    ghost use Rattle.command_io.specs.declared.stop.Stop.TheVariants as stop;

    ghost from_gives = { λ _ s. s ≡ stop.Memory };

    fn from(_error: AllocError) -> Stop {
        Stop::Memory
    }
}

impl<T: Drop> From<AllocFailed<T>> for Stop {
    ghost use Rattle.command_io.specs.declared.stop.Stop.TheVariants as stop;

    ghost from_gives = { λ _ s. s ≡ stop.Memory };

    fn from(_error: AllocFailed<T>) -> Stop {
        Stop::Memory
    }
}

impl Stop {
    /// What is at fault. If a stop names nothing, it is the first file.
    pub fn origin(&self) -> Origin
        ensures { result ≡ stop_origin self.now }
    {
        match self {
            Stop::TooLong(origin)
            | Stop::NoCxt(origin, _)
            | Stop::NoCsv(origin, _)
            | Stop::BadValues(origin, _)
            | Stop::BadPlan(origin, _)
            | Stop::RowBreaks(origin, ..)
            | Stop::OtherAttributes(origin)
            | Stop::ReadFault(origin) => *origin,
            Stop::NoKnown(_) => Origin::Known,
            _ => Origin::File,
        }
    }

    /// The status of the program.
    pub fn status(&self) -> u8
        ensures { result ≡ stop_status self.now }
    {
        match self {
            Stop::NoCommand => 1,
            Stop::TooLong(_)
            | Stop::NoCxt(..)
            | Stop::NoCsv(..)
            | Stop::BadValues(..)
            | Stop::BadPlan(..)
            | Stop::NoKnown(_)
            | Stop::RowBreaks(..)
            | Stop::NoScript(_)
            | Stop::UnknownAttribute
            | Stop::OtherAttributes(_) => 2,
            Stop::ReadFault(_) => 3,
            Stop::Memory => 5,
            Stop::ListenerFault => 7,
        }
    }
}

/// The name of the file at fault, of the first file, the known file and the later ones.
pub fn file_at_fault<'a>(
    stop: &Stop,
    file: &'a Word,
    known: Option<&'a Word>,
    later: &'a [Word],
) -> &'a [u8]
    ensures { result.now ≡ file_at_fault file.now (option_copied known.entry) later.now stop.now }
{
    match stop.origin() {
        Origin::Known => name_or(known, file),
        Origin::Later(place) => name_or(later.get(place), file),
        Origin::File | Origin::Input => file.bytes(),
    }
}

/// The first name, if there is one, or else the other.
fn name_or<'a>(name: Option<&'a Word>, other: &'a Word) -> &'a [u8]
    ensures { result.now ≡ unwrap_or (option_copied name.entry) other.now }
{
    match name {
        Some(word) => word.bytes(),
        None => other.bytes(),
    }
}
