//! The description of a fault in a text: its place and its words.

use std::fmt;
use std::marker::Model;

// The words of faults that several forms have.
pub const NOT_UTF8: &str = "not UTF-8";

pub const EMPTY_NAME: &str = "empty name";

pub const LONG_NAME: &str = "long name";

pub const BAD_NAME: &str = "bad name";

pub const DUPLICATE_ATTRIBUTE: &str = "duplicate attribute";

pub const BAD_LINE: &str = "bad line";

pub const BAD_WIDTH: &str = "bad width";

pub const NO_HEADER: &str = "no header";

pub const RAGGED: &str = "ragged";

pub const TOO_MANY: &str = "too many";

pub const TOO_MANY_ATTRIBUTES: &str = "too many attributes";

pub const UNKNOWN_ATTRIBUTE: &str = "unknown attribute";

/// The place of a fault in a text. Lines, records and fields are numbered from 1.
#[derive(Clone, Copy, Debug)]
pub enum FaultPlace {
    /// The text as a whole.
    Whole,
    /// The number of bytes before the fault.
    Byte(usize),
    Line(usize),
    Record(usize),
    /// The record, and the field in it.
    Field(usize, usize),
}

/// The place of a fault and the words for it.
#[derive(Debug, Drop)]
pub struct Description {
    pub place: FaultPlace,
    pub words: &'static str,
}

impl Model for Description {
    ghost use Rattle.fca_model.specs.Tables.{Text};
    ghost use Rattle.text_pieces.specs.declared.faults.FaultPlace.{FaultPlace};

    ghost Value = { FaultPlace × Text };

    ghost view = { λ d. (d.place, d.words.now) };
}

impl fmt::Display for Description {
    ghost use Rattle.std.specs.Prelude.{Some};
    ghost use Rattle.text_pieces.specs.Faults.{description_text};

    ghost output = { λ d. Some (description_text d) };

    fn fmt<W: fmt::Write>(&self, f: &mut fmt::Formatter<W>) -> fmt::Result {
        let words = self.words;
        match self.place {
            FaultPlace::Whole => write!(f, "{words}"),
            FaultPlace::Byte(at) => write!(f, "byte {at}: {words}"),
            FaultPlace::Line(at) => write!(f, "line {at}: {words}"),
            FaultPlace::Record(at) => write!(f, "record {at}: {words}"),
            FaultPlace::Field(at, field) => write!(f, "record {at}: field {field}: {words}"),
        }
    }
}
