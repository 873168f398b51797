//! Why a text is not a known file.

use fca_model::{Memory, NO_MEMORY};
use std::error::Error;
use std::fmt;
use text_pieces::faults::{BAD_LINE, BAD_WIDTH, Description, FaultPlace};

/// The first line at fault, or that memory ran out. Lines are numbered from 1.
#[derive(Debug, Drop)]
pub enum KnownFault {
    /// The line does not begin with two patterns.
    BadLine(usize),
    /// A pattern has a wrong width.
    BadWidth(usize),
    /// Out of memory.
    Memory,
}

impl KnownFault {
    ghost use Rattle.expert_scripts.specs.KnownFaults.{description};
    ghost use Rattle.std.specs.Prelude.{◌≡◌};

    /// The place of the fault and the words for it.
    pub fn description(&self) -> Description
        ensures { result ≡ description self.now }
    {
        let (place, words) = match self {
            KnownFault::BadLine(line) => (FaultPlace::Line(*line), BAD_LINE),
            KnownFault::BadWidth(line) => (FaultPlace::Line(*line), BAD_WIDTH),
            KnownFault::Memory => (FaultPlace::Whole, NO_MEMORY),
        };
        Description { place, words }
    }
}

impl fmt::Display for KnownFault {
    ghost use Rattle.std.specs.Prelude.{Some};
    ghost use Rattle.text_pieces.specs.Faults.{description_text};
    ghost use Rattle.expert_scripts.specs.KnownFaults.{description};

    ghost output = { λ fault. Some (description_text (description fault)) };

    fn fmt<W: fmt::Write>(&self, f: &mut fmt::Formatter<W>) -> fmt::Result {
        self.description().fmt(f)
    }
}

impl Error for KnownFault {}

impl From<Memory> for KnownFault {
    ghost use Rattle.expert_scripts.specs.declared.known_fault.KnownFault.TheVariants as fault;
    ghost use Rattle.std.specs.Prelude.{◌≡◌};

    ghost from_gives = { λ _ e. e ≡ fault.Memory };

    fn from(_memory: Memory) -> KnownFault {
        KnownFault::Memory
    }
}
