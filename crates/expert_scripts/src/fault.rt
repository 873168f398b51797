//! Why a text is not a script.

use crate::known_fault::KnownFault;
use fca_model::{Memory, NO_MEMORY};
use std::alloc::AllocFailed;
use std::error::Error;
use std::fmt;
use text_pieces::faults::{BAD_LINE, BAD_WIDTH, Description, FaultPlace};

const BAD_EXPERT: &str = "bad expert";

const BAD_HOLDERS: &str = "bad holders";

/// The first line at fault, or that memory ran out. Lines are numbered from 1.
#[derive(Debug, Drop)]
pub enum ScriptFault {
    /// The line has not the shape of any line of a script.
    BadLine(usize),
    /// The expert is not 1 to 64, or has a name already.
    BadExpert(usize),
    /// A pattern has a wrong width.
    BadWidth(usize),
    /// The number of holders is not 1 to 64, or was given before.
    BadHolders(usize),
    /// Out of memory.
    Memory,
}

impl ScriptFault {
    ghost use Rattle.expert_scripts.specs.Faults.{description};
    ghost use Rattle.std.specs.Prelude.{◌≡◌};

    /// The place of the fault and the words for it.
    pub fn description(&self) -> Description
        ensures { result ≡ description self.now }
    {
        let (place, words) = match self {
            ScriptFault::BadLine(line) => (FaultPlace::Line(*line), BAD_LINE),
            ScriptFault::BadExpert(line) => (FaultPlace::Line(*line), BAD_EXPERT),
            ScriptFault::BadWidth(line) => (FaultPlace::Line(*line), BAD_WIDTH),
            ScriptFault::BadHolders(line) => (FaultPlace::Line(*line), BAD_HOLDERS),
            ScriptFault::Memory => (FaultPlace::Whole, NO_MEMORY),
        };
        Description { place, words }
    }
}

impl fmt::Display for ScriptFault {
    ghost use Rattle.std.specs.Prelude.{Some};
    ghost use Rattle.text_pieces.specs.Faults.{description_text};
    ghost use Rattle.expert_scripts.specs.Faults.{description};

    ghost output = { λ fault. Some (description_text (description fault)) };

    fn fmt<W: fmt::Write>(&self, f: &mut fmt::Formatter<W>) -> fmt::Result {
        self.description().fmt(f)
    }
}

impl Error for ScriptFault {}

impl<T: Drop> From<AllocFailed<T>> for ScriptFault {
    ghost use Rattle.expert_scripts.specs.declared.fault.ScriptFault.TheVariants as fault;
    ghost use Rattle.std.specs.Prelude.{◌≡◌};

    ghost from_gives = { λ _ e. e ≡ fault.Memory };

    fn from(_error: AllocFailed<T>) -> ScriptFault {
        ScriptFault::Memory
    }
}

impl From<Memory> for ScriptFault {
    ghost use Rattle.expert_scripts.specs.declared.fault.ScriptFault.TheVariants as fault;
    ghost use Rattle.std.specs.Prelude.{◌≡◌};

    ghost from_gives = { λ _ e. e ≡ fault.Memory };

    fn from(_memory: Memory) -> ScriptFault {
        ScriptFault::Memory
    }
}

impl From<KnownFault> for ScriptFault {
    ghost use Rattle.expert_scripts.specs.Scripts.{rule_fault};
    ghost use Rattle.std.specs.Prelude.{◌≡◌};

    ghost from_gives = { λ fault e. e ≡ rule_fault fault };

    fn from(fault: KnownFault) -> ScriptFault {
        match fault {
            KnownFault::BadLine(number) => ScriptFault::BadLine(number),
            KnownFault::BadWidth(number) => ScriptFault::BadWidth(number),
            KnownFault::Memory => ScriptFault::Memory,
        }
    }
}
