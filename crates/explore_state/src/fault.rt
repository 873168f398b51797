//! Why no exploration is opened.

ghost use Rattle.std.specs.Prelude.{◌≡◌};
ghost use Rattle.fca_model.specs.Exploration.{is_expert};
ghost use Rattle.exploration_terms.specs.Settings.{settings_of};
ghost use Rattle.explore_state.specs.Faults.{open_fault, first_break};

use attr_bits::Attrs;
use context_table::Table;
use exploration_terms::Settings;
use fca_model::{MAX_EXPERTS, Memory, NO_MEMORY};
use implication_closure::ImplicationList;
use std::alloc::AllocError;
use thiserror::Error;

/// Why no exploration was opened.
#[derive(Debug, Drop, Error)]
pub enum OpenFault {
    /// So many experts do not explore.
    #[error("{0} experts, where there may be 1 to 64")]
    BadExperts(u8),
    /// A row of the table breaks a known implication: the place of each.
    #[error("the row at place {0} breaks the known implication at place {1}")]
    RowBreaks(usize, usize),
    /// So many experts do not hold one question.
    #[error("{0} holders of one question, where there may be 1 to 64")]
    BadHolders(u8),
    /// Out of memory.
    #[error("{NO_MEMORY}")]
    Memory,
}

impl From<Memory> for OpenFault {
    ghost use Rattle.explore_state.specs.declared.fault.OpenFault.TheVariants as fault;

    ghost from_gives = { λ _ e. e ≡ fault.Memory };

    fn from(_memory: Memory) -> OpenFault {
        OpenFault::Memory
    }
}

impl From<AllocError> for OpenFault {
    ghost use Rattle.explore_state.specs.declared.fault.OpenFault.TheVariants as fault;

    ghost from_gives = { λ _ e. e ≡ fault.Memory };

    fn from(_error: AllocError) -> OpenFault {
        OpenFault::Memory
    }
}

/// Why so many experts may not explore the table under the settings, or `None`.
pub(crate) fn open_fault(table: &Table, experts: u8, settings: &Settings) -> Option<OpenFault>
    ensures { result ≡ open_fault table.now.context experts (settings_of settings.now) }
{
    if !is_expert(experts) {
        return Some(OpenFault::BadExperts(experts));
    }
    if let Some((row, index)) = first_break(table.rows().as_slice(), &settings.known) {
        return Some(OpenFault::RowBreaks(row, index));
    }
    if !is_expert(settings.holders) {
        return Some(OpenFault::BadHolders(settings.holders));
    }
    None
}

/// Whether it is the number of an expert.
pub(crate) fn is_expert(number: u8) -> bool
    ensures { result ≡ is_expert number }
{
    1 <= number && number <= MAX_EXPERTS
}

/// The place of the first row that breaks a known implication, with the place of the first implication that it breaks.
pub fn first_break(rows: &[Attrs], known: &ImplicationList) -> Option<(usize, usize)>
    ensures { result ≡ first_break known.now.members 0 rows.now }
{
    for (place, row) in rows.iter().enumerate() {
        if let Some(index) = known.first_broken(row) {
            return Some((place, index));
        }
    }
    None
}
