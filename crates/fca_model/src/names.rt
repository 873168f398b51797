//! Names of objects, attributes and experts, and titles of tables.

ghost use Rattle.std.specs.Prelude.{◌≡◌, ◌↔◌, nat_lt, length, Some, None, IfOk, OnOk, IsErrOf};
ghost use Rattle.std.specs.Str.{bytes_eq};
ghost use Rattle.std.specs.Ordering.{nat_cmp};
ghost use Rattle.std.specs.Cmp;
ghost use Rattle.std.specs.Cmp.Lexicographic.{slice_cmp, nat_list_eq_equiv, nat_list_cmp_total, texts_ties, texts_po};
ghost use Rattle.std.specs.Hash as fed;
ghost use Rattle.std.proofs.Common.{refl};
ghost use Rattle.std.specs.List.{list_any};
ghost use Rattle.fca_model.specs.Names.{IsName, is_line_break, name_fault};

use crate::{MAX_NAME_BYTES, Memory, NO_MEMORY};
use std::alloc::{AllocError, Global};
use std::cmp::Ordering;
use std::hash::{Hash, Hasher};
use std::marker::Model;
use thiserror::Error;

/// Why a text is no name.
#[derive(Debug, Drop, Error)]
pub enum NameFault {
    #[error("the name is empty")]
    Empty,
    #[error("the name has more than {MAX_NAME_BYTES} bytes")]
    Long,
    #[error("the name has a line break")]
    Line,
    #[error("{NO_MEMORY}")]
    Memory,
}

impl From<AllocError> for NameFault {
    ghost use Rattle.fca_model.specs.declared.names.NameFault.TheVariants as fault;

    ghost from_gives = { λ _ e. e ≡ fault.Memory };

    fn from(_error: AllocError) -> NameFault {
        NameFault::Memory
    }
}

/// A text that fits on one line. Contracts see its bytes.
#[derive(Drop)]
pub struct Name {
    text: String,
}

impl Model for Name {
    ghost use Rattle.std.specs.Prelude.{◌≡◌, List, ℕ, None};
    ghost use Rattle.std.specs.String.{string_bytes};
    ghost use Rattle.fca_model.specs.Names.{name_fault};

    ghost Value = { List ℕ };

    ghost view = { λ name. string_bytes name.text };

    ghost invariant = { λ name. name_fault (string_bytes name.text) ≡ None };
}

impl Name {
    /// The name with this text.
    pub fn new(alloc: Global, text: &str) -> Result<Name, NameFault>
        ensures named { IfOk result (λ name. name ≡ text.now) }
        ensures faultless { OnOk result (name_fault text.now ≡ None) }
        ensures empty { IsErrOf result NameFault.Empty ↔ (name_fault text.now ≡ Some NameFault.Empty) }
        ensures long { IsErrOf result NameFault.Long ↔ (name_fault text.now ≡ Some NameFault.Long) }
        ensures line { IsErrOf result NameFault.Line ↔ (name_fault text.now ≡ Some NameFault.Line) }
    {
        match fault_of(text.as_bytes()) {
            Some(fault) => Err(fault),
            None => Ok(Name {
                text: String::from_str(alloc, text)?,
            }),
        }
    }

    /// An equal name.
    pub fn copy(&self) -> Result<Name, Memory>
        ensures { IfOk result (λ name. name ≡ self.now) }
    {
        let text = self.text.clone()?;
        Ok(Name { text })
    }

    /// The bytes of the name.
    pub fn bytes(&self) -> &[u8]
        ensures value { result.now ≡ self.now }
        ensures name { IsName self.now }
    {
        self.text().as_bytes()
    }

    /// The text of the name.
    pub fn text(&self) -> &str
        ensures value { result.now ≡ self.now }
        ensures name { IsName self.now }
    {
        self.text.as_str()
    }
}

fn is_long(bytes: &[u8]) -> bool
    ensures { result ≡ nat_lt MAX_NAME_BYTES (length bytes.now) }
{
    bytes.len() > MAX_NAME_BYTES
}

fn has_line_break(bytes: &[u8]) -> bool
    ensures { result ≡ list_any is_line_break bytes.now }
{
    bytes.iter().any(|byte| *byte == b'\n' || *byte == b'\r')
}

/// Why the bytes are no name, if they are none.
fn fault_of(bytes: &[u8]) -> Option<NameFault>
    ensures { result ≡ name_fault bytes.now }
{
    if bytes.is_empty() {
        Some(NameFault::Empty)
    } else if is_long(bytes) {
        Some(NameFault::Long)
    } else if has_line_break(bytes) {
        Some(NameFault::Line)
    } else {
        None
    }
}

impl PartialEq for Name {
    ghost eq = { bytes_eq };

    ghost laws = { Cmp.partial_equiv_from_equiv nat_list_eq_equiv };

    fn eq(&self, other: &Name) -> bool {
        self.bytes() == other.bytes()
    }
}

impl Eq for Name {
    ghost laws = { nat_list_eq_equiv };
}

impl PartialOrd for Name {
    ghost partial_cmp = { λ x y. Some (slice_cmp nat_cmp x y) };

    ghost laws = { texts_po };

    fn partial_cmp(&self, other: &Name) -> Option<Ordering> {
        Some(self.cmp(other))
    }
}

impl Ord for Name {
    ghost cmp = { slice_cmp nat_cmp };

    ghost total = { nat_list_cmp_total };

    ghost matches_partial_cmp = { λ x y. refl };

    ghost matches_eq = { texts_ties };

    fn cmp(&self, other: &Name) -> Ordering {
        self.bytes().cmp(other.bytes())
    }
}

impl Hash for Name {
    ghost use Rattle.std.specs.Cmp.Rules.{hashing};
    ghost use Rattle.std.proofs.Common.{rules};

    ghost hash_input = { λ s. fed.slice fed.u8 s };

    ghost respects_eq = { Prim.search (hashing, rules) };

    fn hash<H: Hasher>(&self, state: &mut H) {
        self.bytes().hash(state);
    }
}
