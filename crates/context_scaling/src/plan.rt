//! Plans of scalings.

ghost use Rattle.std.specs.Prelude.{◌≡◌, ◌<◌, Some, length, slice_get};
ghost use Rattle.context_scaling.specs.Scaling.{made_names};

use crate::scales::{Kind, ScaleValue};
use fca_model::Name;
use indexmap::IndexSet;
use std::marker::Model;

/// An attribute of a table of values, with a scale for it.
#[derive(Drop)]
pub struct PlanRecord {
    /// The kind of the scale.
    pub(crate) kind: Kind,
    /// The name of the attribute.
    pub(crate) attribute: Name,
    /// The place of the attribute in the table of values, from 0.
    pub(crate) place: usize,
    /// The values of the scale, in the order in which the plan gives them: texts if the scale is nominal, and else numbers.
    pub(crate) values: Vec<ScaleValue>,
}

impl Model for PlanRecord {
    ghost use Rattle.context_scaling.specs.Scaling.{PlanRecord};

    ghost Value = { PlanRecord };

    ghost view = { λ r. record { kind = r.kind; attribute = r.attribute; place = r.place; values = r.values.items } };
}

/// Attributes with their scales. Contracts see the list of them.
#[derive(Drop)]
pub struct Plan {
    /// The records, in the order of the plan.
    records: Vec<PlanRecord>,
    /// The names of the attributes that the records make, each once, in the order in which they make them.
    names: IndexSet<Name>,
}

impl Model for Plan {
    ghost use Rattle.std.specs.Prelude.{List, ◌≡◌};
    ghost use Rattle.context_scaling.specs.Scaling.{PlanRecord, made_names};

    ghost Value = { List PlanRecord };

    ghost view = { λ p. p.records.items };

    ghost invariant = { λ p. p.names.keys ≡ made_names p.records.items };
}

impl Plan {
    /// The plan of these records, which make these names.
    pub(crate) fn of(records: Vec<PlanRecord>, names: IndexSet<Name>) -> Plan
        requires { names.keys ≡ made_names records.items }
        ensures { result ≡ records.items }
    {
        Plan { records, names }
    }

    /// The number of records.
    pub fn len(&self) -> usize
        ensures { result ≡ length self.now }
    {
        self.records.len()
    }

    /// The records in their order.
    pub(crate) fn records(&self) -> &[PlanRecord]
        ensures { result.now ≡ self.now }
    {
        self.records.as_slice()
    }

    /// Record k.
    pub(crate) fn record(&self, k: usize) -> &PlanRecord
        requires { k < length self.now }
        ensures { Some result.now ≡ slice_get self.now k }
    {
        &self.records[k]
    }

    /// The names of the attributes that the plan makes.
    pub(crate) fn names(&self) -> &[Name]
        ensures { result.now ≡ made_names self.now }
    {
        self.names.as_slice()
    }
}
