//! Reading back: what a row says of the value that it was made from.

ghost use Rattle.std.specs.Prelude.{◌≡◌, ◌<◌, ◌≤◌, ◌+◌, ℕ, Some, drop, length, take};
ghost use Rattle.value_tables.specs.Values.{ValueTable, object_at, value_at};
ghost use Rattle.context_scaling.specs.Scaling.{Fits, made_names, names_of, object_row};
ghost use Rattle.context_scaling.specs.Back.{GivesBack, single_place, back_at, begin_of, back_between, is_narrower, narrowest_bound};
ghost use Rattle.context_scaling.specs.Back.{narrower_bound, narrower_bound_of, places_from, plan_record_at};

use crate::plan::{Plan, PlanRecord};
use crate::scales::{Kind, Relation, ScaleValue};
use attr_bits::Attrs;

/// What a row says of the value of one attribute. Scale values are counted from 0.
#[derive(Clone, Copy, Debug, PartialEq, Eq)]
pub enum Back {
    /// It has no attribute of the scale.
    Nothing,
    /// It has several attributes of a nominal scale, so no value has this row.
    Several,
    /// The value is this scale value.
    Value(usize),
    /// The greatest scale value that the number is at least, and the least that it is at most.
    Between(Option<i64>, Option<i64>),
}

/// What the row says by record k of the plan, counted from 0.
pub fn read_back(plan: &Plan, k: usize, row: &Attrs) -> Back
    requires record { k < length plan.now }
    requires width { length row.now ≡ length (made_names plan.now) }
    ensures back { result ≡ back_at plan.now k row.now }
    ensures value { (t : ValueTable) (g : ℕ) → Fits plan.now t → row.now ≡ object_row plan.now (object_at t g)
        → GivesBack (plan_record_at plan.now k).kind (plan_record_at plan.now k).values (value_at (plan_record_at plan.now k).place (object_at t g)) result }
{
    back_at(plan, k, row)
}

/// What the row says by record k of the plan, by the kind of its scale.
fn back_at(plan: &Plan, k: usize, row: &Attrs) -> Back
    requires record { k < length plan.now }
    requires width { length row.now ≡ length (made_names plan.now) }
    ensures { result ≡ back_at plan.now k row.now }
{
    let planned = plan.record(k);
    let first = begin_of(plan, k, row.width());
    match planned.kind {
        Kind::Nominal => single_place(row, first, planned.values.len()),
        Kind::Ordinal => back_between(
            None,
            narrowest_bound(Relation::AtMost, row, first, &planned.values),
        ),
        Kind::Interordinal => {
            let second = first + planned.values.len() as u32;
            let low = narrowest_bound(Relation::AtLeast, row, second, &planned.values);
            let high = narrowest_bound(Relation::AtMost, row, first, &planned.values);
            back_between(low, high)
        }
    }
}

/// The place at which the attributes of record k begin.
fn begin_of(plan: &Plan, k: usize, width: u32) -> u32
    requires record { k < length plan.now }
    requires width { length (made_names plan.now) ≡ width }
    ensures begin { result ≡ begin_of plan.now k }
    ensures room { result + length (names_of (plan_record_at plan.now k)) ≤ width }
{
    let mut begin = 0;
    for planned in &plan.records()[..k] {
        begin += width_of(planned);
    }
    begin as u32
}

/// The number of attributes that the record makes.
fn width_of(planned: &PlanRecord) -> usize
    requires { length planned.now.values < 4294967296 }
    ensures { result ≡ length (names_of planned.now) }
{
    match planned.kind {
        Kind::Nominal | Kind::Ordinal => planned.values.len(),
        Kind::Interordinal => 2 * planned.values.len(),
    }
}

/// The one of these places that is in the row.
fn single_place(row: &Attrs, first: u32, count: usize) -> Back
    requires { first + count ≤ length row.now }
    ensures { result ≡ single_place (places_from 0 (take count (drop first row.now))) }
{
    let _width = row.width();
    let mut found = None;
    for p in 0..count {
        if row.has(first + p as u32) {
            if found.is_some() {
                return Back::Several;
            }
            found = Some(p);
        }
    }
    match found {
        Some(p) => Back::Value(p),
        None => Back::Nothing,
    }
}

/// The narrowest of the bounds whose place is in the row.
fn narrowest_bound(
    relation: Relation,
    row: &Attrs,
    first: u32,
    values: &[ScaleValue],
) -> Option<i64>
    requires { first + length values.now ≤ length row.now }
    ensures { result ≡ narrowest_bound relation (drop first row.now) values.now }
{
    let _width = row.width();
    let mut best = None;
    for (p, value) in values.iter().enumerate() {
        if row.has(first + p as u32) {
            best = narrower_bound_of(relation, best, value);
        }
    }
    best
}

/// The narrower of the best bound so far and this scale value, if that is a number.
fn narrower_bound_of(relation: Relation, best: Option<i64>, value: &ScaleValue) -> Option<i64>
    ensures { result ≡ narrower_bound_of relation best value.now }
{
    match value {
        ScaleValue::Text(_) => best,
        ScaleValue::Number(bound) => narrower_bound(relation, best, *bound),
    }
}

/// The narrower of the best bound so far and this one.
fn narrower_bound(relation: Relation, best: Option<i64>, bound: i64) -> Option<i64>
    ensures { result ≡ narrower_bound relation best bound }
{
    match best {
        Some(other) if is_narrower(relation, other, bound) => best,
        _ => Some(bound),
    }
}

/// Whether the first bound is at least as narrow as the second.
fn is_narrower(relation: Relation, first: i64, second: i64) -> bool
    ensures { result ≡ is_narrower relation first second }
{
    match relation {
        Relation::Equal => false,
        Relation::AtMost => first <= second,
        Relation::AtLeast => second <= first,
    }
}

/// The bounds, or nothing if there are none.
fn back_between(low: Option<i64>, high: Option<i64>) -> Back
    ensures { result ≡ back_between low high }
{
    if low.is_none() && high.is_none() {
        Back::Nothing
    } else {
        Back::Between(low, high)
    }
}
