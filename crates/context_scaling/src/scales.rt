//! Scales, and the relations of a value to their scale values.

ghost use Rattle.std.specs.Prelude.{◌≡◌, int_le};
ghost use Rattle.value_tables.specs.Numbers.{number_of};
ghost use Rattle.context_scaling.specs.Scaling.{some_and, stands};

use fca_model::Name;

/// The kinds of scales.
#[derive(Clone, Copy, Debug, PartialEq, Eq)]
pub enum Kind {
    /// Whether a value is this one.
    Nominal,
    /// Whether a number is at most this one.
    Ordinal,
    /// Whether a number is at most this one, and whether it is at least this one.
    Interordinal,
}

/// How a value may stand to a scale value.
#[derive(Clone, Copy, Debug, PartialEq, Eq)]
pub enum Relation {
    /// The value is the scale value.
    Equal,
    /// The number is at most the scale value.
    AtMost,
    /// The number is at least the scale value.
    AtLeast,
}

/// A value of a scale.
#[derive(Drop)]
pub enum ScaleValue {
    /// A text, of a nominal scale.
    Text(Name),
    /// A number, of an ordinal or interordinal scale.
    Number(i64),
}

/// Whether the text, which is that number if it is one, stands in this relation to the scale value.
pub(crate) fn stands(
    text: &[u8],
    number: Option<i64>,
    relation: Relation,
    value: &ScaleValue,
) -> bool
    requires { number ≡ number_of text.now }
    ensures { result ≡ stands text.now relation value.now }
{
    match (relation, value) {
        (Relation::Equal, ScaleValue::Text(word)) => !text.is_empty() && text == word.bytes(),
        (Relation::AtMost, ScaleValue::Number(bound)) => is_at_most(number, *bound),
        (Relation::AtLeast, ScaleValue::Number(bound)) => is_at_least(number, *bound),
        _ => false,
    }
}

/// Whether there is a number and it is at most the bound.
fn is_at_most(number: Option<i64>, bound: i64) -> bool
    ensures { result ≡ some_and (λ n. int_le n bound) number }
{
    match number {
        Some(n) => n <= bound,
        None => false,
    }
}

/// Whether there is a number and it is at least the bound.
fn is_at_least(number: Option<i64>, bound: i64) -> bool
    ensures { result ≡ some_and (λ n. int_le bound n) number }
{
    match number {
        Some(n) => bound <= n,
        None => false,
    }
}
