//! Conditions on raw values.

ghost use Rattle.std.specs.Prelude.{◌≡◌, option_copied};
ghost use Rattle.container_extract.specs.Step.{holds_by_places, is_met_at};
ghost use Rattle.container_extract.specs.Values.{compares, is_met};

use crate::values::RawValue;
use mdb_model::{Comparison, Operator};

/// How a raw number compares with a number.
fn compares(operator: Operator, raw: i128, number: i128) -> bool
    ensures { result ≡ compares operator raw number }
{
    match operator {
        Operator::Equal => raw == number,
        Operator::NotEqual => raw != number,
        Operator::Less => raw < number,
        Operator::LessOrEqual => raw <= number,
        Operator::Greater => raw > number,
        Operator::GreaterOrEqual => raw >= number,
    }
}

/// A comparison with a parameter that has no value isn't met.
fn is_met(comparison: Comparison, value: Option<&RawValue>) -> bool
    ensures { result ≡ is_met comparison (option_copied value.entry) }
{
    match value {
        None => false,
        Some(value) => compares(comparison.operator, value.raw, comparison.number),
    }
}

/// The value at a comparison's place meets it.
fn is_met_at(values: &[RawValue], comparison: Comparison, place: usize) -> bool
    ensures { result ≡ is_met_at values.now (comparison, place) }
{
    is_met(comparison, values.get(place))
}

/// Each comparison is met by the value at its place.
pub(crate) fn holds_by_places(values: &[RawValue], condition: &[(Comparison, usize)]) -> bool
    ensures { result ≡ holds_by_places values.now condition.now }
{
    condition
        .iter()
        .all(|placed| is_met_at(values, placed.0, placed.1))
}
