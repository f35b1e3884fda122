//! What the columns of a row are.

ghost use Rattle.std.specs.Prelude.{◌≡◌};
ghost use Rattle.ssql_types.specs.Columns as spec;
ghost use Rattle.ssql_types.specs.declared.columns.ColumnKind.TheVariants as kind;

use crate::rules::Rule;
use ssql_conditions::predicate::NumberColumn;
use ssql_tokens::{Column, ComparisonOperator};

/// Of what kind a column's values are.
#[derive(Clone, Copy, Debug, PartialEq, Eq)]
pub enum ColumnKind {
    /// A number.
    Number(NumberColumn),
    /// The name of the packet.
    Pname,
    /// The packet's octets, which are compared with nothing.
    Packet,
}

/// Of what kind a column's values are.
pub(crate) fn column_kind(column: Column) -> ColumnKind
    ensures { result ≡ spec.column_kind column }
{
    match column {
        Column::Gentime => ColumnKind::Number(NumberColumn::Gentime),
        Column::SeqNum => ColumnKind::Number(NumberColumn::SeqNum),
        Column::Rectime => ColumnKind::Number(NumberColumn::Rectime),
        Column::Link => ColumnKind::Number(NumberColumn::Link),
        Column::Pname => ColumnKind::Pname,
        Column::Apid => ColumnKind::Number(NumberColumn::Apid),
        Column::Length => ColumnKind::Number(NumberColumn::Length),
        Column::Packet => ColumnKind::Packet,
    }
}

/// Whether a column is a TIMESTAMP, which a time text may be compared with.
pub(crate) fn is_timestamp(column: NumberColumn) -> bool
    ensures { result ≡ spec.is_timestamp column }
{
    matches!(column, NumberColumn::Gentime | NumberColumn::Rectime)
}

/// Whether an operator is `=`.
pub(crate) fn is_equality(operator: ComparisonOperator) -> bool
    ensures { result ≡ spec.is_equality operator }
{
    matches!(operator, ComparisonOperator::Equal)
}

/// The rule that an operator breaks against packet names, which have no order.
pub(crate) fn name_operator_rule(operator: ComparisonOperator) -> Option<Rule>
    ensures { result ≡ spec.operator_rule kind.Pname operator }
{
    match operator {
        ComparisonOperator::Equal
        | ComparisonOperator::LessOrGreater
        | ComparisonOperator::NotEqual => None,
        ComparisonOperator::Less
        | ComparisonOperator::LessOrEqual
        | ComparisonOperator::Greater
        | ComparisonOperator::GreaterOrEqual => Some(Rule::WrongType),
    }
}
