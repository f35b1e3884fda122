//! What literals stand for.

ghost use Rattle.std.specs.Prelude.{◌≡◌, ◌<◌, ◌≤◌, ◌^◌, length, IfOk, IfErr, Some, None};
ghost use Rattle.ssql_types.specs.Literals as spec;
ghost use Rattle.ssql_types.specs.Columns.{literal_rule, time_rule};
ghost use Rattle.ssql_types.specs.declared.columns.ColumnKind.TheVariants as kind;

use crate::columns::is_timestamp;
use crate::names::number_among;
use crate::rules::Rule;
use arch_types::name::Names;
use ssql_conditions::predicate::NumberColumn;
use ssql_parse::Literal;
use text_forms::digits_at_most;
use time_text::read_time_octets;

/// A number of digits, up to 2^63 - 1.
fn up_to_greatest(number: u128) -> Option<i64>
    ensures { result ≡ spec.up_to_greatest number }
{
    if number <= 9_223_372_036_854_775_807 {
        Some(number as i64)
    } else {
        None
    }
}

/// The negative of a number of digits, down to -2^63.
fn down_to_least(number: u128) -> Option<i64>
    ensures { result ≡ spec.down_to_least number }
{
    if number <= 9_223_372_036_854_775_808 {
        Some(-(number as i128) as i64)
    } else {
        None
    }
}

/// The number that an optional `-` and 1 to 20 digits spell, where it lies from -2^63 to 2^63 - 1.
fn script_number(text: &[u8]) -> Option<i64>
    ensures { result ≡ spec.script_number text.now }
{
    if let [b'-', digits @ ..] = text {
        down_to_least(digits_at_most(20, digits)?)
    } else {
        up_to_greatest(digits_at_most(20, text)?)
    }
}

/// The number that such a text spells, unless it is negative.
pub(crate) fn script_count(text: &[u8]) -> Option<u64>
    ensures { result ≡ spec.script_count text.now }
{
    let number = script_number(text)?;
    if number >= 0 {
        Some(number as u64)
    } else {
        None
    }
}

/// The milliseconds that a string stands for against a column, or the rule that it breaks there.
fn time_literal(column: NumberColumn, text: &[u8]) -> Result<i64, Rule>
    ensures time { IfOk result (λ time. spec.literal_number (Literal.Quoted text.now) ≡ time) }
    ensures sound { IfOk result (λ _. time_rule column text.now ≡ None) }
    ensures broken { IfErr result (λ rule. time_rule column text.now ≡ Some rule) }
{
    if !is_timestamp(column) {
        return Err(Rule::WrongType);
    }
    match read_time_octets(text) {
        Ok(time) => Ok(time),
        Err(_) => Err(Rule::WrongType),
    }
}

/// What a literal stands for against a column of numbers, or the rule that it breaks there.
pub(crate) fn number_literal(column: NumberColumn, literal: &Literal) -> Result<i64, Rule>
    ensures number { IfOk result (λ number. spec.literal_number literal.now ≡ number) }
    ensures sound { IfOk result (λ _. literal_rule (kind.Number column) literal.now ≡ None) }
    ensures broken { IfErr result (λ rule. literal_rule (kind.Number column) literal.now ≡ Some rule) }
{
    match literal {
        Literal::Number(text) => match script_number(text.as_slice()) {
            Some(number) => Ok(number),
            None => Err(Rule::OutOfRange),
        },
        Literal::Quoted(text) => time_literal(column, text.as_slice()),
    }
}

/// The number of the packet name that a literal is, or the rule that it breaks. A name that no packet has is none.
pub(crate) fn name_literal(names: &Names, literal: &Literal) -> Result<Option<u16>, Rule>
    requires { length names.now ≤ 2 ^ 16 }
    ensures number { IfOk result (λ number. spec.literal_name names.now literal.now ≡ number) }
    ensures sound { IfOk result (λ _. literal_rule kind.Pname literal.now ≡ None) }
    ensures broken { IfErr result (λ rule. literal_rule kind.Pname literal.now ≡ Some rule) }
{
    match literal {
        Literal::Number(_) => Err(Rule::WrongType),
        Literal::Quoted(text) => match number_among(names.as_slice(), text.as_slice()) {
            Some(number) => Ok(Some(number as u16)),
            None => Ok(None),
        },
    }
}
