//! Predicates with their types.

ghost use Rattle.std.specs.Prelude.{◌≡◌, ◌≤◌, ◌^◌, [], ◌∷◌, length, map};
ghost use Rattle.ssql_types.specs.declared.columns.ColumnKind.TheVariants as kind;
ghost use Rattle.ssql_types.specs.Faults as faults;
ghost use Rattle.ssql_types.specs.Literals.{literal_name, literal_number};
ghost use Rattle.ssql_types.specs.Typed as spec;
ghost use Rattle.ssql_types.specs.Typing.{TypesAs};

use crate::columns::{ColumnKind, column_kind, is_equality, name_operator_rule};
use crate::literals::{name_literal, number_literal};
use crate::not_typed::NotTyped;
use crate::rules::{Rule, ask, behind, refused};
use arch_types::name::Names;
use item_list::Items;
use ssql_conditions::predicate::{NameTest, NumberColumn, NumberTest, TypedPredicate};
use ssql_parse::{Literal, Predicate, Test};
use std::alloc::Global;

/// The number that a literal is.
fn number_at<'a>(
    column: NumberColumn,
    literal: &Literal,
    places: &'a [u32],
) -> Result<(i64, &'a [u32]), NotTyped>
    ensures { TypesAs (λ x. (x.0, x.1.now)) result (faults.literal_fault (kind.Number column) literal.now ∷ [])
        places.now (literal_number literal.now) }
{
    match number_literal(column, literal) {
        Ok(number) => Ok((number, behind(places))),
        Err(rule) => Err(refused(rule, places)),
    }
}

/// The numbers that literals are, with a sign behind each.
fn numbers_at<'a>(
    alloc: Global,
    column: NumberColumn,
    literals: &[Literal],
    places: &'a [u32],
) -> Result<(Items<i64>, &'a [u32]), NotTyped>
    ensures { TypesAs (λ x. (x.0, x.1.now)) result (faults.listed_faults (faults.literal_fault (kind.Number column)) literals.now)
        places.now (map literal_number literals.now) }
{
    let mut numbers = Items::new(alloc);
    let mut rest = places;
    for literal in literals {
        let (number, later) = number_at(column, literal, rest)?;
        numbers.push(number)?;
        rest = behind(later);
    }
    Ok((numbers, rest))
}

/// The packet name that a literal is.
fn name_at<'a>(
    names: &Names,
    literal: &Literal,
    places: &'a [u32],
) -> Result<(Option<u16>, &'a [u32]), NotTyped>
    requires { length names.now ≤ 2 ^ 16 }
    ensures { TypesAs (λ x. (x.0, x.1.now)) result (faults.literal_fault kind.Pname literal.now ∷ []) places.now
        (literal_name names.now literal.now) }
{
    match name_literal(names, literal) {
        Ok(number) => Ok((number, behind(places))),
        Err(rule) => Err(refused(rule, places)),
    }
}

/// The packet names that literals are, with a sign behind each.
fn names_at<'a>(
    alloc: Global,
    names: &Names,
    literals: &[Literal],
    places: &'a [u32],
) -> Result<(Items<Option<u16>>, &'a [u32]), NotTyped>
    requires { length names.now ≤ 2 ^ 16 }
    ensures { TypesAs (λ x. (x.0, x.1.now)) result (faults.listed_faults (faults.literal_fault kind.Pname) literals.now)
        places.now (map (literal_name names.now) literals.now) }
{
    let mut numbers = Items::new(alloc);
    let mut rest = places;
    for literal in literals {
        let (number, later) = name_at(names, literal, rest)?;
        numbers.push(number)?;
        rest = behind(later);
    }
    Ok((numbers, rest))
}

/// How a column of numbers is tested.
fn number_test<'a>(
    alloc: Global,
    column: NumberColumn,
    test: &Test,
    places: &'a [u32],
) -> Result<(NumberTest, &'a [u32]), NotTyped>
    ensures { TypesAs (λ x. (x.0, x.1.now)) result (faults.test_faults (kind.Number column) test.now) places.now
        (spec.number_test test.now) }
{
    match test {
        Test::Compare(operator, literal) => {
            let (number, rest) = number_at(column, literal, behind(places))?;
            Ok((NumberTest::Compare(*operator, number), rest))
        }
        Test::In(literals) => {
            // behind IN and `(`
            let inside = behind(behind(places));
            let (numbers, rest) = numbers_at(alloc, column, literals.as_slice(), inside)?;
            Ok((NumberTest::In(numbers), rest))
        }
    }
}

/// How the packet's name is tested.
fn name_test<'a>(
    alloc: Global,
    names: &Names,
    test: &Test,
    places: &'a [u32],
) -> Result<(NameTest, &'a [u32]), NotTyped>
    requires { length names.now ≤ 2 ^ 16 }
    ensures { TypesAs (λ x. (x.0, x.1.now)) result (faults.test_faults kind.Pname test.now) places.now
        (spec.name_test names.now test.now) }
{
    match test {
        Test::Compare(operator, literal) => {
            let rest = ask(name_operator_rule(*operator), places)?;
            let (number, rest) = name_at(names, literal, rest)?;
            if is_equality(*operator) {
                Ok((NameTest::Is(number), rest))
            } else {
                Ok((NameTest::IsNot(number), rest))
            }
        }
        Test::In(literals) => {
            // behind IN and `(`
            let inside = behind(behind(places));
            let (numbers, rest) = names_at(alloc, names, literals.as_slice(), inside)?;
            Ok((NameTest::In(numbers), rest))
        }
    }
}

/// A predicate with its type.
pub(crate) fn typed_predicate<'a>(
    alloc: Global,
    names: &Names,
    predicate: &Predicate,
    places: &'a [u32],
) -> Result<(TypedPredicate, &'a [u32]), NotTyped>
    requires { length names.now ≤ 2 ^ 16 }
    ensures { TypesAs (λ x. (x.0, x.1.now)) result (faults.predicate_faults predicate.now) places.now
        (spec.typed_predicate names.now predicate.now) }
{
    match column_kind(predicate.column) {
        ColumnKind::Number(column) => {
            let (test, rest) = number_test(alloc, column, &predicate.test, behind(places))?;
            Ok((TypedPredicate::Number(column, test), rest))
        }
        ColumnKind::Pname => {
            let (test, rest) = name_test(alloc, names, &predicate.test, behind(places))?;
            Ok((TypedPredicate::Pname(test), rest))
        }
        ColumnKind::Packet => Err(refused(Rule::WrongType, places)),
    }
}
