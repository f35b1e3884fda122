//! Readers of single tokens and of lists with commas. Each answers what it read and the tokens behind it.

ghost use Rattle.std.specs.Prelude.{◌≡◌};
ghost use Rattle.ssql_parse.specs.Reading as spec;
ghost use Rattle.ssql_parse.specs.Reading.{ReadsAs};
ghost use Rattle.ssql_parse.specs.Pieces as kinds;

use crate::condition::Literal;
use arch_types::name::Name;
use arch_types::octets::Octets;
use item_list::Items;
use ssql_tokens::{Column, ComparisonOperator, Symbol, Token};
use std::alloc::{AllocError, Global};

/// Why a reader gave nothing.
#[derive(Clone, Copy, Debug, PartialEq, Eq)]
pub(crate) enum Stop {
    /// There was no memory.
    Memory,
    /// The token with this many tokens left, itself included, goes on with nothing; none are left where the script ends too early.
    Wrong(usize),
}

impl From<AllocError> for Stop {
    ghost use Rattle.ssql_parse.specs.declared.reading.Stop.TheVariants.{Memory};
    ghost use Rattle.std.specs.Prelude.{◌≡◌};

    ghost from_gives = { λ _ stop. stop ≡ Memory };

    fn from(_error: AllocError) -> Stop {
        Stop::Memory
    }
}

/// This symbol comes next.
pub(crate) fn begins(symbol: Symbol, tokens: &[Token]) -> bool
    ensures { result ≡ spec.begins symbol tokens.now }
{
    match tokens {
        [] => false,
        [first, ..] => first.is(symbol),
    }
}

/// The tokens behind this symbol.
#[tactic(auto, unfolding(crate::specs::Reading::expect, crate::specs::Reading::taken))]
pub(crate) fn expect(symbol: Symbol, tokens: &[Token]) -> Result<&[Token], Stop>
    ensures { ReadsAs (λ rest. (tt, rest.now)) result (spec.expect symbol tokens.now) }
{
    match tokens {
        [] => Err(Stop::Wrong(0)),
        [first, rest @ ..] => {
            if first.is(symbol) {
                Ok(rest)
            } else {
                Err(Stop::Wrong(tokens.len()))
            }
        }
    }
}

#[tactic(auto, unfolding(crate::specs::Reading::taken))]
pub(crate) fn column(tokens: &[Token]) -> Result<(Column, &[Token]), Stop>
    ensures { ReadsAs (λ x. (x.0, x.1.now)) result (spec.taken kinds.as_column tokens.now) }
{
    match tokens {
        [] => Err(Stop::Wrong(0)),
        [Token::Column(column), rest @ ..] => Ok((*column, rest)),
        _ => Err(Stop::Wrong(tokens.len())),
    }
}

#[tactic(auto, unfolding(crate::specs::Reading::taken))]
pub(crate) fn operator(tokens: &[Token]) -> Result<(ComparisonOperator, &[Token]), Stop>
    ensures { ReadsAs (λ x. (x.0, x.1.now)) result (spec.taken kinds.as_operator tokens.now) }
{
    match tokens {
        [] => Err(Stop::Wrong(0)),
        [Token::Operator(operator), rest @ ..] => Ok((*operator, rest)),
        _ => Err(Stop::Wrong(tokens.len())),
    }
}

#[tactic(auto, unfolding(crate::specs::Reading::taken))]
pub(crate) fn literal(tokens: &[Token]) -> Result<(Literal, &[Token]), Stop>
    ensures { ReadsAs (λ x. (x.0, x.1.now)) result (spec.taken kinds.as_literal tokens.now) }
{
    match tokens {
        [] => Err(Stop::Wrong(0)),
        [Token::Number(number), rest @ ..] => {
            let number = number.copy()?;
            Ok((Literal::Number(number), rest))
        }
        [Token::Quoted(text), rest @ ..] => {
            let text = text.copy()?;
            Ok((Literal::Quoted(text), rest))
        }
        _ => Err(Stop::Wrong(tokens.len())),
    }
}

/// A literal, and more of them behind commas.
pub(crate) fn literals(alloc: Global, tokens: &[Token]) -> Result<(Items<Literal>, &[Token]), Stop>
    ensures { ReadsAs (λ x. (x.0, x.1.now)) result (spec.listed kinds.as_literal tokens.now) }
{
    let mut items = Items::new(alloc);
    let mut rest = tokens;
    'literals: loop {
        let (item, later) = literal(rest)?;
        items.push(item)?;
        if !begins(Symbol::Comma, later) {
            return Ok((items, later));
        }
        rest = &later[1..];
    }
}

#[tactic(auto, unfolding(crate::specs::Reading::taken))]
pub(crate) fn name(tokens: &[Token]) -> Result<(Name, &[Token]), Stop>
    ensures { ReadsAs (λ x. (x.0, x.1.now)) result (spec.taken kinds.as_name tokens.now) }
{
    match tokens {
        [] => Err(Stop::Wrong(0)),
        [Token::Name(name), rest @ ..] => {
            let name = name.copy()?;
            Ok((name, rest))
        }
        _ => Err(Stop::Wrong(tokens.len())),
    }
}

#[tactic(auto, unfolding(crate::specs::Reading::taken))]
pub(crate) fn number(tokens: &[Token]) -> Result<(Octets, &[Token]), Stop>
    ensures { ReadsAs (λ x. (x.0, x.1.now)) result (spec.taken kinds.as_number tokens.now) }
{
    match tokens {
        [] => Err(Stop::Wrong(0)),
        [Token::Number(number), rest @ ..] => {
            let number = number.copy()?;
            Ok((number, rest))
        }
        _ => Err(Stop::Wrong(tokens.len())),
    }
}
