//! Queries as they are written.

ghost use Rattle.std.specs.Prelude.{◌≡◌, length, IfOk};
ghost use Rattle.ssql_parse.specs.Reading as spec;
ghost use Rattle.ssql_parse.specs.Reading.{ReadsAs};
ghost use Rattle.ssql_parse.specs.Pieces as kinds;
ghost use Rattle.ssql_parse.specs.Queries as queries;

use crate::condition::{Piece, pieces};
use crate::reading::{Stop, begins, column, expect, name, number};
use arch_types::direction::Direction;
use arch_types::name::Name;
use arch_types::octets::Octets;
use item_list::Items;
use ssql_tokens::{Column, Symbol, Token};
use std::alloc::Global;

/// The columns of a query.
#[derive(Debug, Drop)]
pub enum Columns {
    /// `*`
    All,
    /// At least one, in the order of the answer.
    Listed(Items<Column>),
}

/// Where the rows of a query come from.
#[derive(Debug, Drop)]
pub enum QuerySource {
    /// A table or a stream.
    One(Name),
    /// MERGE of at least one.
    Merge(Items<Name>),
}

/// A query, with its clauses where they are written.
#[derive(Debug, Drop)]
pub struct Query {
    pub columns: Columns,
    pub source: QuerySource,
    /// The condition behind WHERE, piece by piece.
    pub filter: Option<Items<Piece>>,
    pub order: Option<Direction>,
    /// The number behind LIMIT, as it is written.
    pub limit: Option<Octets>,
}

/// A column, and more of them behind commas.
fn column_list(alloc: Global, tokens: &[Token]) -> Result<(Items<Column>, &[Token]), Stop>
    ensures { ReadsAs (λ x. (x.0, x.1.now)) result (spec.listed kinds.as_column tokens.now) }
{
    let mut items = Items::new(alloc);
    let mut rest = tokens;
    'columns: loop {
        let (item, later) = column(rest)?;
        items.push(item)?;
        if !begins(Symbol::Comma, later) {
            return Ok((items, later));
        }
        rest = &later[1..];
    }
}

/// A name, and more of them behind commas.
fn name_list(alloc: Global, tokens: &[Token]) -> Result<(Items<Name>, &[Token]), Stop>
    ensures { ReadsAs (λ x. (x.0, x.1.now)) result (spec.listed kinds.as_name tokens.now) }
{
    let mut items = Items::new(alloc);
    let mut rest = tokens;
    'names: loop {
        let (item, later) = name(rest)?;
        items.push(item)?;
        if !begins(Symbol::Comma, later) {
            return Ok((items, later));
        }
        rest = &later[1..];
    }
}

/// `*`, or columns.
#[tactic(auto, unfolding(crate::specs::Queries::columns_at))]
fn columns_at(alloc: Global, tokens: &[Token]) -> Result<(Columns, &[Token]), Stop>
    ensures { ReadsAs (λ x. (x.0, x.1.now)) result (queries.columns_at tokens.now) }
{
    if begins(Symbol::Star, tokens) {
        let rest = expect(Symbol::Star, tokens)?;
        return Ok((Columns::All, rest));
    }
    let (items, rest) = column_list(alloc, tokens)?;
    Ok((Columns::Listed(items), rest))
}

/// A name, or MERGE and names.
#[tactic(auto, unfolding(crate::specs::Queries::source_at))]
fn source_at(alloc: Global, tokens: &[Token]) -> Result<(QuerySource, &[Token]), Stop>
    ensures { ReadsAs (λ x. (x.0, x.1.now)) result (queries.source_at tokens.now) }
{
    if begins(Symbol::Merge, tokens) {
        let rest = expect(Symbol::Merge, tokens)?;
        let rest = expect(Symbol::OpenParen, rest)?;
        let (names, rest) = name_list(alloc, rest)?;
        let rest = expect(Symbol::CloseParen, rest)?;
        return Ok((QuerySource::Merge(names), rest));
    }
    let (name, rest) = name(tokens)?;
    Ok((QuerySource::One(name), rest))
}

/// ASC or DESC.
#[tactic(auto, unfolding(crate::specs::Reading::taken))]
fn direction_at(tokens: &[Token]) -> Result<(Direction, &[Token]), Stop>
    ensures { ReadsAs (λ x. (x.0, x.1.now)) result (spec.taken queries.as_direction tokens.now) }
{
    match tokens {
        [] => Err(Stop::Wrong(0)),
        [Token::Symbol(Symbol::Asc), rest @ ..] => Ok((Direction::Ascending, rest)),
        [Token::Symbol(Symbol::Desc), rest @ ..] => Ok((Direction::Descending, rest)),
        _ => Err(Stop::Wrong(tokens.len())),
    }
}

/// WHERE and a condition, if it comes next.
fn filter_at(alloc: Global, tokens: &[Token]) -> Result<(Option<Items<Piece>>, &[Token]), Stop>
    ensures { ReadsAs (λ x. (x.0, x.1.now)) result (spec.optional Symbol.Where kinds.pieces_at tokens.now) }
{
    if !begins(Symbol::Where, tokens) {
        return Ok((None, tokens));
    }
    let rest = expect(Symbol::Where, tokens)?;
    let (pieces, rest) = pieces(alloc, rest)?;
    Ok((Some(pieces), rest))
}

/// ORDER and a direction, if it comes next.
fn order_at(tokens: &[Token]) -> Result<(Option<Direction>, &[Token]), Stop>
    ensures { ReadsAs (λ x. (x.0, x.1.now)) result (spec.optional Symbol.Order (spec.taken queries.as_direction) tokens.now) }
{
    if !begins(Symbol::Order, tokens) {
        return Ok((None, tokens));
    }
    let rest = expect(Symbol::Order, tokens)?;
    let (direction, rest) = direction_at(rest)?;
    Ok((Some(direction), rest))
}

/// LIMIT and a number, if it comes next.
fn limit_at(tokens: &[Token]) -> Result<(Option<Octets>, &[Token]), Stop>
    ensures { ReadsAs (λ x. (x.0, x.1.now)) result (spec.optional Symbol.Limit (spec.taken kinds.as_number) tokens.now) }
{
    if !begins(Symbol::Limit, tokens) {
        return Ok((None, tokens));
    }
    let rest = expect(Symbol::Limit, tokens)?;
    let (number, rest) = number(rest)?;
    Ok((Some(number), rest))
}

/// A query.
#[tactic(auto, unfolding(crate::specs::Queries::query_at, crate::specs::Queries::clauses_at))]
pub(crate) fn query_at(alloc: Global, tokens: &[Token]) -> Result<(Query, &[Token]), Stop>
    ensures { ReadsAs (λ x. (x.0, x.1.now)) result (queries.query_at tokens.now) }
{
    let rest = expect(Symbol::Select, tokens)?;
    let (columns, rest) = columns_at(alloc, rest)?;
    let rest = expect(Symbol::From, rest)?;
    let (source, rest) = source_at(alloc, rest)?;
    let (filter, rest) = filter_at(alloc, rest)?;
    let (order, rest) = order_at(rest)?;
    let (limit, rest) = limit_at(rest)?;
    Ok((
        Query {
            columns,
            source,
            filter,
            order,
            limit,
        },
        rest,
    ))
}
