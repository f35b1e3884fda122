//! Statements as they are written.

ghost use Rattle.std.specs.Prelude.{◌≡◌};
ghost use Rattle.ssql_parse.specs.Reading.{ReadsAs};
ghost use Rattle.ssql_parse.specs.Statements as spec;

use crate::query::{Query, query_at};
use crate::reading::{Stop, begins, expect, name};
use arch_types::name::Name;
use ssql_tokens::{Symbol, Token};
use std::alloc::Global;

/// A statement.
#[derive(Debug, Drop)]
pub enum Statement {
    /// A table with the columns of another.
    CreateTable { name: Name, like: Name },
    /// A stream of the rows of a query.
    CreateStream { name: Name, query: Query },
    /// The rows of a query, into a table.
    Insert { table: Name, query: Query },
    Query(Query),
    /// The histogram of a table.
    ShowHistogram(Name),
    /// The partitions of a table.
    ShowPartitions(Name),
}

/// TABLE, a name, LIKE and a name.
#[tactic(auto, unfolding(crate::specs::Statements::table_form_at))]
fn table_form_at(tokens: &[Token]) -> Result<(Statement, &[Token]), Stop>
    ensures { ReadsAs (λ x. (x.0, x.1.now)) result (spec.table_form_at tokens.now) }
{
    let rest = expect(Symbol::Table, tokens)?;
    let (table, rest) = name(rest)?;
    let rest = expect(Symbol::Like, rest)?;
    let (like, rest) = name(rest)?;
    Ok((Statement::CreateTable { name: table, like }, rest))
}

/// STREAM, a name, AS and a query.
#[tactic(auto, unfolding(crate::specs::Statements::stream_form_at))]
fn stream_form_at(alloc: Global, tokens: &[Token]) -> Result<(Statement, &[Token]), Stop>
    ensures { ReadsAs (λ x. (x.0, x.1.now)) result (spec.stream_form_at tokens.now) }
{
    let rest = expect(Symbol::Stream, tokens)?;
    let (stream, rest) = name(rest)?;
    let rest = expect(Symbol::As, rest)?;
    let (query, rest) = query_at(alloc, rest)?;
    Ok((
        Statement::CreateStream {
            name: stream,
            query,
        },
        rest,
    ))
}

/// CREATE of a table or a stream.
#[tactic(auto, unfolding(crate::specs::Statements::create_at))]
fn create_at(alloc: Global, tokens: &[Token]) -> Result<(Statement, &[Token]), Stop>
    ensures { ReadsAs (λ x. (x.0, x.1.now)) result (spec.create_at tokens.now) }
{
    let rest = expect(Symbol::Create, tokens)?;
    if begins(Symbol::Table, rest) {
        table_form_at(rest)
    } else {
        stream_form_at(alloc, rest)
    }
}

/// INSERT, INTO, a name and a query.
#[tactic(auto, unfolding(crate::specs::Statements::insert_at))]
fn insert_at(alloc: Global, tokens: &[Token]) -> Result<(Statement, &[Token]), Stop>
    ensures { ReadsAs (λ x. (x.0, x.1.now)) result (spec.insert_at tokens.now) }
{
    let rest = expect(Symbol::Insert, tokens)?;
    let rest = expect(Symbol::Into, rest)?;
    let (table, rest) = name(rest)?;
    let (query, rest) = query_at(alloc, rest)?;
    Ok((Statement::Insert { table, query }, rest))
}

/// HISTOGRAM and a name.
#[tactic(auto, unfolding(crate::specs::Statements::histogram_at))]
fn histogram_at(tokens: &[Token]) -> Result<(Statement, &[Token]), Stop>
    ensures { ReadsAs (λ x. (x.0, x.1.now)) result (spec.histogram_at tokens.now) }
{
    let rest = expect(Symbol::Histogram, tokens)?;
    let (table, rest) = name(rest)?;
    Ok((Statement::ShowHistogram(table), rest))
}

/// PARTITIONS and a name.
#[tactic(auto, unfolding(crate::specs::Statements::partitions_at))]
fn partitions_at(tokens: &[Token]) -> Result<(Statement, &[Token]), Stop>
    ensures { ReadsAs (λ x. (x.0, x.1.now)) result (spec.partitions_at tokens.now) }
{
    let rest = expect(Symbol::Partitions, tokens)?;
    let (table, rest) = name(rest)?;
    Ok((Statement::ShowPartitions(table), rest))
}

/// SHOW of a histogram or of partitions.
#[tactic(auto, unfolding(crate::specs::Statements::show_at))]
fn show_at(tokens: &[Token]) -> Result<(Statement, &[Token]), Stop>
    ensures { ReadsAs (λ x. (x.0, x.1.now)) result (spec.show_at tokens.now) }
{
    let rest = expect(Symbol::Show, tokens)?;
    if begins(Symbol::Histogram, rest) {
        histogram_at(rest)
    } else {
        partitions_at(rest)
    }
}

/// A statement.
#[tactic(auto, unfolding(crate::specs::Statements::statement_at))]
pub(crate) fn statement_at(alloc: Global, tokens: &[Token]) -> Result<(Statement, &[Token]), Stop>
    ensures { ReadsAs (λ x. (x.0, x.1.now)) result (spec.statement_at tokens.now) }
{
    if begins(Symbol::Create, tokens) {
        return create_at(alloc, tokens);
    }
    if begins(Symbol::Insert, tokens) {
        return insert_at(alloc, tokens);
    }
    if begins(Symbol::Show, tokens) {
        return show_at(tokens);
    }
    let (query, rest) = query_at(alloc, tokens)?;
    Ok((Statement::Query(query), rest))
}
