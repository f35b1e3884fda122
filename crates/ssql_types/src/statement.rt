//! Statements with their types.

ghost use Rattle.std.specs.Prelude.{◌≡◌, ◌≤◌, ◌^◌, [], ◌∷◌, length};
ghost use Rattle.ssql_parse.specs.Depth.{statement_depth, filter_depth};
ghost use Rattle.ssql_parse.specs.Grammar.{IsStatement, IsQuery};
ghost use Rattle.ssql_types.specs.Faults as faults;
ghost use Rattle.ssql_types.specs.Rules.{if_broken, no_fault};
ghost use Rattle.ssql_types.specs.Typed as spec;
ghost use Rattle.ssql_types.specs.Typing.{TypesAs};

use crate::names::{is_name_taken, is_tm};
use crate::not_typed::NotTyped;
use crate::place::{ScriptPlace, may_stand};
use crate::query::{TypedFlow, TypedSelect, typed_flow, typed_select};
use crate::rules::{Rule, ask, behind};
use crate::sources::table_at;
use arch_types::name::{Name, Names};
use ssql_parse::{Query, Statement};
use std::alloc::Global;

/// A statement.
#[derive(Debug, Drop)]
pub enum TypedStatement {
    /// A table to be created.
    CreateTable(Name),
    /// A stream. The first of a script has the number 0, the next 1, and so on.
    CreateStream(TypedFlow),
    /// Rows go into a table, by its number.
    Insert { table: u8, flow: TypedFlow },
    /// Rows of tables are asked.
    Select(TypedSelect),
    /// The histogram of a table, by its number.
    ShowHistogram(u8),
    /// The partitions of a table, by its number.
    ShowPartitions(u8),
}

/// The rule that a statement's first word breaks.
fn statement_rule(place: ScriptPlace, statement: &Statement) -> Option<Rule>
    ensures { if_broken result ≡ faults.statement_fault place statement.now }
{
    if may_stand(place, statement) {
        None
    } else {
        Some(Rule::Misplaced)
    }
}

/// The rule that a new table's or stream's name breaks.
fn created_rule(tables: &Names, created: &Names, name: &Name) -> Option<Rule>
    ensures { if_broken result ≡ faults.created_fault tables.now created.now name.now }
{
    if is_name_taken(tables, created, name) {
        Some(Rule::NameTaken)
    } else {
        None
    }
}

/// The rule that a name behind LIKE breaks.
fn like_rule(name: &Name) -> Option<Rule>
    ensures { if_broken result ≡ faults.like_fault name.now }
{
    if is_tm(name) {
        None
    } else {
        Some(Rule::WrongForm)
    }
}

/// CREATE TABLE, behind its CREATE.
fn create_table<'a>(
    tables: &Names,
    created: &Names,
    name: &Name,
    like: &Name,
    places: &'a [u32],
) -> Result<(TypedStatement, &'a [u32]), NotTyped>
    ensures { TypesAs (λ x. (x.0, x.1.now)) result
        (no_fault ∷ faults.created_fault tables.now created.now name.now ∷ no_fault ∷ faults.like_fault like.now ∷ []) places.now
        (TypedStatement.CreateTable name.now) }
{
    let rest = ask(created_rule(tables, created, name), behind(places))?;
    let rest = ask(like_rule(like), behind(rest))?;
    let name = name.copy()?;
    Ok((TypedStatement::CreateTable(name), rest))
}

/// CREATE STREAM, behind its CREATE.
fn create_stream<'a>(
    alloc: Global,
    tables: &Names,
    created: &Names,
    names: &Names,
    name: &Name,
    query: &Query,
    places: &'a [u32],
) -> Result<(TypedStatement, &'a [u32]), NotTyped>
    requires created { length created.now ≤ 2 ^ 16 }
    requires names { length names.now ≤ 2 ^ 16 }
    requires query { IsQuery query.now }
    requires depth { filter_depth query.now.filter ≤ 32 }
    ensures { TypesAs (λ x. (x.0, x.1.now)) result
        (no_fault ∷ faults.created_fault tables.now created.now name.now ∷ no_fault ∷ faults.flow_faults created.now query.now) places.now
        (TypedStatement.CreateStream (spec.typed_flow created.now names.now query.now)) }
{
    let rest = ask(created_rule(tables, created, name), behind(places))?;
    let (flow, rest) = typed_flow(alloc, created, names, query, behind(rest))?;
    Ok((TypedStatement::CreateStream(flow), rest))
}

/// INSERT, behind that word.
fn insert<'a>(
    alloc: Global,
    tables: &Names,
    created: &Names,
    names: &Names,
    table: &Name,
    query: &Query,
    places: &'a [u32],
) -> Result<(TypedStatement, &'a [u32]), NotTyped>
    requires tables { length tables.now ≤ 16 }
    requires created { length created.now ≤ 2 ^ 16 }
    requires names { length names.now ≤ 2 ^ 16 }
    requires query { IsQuery query.now }
    requires depth { filter_depth query.now.filter ≤ 32 }
    ensures { TypesAs (λ x. (x.0, x.1.now)) result
        (no_fault ∷ faults.table_fault tables.now table.now ∷ faults.flow_faults created.now query.now) places.now
        (TypedStatement.Insert (spec.known_number tables.now table.now) (spec.typed_flow created.now names.now query.now)) }
{
    let (table, rest) = table_at(tables, table, behind(places))?;
    let (flow, rest) = typed_flow(alloc, created, names, query, rest)?;
    Ok((TypedStatement::Insert { table, flow }, rest))
}

/// A statement of a script in a place, beside the tables, what statements above it created, and the packet names.
pub(crate) fn typed_statement<'a>(
    alloc: Global,
    place: ScriptPlace,
    tables: &Names,
    created: &Names,
    names: &Names,
    statement: &Statement,
    places: &'a [u32],
) -> Result<(TypedStatement, &'a [u32]), NotTyped>
    requires tables { length tables.now ≤ 16 }
    requires created { length created.now ≤ 2 ^ 16 }
    requires names { length names.now ≤ 2 ^ 16 }
    requires statement { IsStatement statement.now }
    requires depth { statement_depth statement.now ≤ 32 }
    ensures { TypesAs (λ x. (x.0, x.1.now)) result (faults.statement_faults place tables.now created.now statement.now)
        places.now (spec.typed_statement tables.now names.now created.now statement.now) }
{
    let rest = ask(statement_rule(place, statement), places)?;
    match statement {
        Statement::CreateTable { name, like } => create_table(tables, created, name, like, rest),
        Statement::CreateStream { name, query } => {
            create_stream(alloc, tables, created, names, name, query, rest)
        }
        Statement::Insert { table, query } => {
            insert(alloc, tables, created, names, table, query, rest)
        }
        Statement::Query(query) => {
            let (select, rest) = typed_select(alloc, tables, names, query, rest)?;
            Ok((TypedStatement::Select(select), rest))
        }
        Statement::ShowHistogram(table) => {
            let (table, rest) = table_at(tables, table, behind(rest))?;
            Ok((TypedStatement::ShowHistogram(table), rest))
        }
        Statement::ShowPartitions(table) => {
            let (table, rest) = table_at(tables, table, behind(rest))?;
            Ok((TypedStatement::ShowPartitions(table), rest))
        }
    }
}
