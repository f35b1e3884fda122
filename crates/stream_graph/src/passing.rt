//! Which streams pass a row on, and the tables of the INSERTs that do, statement by statement.

ghost use Rattle.std.specs.Prelude.{◌≡◌, [], nat_eq, IfOk, OnOk};
ghost use Rattle.std.specs.List.{list_any};
ghost use Rattle.arch_types.specs.Packet.{IsPacket};
ghost use Rattle.stream_graph.specs.RouteTables as spec;

use crate::statement::RouteStatement;
use arch_types::row::Row;
use arch_types::tables::PacketTables;
use ssql_conditions::truth::is_true;
use ssql_types::query::TypedFlow;
use ssql_types::sources::RouteSource;
use std::alloc::{AllocError, Global};

/// Whether the stream of a number passes a row on, by what is noted of each stream so far.
fn has_passed(passed: &[bool], number: u16) -> bool
    ensures { result ≡ spec.has_passed passed.now number }
{
    match passed.get(usize::from(number)) {
        Some(passes) => *passes,
        None => false,
    }
}

/// Whether a source gives the row.
fn is_given(passed: &[bool], source: RouteSource) -> bool
    ensures { result ≡ spec.is_given_by (spec.has_passed passed.now) source }
{
    match source {
        RouteSource::Packets => true,
        RouteSource::Stream(number) => has_passed(passed, number),
    }
}

/// Whether one of some sources gives the row.
fn is_any_given(passed: &[bool], sources: &[RouteSource]) -> bool
    ensures { result ≡ list_any (spec.is_given_by (spec.has_passed passed.now)) sources.now }
{
    sources.iter().any(|source| is_given(passed, *source))
}

/// Whether a query passes a row on.
fn passes_on(flow: &TypedFlow, row: &Row, passed: &[bool]) -> bool
    requires { IsPacket row.now.packet }
    ensures { result ≡ spec.flow_passes_on (spec.has_passed passed.now) row.now flow.now }
{
    is_true(&flow.condition, row) && is_any_given(passed, flow.sources.as_slice())
}

fn is_among(tables: &[u8], table: u8) -> bool
    ensures { result ≡ list_any (nat_eq table) tables.now }
{
    tables.iter().any(|known| table == *known)
}

/// Adds a table that isn't among others yet.
fn add_table(tables: &mut PacketTables, table: u8) -> Result<(), AllocError>
    ensures { OnOk result (tables.new ≡ spec.with_table tables.old table) }
{
    if is_among(tables.as_slice(), table) {
        return Ok(());
    }
    tables.push(table)
}

/// Goes over a statement: notes whether a stream passes the row on, or adds the table of an INSERT that does.
fn go_over(
    statement: &RouteStatement,
    row: &Row,
    passed: &mut Vec<bool>,
    tables: &mut PacketTables,
) -> Result<(), AllocError>
    requires { IsPacket row.now.packet }
    ensures passed { OnOk result (passed.new.items ≡ spec.passed_behind row.now statement.now passed.old.items) }
    ensures tables { OnOk result (tables.new ≡ spec.tables_behind row.now statement.now passed.old.items tables.old) }
{
    match statement {
        RouteStatement::Stream(flow) => {
            let passes = passes_on(flow, row, passed.as_slice());
            passed.push(passes)?;
            Ok(())
        }
        RouteStatement::Insert { table, flow } => {
            if passes_on(flow, row, passed.as_slice()) {
                add_table(tables, *table)
            } else {
                Ok(())
            }
        }
    }
}

/// The tables that a row goes into by some statements.
pub(crate) fn tables_of_row(
    alloc: Global,
    statements: &[RouteStatement],
    row: &Row,
) -> Result<PacketTables, AllocError>
    requires { IsPacket row.now.packet }
    ensures { IfOk result (λ tables. tables ≡ spec.tables_after row.now statements.now [] []) }
{
    let mut passed = Vec::new(alloc);
    let mut tables = PacketTables::new();
    for statement in statements {
        go_over(statement, row, &mut passed, &mut tables)?;
    }
    Ok(tables)
}
