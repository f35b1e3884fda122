//! The rows of a day, of all sources.

ghost use Rattle.std.specs.Prelude.{◌≡◌, ◌++◌, IfOk, IfErr, IfSome, OnOk};
ghost use Rattle.std.specs.List.{AllByRecursion};
ghost use Rattle.arch_types.specs.Table.{sorted};
ghost use Rattle.partitions.specs.Partitions.{AreRising};
ghost use Rattle.replay_merge.specs.RowSource.{IsKeyedRow, IsRowFault, UsedRowSource};
ghost use Rattle.ssql_select.specs.Selection.{rows_between_of};

use arch_types::row::{Row, Rows};
use arch_types::row_fault::RowFault;
use partitions::bounds::Bounds;
use partitions::partition::Partition;
use partitions::rows::merged_by_key;
use replay_merge::day_range::rows_on_days;
use replay_merge::row_source::RowSource;
use std::alloc::{AllocError, Global};

/// Rows, and others behind them. The one error is want of memory.
fn with_rows(rows: Vec<Row>, more: Rows) -> Result<Vec<Row>, AllocError>
    ensures { IfOk result (λ all. all.items ≡ rows.items ++ more) }
{
    if rows.is_empty() {
        return Ok(more.into_vec());
    }
    let mut rows = rows;
    let mut more = more.into_vec();
    rows.append(&mut more)?;
    Ok(rows)
}

/// The rows of some partitions and a range of times, those of each table in the order of their keys and behind those of the table
/// before.
fn rows_by_table<R: RowSource>(
    alloc: Global,
    source: &mut R,
    tables: &[u8],
    parts: &[Partition],
    bounds: &Bounds,
    front: u64,
) -> Result<Vec<Row>, RowFault>
    requires { AreRising parts.now }
    ensures rows { IfOk result (λ rows. IfSome (R.state source.old).history (λ history.
        rows.items ≡ rows_between_of tables.now parts.now bounds.now.from bounds.now.to (history front))) }
    ensures given { IfOk result (λ rows. AllByRecursion (R.state source.old).may_give rows.items) }
    ensures each { IfOk result (λ rows. AllByRecursion IsKeyedRow rows.items) }
    ensures refused { IfErr result (IsRowFault (R.state source.old) (R.state source.new)) }
    ensures no_fault { OnOk result ((R.state source.new).faults ≡ (R.state source.old).faults) }
    ensures source { UsedRowSource (R.state source.old) (R.state source.new) }
    ensures left { R.leaves source.old source.new }
{
    let mut rows = Vec::new(alloc);
    for table in tables {
        let more = rows_on_days(alloc, source, *table, parts, bounds.from, bounds.to, front)?;
        rows = with_rows(rows, more)?;
    }
    Ok(rows)
}

/// The rows of some partitions and a range of times, of all tables in the order of their keys; rows that tie stand in the order of
/// the tables. Those of a single table come in the order of their keys already.
pub(crate) fn merged_rows<R: RowSource>(
    alloc: Global,
    source: &mut R,
    tables: &[u8],
    parts: &[Partition],
    bounds: &Bounds,
    front: u64,
) -> Result<Vec<Row>, RowFault>
    requires { AreRising parts.now }
    ensures rows { IfOk result (λ rows. IfSome (R.state source.old).history (λ history. rows.items
        ≡ sorted (rows_between_of tables.now parts.now bounds.now.from bounds.now.to (history front)))) }
    ensures given { IfOk result (λ rows. AllByRecursion (R.state source.old).may_give rows.items) }
    ensures each { IfOk result (λ rows. AllByRecursion IsKeyedRow rows.items) }
    ensures refused { IfErr result (IsRowFault (R.state source.old) (R.state source.new)) }
    ensures no_fault { OnOk result ((R.state source.new).faults ≡ (R.state source.old).faults) }
    ensures source { UsedRowSource (R.state source.old) (R.state source.new) }
    ensures left { R.leaves source.old source.new }
{
    if let [table] = tables {
        let rows = rows_on_days(alloc, source, *table, parts, bounds.from, bounds.to, front)?;
        return Ok(rows.into_vec());
    }
    let rows = rows_by_table(alloc, source, tables, parts, bounds, front)?;
    let merged = merged_by_key(rows)?;
    Ok(merged.into_vec())
}
