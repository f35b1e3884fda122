//! Rows in the order of their keys.

ghost use Rattle.std.specs.Prelude.{◌≡◌, filter, IfOk, OnOk};
ghost use Rattle.intervals.specs.Interval.{interval_of};
ghost use Rattle.arch_types.specs.Order.{is_before, order_by};
ghost use Rattle.arch_types.specs.Table.{range_of};
ghost use Rattle.history_items.specs.Items.{is_of_interval, items_of};
ghost use Rattle.interval_fills.specs.Intervals.{rows_of_interval};
ghost use Rattle.archive_core.specs.RowTests.{interval_at, is_row_of_range};

use arch_types::row::{Row, Rows};
use intervals::{Exponent, Interval};
use std::alloc::{AllocError, Global};

/// The number of table `tm`.
pub(crate) const TM: u8 = 0;

/// Puts rows in the order of their keys.
fn put_in_order(rows: &mut Vec<Row>) -> Result<(), AllocError>
    ensures { OnOk result (rows.new.items ≡ order_by is_before rows.old.items) }
{
    rows.sort_by_key(|row| row.key)?;
    Ok(())
}

/// Whether a row is of a table, with `from <= time < to`.
fn is_row_of_range(row: &Row, table: usize, from: i64, to: i64) -> bool
    ensures { result ≡ is_row_of_range table from to row.now }
{
    table == row.table as usize && from <= row.key.time && row.key.time < to
}

/// The rows of a table with `from <= time < to`, as they stand in the history.
fn rows_in_range(
    alloc: Global,
    rows: &[Row],
    table: usize,
    from: i64,
    to: i64,
) -> Result<Vec<Row>, AllocError>
    ensures { IfOk result (λ found. found.items ≡ filter (is_row_of_range table from to) rows.now) }
{
    let mut found = Vec::new(alloc);
    for row in rows {
        if is_row_of_range(row, table, from, to) {
            found.push(row.copy()?)?;
        }
    }
    Ok(found)
}

/// The rows of a table with `from <= time < to`, in milliseconds, in the order of their keys. The one error is want of memory.
pub(crate) fn range_of(
    alloc: Global,
    rows: &[Row],
    table: usize,
    from: i64,
    to: i64,
) -> Result<Vec<Row>, AllocError>
    ensures { IfOk result (λ found. found.items ≡ range_of table from to rows.now) }
{
    let mut found = rows_in_range(alloc, rows, table, from, to)?;
    put_in_order(&mut found)?;
    Ok(found)
}

/// The interval of a row's time.
pub(crate) fn interval_of_row(row: &Row, exponent: Exponent) -> Interval
    ensures interval { result ≡ interval_at exponent row.now }
    ensures number { result.0 ≡ interval_of exponent row.now.key.time }
{
    Interval::at(row.key.time, exponent)
}

/// Whether a row is of table `tm`, with its time in an interval.
pub(crate) fn is_row_of_interval(row: &Row, interval: Interval, exponent: Exponent) -> bool
    ensures { result ≡ is_of_interval exponent interval row.now }
{
    row.table == TM && interval_of_row(row, exponent) == interval
}

/// The rows of `tm` in an interval, as they stand in the history.
fn rows_in_interval(
    alloc: Global,
    rows: &[Row],
    interval: Interval,
    exponent: Exponent,
) -> Result<Vec<Row>, AllocError>
    ensures { IfOk result (λ found. found.items ≡ filter (is_of_interval exponent interval) rows.now) }
{
    let mut found = Vec::new(alloc);
    for row in rows {
        if is_row_of_interval(row, interval, exponent) {
            found.push(row.copy()?)?;
        }
    }
    Ok(found)
}

/// The rows of `tm` in an interval, in the order of their keys. The one error is want of memory.
pub(crate) fn rows_of_interval(
    alloc: Global,
    rows: &[Row],
    interval: Interval,
    exponent: Exponent,
) -> Result<Rows, AllocError>
    ensures { IfOk result (λ found. found ≡ rows_of_interval exponent interval (items_of rows.now)) }
{
    let mut found = rows_in_interval(alloc, rows, interval, exponent)?;
    put_in_order(&mut found)?;
    Ok(Rows::from_vec(found))
}
