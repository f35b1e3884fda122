//! The rows of several partitions.

ghost use Rattle.std.specs.Prelude.{◌≡◌, ◌++◌, true, filter, IfOk};
ghost use Rattle.std.specs.List.Sorted.{IsPermutation, IsSortedByKey, IsStableByKey};
ghost use Rattle.arch_types.specs.declared.row.Row.{Row as ARow};
ghost use Rattle.arch_types.specs.Order.{key_cmp};
ghost use Rattle.arch_types.specs.Table.{is_in_time_range};
ghost use Rattle.partitions.specs.Partitions.{AreRising};
ghost use Rattle.partitions.specs.Rows.{is_of_parts};

use crate::partition::{Partition, partition_of};
use arch_types::row::{Row, Rows};
use std::alloc::AllocError;
use time_text::day_of;

/// Whether a row stands in one of some partitions, which rise.
pub fn is_of_parts(parts: &[Partition], row: &Row) -> bool
    requires { AreRising parts.now }
    ensures { result ≡ is_of_parts parts.now row.now }
{
    let partition = partition_of(row.key.time, row.pname);
    parts.binary_search(&partition).is_ok()
}

/// Whether a row's time lies in a range, `from <= time < to`.
fn is_between(row: &Row, from: i64, to: i64) -> bool
    ensures { result ≡ is_in_time_range from to row.now }
{
    from <= row.key.time && row.key.time < to
}

/// Takes out the rows whose times don't lie in a range.
fn keep_between(rows: &mut Vec<Row>, from: i64, to: i64)
    ensures { rows.new.items ≡ filter (is_in_time_range from to) rows.old.items }
{
    rows.retain(|row| is_between(row, from, to));
}

/// Rows, and then those of others whose times lie in a range, `from <= time < to`. The one error is want of memory.
pub fn append_between(
    mut rows: Vec<Row>,
    part_rows: Rows,
    from: i64,
    to: i64,
) -> Result<Vec<Row>, AllocError>
    ensures { IfOk result (λ all. all.items ≡ rows.items ++ filter (is_in_time_range from to) part_rows) }
{
    let mut more = part_rows.into_vec();
    keep_between(&mut more, from, to);
    if rows.is_empty() {
        return Ok(more);
    }
    rows.append(&mut more)?;
    Ok(rows)
}

/// The rows in the order of their keys, by a sort that merges what rises already. The one error is want of memory.
pub fn merged_by_key(mut rows: Vec<Row>) -> Result<Rows, AllocError>
    ensures same { IfOk result (IsPermutation rows.items) }
    ensures sorted { IfOk result (IsSortedByKey (λ row. row.key) key_cmp) }
    ensures stable { IfOk result (IsStableByKey (λ row. row.key) key_cmp rows.items) }
{
    rows.sort_by_key(|row| row.key)?;
    Ok(Rows::from_vec(rows))
}

/// Whether a range has all times of the days of some partitions, which rise. From the least time on it isn't told.
pub fn are_whole_days(parts: &[Partition], from: i64, to: i64) -> bool
    requires { AreRising parts.now }
    ensures { result ≡ true → (row : ARow) → is_of_parts parts.now row ≡ true → is_in_time_range from to row ≡ true }
{
    if parts.is_empty() {
        return true;
    }
    let first = parts[0].day;
    let last = parts[parts.len() - 1].day;
    i64::MIN < from && day_of(from - 1) < first && last < day_of(to)
}
