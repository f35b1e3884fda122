//! Rows of a range, looked through one after the other.

ghost use Rattle.std.specs.Prelude.{◌≡◌, ◌<◌, ◌≤◌, length, filter, IfOk, IfSome, IfNone};
ghost use Rattle.partitions.specs.Partitions.{AreRising};
ghost use Rattle.partitions.specs.Rows.{is_of_parts};

use arch_types::row::Rows;
use partitions::chain_steps::ChainSteps;
use partitions::partition::Partition;
use partitions::rows::is_of_parts;
use std::alloc::{AllocError, Global};
use yarch_table::rows::TableRows;

/// The rows of a range that stand in some partitions, in its order, unless it has more rows than there are steps: a row that is
/// looked at takes one (D-155). The one error is want of memory.
pub(crate) fn rows_in_steps(
    alloc: Global,
    mut range: TableRows<'_>,
    parts: &[Partition],
    mut steps: ChainSteps<'_>,
) -> Result<Option<Rows>, AllocError>
    requires { AreRising parts.now }
    ensures rows { IfOk result (λ found. IfSome found (λ rows. rows ≡ filter (is_of_parts parts.now) range.entry)) }
    ensures few { IfOk result (λ found. IfSome found (λ _. length range.entry ≤ steps.entry)) }
    ensures many { IfOk result (λ found. IfNone found (steps.entry < length range.entry)) }
{
    let mut rows = Rows::new(alloc);
    while let Some(row) = range.next() {
        if !steps.take_one() {
            return Ok(None);
        }
        if is_of_parts(parts, row) {
            rows.push(row.copy()?)?;
        }
    }
    Ok(Some(rows))
}

/// The rows of a range, in its order, unless one of them stands in none of some partitions (D-267). The one error is want of memory.
pub(crate) fn rows_all_of_parts(
    alloc: Global,
    mut range: TableRows<'_>,
    parts: &[Partition],
) -> Result<Option<Rows>, AllocError>
    requires { AreRising parts.now }
    ensures { IfOk result (λ found. IfSome found (λ rows. rows ≡ filter (is_of_parts parts.now) range.entry)) }
{
    let mut rows = Rows::new(alloc);
    while let Some(row) = range.next() {
        if !is_of_parts(parts, row) {
            return Ok(None);
        }
        rows.push(row.copy()?)?;
    }
    Ok(Some(rows))
}
