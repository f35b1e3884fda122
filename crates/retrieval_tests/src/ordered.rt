//! Rows that are tested before a set is built of them.

ghost use Rattle.std.specs.Prelude.{◌≡◌, map, true, IfOk, IfSome};
ghost use Rattle.std.specs.List.{AllByRecursion};
ghost use Rattle.std.specs.List.Sorted.{IsStrictlySortedBy};
ghost use Rattle.intervals.specs.Interval.{format_1_exponent, interval_of};
ghost use Rattle.arch_types.specs.Order.{key_cmp};
ghost use Rattle.param_segments.specs.Cells.{AreValuesOf};

use arch_types::row::{Row, Rows};
use intervals::{Exponent, Interval};
use mdb_model::Mdb;
use param_segments::SegSet;
use std::alloc::{AllocError, Global};

/// The keys rise.
fn are_rising(rows: &[Row]) -> bool
    ensures { result ≡ true → IsStrictlySortedBy key_cmp (map (λ row. row.key) rows.now) }
{
    for i in 1..rows.len() {
        if rows[i - 1].key >= rows[i].key {
            return false;
        }
    }
    true
}

/// The times lie in the interval.
fn are_inside(interval: Interval, rows: &[Row]) -> bool
    ensures { result ≡ true →
        AllByRecursion (λ row. interval_of format_1_exponent row.key.time ≡ interval.0) rows.now }
{
    rows.iter().all(|row| Interval::at(row.key.time, Exponent::of_format_1()) == interval)
}

/// The set of rows of an interval in the order of their keys, and nothing where they aren't.
pub fn built(
    alloc: Global,
    interval: Interval,
    rows: &Rows,
    mdb: &Mdb,
) -> Result<Option<SegSet>, AllocError>
    ensures { IfOk result (λ set. IfSome set (AreValuesOf mdb.now)) }
{
    if !are_rising(rows.as_slice()) || !are_inside(interval, rows.as_slice()) {
        return Ok(None);
    }
    let set = SegSet::build(alloc, interval, Exponent::of_format_1(), rows, mdb)?;
    Ok(Some(set))
}
