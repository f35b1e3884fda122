//! Cells that ranges ask of sets, against all cells of the set.

ghost use Rattle.param_segments.specs.Cells.{AreValuesOf};

use crate::ordered::built;
use arch_types::cell::Cell;
use arch_types::direction::Direction;
use arch_types::row::Rows;
use intervals::Interval;
use mdb_model::Mdb;
use param_segments::{CellRange, SegSet};
use std::alloc::{AllocError, Global};

/// In which order cells are asked, and how many at most.
const ORDERS: &[(Direction, Option<u64>)] = &[
    (Direction::Ascending, None),
    (Direction::Descending, None),
    (Direction::Ascending, Some(0)),
    (Direction::Descending, Some(0)),
    (Direction::Ascending, Some(1)),
    (Direction::Descending, Some(1)),
    (Direction::Ascending, Some(3)),
    (Direction::Descending, Some(3)),
    (Direction::Descending, Some(u64::MAX)),
];

fn orders() -> &'static [(Direction, Option<u64>)] {
    ORDERS
}

/// The cells that a range asks, of all.
fn asked_of(alloc: Global, cells: &[Cell], range: CellRange) -> Result<Vec<Cell>, AllocError> {
    let mut asked = Vec::new(alloc);
    for cell in cells {
        if cell.key.time >= range.from && cell.key.time < range.to {
            asked.push(*cell)?;
        }
    }
    if range.direction == Direction::Descending {
        asked.as_mut_slice().reverse();
    }
    if let Some(limit) = range.limit {
        asked.truncate(limit as usize);
    }
    Ok(asked)
}

/// Whether a range asks of a set just what it asks of all of its cells of the parameter 0.
fn is_asked(alloc: Global, set: &SegSet, mdb: &Mdb, cells: &[Cell], range: CellRange) -> bool
    requires { AreValuesOf mdb.now set.now }
{
    match set.cells_in_range(alloc, mdb, 0, range) {
        Ok(found) => match asked_of(alloc, cells, range) {
            Ok(asked) => found.as_slice() == asked.as_slice(),
            Err(_) => false,
        },
        Err(_) => false,
    }
}

/// Whether a range is asked so in each order.
fn is_asked_in_orders(
    alloc: Global,
    set: &SegSet,
    mdb: &Mdb,
    cells: &[Cell],
    from: i64,
    to: i64,
) -> bool
    requires { AreValuesOf mdb.now set.now }
{
    for (direction, limit) in orders() {
        let range = CellRange {
            from,
            to,
            direction: *direction,
            limit: *limit,
        };
        if !is_asked(alloc, set, mdb, cells, range) {
            return false;
        }
    }
    true
}

/// Whether ranges between these times are.
fn are_asked(alloc: Global, set: &SegSet, mdb: &Mdb, cells: &[Cell], ranges: &[(i64, i64)]) -> bool
    requires { AreValuesOf mdb.now set.now }
{
    for (from, to) in ranges {
        if !is_asked_in_orders(alloc, set, mdb, cells, *from, *to) {
            return false;
        }
    }
    true
}

/// Whether ranges are asked so of the set of rows.
pub(crate) fn ranges_are_asked(
    alloc: Global,
    mdb: &Mdb,
    rows: &Rows,
    ranges: &[(i64, i64)],
) -> bool {
    match built(alloc, Interval(0), rows, mdb) {
        Ok(Some(set)) => match set.cells(alloc, mdb, 0) {
            Ok(cells) => are_asked(alloc, &set, mdb, cells.as_slice(), ranges),
            Err(_) => false,
        },
        _ => false,
    }
}

/// All ranges between so many first milliseconds, one before these, and one behind.
pub(crate) fn each_range(alloc: Global, times: u8) -> Result<Vec<(i64, i64)>, AllocError> {
    let mut ranges = Vec::new(alloc);
    for from in 0..times {
        put_ranges(&mut ranges, from, times)?;
    }
    Ok(ranges)
}

/// Those that begin at a time.
fn put_ranges(ranges: &mut Vec<(i64, i64)>, from: u8, times: u8) -> Result<(), AllocError> {
    for to in 0..times {
        ranges.push((i64::from(from) - 1, i64::from(to) - 1))?;
    }
    Ok(())
}
