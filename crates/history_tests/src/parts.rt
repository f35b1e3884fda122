//! What several of these tests are made of.

use arch_types::key::Key;
use arch_types::octets::Octets;
use arch_types::row::{Row, Rows};
use fill_tracker::FillTracker;
use history_items::fills::{Addition, Fill};
use intervals::Exponent;
use std::alloc::{AllocError, Global};
use std::test::Fail;

/// Fails with the row that goes otherwise: its table's name, and its place there.
pub(crate) fn none_other(other: Option<(&'static str, usize)>) -> Result<(), Fail> {
    match other {
        None => Ok(()),
        Some((table, place)) => Err(Fail::new(format_args!("{table}: row {place} goes otherwise"))),
    }
}

/// A row of link 1 with an empty packet.
pub(crate) fn row(
    alloc: Global,
    table: u8,
    key: Key,
    rectime: i64,
    pname: u16,
) -> Result<Row, AllocError> {
    Ok(Row {
        key,
        rectime,
        packet: Octets::from_slice(alloc, &[])?,
        link: 1,
        pname,
        table,
    })
}

/// Rows of these tables and times, received much later.
pub(crate) fn rows_of(alloc: Global, rows: &[(u8, i64)]) -> Result<Rows, AllocError> {
    let mut all = Rows::new(alloc);
    for (table, time) in rows {
        let key = Key {
            time: *time,
            seq: 1,
        };
        all.push(row(alloc, *table, key, 9_000_000_000, 0)?)?;
    }
    Ok(all)
}

/// Notes that rows of these tables and times came at once, the first of them at this position.
pub(crate) fn touch(
    alloc: Global,
    tracker: &mut FillTracker,
    rows: &[(u8, i64)],
    position: u32,
) -> Result<(), AllocError> {
    let rows = rows_of(alloc, rows)?;
    tracker.reserve_rows(rows.len() as u64)?;
    tracker.touch(
        rows.as_slice(),
        u64::from(position),
        Exponent::of_format_1(),
    );
    Ok(())
}

/// An item of a fill list in words: what it is; its interval, or the faults that it counts; its base; and whether a write failed.
pub(crate) type Told = (&'static str, i64, u64, bool);

fn told(fill: &Fill) -> Told {
    match fill {
        Fill::Begun { interval, base } => ("begun", interval.0, *base, false),
        Fill::Done { interval, base } => ("done", interval.0, *base, false),
        Fill::Freed { interval } => ("freed", interval.0, 0, false),
        Fill::Fault {
            count,
            wrote,
            unacknowledged: Addition::Nothing,
        } => ("fault", 0, *count, *wrote),
        Fill::Fault { count, wrote, .. } => ("fault with rows", 0, *count, *wrote),
        Fill::Closed => ("closed", 0, 0, false),
    }
}

/// Whether these are the items of a fill list.
pub(crate) fn are_told(fills: &[Fill], want: &[Told]) -> bool {
    for (fill, want) in fills.iter().zip(want) {
        if told(fill) != *want {
            return false;
        }
    }
    fills.len() == want.len()
}
