//! Rows that leave memory, by pages and in any order: what they come to, asked by table, interval and packet name.

use crate::parts::none_other;
use arch_types::key::Key;
use arch_types::octets::Octets;
use arch_types::row::{Row, Rows};
use fill_tracker::FillTracker;
use intervals::{Exponent, Interval};
use partitions::partition::Partition;
use sealed_sums::sums::SealedSums;
use std::alloc::{AllocError, Global};
use std::test::Fail;

/// A row of a page: its time, its packet name, and its position in the history.
type PageRow = (i64, u16, u64);

/// A table, and the rows of a page.
type Page = (u8, &'static [PageRow]);

/// Two runs of the first table, one of the second, and one of a table that isn't there. An interval has 4,194,304 milliseconds.
const PAGES: &[Page] = &[
    (
        0,
        &[(10, 1, 3), (20, 1, 0), (60_005, 2, 2), (5_000_000, 1, 5)],
    ),
    (1, &[(10, 1, 1)]),
    (0, &[(4, 1, 4)]),
    (7, &[(10, 1, 6)]),
];

/// The same rows by their tables, times and packet names, in the order in which they came.
const LOOSE: &[(u8, i64, u16)] = &[
    (0, 20, 1),
    (1, 10, 1),
    (0, 60_005, 2),
    (0, 10, 1),
    (0, 4, 1),
    (0, 5_000_000, 1),
    (7, 10, 1),
];

// They are functions, so that they stand in no goal of their callers.
fn pages() -> &'static [Page] {
    PAGES
}

fn loose() -> &'static [(u8, i64, u16)] {
    LOOSE
}

/// A row with a packet of three octets.
fn row(alloc: Global, table: u8, time: i64, pname: u16) -> Result<Row, AllocError> {
    Ok(Row {
        key: Key { time, seq: 1 },
        rectime: 9_000_000_000,
        packet: Octets::from_slice(alloc, &[1, 2, 3])?,
        link: 1,
        pname,
        table,
    })
}

fn rows_of(alloc: Global, table: u8, page: &[PageRow]) -> Result<Rows, AllocError> {
    let mut rows = Rows::new(alloc);
    for (time, pname, _) in page {
        rows.push(row(alloc, table, *time, *pname)?)?;
    }
    Ok(rows)
}

fn positions_of(alloc: Global, page: &[PageRow]) -> Result<Vec<u64>, AllocError> {
    let mut positions = Vec::new(alloc);
    for (_, _, position) in page {
        positions.push(*position)?;
    }
    Ok(positions)
}

/// Adds a page, where it may be one.
fn add(
    sums: &mut SealedSums,
    tracker: &mut FillTracker,
    rows: &[Row],
    positions: &[u64],
) -> Result<bool, AllocError> {
    if rows.len() != positions.len() || rows.len() > 64 || sums.count() > 64 {
        return Ok(false);
    }
    sums.add_page(tracker, rows, positions)?;
    Ok(true)
}

/// Whether all pages are taken.
fn add_all(
    alloc: Global,
    sums: &mut SealedSums,
    tracker: &mut FillTracker,
    pages: &[Page],
) -> Result<bool, AllocError> {
    for (table, page) in pages {
        let rows = rows_of(alloc, *table, page)?;
        let positions = positions_of(alloc, page)?;
        if !add(sums, tracker, rows.as_slice(), positions.as_slice())? {
            return Ok(false);
        }
    }
    Ok(true)
}

/// The sums of rows that came one by one, where all are taken.
fn sums_of(
    alloc: Global,
    tables: usize,
    rows: &[(u8, i64, u16)],
) -> Result<SealedSums, AllocError> {
    let mut own = Rows::new(alloc);
    for (table, time, pname) in rows {
        own.push(row(alloc, *table, *time, *pname)?)?;
    }
    let mut sums = SealedSums::new(alloc, tables, Exponent::of_format_1())?;
    if own.len() < 64 && sums.count() == 0 {
        sums.add_rows(own.as_slice())?;
    }
    Ok(sums)
}

/// Whether the first two intervals have these numbers of rows, the fullest has its own, and all packets these octets.
fn are_counted(sums: &SealedSums) -> bool {
    let counts = sums.limit_counts();
    (sums.count(), counts.octets(), counts.most_rows()) == (7, 21, 4)
        && (counts.rows_of(Interval(0)), counts.rows_of(Interval(1))) == (4, 1)
}

/// Whether they have these last positions.
fn are_marked(tracker: &FillTracker) -> bool {
    (tracker.last(Interval(0)), tracker.last(Interval(1))) == (Some(4), Some(5))
}

/// How many rows the packet names 1 and 2 have on the first day in a table.
fn named_rows(sums: &SealedSums, table: usize) -> (u32, u32) {
    match sums.tables().get(table) {
        Some(those) => {
            let partitions = those.partitions();
            (
                partitions.row_count(Partition { day: 0, pname: 1 }),
                partitions.row_count(Partition { day: 0, pname: 2 }),
            )
        }
        None => (0, 0),
    }
}

/// Whether packet name 1 has its two records in the first table.
fn has_records(sums: &SealedSums) -> Result<bool, AllocError> {
    let Some(those) = sums.tables().first() else {
        return Ok(false);
    };
    let spans = those.spans().records(1)?;
    match spans.as_slice() {
        [first, second] => Ok(
            (first.first, first.last, first.count) == (4, 20, 3)
                && (second.first, second.last, second.count) == (5_000_000, 5_000_000, 1),
        ),
        _ => Ok(false),
    }
}

/// What is otherwise of the sums of those rows.
fn other_sums(sums: &SealedSums) -> Result<Option<(&'static str, usize)>, AllocError> {
    if !are_counted(sums) {
        return Ok(Some(("counts of all rows", 0)));
    }
    if (named_rows(sums, 0), named_rows(sums, 1)) != ((4, 1), (1, 0)) {
        return Ok(Some(("rows of packet names", 0)));
    }
    if !has_records(sums)? {
        return Ok(Some(("records of a packet name", 0)));
    }
    Ok(None)
}

fn other(alloc: Global) -> Result<Option<(&'static str, usize)>, AllocError> {
    let mut tracker = FillTracker::new(alloc);
    let mut sums = SealedSums::new(alloc, 2, Exponent::of_format_1())?;
    if !add_all(alloc, &mut sums, &mut tracker, pages())? {
        return Ok(Some(("pages", 0)));
    }
    if !are_marked(&tracker) {
        return Ok(Some(("marks", 0)));
    }
    other_sums(&sums)
}

#[test]
fn pages_are_summed(rt: HostRuntime) -> Result<(), Fail> {
    none_other(other(rt.alloc())?)
}

#[test]
fn rows_in_any_order_are_summed(rt: HostRuntime) -> Result<(), Fail> {
    none_other(other_sums(&sums_of(rt.alloc(), 2, loose())?)?)
}
