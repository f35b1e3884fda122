//! The rows of some partitions in a range, of a table in memory: found by keys where the range has few rows, else by the partitions' places.

use crate::parts::{none_other, row};
use arch_types::key::Key;
use arch_types::row::{Row, Rows};
use archive_history::partitioned_table::PartitionedTable;
use partitions::bounds::Bounds;
use partitions::lists::PnameList;
use partitions::partition::Partition;
use std::alloc::{AllocError, Global};
use std::test::Fail;

/// The time and the packet name of each row, in the order in which they came: around the first milliseconds of a minute and of a day. A row's
/// place here is its key's second part, too.
const ROWS: &[(i64, u16)] = &[
    (10, 1),
    (60_005, 2),
    (60_000, 1),
    (60_005, 3),
    (120_000, 2),
    (86_399_999, 1),
    (86_400_000, 1),
    (86_400_003, 2),
    (60_007, 1),
    (60_009, 2),
    (60_011, 2),
    (20, 3),
    (120_001, 3),
    (60_006, 0),
    (60_006, 0),
];

/// They are a function, so that they stand in no goal of its callers.
fn times() -> &'static [(i64, u16)] {
    ROWS
}

fn table(alloc: Global) -> Result<PartitionedTable, AllocError> {
    let mut table = PartitionedTable::new(alloc)?;
    let mut seq = 0u32;
    for (time, pname) in times() {
        table.reserve(1)?;
        let key = Key { time: *time, seq };
        table.insert(row(alloc, 0, key, *time, *pname)?, seq as u64);
        seq = seq.wrapping_add(1);
    }
    Ok(table)
}

fn bounds(alloc: Global, from: i64, to: i64, names: Option<&[u16]>) -> Result<Bounds, AllocError> {
    let names = match names {
        Some(names) => Some(PnameList::from_vec(Vec::from_slice(alloc, names)?)),
        None => None,
    };
    Ok(Bounds { from, to, names })
}

/// A range, packet names, a front, and the places of the rows that are given.
type Asked = (i64, i64, Option<&'static [u16]>, u64, &'static [u32]);

const ASKED: &[Asked] = &[
    // a minute of a day with three names: fewer rows than the day's
    (60_000, 120_000, None, 12, &[2, 1, 3, 8, 9, 10]),
    // the same below a front in the middle
    (60_000, 120_000, None, 9, &[2, 1, 3, 8]),
    // two of the names: six rows are looked at, of ten steps
    (60_000, 120_000, Some(&[1, 2]), 12, &[2, 1, 8, 9, 10]),
    // one name of three rows, where the minute has six
    (60_000, 120_000, Some(&[3]), 12, &[3]),
    (60_000, 120_000, Some(&[3]), 3, &[]),
    // a range that ends at a day's first millisecond, and one millisecond later
    (0, 86_400_000, Some(&[1]), 12, &[0, 2, 8, 5]),
    (0, 86_400_001, Some(&[1]), 12, &[0, 2, 8, 5, 6]),
    // from inside a day
    (11, 86_400_001, None, 12, &[11, 2, 1, 3, 8, 9, 10, 4, 5, 6]),
    (60_000, 60_000, None, 12, &[]),
    (259_200_000, 345_600_000, None, 12, &[]),
    (
        i64::MIN,
        i64::MAX,
        None,
        12,
        &[0, 11, 2, 1, 3, 8, 9, 10, 4, 5, 6, 7],
    ),
    // by partitions: a row behind the range, and one behind the front; by keys: a name that isn't asked for
    (0, 120_000, Some(&[3]), 13, &[11, 3]),
    (0, 120_002, Some(&[3]), 12, &[11, 3]),
    (60_000, 120_000, Some(&[1, 2]), 14, &[2, 1, 8, 9, 10]),
];

/// A function, as above.
fn asked() -> &'static [Asked] {
    ASKED
}

fn given(alloc: Global, table: &PartitionedTable, asked: &Asked) -> Result<Rows, AllocError> {
    let (from, to, names, front, _) = *asked;
    let parts = table.pruned(&bounds(alloc, from, to, names)?)?;
    table.rows_between(alloc, parts.as_slice(), from, to, front)
}

/// Whether rows are those of these places.
fn are_of_places(rows: &[Row], want: &[u32]) -> bool {
    for (row, want) in rows.iter().zip(want) {
        if row.key.seq != *want {
            return false;
        }
    }
    rows.len() == want.len()
}

fn gives(alloc: Global, table: &PartitionedTable, asked: &Asked) -> Result<bool, AllocError> {
    let rows = given(alloc, table, asked)?;
    let (_, _, _, _, want) = *asked;
    Ok(are_of_places(rows.as_slice(), want))
}

/// The place of the first of these that gives other rows.
fn other_given(
    alloc: Global,
    table: &PartitionedTable,
    all: &[Asked],
) -> Result<Option<usize>, AllocError> {
    let mut place = 0usize;
    for asked in all {
        if !gives(alloc, table, asked)? {
            return Ok(Some(place));
        }
        place = place.saturating_add(1);
    }
    Ok(None)
}

/// Whether a partition has its two rows of one time.
fn has_rows_of_one_time(alloc: Global, table: &PartitionedTable) -> Result<bool, AllocError> {
    let partition = Partition { day: 0, pname: 0 };
    let rows = table.partition_rows(alloc, &partition, 15)?;
    Ok(are_of_places(rows.as_slice(), &[13, 14]))
}

/// Whether their packet name has one span of time, with both of them.
fn has_one_span(table: &PartitionedTable) -> Result<bool, AllocError> {
    let spans = table.spans(0)?;
    match spans.as_slice() {
        [span] => Ok(span.count == 2),
        _ => Ok(false),
    }
}

fn other_rows(
    alloc: Global,
    table: &PartitionedTable,
) -> Result<Option<(&'static str, usize)>, AllocError> {
    if let Some(place) = other_given(alloc, table, asked())? {
        return Ok(Some(("rows of parts of days", place)));
    }
    if !has_rows_of_one_time(alloc, table)? {
        return Ok(Some(("rows of one time in a partition", 0)));
    }
    if !has_one_span(table)? {
        return Ok(Some(("spans of a name", 0)));
    }
    Ok(None)
}

#[test]
fn rows_and_spans(rt: HostRuntime) -> Result<(), Fail> {
    let table = table(rt.alloc())?;
    none_other(other_rows(rt.alloc(), &table)?)
}
