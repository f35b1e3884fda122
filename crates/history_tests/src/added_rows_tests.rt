//! Rows that are added to a history: which stay where the key of one is known, the positions of keys, and each limit that can be reached here.

ghost use Rattle.std.specs.Prelude.{◌≡◌, ◌<◌, IsTrue};
ghost use Rattle.std.specs.List.{AllByRecursion};

use crate::parts::{none_other, rows_of};
use arch_types::key::Key;
use arch_types::octets::Octets;
use arch_types::row::{Row, Rows};
use archive_history::history::History;
use archive_history::row_limit::RowLimit;
use intervals::{Exponent, Interval};
use std::alloc::{AllocError, Global};
use std::test::Fail;

/// Rows by their tables and times, whether all are added, and the length of the history then.
type Added = (&'static [(u8, i64)], bool, usize);

const ADDED: &[Added] = &[
    (&[(0, 10), (1, 10), (0, 20)], true, 3),
    (&[(0, 30), (1, 10), (0, 50)], false, 4), // a known key: those before it stay
    (&[(0, 40), (0, 40)], false, 5), // one that comes twice at once
    (&[(1, 40)], true, 6),
    (&[], true, 6),
];

/// A table, the time of a key, and its position behind them.
const POSITIONS: &[(u8, i64, Option<u64>)] = &[
    (0, 10, Some(0)),
    (1, 10, Some(1)),
    (0, 20, Some(2)),
    (0, 30, Some(3)),
    (0, 40, Some(4)),
    (1, 40, Some(5)),
    (0, 50, None),
    (1, 20, None),
];

/// The table and the time of many rows, the octets of each packet, how many they are, and the limit that they pass behind those, which have four
/// rows of the first table in the first interval.
type Limited = (u8, i64, usize, usize, Option<RowLimit>);

const LIMITED: &[Limited] = &[
    (0, 10, 0, 262_140, None),
    (0, 10, 0, 262_141, Some(RowLimit::IntervalRows)),
    (0, 5_000_000, 0, 262_144, None), // the next interval
    (1, 10, 0, 262_145, None), // a table without such a limit
    (1, 10, 65_536, 32_768, None),
    (1, 10, 65_536, 32_769, Some(RowLimit::HistoryOctets)),
];

// They are functions, so that they stand in no goal of their callers.
fn added() -> &'static [Added] {
    ADDED
}

fn positions() -> &'static [(u8, i64, Option<u64>)] {
    POSITIONS
}

fn limited() -> &'static [Limited] {
    LIMITED
}

/// Whether all rows are of so many tables.
fn are_of_tables(rows: &[Row], tables: usize) -> bool
    ensures { IsTrue result → AllByRecursion (λ row. row.table < tables) rows.now }
{
    for row in rows {
        if row.table as usize >= tables {
            return false;
        }
    }
    true
}

/// Adds rows to a history of two tables, where they may be added: whether all were.
fn add(history: &mut History, rows: Rows) -> Result<bool, AllocError>
    requires { history.old.tables ≡ 2 }
    ensures { history.new.tables ≡ 2 }
{
    history.reserve(rows.len())?;
    if !are_of_tables(rows.as_slice(), 2) {
        return Ok(false);
    }
    match history.limit_passed(rows.as_slice()) {
        Some(_) => Ok(false),
        None => Ok(history.add_all(rows)),
    }
}

/// The place of the first rows that are added otherwise.
fn other_added(
    alloc: Global,
    history: &mut History,
    all: &[Added],
) -> Result<Option<usize>, AllocError>
    requires { history.old.tables ≡ 2 }
    ensures { history.new.tables ≡ 2 }
{
    for (place, (rows, are_all, len)) in all.iter().enumerate() {
        let are_added = add(history, rows_of(alloc, rows)?)?;
        if are_added != *are_all || history.len() != *len {
            return Ok(Some(place));
        }
    }
    Ok(None)
}

/// The place of the first key that has another position.
fn other_position(history: &History, all: &[(u8, i64, Option<u64>)]) -> Option<usize>
    requires { history.now.tables ≡ 2 }
{
    for (place, (table, time, position)) in all.iter().enumerate() {
        let key = Key {
            time: *time,
            seq: 1,
        };
        if *table > 1 || history.position(*table, key) != *position {
            return Some(place);
        }
    }
    None
}

/// So many rows that are alike.
fn many(
    alloc: Global,
    table: u8,
    time: i64,
    octets: usize,
    count: usize,
) -> Result<Rows, AllocError> {
    let row = Row {
        key: Key { time, seq: 1 },
        rectime: 9_000_000_000,
        packet: Octets::from_vec(alloc, vec![in alloc; 0u8; octets]?)?,
        link: 1,
        pname: 1,
        table,
    };
    let mut rows = Rows::new(alloc);
    for _ in 0..count {
        rows.push(row.copy()?)?;
    }
    Ok(rows)
}

/// The place of the first rows that pass another limit, or none where they should.
fn other_limit(
    alloc: Global,
    history: &History,
    all: &[Limited],
) -> Result<Option<usize>, AllocError> {
    for (place, (table, time, octets, count, limit)) in all.iter().enumerate() {
        let rows = many(alloc, *table, *time, *octets, *count)?;
        if history.limit_passed(rows.as_slice()) != *limit {
            return Ok(Some(place));
        }
    }
    Ok(None)
}

fn other(alloc: Global) -> Result<Option<(&'static str, usize)>, AllocError> {
    let mut history = History::new(alloc, 2, Exponent::of_format_1())?;
    if let Some(place) = other_added(alloc, &mut history, added())? {
        return Ok(Some(("rows added", place)));
    }
    if let Some(place) = other_position(&history, positions()) {
        return Ok(Some(("positions of keys", place)));
    }
    if history.interval_len(Interval(0)) != 4 {
        return Ok(Some(("rows of an interval", 0)));
    }
    match other_limit(alloc, &history, limited())? {
        Some(place) => Ok(Some(("limits", place))),
        None => Ok(None),
    }
}

#[test]
fn rows_are_added(rt: HostRuntime) -> Result<(), Fail> {
    none_other(other(rt.alloc())?)
}
