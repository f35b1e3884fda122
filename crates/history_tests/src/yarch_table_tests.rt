//! The answers of a table, and that each call succeeds with ample memory.

use crate::parts::{none_other, row};
use arch_types::inserted::Inserted;
use arch_types::key::Key;
use std::alloc::{AllocError, Global};
use std::test::Fail;
use yarch_table::rows::TableRows;
use yarch_table::stored_rows::StoredRows;
use yarch_table::table::Table;

/// The keys of six rows, of which the fifth has the key of the second.
const KEYS: &[(i64, u32)] = &[
    (i64::MAX, 7),
    (1500, 2),
    (1500, 1),
    (-1, 4_294_967_295),
    (1500, 2),
    (9000, 0),
];

/// A function, as that below is, so that they stand in no goal of its callers.
fn keys() -> &'static [(i64, u32)] {
    KEYS
}

/// Inserts a row of this key, whose position stands in its reception time, with room made for it.
fn insert(
    alloc: Global,
    table: &mut Table,
    key: Key,
    position: u32,
) -> Result<Inserted, AllocError> {
    let row = row(alloc, 0, key, i64::from(position), 0)?;
    table.reserve(1)?;
    Ok(table.insert(row, u64::from(position)))
}

/// What became of the fifth row, and how many there are then.
type Fifth = Option<(Inserted, usize)>;

/// Inserts rows of these keys in order.
fn fill(alloc: Global, table: &mut Table, keys: &[(i64, u32)]) -> Result<Fifth, AllocError> {
    let mut fifth = None;
    let mut position = 0u32;
    for (time, seq) in keys {
        let key = Key {
            time: *time,
            seq: *seq,
        };
        let inserted = insert(alloc, table, key, position)?;
        if position == 4 {
            fifth = Some((inserted, table.len()));
        }
        position = position.wrapping_add(1);
    }
    Ok(fifth)
}

/// A front, a range of times, and the positions of the rows in it.
type Ranged = (u64, i64, i64, &'static [i64]);

const RANGES: &[Ranged] = &[
    (6, 1500, 9000, &[2, 1]),
    (6, 1500, 9001, &[2, 1, 5]),
    (2, 1500, 9001, &[1]),
    (6, i64::MIN, i64::MAX, &[3, 2, 1, 5]),
    (6, 9000, 1500, &[]),
    // the first number of a time
    (6, 9000, 9001, &[5]),
];

fn ranges() -> &'static [Ranged] {
    RANGES
}

/// Whether an iterator gives the rows of these positions.
fn gives(mut rows: TableRows<'_>, want: &[i64]) -> bool {
    for position in want {
        match rows.next() {
            Some(row) => {
                if row.rectime != *position {
                    return false;
                }
            }
            None => return false,
        }
    }
    rows.next().is_none()
}

/// Whether a walk gives these positions.
fn walks(mut rows: StoredRows<'_>, want: &[u64]) -> bool {
    for position in want {
        match rows.next() {
            Some(stored) => {
                if stored.position != *position {
                    return false;
                }
            }
            None => return false,
        }
    }
    rows.next().is_none()
}

/// The place of the first range with other rows.
fn other_range(table: &Table, ranges: &[Ranged]) -> Option<usize> {
    let mut place = 0usize;
    for (front, from, to, want) in ranges {
        if !gives(table.range_at(*front, *from, *to), want) {
            return Some(place);
        }
        place = place.saturating_add(1);
    }
    None
}

fn other_rows(table: &Table) -> Option<(&'static str, usize)> {
    if table.len() != 5 {
        return Some(("six rows", table.len()));
    }
    if !gives(table.rows_at(6), &[3, 2, 1, 5, 0]) {
        return Some(("rows at a front", 6));
    }
    if !gives(table.rows_at(2), &[1, 0]) {
        return Some(("rows at a front", 2));
    }
    if !walks(table.stored_by_key(), &[3, 2, 1, 5, 0]) {
        return Some(("positions in key order", 5));
    }
    match other_range(table, ranges()) {
        Some(place) => Some(("ranges at a front", place)),
        None => None,
    }
}

fn other(alloc: Global, table: &mut Table) -> Result<Option<(&'static str, usize)>, AllocError> {
    let fifth = fill(alloc, table, keys())?;
    if fifth != Some((Inserted::Duplicate(1), 4)) {
        return Ok(Some(("duplicate of the first", 4)));
    }
    Ok(other_rows(table))
}

#[test]
fn rows_of_a_table(rt: HostRuntime) -> Result<(), Fail> {
    let mut table = Table::new(rt.alloc())?;
    none_other(other(rt.alloc(), &mut table)?)
}
