//! What no clause says: that calls succeed where memory is ample, and rows counted one by one and many at once.

use crate::parts::none_other;
use archive_history::limit_counts::LimitCounts;
use intervals::Interval;
use std::alloc::{AllocError, Global};
use std::test::Fail;

/// An interval's number, and how many rows of it are counted at once.
type Counted = (i64, u64);

const COUNTED: &[Counted] = &[(3, 5), (-1, 2), (3, 1), (7, 0), (3, 4)];

/// A function, as that below is, so that they stand in no goal of its callers.
fn counted() -> &'static [Counted] {
    COUNTED
}

/// What each interval has behind them.
const WANTED: &[Counted] = &[(3, 10), (-1, 2), (7, 0), (0, 0)];

fn wanted() -> &'static [Counted] {
    WANTED
}

/// Counts rows, where they aren't very many: one by itself, and others at once.
fn count(counts: &mut LimitCounts, interval: Interval, rows: u64) -> Result<(), AllocError> {
    counts.reserve(1)?;
    if counts.rows_of(interval) < 1_000 && rows < 1_000 {
        match rows {
            1 => counts.add_row(interval),
            _ => counts.add_rows(interval, rows),
        }
    }
    Ok(())
}

fn counts_of(alloc: Global, counted: &[Counted]) -> Result<LimitCounts, AllocError> {
    let mut counts = LimitCounts::new(alloc)?;
    for (interval, rows) in counted {
        count(&mut counts, Interval(*interval), *rows)?;
    }
    Ok(counts)
}

/// The place of the first interval that has another number of rows.
fn other_count(counts: &LimitCounts, wanted: &[Counted]) -> Option<usize> {
    let mut place = 0usize;
    for (interval, rows) in wanted {
        if counts.rows_of(Interval(*interval)) != *rows {
            return Some(place);
        }
        place = place.saturating_add(1);
    }
    None
}

fn other(alloc: Global) -> Result<Option<(&'static str, usize)>, AllocError> {
    let counts = counts_of(alloc, counted())?;
    if let Some(place) = other_count(&counts, wanted()) {
        return Ok(Some(("rows of an interval", place)));
    }
    match counts.most_rows() {
        10 => Ok(None),
        _ => Ok(Some(("rows of the fullest", 0))),
    }
}

#[test]
fn rows_of_intervals(rt: HostRuntime) -> Result<(), Fail> {
    none_other(other(rt.alloc())?)
}
