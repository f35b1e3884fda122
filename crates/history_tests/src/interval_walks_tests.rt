//! Ranges that begin or end at an interval's first time or a millisecond beside it, that lie in one interval, or in one
//! without rows.

use crate::parts::{none_other, touch};
use fill_tracker::FillTracker;
use interval_walks::intervals_meeting;
use intervals::{Exponent, Interval};
use std::alloc::{AllocError, Global};
use std::test::Fail;

/// A range of times, and the intervals with rows that it meets. An interval has 4,194,304 milliseconds.
type Met = (i64, i64, &'static [Interval]);

/// Ranges over the rows below, which stand in the intervals 0, 1 and 3.
const MET: &[Met] = &[
    (0, 1, &[Interval(0)]),
    (-5, 0, &[]),
    (0, 20_000_000, &[Interval(0), Interval(1), Interval(3)]),
    (4_194_304, 4_194_305, &[Interval(1)]),
    (4_194_303, 4_194_305, &[Interval(0), Interval(1)]),
    (0, 4_194_304, &[Interval(0)]),
    (8_388_608, 12_582_912, &[]),
    (8_388_607, 12_582_913, &[Interval(1), Interval(3)]),
    (i64::MIN, i64::MAX, &[Interval(0), Interval(1), Interval(3)]),
];

/// A function, so that they stand in no goal of its callers.
fn met() -> &'static [Met] {
    MET
}

/// Rows of `tm` in the intervals 3, 0 and 1, and a row of another table in the interval 2.
const ROWS: &[(u8, i64)] = &[(0, 13_000_000), (1, 9_000_000), (0, 1_500), (0, 5_000_000)];

fn rows() -> &'static [(u8, i64)] {
    ROWS
}

/// Whether a range of times meets these intervals.
fn meets(
    alloc: Global,
    tracker: &FillTracker,
    from: i64,
    to: i64,
    want: &[Interval],
) -> Result<bool, AllocError> {
    if from >= to {
        return Ok(false);
    }
    let intervals = intervals_meeting(alloc, tracker, from, to, Exponent::of_format_1())?;
    Ok(intervals.as_slice() == want)
}

/// The place of the first range that meets others.
fn other_met(
    alloc: Global,
    tracker: &FillTracker,
    all: &[Met],
) -> Result<Option<(&'static str, usize)>, AllocError> {
    let mut place = 0usize;
    for (from, to, want) in all {
        if !meets(alloc, tracker, *from, *to, want)? {
            return Ok(Some(("ranges", place)));
        }
        place = place.saturating_add(1);
    }
    Ok(None)
}

/// The same over the rows.
fn other_of_rows(alloc: Global) -> Result<Option<(&'static str, usize)>, AllocError> {
    let mut tracker = FillTracker::new(alloc);
    touch(alloc, &mut tracker, rows(), 0)?;
    other_met(alloc, &tracker, met())
}

#[test]
fn ranges_meet_intervals(rt: HostRuntime) -> Result<(), Fail> {
    none_other(other_of_rows(rt.alloc())?)
}
