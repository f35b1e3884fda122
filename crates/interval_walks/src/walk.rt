//! The intervals that a range of times meets.

ghost use Rattle.std.specs.Prelude.{◌≡◌, ◌<◌, ◌^◌, ◌≤ℤ◌, ◌<ℤ◌, ◌-ℤ◌, ◌+ℤ◌, pos, List, true, IfOk, IfSome, IfNone};
ghost use Rattle.std.specs.List.{AllByRecursion};
ghost use Rattle.intervals.specs.declared.interval.Interval.{Interval as AnInterval};
ghost use Rattle.intervals.specs.Interval.{interval_of};
ghost use Rattle.history_items.specs.declared.items.Item.{Item};
ghost use Rattle.fill_tracker.specs.FillTracker.{AreMarksOf};
ghost use Rattle.interval_walks.specs.Turns.{CoverRange, IntervalsRise, MeetsRange};
ghost use Rattle.late_marks.specs.Marks.{has_rows};

use fill_tracker::FillTracker;
use intervals::{Exponent, Interval};
use std::alloc::{AllocError, Global};

/// The interval of the last time of a range, which has one.
fn last_of(_from: i64, to: i64, exponent: Exponent) -> Interval
    requires { _from <ℤ to }
    ensures number { result.0 ≡ interval_of exponent (to -ℤ pos 1) }
    ensures small { result.0 <ℤ pos (2 ^ 62) }
{
    Interval::at(to - 1, exponent)
}

/// The interval of a range's first time.
fn first_of(from: i64, exponent: Exponent) -> Interval
    ensures { result.0 ≡ interval_of exponent from }
{
    Interval::at(from, exponent)
}

/// The next interval.
fn after(interval: Interval) -> Interval
    requires { interval.0 <ℤ pos (2 ^ 62) }
    ensures { result.0 ≡ interval.0 +ℤ pos 1 }
{
    Interval(interval.0 + 1)
}

/// The least interval with rows from one interval to another.
fn next_within(tracker: &FillTracker, from: Interval, last: Interval) -> Option<Interval>
    ensures some { IfSome result (λ i. (from.0 ≤ℤ i.0) × (i.0 ≤ℤ last.0) × (has_rows tracker.now.marks i ≡ true)
        × ((j : AnInterval) → has_rows tracker.now.marks j ≡ true → from.0 ≤ℤ j.0 → i.0 ≤ℤ j.0)) }
    ensures none { IfNone result
        ((j : AnInterval) → has_rows tracker.now.marks j ≡ true → from.0 ≤ℤ j.0 → last.0 <ℤ j.0) }
{
    let interval = tracker.next_touched(from)?;
    if interval > last {
        return None;
    }
    Some(interval)
}

/// The intervals with rows of table `tm` that meet a range of times, in milliseconds, in the order of their numbers. The
/// one error is want of memory.
pub fn intervals_meeting(
    alloc: Global,
    tracker: &FillTracker,
    from: i64,
    to: i64,
    exponent: Exponent,
) -> Result<Vec<Interval>, AllocError>
    requires { from <ℤ to }
    ensures rising { IfOk result (λ intervals. IntervalsRise intervals.items) }
    ensures cover { IfOk result (λ intervals. (history : List Item) →
        AreMarksOf exponent history tracker.now.fills tracker.now.marks →
        CoverRange exponent intervals.items from to history) }
    ensures rows { IfOk result (λ intervals.
        AllByRecursion (λ i. has_rows tracker.now.marks i ≡ true) intervals.items) }
    ensures meets { IfOk result (λ intervals. AllByRecursion (MeetsRange exponent from to) intervals.items) }
{
    let last = last_of(from, to, exponent);
    let first = first_of(from, exponent);
    let mut at = first;
    let mut intervals = Vec::new(alloc);
    while let Some(interval) = next_within(tracker, at, last) {
        intervals.push(interval)?;
        at = after(interval);
    }
    Ok(intervals)
}
