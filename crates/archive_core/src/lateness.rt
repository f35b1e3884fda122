//! Which intervals are late, and which are in flight.

ghost use Rattle.std.specs.Prelude.{◌≡◌, ◌&&◌, Some, if◌then◌else◌};
ghost use Rattle.history_items.specs.Fills.{base_after, base_in, flight_after, in_flight};
ghost use Rattle.history_items.specs.Items.{items_of};
ghost use Rattle.history_items.specs.Late.{last_in};
ghost use Rattle.late_marks.specs.Mark.{is_late_by};
ghost use Rattle.interval_fills.specs.Steps.{IsNextToFill, state_of};
ghost use Rattle.archive_core.specs.RowTests.{interval_at, is_below_least, shows_late_free};

use crate::ordered::{TM, interval_of_row, is_row_of_interval};
use arch_types::row::Row;
use history_items::fills::Fill;
use intervals::{Exponent, Interval};

/// The base of an interval's last fill after one more item, given the one before.
fn base_after(interval: Interval, base: Option<u64>, fill: &Fill) -> Option<u64>
    ensures { result ≡ base_after interval base fill.now }
{
    match fill {
        Fill::Done {
            interval: done,
            base: new,
        } => { if interval == *done { Some(*new) } else { base } }
        Fill::Begun { .. } | Fill::Freed { .. } | Fill::Fault { .. } | Fill::Closed => base,
    }
}

/// The base of an interval's last fill.
pub(crate) fn base_in(fills: &[Fill], interval: Interval) -> Option<u64>
    ensures { result ≡ base_in interval fills.now }
{
    let mut base = None;
    for fill in fills {
        base = base_after(interval, base, fill);
    }
    base
}

/// The base of an interval's flight after one more item, given the one before.
fn flight_after(interval: Interval, base: Option<u64>, fill: &Fill) -> Option<u64>
    ensures { result ≡ flight_after interval base fill.now }
{
    match fill {
        Fill::Begun {
            interval: begun,
            base: new,
        } => { if interval == *begun { Some(*new) } else { base } }
        Fill::Done {
            interval: ended,
            ..
        }
        | Fill::Freed { interval: ended } => { if interval == *ended { None } else { base } }
        Fill::Fault { .. } | Fill::Closed => base,
    }
}

/// The base of an interval that is in flight.
pub(crate) fn in_flight(fills: &[Fill], interval: Interval) -> Option<u64>
    ensures { result ≡ in_flight interval fills.now }
{
    let mut base = None;
    for fill in fills {
        base = flight_after(interval, base, fill);
    }
    base
}

/// Whether a row at a position stands at or after a base, or there is no base.
fn is_late_by(position: u64, base: Option<u64>) -> bool
    ensures { result ≡ is_late_by position base }
{
    match base {
        None => true,
        Some(base) => base <= position,
    }
}

/// This position, where a row passes, else the one before.
fn last_after(last: Option<u64>, position: u64, passes: bool) -> Option<u64>
    ensures { result ≡ (if passes then Some position else last) }
{
    if passes { Some(position) } else { last }
}

/// The position of what changed an interval last: among rows alone, its last row.
pub(crate) fn last_in(rows: &[Row], interval: Interval, exponent: Exponent) -> Option<u64>
    ensures { result ≡ last_in exponent interval (items_of rows.now) }
{
    let mut last = None;
    for (i, row) in rows.iter().enumerate() {
        last = last_after(last, i as u64, is_row_of_interval(row, interval, exponent));
    }
    last
}

/// Whether a row at a position shows that its interval is late, and the interval is free.
fn shows_late_free(fills: &[Fill], row: &Row, position: u64, exponent: Exponent) -> bool
    ensures { result ≡ shows_late_free exponent fills.now position row.now }
{
    let interval = interval_of_row(row, exponent);
    row.table == TM
        && is_late_by(position, base_in(fills, interval))
        && in_flight(fills, interval).is_none()
}

/// Whether an interval is below the least so far.
fn is_below_least(least: Option<Interval>, interval: Interval) -> bool
    ensures { result ≡ is_below_least least interval }
{
    match least {
        None => true,
        Some(least) => interval < least,
    }
}

/// The least interval that is late and free, after one more row.
fn least_after(
    fills: &[Fill],
    least: Option<Interval>,
    row: &Row,
    position: u64,
    exponent: Exponent,
) -> Option<Interval>
    ensures { result ≡ (if is_below_least least (interval_at exponent row.now)
        && shows_late_free exponent fills.now position row.now then Some (interval_at exponent row.now) else least) }
{
    let interval = interval_of_row(row, exponent);
    if is_below_least(least, interval) && shows_late_free(fills, row, position, exponent) {
        return Some(interval);
    }
    least
}

/// The least interval that is late and free.
pub(crate) fn next_to_fill(rows: &[Row], fills: &[Fill], exponent: Exponent) -> Option<Interval>
    ensures { IsNextToFill exponent (state_of (items_of rows.now) fills.now) result }
{
    let mut least = None;
    for (i, row) in rows.iter().enumerate() {
        least = least_after(fills, least, row, i as u64, exponent);
    }
    least
}
