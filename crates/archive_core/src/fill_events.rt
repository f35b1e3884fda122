//! Fills that begin and end.

ghost use Rattle.std.specs.Prelude.{◌≡◌, ◌≤◌, ◌↔◌, ◌++◌, ◌∷◌, [], List, length, take, Some, IfOk, IfSome, IfNone, OnOk, OnErr, IsTrue};
ghost use Rattle.std.specs.List.{list_any};
ghost use Rattle.history_items.specs.declared.items.Item.{Item};
ghost use Rattle.history_items.specs.Items.{is_of_interval, items_of};
ghost use Rattle.history_items.specs.Late.{last_in};
ghost use Rattle.archive_core.specs.Replies.{RepliesToAbandon, RepliesToBegin, RepliesToInstall};
ghost use Rattle.interval_fills.specs.Intervals.{NoneSince};
ghost use Rattle.interval_fills.specs.Steps.{InstallsFill, IsFillBase, freed, state_of};

use crate::lateness::{in_flight, last_in, next_to_fill};
use crate::ordered::{is_row_of_interval, rows_of_interval};
use crate::reply::Reply;
use arch_types::inserted::Installed;
use arch_types::row::Row;
use history_items::fills::Fill;
use intervals::{Exponent, Interval};
use std::alloc::{AllocError, Global};

/// Notes an item of the fill list. Refused for want of memory, the list is as it was.
fn note(fills: &mut Vec<Fill>, item: Fill) -> Result<(), AllocError>
    ensures ok { OnOk result (fills.new.items ≡ fills.old.items ++ item ∷ []) }
    ensures err { OnErr result (fills.new.items ≡ fills.old.items) }
{
    fills.push(item)?;
    Ok(())
}

/// Notes that an interval's flight ended without a fill, where there is one. Refused for want of memory, the list is as it was.
fn free(fills: &mut Vec<Fill>, interval: Interval) -> Result<(), AllocError>
    ensures ok { OnOk result (fills.new.items ≡ freed interval fills.old.items) }
    ensures err { OnErr result (fills.new.items ≡ fills.old.items) }
{
    match in_flight(fills.as_slice(), interval) {
        None => Ok(()),
        Some(_) => note(fills, Fill::Freed { interval }),
    }
}

/// The next task, where some late interval is free. Refused for want of memory, the list is as it was.
#[tactic(auto, using(crate::proofs::OfRows::as_long))]
pub(crate) fn begin(
    alloc: Global,
    rows: &[Row],
    fills: &mut Vec<Fill>,
    exponent: Exponent,
) -> Result<Reply, AllocError>
    ensures reply { IfOk result (λ reply.
        RepliesToBegin exponent (state_of (items_of rows.now) fills.old.items) reply (state_of (items_of rows.now) fills.new.items)) }
    ensures err { OnErr result (fills.new.items ≡ fills.old.items) }
{
    let Some(interval) = next_to_fill(rows, fills.as_slice(), exponent) else {
        return Ok(Reply::NoTask);
    };
    let base = rows.len() as u64;
    let of_interval = rows_of_interval(alloc, rows, interval, exponent)?;
    note(fills, Fill::Begun { interval, base })?;
    Ok(Reply::Task {
        interval,
        base,
        rows: of_interval,
    })
}

/// Whether a row of an interval is among these.
fn has_row(rows: &[Row], interval: Interval, exponent: Exponent) -> bool
    ensures { result ≡ list_any (is_of_interval exponent interval) rows.now }
{
    rows.iter()
        .any(|row| is_row_of_interval(row, interval, exponent))
}

/// Whether a row of an interval is among the first so many.
fn has_row_below(rows: &[Row], interval: Interval, front: usize, exponent: Exponent) -> bool
    requires { front ≤ length rows.now }
    ensures { result ≡ list_any (is_of_interval exponent interval) (take front rows.now) }
{
    let (first, _) = rows.split_at(front);
    has_row(first, interval, exponent)
}

/// Whether a fill of an interval may have a base: it isn't above the history's length, and a row of the interval stands below it.
fn is_fill_base(rows: &[Row], interval: Interval, base: u64, exponent: Exponent) -> bool
    ensures { IsTrue result ↔ IsFillBase exponent interval base (items_of rows.now) }
{
    let base = base as usize;
    base <= rows.len() && has_row_below(rows, interval, base, exponent)
}

/// The position of an interval's last change, where it stands at or after a base.
fn last_since(rows: &[Row], interval: Interval, base: u64, exponent: Exponent) -> Option<u64>
    ensures some { IfSome result (λ last. (base ≤ last) × (last_in exponent interval (items_of rows.now) ≡ Some last)) }
    ensures none { IfNone result (NoneSince exponent interval base (items_of rows.now)) }
{
    match last_in(rows, interval, exponent) {
        None => None,
        Some(last) => { if base <= last { Some(last) } else { None } }
    }
}

/// What becomes of a fill. Refused for want of memory, the list is as it was.
fn install(
    rows: &[Row],
    fills: &mut Vec<Fill>,
    interval: Interval,
    base: u64,
    exponent: Exponent,
) -> Result<Installed, AllocError>
    ensures became { IfOk result (λ became.
        InstallsFill exponent (state_of (items_of rows.now) fills.old.items) interval base became (state_of (items_of rows.now) fills.new.items)) }
    ensures err { OnErr result (fills.new.items ≡ fills.old.items) }
{
    match last_since(rows, interval, base, exponent) {
        Some(position) => {
            free(fills, interval)?;
            Ok(Installed::Stale { position })
        }
        None => {
            note(fills, Fill::Done { interval, base })?;
            Ok(Installed::Done)
        }
    }
}

/// The reply to a fill that is there. Refused for want of memory, the list is as it was.
pub(crate) fn installed(
    rows: &[Row],
    fills: &mut Vec<Fill>,
    interval: Interval,
    base: u64,
    exponent: Exponent,
) -> Result<Reply, AllocError>
    ensures reply { IfOk result (λ reply.
        RepliesToInstall exponent (state_of (items_of rows.now) fills.old.items) interval base reply
        (state_of (items_of rows.now) fills.new.items)) }
    ensures err { OnErr result (fills.new.items ≡ fills.old.items) }
{
    if !is_fill_base(rows, interval, base, exponent) {
        return Ok(Reply::Void);
    }
    let became = install(rows, fills, interval, base, exponent)?;
    Ok(Reply::Installed(became))
}

/// The reply to a task that is given up. Refused for want of memory, the list is as it was.
pub(crate) fn abandoned(fills: &mut Vec<Fill>, interval: Interval) -> Result<Reply, AllocError>
    ensures reply { IfOk result (λ reply. (history : List Item) →
        RepliesToAbandon (state_of history fills.old.items) interval reply (state_of history fills.new.items)) }
    ensures err { OnErr result (fills.new.items ≡ fills.old.items) }
{
    free(fills, interval)?;
    Ok(Reply::Abandoned)
}
