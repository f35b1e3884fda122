//! Whether an archive is sound.

ghost use Rattle.std.specs.Prelude.{◌≡◌, ◌<◌, Some, map, filter, length, slice_get, IfOk, IfErr, IfSome, IfNone, IsSome};
ghost use Rattle.std.specs.List.{AllByRecursion};
ghost use Rattle.history_items.specs.Late.{is_late_in, last_in};
ghost use Rattle.interval_walks.specs.Turns.{IntervalsRise};
ghost use Rattle.archive_store.specs.Pages.{TellsRows};
ghost use Rattle.archive_store.specs.StoreView.{filled_of};
ghost use Rattle.archive_store.specs.UnreadRows.{IsLeftByAnswer, IsLeftByRead, IsReadFault};
ghost use Rattle.archive_verify.specs.Verified.{HoldBelow, HoldCurrentFills, HoldsWhereCurrent, IsCounted, IsIntervalMismatch, IsMismatchOf, IsVerifyRefusal, database_of_archive};

use crate::compared_sets::{SetDifference, set_difference};
use arch_disk::Disk;
use arch_types::name::Name;
use arch_types::octets::Octets;
use arch_types::row_fault::RowFault;
use archive_store::Store;
use intervals::Interval;
use mdb_model::Mdb;
use param_segments::SegSet;
use refusals::Refusal;
use std::alloc::{AllocError, Global};

/// What a sound archive has.
#[derive(Clone, Copy, Debug, PartialEq, Eq)]
pub struct Sound {
    /// The rows of its history.
    pub rows: u64,
    /// The intervals that have rows of table `tm`.
    pub intervals: u64,
    /// Those of them that are late.
    pub late: u64,
}

/// An interval, and where the set that is stored of it differs first from what its rows give.
#[derive(Clone, Copy, Debug, PartialEq, Eq)]
struct IntervalDifference {
    interval: Interval,
    sets: SetDifference,
}

/// Where the set that stands for an interval, which has rows, differs first from what these give. An interval that is
/// late or was never filled has none.
fn interval_difference<D: Disk>(
    alloc: Global,
    store: &mut Store<D>,
    interval: Interval,
) -> Result<Option<SetDifference>, RowFault>
    requires { IsSome (last_in store.old.exponent interval store.old.history) }
    ensures some { TellsRows D.device store.old →
        IfOk result (λ o. IfSome o (IsIntervalMismatch (filled_of store.old) interval)) }
    ensures none { TellsRows D.device store.old →
        IfOk result (λ o. IfNone o (HoldsWhereCurrent (filled_of store.old) interval)) }

    // Whatever the disk tells, its parameter is one of the database in force.
    ensures known { IfOk result (λ o. IfSome o (λ d.
        d.parameter < length (database_of_archive (filled_of store.old)).parameters)) }
    ensures refused { IfErr result (IsReadFault D.device store.old store.new) }
    ensures same { IsLeftByRead D.device store.old store.new result }
{
    store.is_kept();
    let Some(stored) = store.segments(interval)? else {
        return Ok(None);
    };
    let rows = store.interval_rows(alloc, interval)?;
    let exponent = store.exponent();
    let mdb = store.mdb();
    mdb.is_sound();
    let replayed = SegSet::build(alloc, interval, exponent, &rows, mdb)?;
    Ok(set_difference(alloc, mdb, &*stored, &replayed)?)
}

/// The first of these intervals, which have rows and rise, whose set differs from what its rows give.
fn first_difference_among<D: Disk>(
    alloc: Global,
    store: &mut Store<D>,
    intervals: &[Interval],
) -> Result<Option<IntervalDifference>, RowFault>
    requires rising { IntervalsRise intervals.now }
    requires rows { AllByRecursion (λ i. IsSome (last_in store.old.exponent i store.old.history)) intervals.now }
    ensures some { TellsRows D.device store.old → IfOk result (λ o. IfSome o (λ d.
        IsIntervalMismatch (filled_of store.old) d.interval d.sets
        × HoldBelow (filled_of store.old) intervals.now d.interval)) }
    ensures none { TellsRows D.device store.old → IfOk result (λ o.
        IfNone o (AllByRecursion (HoldsWhereCurrent (filled_of store.old)) intervals.now)) }
    ensures known { IfOk result (λ o. IfSome o (λ d.
        d.sets.parameter < length (database_of_archive (filled_of store.old)).parameters)) }
    ensures refused { IfErr result (IsReadFault D.device store.old store.new) }
    ensures same { IsLeftByRead D.device store.old store.new result }
{
    for interval in intervals {
        if let Some(sets) = interval_difference(alloc, store, *interval)? {
            let interval = *interval;
            return Ok(Some(IntervalDifference { interval, sets }));
        }
    }
    Ok(None)
}

/// How many of these intervals are late.
fn late_among<D: Disk>(store: &Store<D>, intervals: &[Interval]) -> u64
    ensures { result ≡ length (filter (λ i.
        is_late_in store.now.exponent i store.now.history store.now.fills) intervals.now) }
{
    let mut late = 0;
    for interval in intervals {
        if store.is_late(*interval) {
            late += 1;
        }
    }
    late
}

/// The name of a parameter.
fn name_of(alloc: Global, mdb: &Mdb, parameter: u16) -> Result<Name, AllocError>
    requires { parameter < length mdb.now.parameters }
    ensures { IfOk result (λ name. slice_get (map (λ p. p.name) mdb.now.parameters) parameter ≡ Some name) }
{
    mdb.is_sound();
    Name::copy_of(alloc, mdb.parameter(parameter).name.as_bytes())
}

/// The refusal of an archive with this first difference.
fn mismatch_of(
    alloc: Global,
    mdb: &Mdb,
    difference: IntervalDifference,
) -> Result<Refusal, AllocError>
    requires { difference.sets.parameter < length mdb.now.parameters }
    ensures { IfOk result (λ refusal. IsMismatchOf mdb.now difference.interval difference.sets refusal) }
{
    let SetDifference { parameter, cells } = difference.sets;
    Ok(Refusal::Mismatch {
        interval: difference.interval,
        parameter: name_of(alloc, mdb, parameter)?,
        key: cells.key,
        stored: cells.stored,
        replayed: cells.replayed,
    })
}

/// Compares the set of each interval that isn't late with what the interval's rows give.
///
/// Refuses by `Mismatch` at the least interval, parameter and key that differ, and else as rows aren't read.
pub fn verify<D: Disk>(alloc: Global, store: &mut Store<D>) -> Result<Sound, Refusal>
    // Ok, where the store tells its rows: each fill that stands for an interval holds the cells that the interval's
    // rows give.
    ensures sound { TellsRows D.device store.old → IfOk result (λ _. HoldCurrentFills (filled_of store.old)) }
    ensures counted { IfOk result (IsCounted store.old) }

    // Refused: the first cell that is stored otherwise than rows give it, or rows aren't read.
    ensures refused { IfErr result (IsVerifyRefusal D.device store.old store.new) }

    // Whatever it answers, all but a disk that was read, and the fault of a failed read, is as it was.
    ensures same { IsLeftByAnswer D.device store.old store.new result }
{
    let rows = store.row_count();
    let intervals = store.intervals(alloc)?;
    if let Some(difference) = first_difference_among(alloc, store, intervals.as_slice())? {
        return Err(mismatch_of(alloc, store.mdb(), difference)?);
    }
    Ok(Sound {
        rows,
        intervals: intervals.len() as u64,
        late: late_among(store, intervals.as_slice()),
    })
}
