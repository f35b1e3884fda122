//! What a publication of a store has beside its lists.

ghost use Rattle.std.specs.Prelude.{◌≡◌, ◌++◌, ◌∷◌, [], IfOk, List, OnOk};
ghost use Rattle.std.specs.List.{AllByRecursion};
ghost use Rattle.std.specs.Option.{option_to_list};
ghost use Rattle.intervals.specs.declared.interval.Interval.{Interval as AnInterval};
ghost use Rattle.interval_walks.specs.Turns.{IntervalsRise};
ghost use Rattle.archive_store.specs.Marks.{IsMarkIn, marked_intervals};
ghost use Rattle.glance_board.specs.Listings.{IsMarkOf, intervals_of};
ghost use Rattle.store_shelf.specs.Publications.{AreContentsOf, BeginsStore, staying_of};
ghost use Rattle.store_shelf.specs.Renewing.{AreStoreMarksBut, CameBy, Renews, arrived_intervals, filled_interval, filled_intervals};

use crate::kept::Kept;
use arch_disk::Disk;
use archive_store::{Arrival, Mark, Store};
use glance_board::{Contents, Listing, PublishedMark, PublishedMarks};
use history_items::fills::Fill;
use intervals::Interval;
use std::alloc::{AllocError, Global};

/// A mark with the set that stands for its interval, where that isn't late. The one error is want of memory.
fn published_mark<D: Disk>(store: &Store<D>, mark: Mark) -> Result<PublishedMark, AllocError>
    requires { IsMarkIn store.now.exponent store.now.history store.now.fills mark }
    ensures interval { IfOk result (λ m. m.interval ≡ mark.interval) }
    ensures mark { IfOk result (IsMarkOf (staying_of D.device store.now) store.now.history store.now.fills) }
{
    // The fill list and the fills tell one base, so an interval that isn't late has a set.
    store.is_kept();
    let set = store.segments(mark.interval)?;
    Ok(PublishedMark {
        interval: mark.interval,
        last: mark.last,
        base: mark.base,
        set,
    })
}

/// Marks with the sets that stand for their intervals. The one error is want of memory.
fn published_marks<D: Disk>(
    alloc: Global,
    store: &Store<D>,
    marks: &[Mark],
) -> Result<PublishedMarks, AllocError>
    requires each { AllByRecursion (IsMarkIn store.now.exponent store.now.history store.now.fills) marks.now }
    requires rising { IntervalsRise (marked_intervals marks.now) }
    ensures intervals { IfOk result (λ ms. intervals_of ms ≡ marked_intervals marks.now) }
    ensures each { IfOk result
        (AllByRecursion (IsMarkOf (staying_of D.device store.now) store.now.history store.now.fills)) }
{
    let mut published = PublishedMarks::new(alloc);
    for mark in marks {
        let one = published_mark(store, *mark)?;
        published.put(alloc, one)?;
    }
    Ok(published)
}

/// What a publication of a store needs beside its lists: all marks, with their sets. The one error is want of memory.
pub fn contents_of<D: Disk>(alloc: Global, store: &Store<D>) -> Result<Contents, AllocError>
    ensures { IfOk result (AreContentsOf D.device store.now) }
{
    let marks = store.marks(alloc)?;
    let published = published_marks(alloc, store, marks.as_slice())?;
    let mdb = store.shared_mdb()?;
    Ok(Contents {
        front: store.front(),
        fills: store.fill_len(),
        exponent: store.exponent(),
        mdb,
        marks: published,
    })
}

/// Marks an interval anew, where it has rows. The one error is want of memory.
fn renew<D: Disk>(
    alloc: Global,
    store: &Store<D>,
    marks: &mut PublishedMarks,
    interval: Interval,
) -> Result<(), AllocError>
    ensures { OnOk result (Renews D.device store.now (interval ∷ []) marks.old marks.new) }
{
    let Some(mark) = store.mark(interval) else {
        return Ok(());
    };
    let published = published_mark(store, mark)?;
    marks.put(alloc, published)?;
    Ok(())
}

/// Marks an interval that waits for it anew, unless the next one is the same.
fn renew_before<D: Disk>(
    alloc: Global,
    store: &Store<D>,
    marks: &mut PublishedMarks,
    waiting: Option<Interval>,
    next: Interval,
) -> Result<(), AllocError>
    ensures { OnOk result ((others : List AnInterval) →
        AreStoreMarksBut D.device store.now (option_to_list waiting ++ next ∷ others) marks.old →
        AreStoreMarksBut D.device store.now (next ∷ others) marks.new) }
{
    let Some(interval) = waiting else {
        return Ok(());
    };
    if interval.0 == next.0 {
        return Ok(());
    }
    renew(alloc, store, marks, interval)
}

/// Marks the intervals of packets that were received anew, those that stand one behind the other once.
fn renew_arrived<D: Disk>(
    alloc: Global,
    store: &Store<D>,
    marks: &mut PublishedMarks,
    arrivals: &[Arrival],
) -> Result<(), AllocError>
    ensures { OnOk result
        (Renews D.device store.now (arrived_intervals store.now.exponent arrivals.now) marks.old marks.new) }
{
    let exponent = store.exponent();
    let mut waiting = None;
    for arrival in arrivals {
        let next = Interval::at(arrival.row.key.time, exponent);
        renew_before(alloc, store, marks, waiting, next)?;
        waiting = Some(next);
    }
    match waiting {
        Some(interval) => renew(alloc, store, marks, interval),
        None => Ok(()),
    }
}

/// Marks the interval of a fill that is there anew.
fn renew_fill<D: Disk>(
    alloc: Global,
    store: &Store<D>,
    marks: &mut PublishedMarks,
    fill: &Fill,
) -> Result<(), AllocError>
    ensures { OnOk result (Renews D.device store.now (filled_interval fill.now) marks.old marks.new) }
{
    match fill {
        Fill::Done { interval, .. } => renew(alloc, store, marks, *interval),
        Fill::Begun { .. } | Fill::Freed { .. } | Fill::Fault { .. } | Fill::Closed => Ok(()),
    }
}

/// Marks the intervals of fills that are there anew.
fn renew_filled<D: Disk>(
    alloc: Global,
    store: &Store<D>,
    marks: &mut PublishedMarks,
    fills: &[Fill],
) -> Result<(), AllocError>
    ensures { OnOk result
        (Renews D.device store.now (filled_intervals fills.now) marks.old marks.new) }
{
    for fill in fills {
        renew_fill(alloc, store, marks, fill)?;
    }
    Ok(())
}

/// What a publication of a store needs beside its lists. Where the last one has the history up to a front, behind which
/// only these packets came, the marks of what neither they nor a fill came to are taken from it. The one error is want
/// of memory.
pub(crate) fn contents_after<D: Disk>(
    alloc: Global,
    store: &Store<D>,
    last: &Listing<Kept<D>>,
    front: u64,
    arrivals: &[Arrival],
) -> Result<Contents, AllocError>
    requires begins { BeginsStore last.now store.now }
    requires came { CameBy store.now front arrivals.now }
    ensures { IfOk result (AreContentsOf D.device store.now) }
{
    let last = last.contents();
    if last.front != front {
        return contents_of(alloc, store);
    }
    let mut marks = last.marks.share(alloc)?;
    renew_arrived(alloc, store, &mut marks, arrivals)?;
    renew_filled(
        alloc,
        store,
        &mut marks,
        &store.fills()[last.fills as usize..],
    )?;
    let mdb = store.shared_mdb()?;
    Ok(Contents {
        front: store.front(),
        fills: store.fill_len(),
        exponent: store.exponent(),
        mdb,
        marks,
    })
}
