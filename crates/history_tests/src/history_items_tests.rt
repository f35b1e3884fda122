//! A reopen over each kind of item, and a fault and the last publication in a fill list.

use crate::parts::{are_told, none_other};
use arch_types::row::Rows;
use history_items::FillList;
use history_items::fills::{Addition, Fill, clear_failed_writes};
use intervals::Interval;
use std::alloc::{AllocError, Global};
use std::test::Fail;

/// A fault of a call that would have added rows.
fn fault(alloc: Global, count: u64, wrote: bool) -> Fill {
    Fill::Fault {
        count,
        wrote,
        unacknowledged: Addition::Rows(Rows::new(alloc)),
    }
}

/// An item of each kind by its place, with three faults of which the second wrote nothing.
fn item(alloc: Global, place: u8) -> Fill {
    let interval = Interval(0);
    match place {
        0 => Fill::Begun { interval, base: 1 },
        1 => fault(alloc, 2, true),
        2 => fault(alloc, 3, false),
        3 => fault(alloc, 4, true),
        4 => Fill::Done { interval, base: 1 },
        5 => Fill::Freed { interval },
        _ => Fill::Closed,
    }
}

fn each_kind(alloc: Global) -> Result<Vec<Fill>, AllocError> {
    let mut fills = Vec::new(alloc);
    for place in 0..7 {
        fills.push(item(alloc, place))?;
    }
    Ok(fills)
}

/// Whether a reopen clears the faults of these items and leaves all else.
fn are_cleared(fills: &mut [Fill]) -> bool {
    clear_failed_writes(fills);
    are_told(
        fills,
        &[
            ("begun", 0, 1, false),
            ("fault with rows", 0, 2, false),
            ("fault with rows", 0, 3, false),
            ("fault with rows", 0, 4, false),
            ("done", 0, 1, false),
            ("freed", 0, 0, false),
            ("closed", 0, 0, false),
        ],
    )
}

/// Whether a fault is noted in an empty list.
fn notes(list: &mut FillList) -> bool {
    if list.reserve_fault().is_err() {
        return false;
    }
    list.note_fault(7, true, Addition::Nothing);
    are_told(list.as_slice(), &[("fault", 0, 7, true)])
}

/// Whether the last publication is noted behind it.
fn closes(list: &mut FillList) -> bool {
    if list.reserve_fault().is_err() {
        return false;
    }
    list.note_closed();
    are_told(
        list.as_slice(),
        &[("fault", 0, 7, true), ("closed", 0, 0, false)],
    )
}

/// Whether a reopen clears the fault and leaves what is behind it.
fn clears(list: &mut FillList) -> bool {
    list.clear_failed_writes();
    are_told(
        list.as_slice(),
        &[("fault", 0, 7, false), ("closed", 0, 0, false)],
    )
}

fn other(fills: &mut [Fill], list: &mut FillList) -> Option<(&'static str, usize)> {
    if !are_cleared(fills) {
        Some(("a reopen", 0))
    } else if !notes(list) {
        Some(("a fault noted", 0))
    } else if !closes(list) {
        Some(("the last publication noted", 0))
    } else if !clears(list) {
        Some(("a fault cleared", 0))
    } else {
        None
    }
}

#[test]
fn items_are_noted_and_cleared(rt: HostRuntime) -> Result<(), Fail> {
    let mut fills = each_kind(rt.alloc())?;
    let mut list = FillList::new(rt.alloc());
    none_other(other(fills.as_mut_slice(), &mut list))
}
