//! Calls in a row on a disk, and how they end.

use crate::calls::{Outside, Wanted, called, files_alone};
use crate::files::files;
use arch_disk::{Disk, MemDisk};
use std::alloc::Global;
use std::sync::Wait;
use std::thread::Threads;

pub(crate) const CREATE: &str = "create parameters calibrations containers";

pub(crate) const CREATED: &str = "created tables 1 parameters 2 containers 1\n";

/// A line of words, and how its call has to end.
pub(crate) type Call = (&'static str, Wanted);

/// The place of the first of these calls that ends otherwise, and the disk.
pub(crate) fn other_over<D: Disk + Send, R: Threads + Wait + Sync>(
    rt: &R,
    alloc: Global,
    disk: D,
    outside: &Outside<'_>,
    calls: &[Call],
) -> (Option<usize>, D) {
    let mut disk = disk;
    let mut place = 0usize;
    for (line, want) in calls {
        let (is_so, left) = called(rt, alloc, line, outside, disk, want);
        disk = left;
        if !is_so {
            return (Some(place), disk);
        }
        place = place.saturating_add(1);
    }
    (None, disk)
}

/// The same over the files of these tests.
pub(crate) fn other_call<D: Disk + Send, R: Threads + Wait + Sync>(
    rt: &R,
    alloc: Global,
    disk: D,
    calls: &[Call],
) -> (Option<usize>, D) {
    other_over(rt, alloc, disk, &files_alone(files()), calls)
}

/// The same, and the disk is given up.
pub(crate) fn other_on<D: Disk + Send + Drop, R: Threads + Wait + Sync>(
    rt: &R,
    alloc: Global,
    disk: D,
    calls: &[Call],
) -> Option<usize> {
    let (other, _disk) = other_call(rt, alloc, disk, calls);
    other
}

/// Calls under a name.
pub(crate) type Named = (&'static str, &'static [Call]);

/// The first of these whose calls end otherwise on a new disk, and the place of the call.
pub(crate) fn other_run<R: Threads + Wait + Sync>(
    rt: &R,
    alloc: Global,
    runs: &[Named],
) -> Option<(&'static str, usize)> {
    for (name, calls) in runs {
        if let Some(place) = other_on(rt, alloc, MemDisk::new(alloc), calls) {
            return Some((*name, place));
        }
    }
    None
}

/// The place of the first of these calls that ends otherwise, each on a new disk.
pub(crate) fn other_alone<R: Threads + Wait + Sync>(
    rt: &R,
    alloc: Global,
    calls: &[Call],
) -> Option<usize> {
    let mut place = 0usize;
    for call in calls {
        if other_on(rt, alloc, MemDisk::new(alloc), &[*call]).is_some() {
            return Some(place);
        }
        place = place.saturating_add(1);
    }
    None
}

/// Calls on a new disk, octets that are written over file 0 then, how far before its end they begin, and calls behind that.
pub(crate) type Overwritten = (
    &'static str,
    &'static [Call],
    u64,
    &'static [u8],
    &'static [Call],
);

/// Writes octets over file 0, from so many before its end on, and makes them durable. A call of the disk that fails leaves it otherwise.
fn overwrite<D: Disk>(disk: &mut D, back: u64, octets: &[u8]) {
    if let Ok(end) = disk.len(0) {
        let _ = disk.write_at(0, end.saturating_sub(back), octets);
        let _ = disk.sync(0);
    }
}

/// The disk behind the first calls and the octets, and the first call that ends otherwise.
pub(crate) fn overwritten<D: Disk + Send, R: Threads + Wait + Sync>(
    rt: &R,
    alloc: Global,
    disk: D,
    case: &Overwritten,
) -> (Option<usize>, D) {
    let (_, before, back, octets, _) = *case;
    let (other, mut disk) = other_call(rt, alloc, disk, before);
    overwrite(&mut disk, back, octets);
    (other, disk)
}

/// The first call of a case that ends otherwise, of those before the octets or, if none is, of those behind them.
fn other_around<D: Disk + Send + Drop, R: Threads + Wait + Sync>(
    rt: &R,
    alloc: Global,
    disk: D,
    case: &Overwritten,
) -> Option<usize> {
    let (_, _, _, _, behind) = *case;
    let (first, disk) = overwritten(rt, alloc, disk, case);
    let second = other_on(rt, alloc, disk, behind);
    first.or(second)
}

/// The first of these cases of which a call ends otherwise, and the place of the call.
pub(crate) fn other_overwritten<R: Threads + Wait + Sync>(
    rt: &R,
    alloc: Global,
    cases: &[Overwritten],
) -> Option<(&'static str, usize)> {
    for case in cases {
        if let Some(place) = other_around(rt, alloc, MemDisk::new(alloc), case) {
            return Some((case.0, place));
        }
    }
    None
}
