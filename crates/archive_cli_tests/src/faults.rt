//! Calls of which a read or a write fails, and disks that fail.

use crate::calls::{NamedFile, Outside, call};
use arch_disk::{Disk, MemDisk};
use outer_traits::mem_inputs::FailingCall;
use std::alloc::Global;
use std::sync::Wait;
use std::thread::Threads;

/// The status of a call, and how many octets it printed. Generic, so that what a disk owns stands in no goal.
fn ended_on<D: Disk + Send + Drop, R: Threads + Wait + Sync>(
    rt: &R,
    alloc: Global,
    line: &str,
    outside: &Outside<'_>,
    disk: D,
) -> (u8, usize) {
    let (outcome, _disk) = call(rt, alloc, line, outside, disk);
    (outcome.status, outcome.printed)
}

/// The same on a new disk.
fn ended_on_new<R: Threads + Wait + Sync>(
    rt: &R,
    alloc: Global,
    line: &str,
    outside: &Outside<'_>,
) -> (u8, usize) {
    ended_on(rt, alloc, line, outside, MemDisk::new(alloc))
}

/// The place of the first of these reads that fails without being told.
pub(crate) fn untold_read<R: Threads + Wait + Sync>(
    rt: &R,
    alloc: Global,
    line: &str,
    files: &[NamedFile<'_>],
    reads: &[FailingCall],
) -> Option<usize> {
    let mut place = 0usize;
    for read in reads {
        let failing = Outside {
            files: &*files,
            reads: &[*read],
            writes: &[],
        };
        if ended_on_new(rt, alloc, line, &failing) != (3, 0) {
            return Some(place);
        }
        place = place.saturating_add(1);
    }
    None
}

/// The numbers of the writes that fail, the status of the call, and how many octets are printed, at least and at most.
pub(crate) type Writes = (&'static [u64], u8, usize, usize);

/// The place of the first of these that end a call otherwise.
pub(crate) fn other_writes<R: Threads + Wait + Sync>(
    rt: &R,
    alloc: Global,
    line: &str,
    files: &[NamedFile<'_>],
    rows: &[Writes],
) -> Option<usize> {
    let mut place = 0usize;
    for row in rows {
        let (writes, want, least, most) = *row;
        let failing = Outside {
            files: &*files,
            reads: &[],
            writes,
        };
        let (status, printed) = ended_on_new(rt, alloc, line, &failing);
        if status != want || printed < least || printed > most {
            return Some(place);
        }
        place = place.saturating_add(1);
    }
    None
}

/// A disk whose calls of these numbers fail. Where memory is wanting none does.
pub(crate) fn failing(alloc: Global, calls: &[u64]) -> MemDisk {
    match Vec::from_slice(alloc, calls) {
        Ok(calls) => MemDisk::failing(alloc, calls),
        Err(_) => MemDisk::new(alloc),
    }
}
