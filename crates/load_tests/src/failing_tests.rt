//! A load by two links and a filler on a disk of which one call fails.

use crate::calls::{NamedFile, Outcome, Outside, call, none_other};
use crate::dumps::{CREATE, dump, sheets};
use arch_disk::{Disk, MemDisk};
use outer_traits::gate::OpenGate;
use std::alloc::{AllocError, Global};
use std::sync::Wait;
use std::test::Fail;
use std::thread::Threads;

/// A disk that tells how many calls were made.
trait Counting: Disk + Send + Drop {
    fn calls(&self) -> u64;
}

impl Counting for MemDisk {
    fn calls(&self) -> u64 {
        self.made()
    }
}

/// A call on a disk, whose jobs pass no gate.
fn came<D: Disk + Send, R: Threads + Wait + Sync>(
    rt: &R,
    alloc: Global,
    line: &str,
    outside: &Outside<'_>,
    disk: D,
) -> (Outcome, D) {
    call(rt, alloc, line, outside, disk, &OpenGate)
}

/// What a second load and a `verify` answer: the statuses, and how many rows there were before and behind each.
fn answers_behind<D: Disk + Send + Drop, R: Threads + Wait + Sync>(
    rt: &R,
    alloc: Global,
    outside: &Outside<'_>,
    disk: D,
) -> [(u8, u64, u64); 2] {
    let (loaded, disk) = came(rt, alloc, "load a b", outside, disk);
    let (found, _disk) = came(rt, alloc, "verify", outside, disk);
    [
        (loaded.status, loaded.before, loaded.after),
        (found.status, found.before, found.after),
    ]
}

/// Whether a load into a new archive is refused where the call of this number fails, and leaves the rows that it reports: a second load finds these, and
/// brings the others. Where that call isn't made, the load is whole.
fn keeps_rows<D: Counting, R: Threads + Wait + Sync>(
    rt: &R,
    alloc: Global,
    outside: &Outside<'_>,
    disk: D,
    fails: u64,
) -> bool {
    let (_, disk) = came(rt, alloc, CREATE, outside, disk);
    let (loaded, disk) = came(rt, alloc, "load a b", outside, disk);
    let rows = loaded.after;
    if disk.calls() < fails {
        return loaded.status == 0 && rows == 5;
    }
    loaded.status == 5
        && rows <= 5
        && answers_behind(rt, alloc, outside, disk) == [(0, rows, 5), (0, 5, 5)]
}

/// How many calls the making of an archive makes.
fn calls_of_creation<D: Counting, R: Threads + Wait + Sync>(
    rt: &R,
    alloc: Global,
    outside: &Outside<'_>,
    disk: D,
) -> u64 {
    let (_, disk) = came(rt, alloc, CREATE, outside, disk);
    disk.calls()
}

/// A disk whose call of this number fails. Where memory is wanting none does.
fn failing(alloc: Global, fails: u64) -> MemDisk {
    match Vec::from_slice(alloc, &[fails]) {
        Ok(calls) => MemDisk::failing(alloc, calls),
        Err(_) => MemDisk::new(alloc),
    }
}

/// Calls of a load, behind those of the making of the archive. Its opening makes four, each batch and each fill makes four, and how many fills there are
/// goes by which job comes first. Of each of these the write of the record fails, or one of its syncs, or the write of its gate.
const CALLS: &[u64] = &[1, 2, 3, 4, 5, 6, 7, 8, 9, 12, 14, 15, 16, 20];

fn calls() -> &'static [u64] {
    CALLS
}

/// The first of these calls of a load that leaves something else where it fails.
fn other_call<R: Threads + Wait + Sync>(
    rt: &R,
    alloc: Global,
    outside: &Outside<'_>,
    calls: &[u64],
) -> Option<u64> {
    let made = calls_of_creation(rt, alloc, outside, MemDisk::new(alloc));
    for call in calls {
        let fails = made.saturating_add(*call);
        if !keeps_rows(rt, alloc, outside, failing(alloc, fails), fails) {
            return Some(*call);
        }
    }
    None
}

/// The sheets, and two dumps of three packets in one interval, of which they share one.
fn files_of<'a>(
    alloc: Global,
    first: &'a [u8],
    second: &'a [u8],
) -> Result<Vec<NamedFile<'a>>, AllocError> {
    let mut files = Vec::new(alloc);
    for sheet in sheets() {
        files.push(sheet)?;
    }
    files.push(("a", first))?;
    files.push(("b", second))?;
    Ok(files)
}

/// The same over the files of this test.
fn other_of_files<R: Threads + Wait + Sync>(
    rt: &R,
    alloc: Global,
) -> Result<Option<u64>, AllocError> {
    let first = dump(alloc, 0, 3)?;
    let second = dump(alloc, 2, 3)?;
    let files = files_of(alloc, first.as_slice(), second.as_slice())?;
    let outside = Outside {
        files: files.as_slice(),
        reads: &[],
    };
    Ok(other_call(rt, alloc, &outside, calls()))
}

#[test]
fn two_links_on_a_disk_that_fails(rt: HostRuntime) -> Result<(), Fail> {
    none_other(other_of_files(&rt, rt.alloc())?)
}
