//! What loads report of their dumps: of which link a bad one is told, which no text shows, and their counts.

use crate::calls::{Reported, files_alone, none_other, reports};
use crate::files::files;
use crate::in_a_row::CREATE;
use arch_disk::{Disk, MemDisk};
use std::alloc::Global;
use std::sync::Wait;
use std::test::Fail;
use std::thread::Threads;

/// A line of words, and what its call has to report.
type Call = (&'static str, Reported);

const NOTHING: Reported = (None, 0, 0, 0, 0);

/// Links are counted from that of the words on; a load that is refused reports its new rows alone.
const LOADS: &[Call] = &[
    (CREATE, NOTHING),
    ("load third twice", (None, 4, 3, 1, 0)),
    ("load idle later", (None, 2, 1, 0, 1)),
    ("load broken", (Some(1), 0, 0, 0, 0)),
    ("load twice broken asks", (Some(2), 0, 0, 0, 0)),
    ("load --link 254 later asks", (Some(255), 0, 0, 0, 0)),
    ("load --link 9 late_broken", (Some(9), 0, 2, 0, 0)),
    ("load --ask unknown broken", NOTHING),
    ("recover", NOTHING),
];

/// A function, so that the table stands in no goal of its callers.
fn loads() -> &'static [Call] {
    LOADS
}

/// The place of the first of these calls that reports something else.
fn other_report<D: Disk + Send + Drop, R: Threads + Wait + Sync>(
    rt: &R,
    alloc: Global,
    disk: D,
    calls: &[Call],
) -> Option<usize> {
    let mut disk = disk;
    let mut place = 0usize;
    for (line, want) in calls {
        let (is_so, left) = reports(rt, alloc, line, &files_alone(files()), disk, want);
        disk = left;
        if !is_so {
            return Some(place);
        }
        place = place.saturating_add(1);
    }
    None
}

#[test]
fn reports_of_loads(rt: HostRuntime) -> Result<(), Fail> {
    none_other(other_report(&rt, rt.alloc(), MemDisk::new(rt.alloc()), loads()))
}
