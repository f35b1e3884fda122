// What the calls of a store answer while its disk works.
use crate::parts::{created_with, none_other};
use crate::replays::replays;
use crate::steps::{Step, of_new, of_opened, other_of_new};
use arch_disk::{Disk, MemDisk};
use arch_types::inserted::Inserted;
use std::alloc::Global;
use std::test::Fail;

/// A packet comes twice. A row tells the place of the one that has its key in its table.
const TWICE: &[Step] = &[
    Step::Ingest(
        (9_000, &[0, 1, 0], &[0, 1]),
        &[
            Inserted::New(0),
            Inserted::New(1),
            Inserted::New(2),
            Inserted::New(3),
            Inserted::Duplicate(0),
            Inserted::Duplicate(1),
        ],
    ),
    Step::Late(0, true),
    Step::Ingest(
        (9_000, &[4, 1], &[1, 0]),
        &[
            Inserted::Duplicate(1),
            Inserted::Duplicate(0),
            Inserted::Duplicate(3),
            Inserted::Duplicate(2),
        ],
    ),
    Step::Holds(4, &[0, 1]),
    // a packet that comes again at once
    Step::Ingest(
        (9_000, &[2, 2], &[0]),
        &[Inserted::New(4), Inserted::Duplicate(4)],
    ),
];

/// A key is new in each table.
const TWO_TABLES: &[Step] = &[
    Step::Holds(0, &[]),
    Step::Name(b"HDR"),
    Step::Ingest(
        (9_000, &[0], &[0, 1]),
        &[Inserted::New(0), Inserted::New(1)],
    ),
    Step::Ingest(
        (9_000, &[1, 0], &[1]),
        &[Inserted::New(2), Inserted::Duplicate(1)],
    ),
    Step::Holds(3, &[0]),
];

/// The same archive, opened again.
const AGAIN: &[Step] = &[
    Step::Holds(3, &[0]),
    Step::Ingest(
        (9_000, &[0, 2], &[0]),
        &[Inserted::Duplicate(0), Inserted::New(3)],
    ),
    Step::Holds(4, &[0, 2]),
];

/// They are functions, so that they stand in no goal of their callers.
fn twice() -> &'static [Step] {
    TWICE
}

fn two_tables() -> &'static [Step] {
    TWO_TABLES
}

fn again() -> &'static [Step] {
    AGAIN
}

/// The tables, by name.
type Named = (&'static str, &'static [Step]);

fn tables() -> [Named; 3] {
    [
        ("twice", twice()),
        ("two tables", two_tables()),
        ("replays", replays()),
    ]
}

/// The first of these whose calls are answered otherwise in a new archive.
fn other_table(alloc: Global, tables: &[Named]) -> Option<&'static str> {
    for (name, steps) in tables {
        if other_of_new(alloc, MemDisk::new(alloc), steps).is_some() {
            return Some(*name);
        }
    }
    None
}

#[test]
fn calls_of_a_new_archive(rt: HostRuntime) -> Result<(), Fail> {
    none_other(other_table(rt.alloc(), &tables()))
}

/// The place of the first call of an archive that was opened again which is answered otherwise.
fn other_again<D: Disk + Drop>(alloc: Global, disk: D) -> Option<usize> {
    let (_, disk) = of_new(alloc, disk, two_tables());
    let (other, _disk) = of_opened(alloc, disk, again());
    other
}

#[test]
fn an_archive_is_opened_again(rt: HostRuntime) -> Result<(), Fail> {
    none_other(other_again(rt.alloc(), MemDisk::new(rt.alloc())))
}

/// The head of the tests with another name of its second table.
const OTHER_HEAD: &[u8] =
    b"\x01\x01\x16\x02\x02tm\x02hx\x00\x02\x04apid\x00\x0B\x00\x00\x01v\x00\x08\x00\x00\x00\x00\x00\x01\x03HDR\x00\x00\x00\x00\x00\x02\x00\x00\x00\x00\x00\x05\x00\x01\x00\x00\x00\x60";

/// A function, so that they stand in no goal of its callers.
fn other_head() -> &'static [u8] {
    OTHER_HEAD
}

/// What the making of an archive with another head answers, and the disk.
fn making<D: Disk>(alloc: Global, disk: D) -> (&'static str, D) {
    match created_with(alloc, disk, other_head()) {
        Ok(store) => ("an archive", store.into_disk()),
        Err((disk, refusal)) => (refusal, disk),
    }
}

/// What goes otherwise where an archive with another head is to be made on the disk of one.
fn other_made_once<D: Disk + Drop>(alloc: Global, disk: D) -> Option<&'static str> {
    let (_, disk) = of_new(alloc, disk, two_tables());
    let (answer, disk) = making(alloc, disk);
    let (other, _disk) = of_opened(alloc, disk, again());
    if answer != "exists" {
        return Some(answer);
    }
    if other.is_some() { Some("again") } else { None }
}

// It keeps its head and its rows.
#[test]
fn an_archive_is_made_once(rt: HostRuntime) -> Result<(), Fail> {
    none_other(other_made_once(rt.alloc(), MemDisk::new(rt.alloc())))
}
