//! Loads of many dumps: what is new, which refusal is told, and what the other links leave.

use crate::calls::{NamedFile, Outside, call, none_other};
use crate::dumps::{CREATE, broken_dump, dump, sheets};
use arch_disk::{Disk, MemDisk};
use outer_traits::gate::OpenGate;
use outer_traits::mem_inputs::FailingCall;
use std::alloc::{AllocError, Global};
use std::sync::Wait;
use std::test::Fail;
use std::thread::Threads;

/// A line of words, and how its call has to end: its status, what it printed, its fault, the lengths of the history before and behind it, and the
/// link that is named, or 0.
pub(crate) type Row = (&'static str, u8, &'static str, &'static str, u64, u64, u16);

/// Whether a call ends so, and its disk.
pub(crate) fn ends_so<D: Disk + Send, R: Threads + Wait + Sync>(
    rt: &R,
    alloc: Global,
    outside: &Outside<'_>,
    disk: D,
    row: &Row,
) -> (bool, D) {
    let (line, status, text, fault, before, after, link) = *row;
    let (outcome, disk) = call(rt, alloc, line, outside, disk, &OpenGate);
    let is_told = outcome.status == status
        && outcome.fault.as_str() == fault
        && outcome.link == link;
    let has_lengths = outcome.before == before && outcome.after == after;
    let is_so = is_told && has_lengths && outcome.text.as_slice() == text.as_bytes();
    (is_so, disk)
}

/// The number of the first of these calls on a disk that ends otherwise.
pub(crate) fn other_row<D: Disk + Send + Drop, R: Threads + Wait + Sync>(
    rt: &R,
    alloc: Global,
    outside: &Outside<'_>,
    disk: D,
    rows: &[Row],
) -> Option<usize> {
    let mut disk = disk;
    let mut place = 0usize;
    for row in rows {
        let (is_so, left) = ends_so(rt, alloc, outside, disk, row);
        disk = left;
        if !is_so {
            return Some(place);
        }
        place = place.saturating_add(1);
    }
    None
}

pub(crate) const CREATED: Row = (
    CREATE,
    0,
    "created tables 1 parameters 3 containers 3\n",
    "",
    0,
    0,
    0,
);

/// A packet of APID 100, of 14 octets.
const LONGER: &[u8] = b"\x08\x64\xC0\x00\x00\x07\x00\x00\x00\x01\x80\x00\x2A\xFE";

/// The same, and one of APID 101.
const BOTH: &[u8] =
    b"\x08\x64\xC0\x00\x00\x07\x00\x00\x00\x01\x80\x00\x2A\xFE\x08\x65\xC0\x00\x00\x06\x00\x00\x00\x01\x80\x00\x07";

/// An octet that begins no packet.
const NONE: &[u8] = b"\x28";

fn few_files() -> [NamedFile<'static>; 3] {
    [("longer", LONGER), ("both", BOTH), ("none", NONE)]
}

const OVERLAPPING: &[Row] = &[
    CREATED,
    (
        "load --fillers 2 longer both",
        0,
        "load packets 3 new 2 duplicates 1 idle 0 rows 2\n",
        "",
        0,
        2,
        0,
    ),
    (
        "verify",
        0,
        "sound rows 2 intervals 1 late 0\n",
        "",
        2,
        2,
        0,
    ),
];

/// The first link is refused, and the other goes on. Seventeen dumps are too many.
const FIRST_REFUSED: &[Row] = &[
    CREATED,
    (
        "load none longer",
        2,
        "",
        "bad packet at 0: version",
        0,
        1,
        1,
    ),
    ("recover", 0, "recovered rows 1 filled 0\n", "", 1, 1, 0),
    (
        "load both both both both both both both both both both both both both both both both both",
        2,
        "",
        "limit Dumps 16",
        0,
        0,
        0,
    ),
];

fn overlapping() -> &'static [Row] {
    OVERLAPPING
}

fn first_refused() -> &'static [Row] {
    FIRST_REFUSED
}

/// The first of these tables of which a call ends otherwise, each on a new disk.
fn other_table<R: Threads + Wait + Sync>(
    rt: &R,
    alloc: Global,
    outside: &Outside<'_>,
    tables: &[&'static [Row]],
) -> Option<usize> {
    let mut place = 0usize;
    for rows in tables {
        if let Some(row) = other_row(rt, alloc, outside, MemDisk::new(alloc), rows) {
            return Some(place.saturating_add(row));
        }
        place = place.saturating_add(100);
    }
    None
}

#[test]
fn dumps_of_few_packets(rt: HostRuntime) -> Result<(), Fail> {
    let [parameters, calibrations, containers, asks] = sheets();
    let [longer, both, none] = few_files();
    let files = [
        parameters,
        calibrations,
        containers,
        asks,
        longer,
        both,
        none,
    ];
    let outside = Outside {
        files: &files,
        reads: &[],
    };
    none_other(other_table(&rt, rt.alloc(), &outside, &[overlapping(), first_refused()]))
}

/// A link in the middle is refused: the others' packets are all there, and so are its own. Of several refusals that of the first link is told.
const MIDDLE_REFUSED: &[Row] = &[
    CREATED,
    (
        "load a broken b",
        2,
        "",
        "bad packet at 832: version",
        0,
        196,
        2,
    ),
    (
        "load --link 9 --fillers 3 a none broken b",
        2,
        "",
        "bad packet at 0: version",
        196,
        196,
        10,
    ),
    (
        "load b a",
        0,
        "load packets 132 new 0 duplicates 132 idle 0 rows 196\n",
        "",
        196,
        196,
        0,
    ),
    (
        "verify",
        0,
        "sound rows 196 intervals 1 late 0\n",
        "",
        196,
        196,
        0,
    ),
];

/// The dump of the second link isn't read: nothing of it is there, and the others' packets are.
const UNREAD: &[Row] = &[("load a b broken", 3, "", "read fault", 0, 130, 0)];

/// The call behind that.
const READ_AGAIN: &[Row] = &[(
    "load b a",
    0,
    "load packets 132 new 66 duplicates 66 idle 0 rows 196\n",
    "",
    130,
    196,
    0,
)];

fn creation() -> &'static [Row] {
    &[CREATED]
}

fn middle_refused() -> &'static [Row] {
    MIDDLE_REFUSED
}

fn unread() -> &'static [Row] {
    UNREAD
}

fn read_again() -> &'static [Row] {
    READ_AGAIN
}

/// The first of these calls that ends otherwise, and the disk.
fn other_on<D: Disk + Send, R: Threads + Wait + Sync>(
    rt: &R,
    alloc: Global,
    outside: &Outside<'_>,
    disk: D,
    rows: &[Row],
) -> (bool, D) {
    let mut disk = disk;
    let mut are_so = true;
    for row in rows {
        let (is_so, left) = ends_so(rt, alloc, outside, disk, row);
        disk = left;
        are_so = are_so && is_so;
    }
    (are_so, disk)
}

/// Whether a load goes so of which the second dump can't be read, and the one behind it.
fn goes_on_unread<D: Disk + Send + Drop, R: Threads + Wait + Sync>(
    rt: &R,
    alloc: Global,
    outside: &Outside<'_>,
    disk: D,
) -> bool {
    let unreadable = Outside {
        files: outside.files,
        reads: &[FailingCall {
            opening: 2,
            read: 1,
        }],
    };
    let (created, disk) = other_on(rt, alloc, outside, disk, creation());
    let (refused, disk) = other_on(rt, alloc, &unreadable, disk, unread());
    let (loaded, _disk) = other_on(rt, alloc, outside, disk, read_again());
    created && refused && loaded
}

/// The sheets, a sheet of no asks, two dumps, and a broken one.
fn batch_files<'a>(
    alloc: Global,
    first: &'a [u8],
    second: &'a [u8],
    broken: &'a [u8],
) -> Result<Vec<NamedFile<'a>>, AllocError> {
    let [_, _, none] = few_files();
    let mut files = Vec::new(alloc);
    for sheet in sheets() {
        files.push(sheet)?;
    }
    files.push(none)?;
    files.push(("a", first))?;
    files.push(("b", second))?;
    files.push(("broken", broken))?;
    Ok(files)
}

/// The first row that goes otherwise over dumps of more than a batch, or 50 where a dump can't be read.
fn other_of_batches<R: Threads + Wait + Sync>(
    rt: &R,
    alloc: Global,
) -> Result<Option<usize>, AllocError> {
    let first = dump(alloc, 0, 66)?;
    let second = dump(alloc, 1000, 66)?;
    let broken = broken_dump(alloc, 2000, 64)?;
    let files = batch_files(
        alloc,
        first.as_slice(),
        second.as_slice(),
        broken.as_slice(),
    )?;
    let outside = Outside {
        files: files.as_slice(),
        reads: &[],
    };
    let other = other_row(rt, alloc, &outside, MemDisk::new(alloc), middle_refused());
    if other.is_none() && !goes_on_unread(rt, alloc, &outside, MemDisk::new(alloc)) {
        return Ok(Some(50));
    }
    Ok(other)
}

#[test]
fn a_link_that_is_refused(rt: HostRuntime) -> Result<(), Fail> {
    none_other(other_of_batches(&rt, rt.alloc())?)
}

const NAMES: [&str; 16] = [
    "d0", "d1", "d2", "d3", "d4", "d5", "d6", "d7", "d8", "d9", "da", "db", "dc", "dd", "de", "df",
];

fn names() -> [&'static str; 16] {
    NAMES
}

/// The octets of the eight packets from the fourfold of a number on.
fn part_of(all: &[u8], number: usize) -> &[u8] {
    let at = number.saturating_mul(52);
    match all.get(at..at.saturating_add(104)) {
        Some(part) => part,
        None => &[],
    }
}

/// The sheets, and sixteen dumps of eight packets, of which each shares four with the next.
fn sixteen_files<'a>(alloc: Global, all: &'a [u8]) -> Result<Vec<NamedFile<'a>>, AllocError> {
    let mut files = Vec::new(alloc);
    for sheet in sheets() {
        files.push(sheet)?;
    }
    let mut number = 0usize;
    for name in names() {
        files.push((name, part_of(all, number)))?;
        number = number.saturating_add(1);
    }
    Ok(files)
}

const FORWARDS: Row = (
    "load d0 d1 d2 d3 d4 d5 d6 d7 d8 d9 da db dc dd de df",
    0,
    "load packets 128 new 68 duplicates 60 idle 0 rows 68\n",
    "",
    0,
    68,
    0,
);

const BACKWARDS: Row = (
    "load --fillers 8 df de dd dc db da d9 d8 d7 d6 d5 d4 d3 d2 d1 d0",
    0,
    "load packets 128 new 68 duplicates 60 idle 0 rows 68\n",
    "",
    0,
    68,
    0,
);

const SOUND: Row = (
    "verify",
    0,
    "sound rows 68 intervals 1 late 0\n",
    "",
    68,
    68,
    0,
);

const SIXTEEN: &[Row] = &[
    CREATED,
    FORWARDS,
    (
        "load --link 240 df de dd dc db da d9 d8 d7 d6 d5 d4 d3 d2 d1 d0",
        0,
        "load packets 128 new 0 duplicates 128 idle 0 rows 68\n",
        "",
        68,
        68,
        0,
    ),
    SOUND,
];

const SIXTEEN_BACKWARDS: &[Row] = &[CREATED, BACKWARDS, SOUND];

fn sixteen() -> &'static [Row] {
    SIXTEEN
}

fn sixteen_backwards() -> &'static [Row] {
    SIXTEEN_BACKWARDS
}

/// The first call over sixteen dumps that ends otherwise.
fn other_of_sixteen<R: Threads + Wait + Sync>(
    rt: &R,
    alloc: Global,
) -> Result<Option<usize>, AllocError> {
    let all = dump(alloc, 0, 68)?;
    let files = sixteen_files(alloc, all.as_slice())?;
    let outside = Outside {
        files: files.as_slice(),
        reads: &[],
    };
    Ok(other_table(rt, alloc, &outside, &[sixteen(), sixteen_backwards()]))
}

#[test]
fn sixteen_dumps_that_overlap(rt: HostRuntime) -> Result<(), Fail> {
    none_other(other_of_sixteen(&rt, rt.alloc())?)
}
