// What no clause says: what the images of a kind hold, and that each call succeeds while memory lasts.
//
// A test lists calls and their answers as data. They are made through an opaque disk, which passes them on: over a disk whose reads are known each of
// them would first have to be shown to lie in its file. Where memory is wanting for what a row needs, it goes otherwise.
ghost use Rattle.std.specs.Prelude.{◌≡◌};

use crate::ends::{none_other, other};
use crate::watched::{Watched, failing, holds};
use arch_disk::{Crash, Disk, FaultCounts, MemDisk, OpaqueDisk};
use std::alloc::Global;
use std::marker::Send;
use std::test::Fail;

// A call on a file, and what it answers: the length or the two octets from a place on, where it succeeds, and for the others whether it does.
enum Step {
    Len(Option<u64>),
    Read(u64, Option<[u8; 2]>),
    Write(u64, &'static [u8], bool),
    Cut(u64, bool),
    Sync(bool),
}

fn read_two(disk: &mut OpaqueDisk, file: u32, at: u64) -> Option<[u8; 2]> {
    let mut octets = [0; 2];
    match disk.read_at(file, at, &mut octets) {
        Ok(()) => Some(octets),
        Err(_) => None,
    }
}

fn is_answered(disk: &mut OpaqueDisk, file: u32, step: &Step) -> bool {
    match step {
        Step::Len(len) => disk.len(file).ok() == *len,
        Step::Read(at, octets) => read_two(disk, file, *at) == *octets,
        Step::Write(at, octets, is_done) => disk.write_at(file, *at, octets).is_ok() == *is_done,
        Step::Cut(len, is_done) => disk.cut(file, *len).is_ok() == *is_done,
        Step::Sync(is_done) => disk.sync(file).is_ok() == *is_done,
    }
}

// The place of the first of these calls that is answered otherwise.
fn other_answer(disk: &mut OpaqueDisk, file: u32, steps: &[Step]) -> Option<usize> {
    let mut place = 0usize;
    for step in steps {
        if !is_answered(disk, file, step) {
            return Some(place);
        }
        place = place.saturating_add(1);
    }
    None
}

// A disk may go to another thread.
fn carried<T: Send>(value: T) -> T
    ensures { result ≡ value }
{
    value
}

// The same, how many calls the opaque disk counts as failed, and the disk below it.
fn other_on(disk: MemDisk, file: u32, steps: &[Step]) -> (Option<usize>, u64, MemDisk) {
    let mut disk = carried(OpaqueDisk::new(carried(disk)));
    let other = other_answer(&mut disk, file, steps);
    let faults = disk.faults();
    (other, faults, disk.into_inner())
}

// Whether each call was kept, and what the file holds.
fn is_left<D: Watched>(disk: &D, file: u32, moments: usize, content: &[u8]) -> bool {
    disk.kept() == moments && disk.octets(file) == content
}

// Whether each kind of crash at the last moment leaves of a file what is listed for it.
fn are_images<D: Watched>(disk: &D, file: u32, images: &[&[u8]]) -> bool {
    let mut place = 0usize;
    for crash in Crash::ALL.iter() {
        let Some(want) = images.get(place) else {
            return false;
        };
        if !holds(disk.image(disk.kept(), *crash), file, want) {
            return false;
        }
        place = place.saturating_add(1);
    }
    true
}

// What a file holds after calls on it, and what each kind of crash leaves of it then.
type Left<'a> = (&'a [u8], &'a [&'a [u8]]);

// Whether a disk of so many kept calls has this, and is given up.
fn has<D: Watched + Drop>(disk: D, file: u32, moments: usize, left: Left<'_>) -> bool {
    let (content, images) = left;
    is_left(&disk, file, moments, content) && are_images(&disk, file, images)
}

fn leaves(disk: MemDisk, file: u32, steps: &[Step], left: Left<'_>) -> bool {
    let (other, _, disk) = other_on(disk, file, steps);
    let is_left = has(disk, file, steps.len(), left);
    other.is_none() && is_left
}

// Whether each call, of which those of these numbers fail, is answered so and kept as a moment, and leaves this.
fn is_so(alloc: Global, calls: &[u64], file: u32, steps: &[Step], left: Left<'_>) -> bool {
    match failing(alloc, calls) {
        Ok(disk) => leaves(disk, file, steps, left),
        Err(_) => false,
    }
}

const WRITE: &[Step] = &[
    Step::Write(0, b"abc", true),
    Step::Sync(true),
    Step::Write(2, &[1, 2], true),
];

const FAILED_WRITE: &[Step] = &[
    Step::Write(0, b"abc", true),
    Step::Sync(true),
    Step::Write(2, &[1, 2], false),
];

// What the eight kinds of crash leave of abc where 1 2 was written over it from octet 2 on, at the old or the new length.
const WRITTEN: &[&[u8]] = &[
    &[97, 98, 99],
    &[97, 98, 99, 0],
    &[97, 98, 1],
    &[97, 98, 1, 2],
    &[97, 98, 0],
    &[97, 98, 0, 0],
    &[97, 98, 255],
    &[97, 98, 255, 255],
];

// Tables are behind functions, so that they stand in no goal of their callers.
fn write(is_done: bool) -> &'static [Step] {
    if is_done { WRITE } else { FAILED_WRITE }
}

fn written() -> &'static [&'static [u8]] {
    WRITTEN
}

fn a_write(alloc: Global) -> bool {
    is_so(
        alloc,
        &[],
        0,
        write(true),
        ([97, 98, 1, 2].as_slice(), written()),
    )
}

fn a_failed_write(alloc: Global) -> bool {
    is_so(alloc, &[3], 0, write(false), (b"abc".as_slice(), written()))
}

const CUT: &[Step] = &[
    Step::Write(0, b"abc", true),
    Step::Sync(true),
    Step::Cut(1, true),
];

const FAILED_CUT: &[Step] = &[
    Step::Write(0, b"abc", true),
    Step::Sync(true),
    Step::Cut(1, false),
];

// What they leave of it where it was cut to one octet.
const SHORTENED: &[&[u8]] = &[
    &[97, 98, 99],
    &[97],
    &[97, 98, 99],
    &[97],
    &[97, 0, 0],
    &[97],
    &[97, 255, 255],
    &[97],
];

fn cut(is_done: bool) -> &'static [Step] {
    if is_done { CUT } else { FAILED_CUT }
}

fn shortened() -> &'static [&'static [u8]] {
    SHORTENED
}

fn a_cut(alloc: Global) -> bool {
    is_so(alloc, &[], 7, cut(true), (b"a".as_slice(), shortened()))
}

fn a_failed_cut(alloc: Global) -> bool {
    is_so(alloc, &[3], 7, cut(false), (b"abc".as_slice(), shortened()))
}

const SYNC: &[Step] = &[Step::Write(0, b"abc", true), Step::Sync(true)];

// What they leave of it where it was synced.
const SYNCED: &[&[u8]] = &[
    b"abc", b"abc", b"abc", b"abc", b"abc", b"abc", b"abc", b"abc",
];

fn sync() -> &'static [Step] {
    SYNC
}

fn synced() -> &'static [&'static [u8]] {
    SYNCED
}

fn a_sync(alloc: Global) -> bool {
    is_so(alloc, &[], 0, sync(), (b"abc".as_slice(), synced()))
}

#[test]
fn images_of_writes_cuts_and_syncs(rt: HostRuntime) -> Result<(), Fail> {
    none_other(other(&[
        ("a write", a_write(rt.alloc())),
        ("a failed write", a_failed_write(rt.alloc())),
        ("a cut", a_cut(rt.alloc())),
        ("a failed cut", a_failed_cut(rt.alloc())),
        ("a sync", a_sync(rt.alloc())),
    ]))
}

// Calls of which each but the even ones succeeds, and the ones behind them.
const FIRST: &[Step] = &[
    Step::Write(0, b"hello", true),
    Step::Write(0, b"HELLO", false),
    Step::Len(Some(5)),
    Step::Len(None),
];

const LATER: &[Step] = &[
    Step::Read(3, Some([b'l', b'o'])),
    Step::Cut(1, false),
    Step::Cut(4, true),
    Step::Sync(false),
    Step::Sync(true),
    Step::Read(0, None),
];

fn first() -> &'static [Step] {
    FIRST
}

fn later() -> &'static [Step] {
    LATER
}

// Whether a disk has this in file 1, made ten calls, of which five failed, and kept five; and it is given up.
fn has_failed<D: Watched + Drop>(disk: D) -> bool {
    disk.octets(1) == b"hell".as_slice()
        && disk.calls() == 10
        && disk.faults() == 5
        && disk.kept() == 5
}

fn fails_as_listed(disk: MemDisk) -> bool {
    let (first, _, disk) = other_on(disk, 1, first());
    let is_written = disk.content(1) == b"hello".as_slice();
    let (later, _, disk) = other_on(disk, 1, later());
    let has_failed = has_failed(disk);
    first.is_none() && is_written && later.is_none() && has_failed
}

fn listed_calls_fail(alloc: Global) -> bool {
    match failing(alloc, &[2, 4, 6, 8, 10]) {
        Ok(disk) => fails_as_listed(disk),
        Err(_) => false,
    }
}

fn takes_long<D: Disk + Drop>(alloc: Global, disk: D) -> bool {
    let mut disk = disk;
    match vec![in alloc; 7u8; 5000] {
        Ok(octets) => disk.write_at(0, 0, &octets).is_ok() && matches!(disk.len(0), Ok(5000)),
        Err(_) => false,
    }
}

const OUTSIDE: &[Step] = &[
    Step::Write(0, b"hello", true),
    Step::Write(6, b"hello", false),
    Step::Read(3, Some([b'l', b'o'])),
    Step::Read(4, None),
    Step::Len(Some(5)),
    Step::Cut(2, true),
    Step::Sync(true),
];

fn outside() -> &'static [Step] {
    OUTSIDE
}

fn refuses_ranges_outside(alloc: Global) -> bool {
    let (other, faults, disk) = other_on(MemDisk::new(alloc), 0, outside());
    let is_held = holds(Some(disk), 0, b"he");
    other.is_none() && faults == 2 && is_held
}

fn counts_failed_writes_apart() -> bool {
    let mut counts = FaultCounts::NONE;
    let _look = counts.look_failed();
    let _write = counts.write_failed();
    counts.faults == 2 && counts.failed_writes == 1
}

#[test]
fn calls_of_a_disk(rt: HostRuntime) -> Result<(), Fail> {
    none_other(other(&[
        ("listed calls", listed_calls_fail(rt.alloc())),
        (
            "a long write",
            takes_long(rt.alloc(), MemDisk::new(rt.alloc())),
        ),
        ("ranges outside", refuses_ranges_outside(rt.alloc())),
        ("failed writes", counts_failed_writes_apart()),
    ]))
}
