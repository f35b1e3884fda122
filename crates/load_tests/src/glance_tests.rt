//! Readers that answer while a link is inside its turn, and beside a reader that waits for it.

use crate::calls::{NamedFile, Outside, call, none_other};
use crate::dumps::sheets;
use crate::held_disk::{HeldDisk, Meeting, ReadersGate};
use crate::texts::number_behind;
use arch_disk::{Disk, MemDisk};
use outer_traits::gate::OpenGate;
use std::alloc::{AllocError, Global};
use std::sync::Wait;
use std::test::Fail;
use std::thread::Threads;

/// Two packets, which the route puts into one table more than `tm` where they are of APID 100: three rows.
const FIRST: &[u8] =
    b"\x08\x64\xC0\x00\x00\x07\x00\x00\x00\x01\x80\x00\x2A\xFE\x08\x65\xC0\x00\x00\x06\x00\x00\x00\x01\x80\x00\x07";

/// A packet in the next interval.
const LATER: &[u8] = b"\x08\x64\xC0\x00\x00\x05\x00\x00\x10\x62\x4D\xD3";

/// Nine asks, of which the first reader has three: the first, the fifth and the last. The second has two, and sees behind
/// them whether they stand.
const ASKS: &[u8] =
    b"kind,name,from,to,order,limit,names\nvalues,v,0,2000,,,\nvalues,v,0,2000,,,\nvalues,v,0,2000,,,\nvalues,v,0,2000,,,\nvalues,v,0,2000,,,\nvalues,v,0,2000,,,\nvalues,v,0,2000,,,\nvalues,v,0,2000,,,\nvalues,v,0,2000,,,\n";

/// The same with a replay as the first, which has to wait for its turn.
const REPLAY_FIRST: &[u8] =
    b"kind,name,from,to,order,limit,names\nreplay,tm,0,2000,,,\nvalues,v,0,2000,,,\nvalues,v,0,2000,,,\nvalues,v,0,2000,,,\nvalues,v,0,2000,,,\nvalues,v,0,2000,,,\nvalues,v,0,2000,,,\nvalues,v,0,2000,,,\nvalues,v,0,2000,,,\n";

/// A load whose link is held inside its first write, until a reader has come to its third call.
struct Run {
    name: &'static str,
    line: &'static str,
    /// The reader that has to come before. The link is job 1, and the readers are the jobs 2 to 5.
    first: u32,
    reader: u32,
    /// The asks, and the fronts of their answers.
    fronts: &'static [(&'static [u8], u64)],
}

const RUNS: &[Run] = &[
    Run {
        name: "a reader",
        line: "load --ask nine later",
        first: 2,
        reader: 2,
        fronts: &[(b"ask 1 front ", 3)],
    },
    // The first reader waits for the turn that the link has, and the second for neither.
    Run {
        name: "a reader beside one that waits for its turn",
        line: "load --ask replay_first later",
        first: 2,
        reader: 3,
        fronts: &[(b"ask 1 front ", 4), (b"ask 2 front ", 3)],
    },
];

/// A function, so that they stand in no goal of its callers.
fn runs() -> &'static [Run] {
    RUNS
}

const FILES: [NamedFile<'static>; 6] = [
    ("tables", b"CREATE TABLE copy LIKE tm;"),
    (
        "route",
        b"INSERT INTO tm SELECT * FROM tm_in; INSERT INTO copy SELECT * FROM tm_in WHERE apid = 100;",
    ),
    ("first", FIRST),
    ("later", LATER),
    ("nine", ASKS),
    ("replay_first", REPLAY_FIRST),
];

fn other_files() -> [NamedFile<'static>; 6] {
    FILES
}

fn files_of(alloc: Global) -> Result<Vec<NamedFile<'static>>, AllocError> {
    let mut files = Vec::new(alloc);
    for sheet in sheets() {
        files.push(sheet)?;
    }
    for file in other_files() {
        files.push(file)?;
    }
    Ok(files)
}

/// Whether an archive of three rows, with their fill, could be made on a disk.
fn is_made<D: Disk + Send, R: Threads + Wait + Sync>(
    rt: &R,
    alloc: Global,
    outside: &Outside<'_>,
    disk: D,
) -> (bool, D) {
    let create = "create parameters calibrations containers tables";
    let load = "load --route route first";
    let (created, disk) = call(rt, alloc, create, outside, disk, &OpenGate);
    let (loaded, disk) = call(rt, alloc, load, outside, disk, &OpenGate);
    let is_made = created.status == 0 && loaded.status == 0 && loaded.after == 3;
    (is_made, disk)
}

/// Whether a text has these fronts.
fn has_fronts(text: &[u8], fronts: &[(&'static [u8], u64)]) -> bool {
    for (words, front) in fronts {
        if number_behind(text, words) != Some(*front) {
            return false;
        }
    }
    true
}

/// Whether a load goes so: each was held, and went on since the other had come so far.
fn goes<D: Disk + Send + Drop, R: Threads + Wait + Sync>(
    rt: &R,
    alloc: Global,
    outside: &Outside<'_>,
    disk: D,
    meeting: &Meeting,
    run: &Run,
) -> bool {
    let gate = ReadersGate {
        meeting,
        first: run.first,
        reader: run.reader,
    };
    let (loaded, _disk) = call(rt, alloc, run.line, outside, disk, &gate);
    let has_fronts = has_fronts(loaded.text.as_slice(), run.fronts);
    loaded.status == 0 && loaded.after == 4 && has_fronts && meeting.have_met()
}

/// The name of what goes otherwise: the archive, or the load.
fn other_of<R: Threads + Wait + Sync>(
    rt: &R,
    alloc: Global,
    outside: &Outside<'_>,
    run: &Run,
) -> Option<&'static str> {
    let (is_made, disk) = is_made(rt, alloc, outside, MemDisk::new(alloc));
    if !is_made {
        return Some("the archive");
    }
    let meeting = Meeting::new();
    let held = HeldDisk::new(disk, &meeting);
    if !goes(rt, alloc, outside, held, &meeting, run) {
        return Some(run.name);
    }
    None
}

/// What goes otherwise in the first run that does.
fn other<R: Threads + Wait + Sync>(
    rt: &R,
    alloc: Global,
) -> Result<Option<&'static str>, AllocError> {
    let files = files_of(alloc)?;
    let outside = Outside {
        files: files.as_slice(),
        reads: &[],
    };
    for run in runs() {
        if let Some(name) = other_of(rt, alloc, &outside, run) {
            return Ok(Some(name));
        }
    }
    Ok(None)
}

#[test]
fn readers_wait_for_nobody(rt: HostRuntime) -> Result<(), Fail> {
    none_other(other(&rt, rt.alloc())?)
}
