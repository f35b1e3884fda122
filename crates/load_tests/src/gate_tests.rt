//! Links, a reader and a filler beside each other: each goes on while another is held.

use crate::calls::{NamedFile, Outside, call, none_other};
use crate::dumps::{CREATE, dump, sheets};
use crate::gates::{FillersGate, Held, HoldingGate};
use crate::texts::fronts_of;
use arch_disk::{Disk, MemDisk};
use outer_traits::gate::OpenGate;
use std::alloc::{AllocError, Global};
use std::sync::Wait;
use std::test::Fail;
use std::thread::Threads;

/// Two dumps of 128 packets, which are two batches each, one behind the other.
fn two_dumps(alloc: Global) -> Result<[Vec<u8>; 2], AllocError> {
    Ok([dump(alloc, 0, 128)?, dump(alloc, 1000, 128)?])
}

/// Whether a load of two dumps with asks answers these over histories of its own, where a job is held until another has come so far. A reader
/// that is held sees the first batch of the link that came.
fn goes_on<D: Disk + Send + Drop, R: Threads + Wait + Sync>(
    rt: &R,
    alloc: Global,
    outside: &Outside<'_>,
    disk: D,
    held: Held,
) -> bool {
    let gate = HoldingGate::new(held);
    let (created, disk) = call(rt, alloc, CREATE, outside, disk, &OpenGate);
    let (loaded, _disk) = call(rt, alloc, "load --ask asks a b", outside, disk, &gate);
    let Some((values, rows)) = fronts_of(loaded.text.as_slice()) else {
        return false;
    };
    let least = if held.job == 3 { 64 } else { 0 };
    let are_fronts = values >= least && values <= 256 && rows <= 256;
    let is_whole = loaded.status == 0 && loaded.after == 256;
    created.status == 0 && is_whole && are_fronts && gate.let_pass()
}

/// Which call of which job is held, and until which call of which other. The links are the jobs 1 and 2, the readers 3 and 4, and the filler is 5.
const HELD: [(u32, u64, u32, u64); 4] = [(1, 1, 2, 2), (2, 1, 1, 2), (3, 1, 1, 2), (1, 2, 5, 2)];

fn held() -> [(u32, u64, u32, u64); 4] {
    HELD
}

/// The number of the first of these that goes otherwise.
fn other_held<R: Threads + Wait + Sync>(
    rt: &R,
    alloc: Global,
    outside: &Outside<'_>,
) -> Option<usize> {
    let mut place = 0usize;
    for (job, turn, until_job, until_turn) in held() {
        let held = Held {
            job,
            turn,
            until_job,
            until_turn,
        };
        if !goes_on(rt, alloc, outside, MemDisk::new(alloc), held) {
            return Some(place);
        }
        place = place.saturating_add(1);
    }
    None
}

/// The sheets, and two dumps.
fn files_of<'a>(
    alloc: Global,
    first: &'a [u8],
    second: &'a [u8],
) -> Result<Vec<NamedFile<'a>>, AllocError> {
    let mut files = Vec::new(alloc);
    for sheet in sheets() {
        files.push(sheet)?;
    }
    files.push(("a", first))?;
    files.push(("b", second))?;
    Ok(files)
}

/// The same over the files of this test.
fn other_of_files<R: Threads + Wait + Sync>(
    rt: &R,
    alloc: Global,
) -> Result<Option<usize>, AllocError> {
    let [first, second] = two_dumps(alloc)?;
    let files = files_of(alloc, first.as_slice(), second.as_slice())?;
    let outside = Outside {
        files: files.as_slice(),
        reads: &[],
    };
    Ok(other_held(rt, alloc, &outside))
}

#[test]
fn jobs_run_beside_each_other(rt: HostRuntime) -> Result<(), Fail> {
    none_other(other_of_files(&rt, rt.alloc())?)
}

/// Whether a command ends with so many rows, and its fillers are those of the gate.
fn has_fillers<D: Disk + Send + Drop, R: Threads + Wait + Sync>(
    rt: &R,
    alloc: Global,
    outside: &Outside<'_>,
    disk: D,
    line: &str,
    gate: &FillersGate,
    rows: u64,
) -> bool {
    let (outcome, _disk) = call(rt, alloc, line, outside, disk, gate);
    outcome.status == 0 && outcome.after == rows && gate.have_come()
}

/// The command that has other fillers: a load has as many as its words say, and `make` has two.
fn other_fillers<R: Threads + Wait + Sync>(
    rt: &R,
    alloc: Global,
) -> Result<Option<&'static str>, AllocError> {
    let first = dump(alloc, 0, 320)?;
    let files = files_of(alloc, first.as_slice(), &[])?;
    let outside = Outside {
        files: files.as_slice(),
        reads: &[],
    };
    let load = "load --fillers 3 a";
    let gate = FillersGate::new(1, 3);
    let (_, disk) = call(rt, alloc, CREATE, &outside, MemDisk::new(alloc), &OpenGate);
    if !has_fillers(rt, alloc, &outside, disk, load, &gate, 320) {
        return Ok(Some(load));
    }
    let make = "make 7";
    let gate = FillersGate::new(2, 2);
    if !has_fillers(
        rt,
        alloc,
        &outside,
        MemDisk::new(alloc),
        make,
        &gate,
        30_800,
    ) {
        return Ok(Some(make));
    }
    Ok(None)
}

#[test]
fn fillers_are_as_many_as_words_say(rt: HostRuntime) -> Result<(), Fail> {
    none_other(other_fillers(&rt, rt.alloc())?)
}
