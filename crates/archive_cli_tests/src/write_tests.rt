//! Commands of which each write fails in turn.

use crate::calls::{NamedFile, Outside, call, files_alone, none_other, text_of};
use crate::files::sheets;
use crate::in_a_row::CREATE;
use arch_disk::{Disk, MemDisk};
use std::alloc::{AllocError, Global};
use std::sync::Wait;
use std::test::Fail;
use std::thread::Threads;

/// Commands that make an archive, and the one that is given then.
type Writer = (&'static [&'static str], &'static str);

const LOADED: &[&str] = &[CREATE, "load many"];

/// Of the many packets scans, values, asks and selections are of more than one write. A load of packets that are there answers an ask over the same
/// history however its jobs go.
const WRITERS: &[Writer] = &[
    (&[], "scan many"),
    (&[], "values parameters calibrations containers many v"),
    (&[], CREATE),
    (&[], "create parameters calibrations containers tables"),
    (&[CREATE], "load many"),
    (&[CREATE], "load --route route many"),
    (LOADED, "load --ask all many"),
    (LOADED, "load --fillers 2 many many"),
    (LOADED, "query --ask all"),
    (LOADED, "query --sql rows"),
    (LOADED, "recover"),
    (LOADED, "verify"),
    (&[], "make 7"),
];

/// All values of the one parameter, and all rows.
const ALL: &[u8] = b"kind,name,from,to,order,limit,names\nvalues,v,0,86400000,,,\n";

const ROWS: &[u8] = b"SELECT gentime, seqNum FROM tm;";

const TABLES: &[u8] = b"CREATE TABLE copy LIKE tm;";

const ROUTE: &[u8] = b"INSERT INTO tm SELECT * FROM tm_in;";

fn writers() -> &'static [Writer] {
    WRITERS
}

/// 4,000 packets, one a second.
fn many_packets(alloc: Global) -> Result<Vec<u8>, AllocError> {
    let mut dump = Vec::new(alloc);
    for second in 0..4_000u16 {
        let [high, low] = second.to_be_bytes();
        dump.extend_from_slice(&[8, 0x64, 0xC0, 0, 0, 6, 0, 0, high, low, 0, 0, low])?;
    }
    Ok(dump)
}

/// What came of a command: its status, what it printed, and the status of a `recover` behind it with how many rows that finds.
#[derive(Drop)]
struct Came {
    status: u8,
    text: Vec<u8>,
    found: (u8, u64),
}

/// That of a command on a disk, of which these writes fail.
fn came_of<'a, D: Disk + Send + Drop, R: Threads + Wait + Sync>(
    rt: &R,
    alloc: Global,
    files: &'a [NamedFile<'a>],
    writer: &Writer,
    writes: &'a [u64],
    disk: D,
) -> Came {
    let (before, line) = *writer;
    let mut disk = disk;
    for earlier in before {
        let (_, left) = call(rt, alloc, earlier, &files_alone(files), disk);
        disk = left;
    }
    let outside = Outside {
        files,
        reads: &[],
        writes,
    };
    let (outcome, text, disk) = text_of(rt, alloc, line, &outside, disk);
    let (found, _disk) = call(rt, alloc, "recover", &files_alone(files), disk);
    Came {
        status: outcome.status,
        text,
        found: (found.status, found.after),
    }
}

/// Whether a write that failed is told, behind a beginning of the text, and the archive is as without it.
fn is_cut_off(whole: &Came, cut: &Came) -> bool {
    let is_prefix = whole.text.as_slice().starts_with(cut.text.as_slice());
    cut.status == 4 && is_prefix && cut.text.len() < whole.text.len() && cut.found == whole.found
}

/// The first write of a command that fails otherwise, or 0 where the command fails by itself. The write behind its last one can't fail.
fn other_write<R: Threads + Wait + Sync>(
    rt: &R,
    alloc: Global,
    files: &[NamedFile<'_>],
    writer: &Writer,
) -> Option<u64> {
    let whole = came_of(rt, alloc, files, writer, &[], MemDisk::new(alloc));
    if whole.status != 0 {
        return Some(0);
    }
    for number in 1..9u64 {
        let cut = came_of(rt, alloc, &*files, writer, &[number], MemDisk::new(alloc));
        if cut.status == 0 {
            let is_whole = number > 1 && cut.text.as_slice() == whole.text.as_slice();
            return if is_whole { None } else { Some(number) };
        }
        if !is_cut_off(&whole, &cut) {
            return Some(number);
        }
    }
    Some(9)
}

/// The sheets, these packets, scripts, and what is asked of them.
fn files_of<'a>(alloc: Global, many: &'a [u8]) -> Result<Vec<NamedFile<'a>>, AllocError> {
    let mut files = Vec::new(alloc);
    for sheet in sheets() {
        files.push(sheet)?;
    }
    files.push(("many", many))?;
    files.push(("all", ALL))?;
    files.push(("rows", ROWS))?;
    files.push(("tables", TABLES))?;
    files.push(("route", ROUTE))?;
    Ok(files)
}

/// The first of these commands of which a write fails otherwise.
fn other_writer<R: Threads + Wait + Sync>(
    rt: &R,
    alloc: Global,
    writers: &[Writer],
) -> Result<Option<&'static str>, AllocError> {
    let many = many_packets(alloc)?;
    let files = files_of(alloc, many.as_slice())?;
    for writer in writers {
        if other_write(rt, alloc, files.as_slice(), writer).is_some() {
            return Ok(Some(writer.1));
        }
    }
    Ok(None)
}

#[test]
fn each_write_fails_in_turn(rt: HostRuntime) -> Result<(), Fail> {
    none_other(other_writer(&rt, rt.alloc(), writers())?)
}
