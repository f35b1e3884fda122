//! Dumps that are read in pieces: what stays of one whose read fails, which has a packet that is none, or that is too long.

use crate::calls::{NamedFile, Outcome, Outside, call, call_over, none_other};
use crate::dumps::{CREATE, dump, sheets};
use crate::repeating::{ReadOrder, Repeated, RepeatingInputs};
use crate::row_tests::{CREATED, Row, ends_so, other_row};
use arch_disk::{Disk, MemDisk};
use outer_traits::gate::OpenGate;
use outer_traits::mem_inputs::FailingCall;
use std::alloc::{AllocError, Global};
use std::sync::Wait;
use std::test::Fail;
use std::thread::Threads;

/// The header of a packet of APID 100 of the greatest length that there is, and that of an idle one.
const LONGEST: &[u8] = b"\x08\x64\xC0\x00\xFF\xFF";

const LONGEST_IDLE: &[u8] = b"\x07\xFF\xC0\x00\xFF\xFF";

/// A packet of the greatest length, of zeros.
fn longest(alloc: Global, header: &[u8]) -> Result<Vec<u8>, AllocError> {
    let mut packet = Vec::from_slice(alloc, header)?;
    packet.extend_from_slice(vec![in alloc; 0u8; 65_536]?.as_slice())?;
    Ok(packet)
}

/// A packet, then the longest, and then these octets: two pieces, of which the first ends in the longest packet.
fn two_pieces(alloc: Global, more: &[u8]) -> Result<Vec<u8>, AllocError> {
    let mut octets = dump(alloc, 5, 1)?;
    octets.extend_from_slice(longest(alloc, LONGEST)?.as_slice())?;
    octets.extend_from_slice(more)?;
    Ok(octets)
}

/// The sheets, and a dump that is whole, one that is cut off, and one in which no packet begins behind two.
fn piece_files<'a>(
    alloc: Global,
    whole: &'a [u8],
    cut: &'a [u8],
    version: &'a [u8],
) -> Result<Vec<NamedFile<'a>>, AllocError> {
    let mut files = Vec::new(alloc);
    for sheet in sheets() {
        files.push(sheet)?;
    }
    files.push(("whole", whole))?;
    files.push(("cut", cut))?;
    files.push(("version", version))?;
    Ok(files)
}

/// The packets before the place that is told are there, and no others.
const REFUSED: &[Row] = &[
    CREATED,
    ("load cut", 2, "", "bad packet at 65555: truncated", 0, 2, 1),
    (
        "load --link 4 version",
        2,
        "",
        "bad packet at 65555: version",
        2,
        2,
        4,
    ),
    (
        "load whole",
        0,
        "load packets 3 new 1 duplicates 2 idle 0 rows 3\n",
        "",
        2,
        3,
        0,
    ),
    (
        "verify",
        0,
        "sound rows 3 intervals 1 late 0\n",
        "",
        3,
        3,
        0,
    ),
];

fn refused() -> &'static [Row] {
    REFUSED
}

/// A read of the dump that fails, how its load has to end, and how the next one has to.
type Unread = (u64, Row, Row);

/// Nothing was read; the first piece, which has one whole packet; or all, but not that this is the end.
const UNREAD: &[Unread] = &[
    (
        1,
        ("load whole", 3, "", "read fault", 0, 0, 0),
        (
            "load whole",
            0,
            "load packets 3 new 3 duplicates 0 idle 0 rows 3\n",
            "",
            0,
            3,
            0,
        ),
    ),
    (
        2,
        ("load whole", 3, "", "read fault", 0, 1, 0),
        (
            "load whole",
            0,
            "load packets 3 new 2 duplicates 1 idle 0 rows 3\n",
            "",
            1,
            3,
            0,
        ),
    ),
    (
        3,
        ("load whole", 3, "", "read fault", 0, 3, 0),
        (
            "load whole",
            0,
            "load packets 3 new 0 duplicates 3 idle 0 rows 3\n",
            "",
            3,
            3,
            0,
        ),
    ),
];

fn unread() -> &'static [Unread] {
    UNREAD
}

/// Whether a load of which this read fails ends so, and the next.
fn goes_on_unread<D: Disk + Send + Drop, R: Threads + Wait + Sync>(
    rt: &R,
    alloc: Global,
    outside: &Outside<'_>,
    disk: D,
    unread: &Unread,
) -> bool {
    let (read, failing, behind) = unread;
    let unreadable = Outside {
        files: outside.files,
        reads: &[FailingCall {
            opening: 1,
            read: *read,
        }],
    };
    let (created, disk) = ends_so(rt, alloc, outside, disk, &CREATED);
    let (refused, disk) = ends_so(rt, alloc, &unreadable, disk, failing);
    let (loaded, _disk) = ends_so(rt, alloc, outside, disk, behind);
    created && refused && loaded
}

/// The first of these reads of which it isn't so, each on a new disk.
fn other_unread<R: Threads + Wait + Sync>(
    rt: &R,
    alloc: Global,
    outside: &Outside<'_>,
    reads: &[Unread],
) -> Option<usize> {
    for unread in reads {
        if !goes_on_unread(rt, alloc, outside, MemDisk::new(alloc), unread) {
            return Some(unread.0 as usize);
        }
    }
    None
}

/// The first read that goes otherwise, or else the first row, from 100 on.
fn other_of_pieces<R: Threads + Wait + Sync>(
    rt: &R,
    alloc: Global,
) -> Result<Option<usize>, AllocError> {
    let last = dump(alloc, 6, 1)?;
    let whole = two_pieces(alloc, last.as_slice())?;
    let (front, _) = last.as_slice().split_at(last.len().min(8));
    let cut = two_pieces(alloc, front)?;
    let mut other_version = Vec::from_slice(alloc, b"\x28")?;
    other_version.extend_from_slice(last.as_slice())?;
    let version = two_pieces(alloc, other_version.as_slice())?;
    let files = piece_files(alloc, whole.as_slice(), cut.as_slice(), version.as_slice())?;
    let outside = Outside {
        files: files.as_slice(),
        reads: &[],
    };
    if let Some(read) = other_unread(rt, alloc, &outside, unread()) {
        return Ok(Some(read));
    }
    match other_row(rt, alloc, &outside, MemDisk::new(alloc), refused()) {
        Some(row) => Ok(Some(row.saturating_add(100))),
        None => Ok(None),
    }
}

#[test]
fn dumps_of_two_pieces(rt: HostRuntime) -> Result<(), Fail> {
    none_other(other_of_pieces(&rt, rt.alloc())?)
}

/// What comes of a load of such dumps on a new archive.
fn loaded<'a, D: Disk + Send + Drop, R: Threads + Wait + Sync>(
    rt: &R,
    alloc: Global,
    line: &str,
    dumps: &'a [Repeated<'a>],
    order: &'a ReadOrder,
    disk: D,
) -> Outcome {
    let files = sheets();
    let outside = Outside {
        files: &files,
        reads: &[],
    };
    let (_, disk) = call(rt, alloc, CREATE, &outside, disk, &OpenGate);
    let mut inputs = RepeatingInputs::new(dumps, order);
    let (outcome, _disk) = call_over(rt, alloc, line, &mut inputs, disk, order);
    outcome
}

/// Whether a link sends the first 64 packets of its dump before it reads on: the second piece has the end of the 65th.
fn sends_first<R: Threads + Wait + Sync>(rt: &R, alloc: Global) -> Result<bool, AllocError> {
    let mut octets = dump(alloc, 1, 64)?;
    octets.extend_from_slice(longest(alloc, LONGEST)?.as_slice())?;
    let mut dumps: Vec<Repeated<'_>> = Vec::new(alloc);
    dumps.push(("a", octets.as_slice(), 0))?;
    let order = ReadOrder::new();
    let outcome = loaded(
        rt,
        alloc,
        "load a",
        dumps.as_slice(),
        &order,
        MemDisk::new(alloc),
    );
    Ok(outcome.status == 0 && outcome.after == 65 && order.sent_first())
}

#[test]
fn a_link_sends_while_it_reads(rt: HostRuntime) -> Result<(), Fail> {
    none_other(if sends_first(&rt, rt.alloc())? {
        None
    } else {
        Some("read first")
    })
}

/// Whether a load of three dumps is refused so by the second, which passes the limit within its 4,096th idle packet of
/// the greatest length. Before each of these stands a packet, which is new once, and behind it these octets. The rows of
/// the others are kept, too.
fn is_too_long<R: Threads + Wait + Sync>(
    rt: &R,
    alloc: Global,
    behind: &[u8],
    fault: &str,
) -> Result<bool, AllocError> {
    let first = dump(alloc, 0, 3)?;
    let last = dump(alloc, 10, 3)?;
    let mut long = dump(alloc, 5, 1)?;
    long.extend_from_slice(longest(alloc, LONGEST_IDLE)?.as_slice())?;
    long.extend_from_slice(behind)?;
    let mut dumps: Vec<Repeated<'_>> = Vec::new(alloc);
    dumps.push(("a", first.as_slice(), 0))?;
    dumps.push(("long", long.as_slice(), 4_095))?;
    dumps.push(("b", last.as_slice(), 0))?;
    let order = ReadOrder::new();
    let line = "load a long b";
    let outcome = loaded(
        rt,
        alloc,
        line,
        dumps.as_slice(),
        &order,
        MemDisk::new(alloc),
    );
    let is_named = outcome.link == 2 && outcome.fault.as_str() == fault;
    Ok(outcome.status == 2 && is_named && outcome.after == 7)
}

#[test]
fn a_dump_that_is_too_long(rt: HostRuntime) -> Result<(), Fail> {
    let fault = "limit DumpOctets 268435456";
    none_other(if is_too_long(&rt, rt.alloc(), &[], fault)? {
        None
    } else {
        Some(fault)
    })
}

/// A link comes to the octet where no packet begins before it comes to the limit.
#[test]
fn another_version_before_the_limit(rt: HostRuntime) -> Result<(), Fail> {
    let fault = "bad packet at 65555: version";
    none_other(if is_too_long(&rt, rt.alloc(), &[0x28], fault)? {
        None
    } else {
        Some(fault)
    })
}
