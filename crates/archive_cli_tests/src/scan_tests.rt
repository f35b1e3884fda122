//! The text that `scan` prints, the words, and faults of the outside.

use crate::calls::{Wanted, ends_so, none_other};
use crate::faults::{Writes, other_writes, untold_read};
use arch_disk::MemDisk;
use outer_traits::mem_inputs::FailingCall;
use std::alloc::{AllocError, Global};
use std::sync::Wait;
use std::test::Fail;
use std::thread::Threads;

/// A packet with a secondary header and one octet of data, at 1.5 s.
const P1: &[u8] = b"\x08\x64\xC0\x00\x00\x06\x00\x00\x00\x01\x80\x00\x2A";

/// It without its last octet.
const CUT: &[u8] = b"\x08\x64\xC0\x00\x00\x06\x00\x00\x00\x01\x80\x00";

/// It twice, it and the first octet of a packet of version 1, and it, an idle packet, and one without a secondary header.
const TWICE: &[u8] =
    b"\x08\x64\xC0\x00\x00\x06\x00\x00\x00\x01\x80\x00\x2A\x08\x64\xC0\x00\x00\x06\x00\x00\x00\x01\x80\x00\x2A";

const VERSION: &[u8] = b"\x08\x64\xC0\x00\x00\x06\x00\x00\x00\x01\x80\x00\x2A\x28";

const MIXED: &[u8] =
    b"\x08\x64\xC0\x00\x00\x06\x00\x00\x00\x01\x80\x00\x2A\x07\xFF\xC0\x00\x00\x00\x00\x00\x65\xC0\x01\x00\x00\x07";

/// The header of the longest packet, of APID 100.
const LONGEST: &[u8] = b"\x08\x64\xC0\x00\xFF\xFF";

/// The first octets of a dump, its length, and how its scan has to end. The octets behind are 0.
type Scan = (&'static [u8], usize, Wanted);

const SCANS: &[Scan] = &[
    (
        b"",
        0,
        (0, "scan packets 0 rows 0 duplicates 0 idle 0\n", "", None),
    ),
    (
        P1,
        13,
        (
            0,
            "row 1500 140820480 13\nscan packets 1 rows 1 duplicates 0 idle 0\n",
            "",
            None,
        ),
    ),
    (
        TWICE,
        26,
        (
            0,
            "row 1500 140820480 13\nscan packets 2 rows 1 duplicates 1 idle 0\n",
            "",
            None,
        ),
    ),
    (CUT, 12, (2, "", "bad packet at 0: truncated", None)),
    (
        VERSION,
        14,
        (
            2,
            "row 1500 140820480 13\n",
            "bad packet at 13: version",
            None,
        ),
    ),
    // The packet version number stands in the first of four pieces, and the rest of them is passed over.
    (
        VERSION,
        200_000,
        (
            2,
            "row 1500 140820480 13\n",
            "bad packet at 13: version",
            None,
        ),
    ),
    // The packet goes on in a second piece, and is an octet too short there.
    (LONGEST, 65_541, (2, "", "bad packet at 0: truncated", None)),
    (
        LONGEST,
        65_542,
        (
            0,
            "row 0 140820480 65542\nscan packets 1 rows 1 duplicates 0 idle 0\n",
            "",
            None,
        ),
    ),
    (
        MIXED,
        27,
        (
            0,
            "row 1500 140820480 13\nrow 9000 6668289 7\nscan packets 3 rows 2 duplicates 0 idle 1\n",
            "",
            None,
        ),
    ),
];

/// They are functions, so that the tables stand in no goal of their callers.
fn scans() -> &'static [Scan] {
    SCANS
}

/// Whether a dump is scanned as it is to be.
fn is_scanned<R: Threads + Wait + Sync>(
    rt: &R,
    alloc: Global,
    scan: &Scan,
) -> Result<bool, AllocError> {
    let (front, length, want) = *scan;
    let mut dump = Vec::from_slice(alloc, front)?;
    dump.resize(length, 0)?;
    Ok(ends_so(
        rt,
        alloc,
        "scan dump",
        &[("dump", dump.as_slice())],
        MemDisk::new(alloc),
        &want,
    ))
}

/// The place of the first dump that is scanned otherwise.
fn other_scan<R: Threads + Wait + Sync>(
    rt: &R,
    alloc: Global,
    scans: &[Scan],
) -> Result<Option<usize>, AllocError> {
    let mut place = 0usize;
    for scan in scans {
        if !is_scanned(rt, alloc, scan)? {
            return Ok(Some(place));
        }
        place = place.saturating_add(1);
    }
    Ok(None)
}

#[test]
fn prints_rows(rt: HostRuntime) -> Result<(), Fail> {
    none_other(other_scan(&rt, rt.alloc(), scans())?)
}

/// Words, and the fault of their call.
type Words = (&'static str, &'static str);

const WORDS: &[Words] = &[
    ("", "usage"),
    ("frobnicate", "usage"),
    ("scan", "usage"),
    ("scan ", "usage"),
    ("scan -", "usage"),
    ("scan -x", "usage"),
    ("scan --help", "usage"),
    ("scan --", "usage"),
    ("scan -- ", "usage"),
    ("scan dump dump", "usage"),
    ("-- scan dump", "usage"),
    ("scan x", "no input x"),
    ("scan x --", "no input x"),
    ("scan -- -x", "no input -x"),
    ("scan -- --", "no input --"),
    ("scan --dump=x", "usage"),
    ("values", "usage"),
    ("values p c k d", "usage"),
    ("values p c k d n m", "usage"),
    ("values p c k d -n", "usage"),
    ("values p c k d ", "usage"),
    ("values p c k d n", "no input p"),
    ("values p c k d -- -n", "no input p"),
];

fn words() -> &'static [Words] {
    WORDS
}

/// A function, as that of the scans.
fn p1() -> &'static [u8] {
    P1
}

/// The place of the first words that are answered otherwise.
fn other_words<R: Threads + Wait + Sync>(rt: &R, alloc: Global, words: &[Words]) -> Option<usize> {
    let mut place = 0usize;
    for (line, fault) in words {
        if !ends_so(
            rt,
            alloc,
            line,
            &[("dump", p1())],
            MemDisk::new(alloc),
            &(1, "", *fault, None),
        ) {
            return Some(place);
        }
        place = place.saturating_add(1);
    }
    None
}

#[test]
fn reads_words(rt: HostRuntime) -> Result<(), Fail> {
    none_other(other_words(&rt, rt.alloc(), words()))
}

/// 10,000 packets of 7 octets, each of which is a line of 19.
fn many_packets(alloc: Global) -> Result<Vec<u8>, AllocError> {
    let mut dump = Vec::new(alloc);
    for count in 0..10_000u16 {
        let [high, low] = count.to_be_bytes();
        dump.extend_from_slice(&[0, 0x65, 0xC0 | high, low, 0, 0, 7])?;
    }
    Ok(dump)
}

/// The opening of the dump and its reads.
const READS: &[FailingCall] = &[
    FailingCall {
        opening: 1,
        read: 0,
    },
    FailingCall {
        opening: 1,
        read: 1,
    },
    FailingCall {
        opening: 1,
        read: 2,
    },
    FailingCall {
        opening: 1,
        read: 3,
    },
];

/// A write has 65,536 octets and the rest of a line.
const WRITES: &[Writes] = &[
    (&[1], 4, 0, 0),
    (&[2], 4, 65_536, 65_599),
    (&[], 0, 190_050, 190_050),
];

fn reads() -> &'static [FailingCall] {
    READS
}

fn writes() -> &'static [Writes] {
    WRITES
}

/// The place of the first of these reads of a dump of many packets that fails without being told.
fn untold_of_many<R: Threads + Wait + Sync>(
    rt: &R,
    alloc: Global,
    reads: &[FailingCall],
) -> Result<Option<usize>, AllocError> {
    let dump = many_packets(alloc)?;
    let files = [("dump", dump.as_slice())];
    Ok(untold_read(rt, alloc, "scan dump", &files, reads))
}

#[test]
fn reads_that_fail(rt: HostRuntime) -> Result<(), Fail> {
    none_other(untold_of_many(&rt, rt.alloc(), reads())?)
}

/// The place of the first of these writes that end its scan otherwise.
fn other_of_many<R: Threads + Wait + Sync>(
    rt: &R,
    alloc: Global,
    rows: &[Writes],
) -> Result<Option<usize>, AllocError> {
    let dump = many_packets(alloc)?;
    let files = [("dump", dump.as_slice())];
    Ok(other_writes(rt, alloc, "scan dump", &files, rows))
}

#[test]
fn writes_that_fail(rt: HostRuntime) -> Result<(), Fail> {
    none_other(other_of_many(&rt, rt.alloc(), writes())?)
}
