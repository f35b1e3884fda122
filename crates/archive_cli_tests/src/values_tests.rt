//! The text that `values` prints, its refusals, and faults of the outside.

use crate::calls::{NamedFile, Wanted, ends_so, none_other};
use crate::faults::{Writes, other_writes, untold_read};
use arch_disk::MemDisk;
use outer_traits::mem_inputs::FailingCall;
use std::alloc::Global;
use std::sync::Wait;
use std::test::Fail;
use std::thread::Threads;

/// Three sheets: parameters, calibrations and containers.
type Sheets = &'static [&'static str; 3];

const FLIGHT: &str = "name,coding,bits,calibration\napid,uint,11,\nv,uint,8,\nw,int,8,\n";

const UNCALIBRATED: &str = "name,kind,x,y\n";

const WIDEST: &str = "name,kind,x,y\nk,poly,1,0.000007\n";

const ALONE: &str = "container,parent,condition,archive,entry,position\nR,,,,big,100\n";

/// A header with the APID, and below it one container of two parameters for APID 100 and one of one for APID 101.
const TWO_GROUPS: Sheets = &[
    FLIGHT,
    UNCALIBRATED,
    "container,parent,condition,archive,entry,position\nHDR,,,,apid,5\nA,HDR,apid==100,yes,v,96\n,,,,w,\nB,HDR,apid==101,yes,v,96\n",
];

/// The same with a container below one that isn't there.
const NO_PARENT: Sheets = &[
    FLIGHT,
    UNCALIBRATED,
    "container,parent,condition,archive,entry,position\nHDR,,,,apid,5\nA,HDR,apid==100,yes,v,96\n,,,,w,\nB,HDR,apid==101,yes,v,96\nC,Z,,,,\n",
];

/// One container.
const ONE_GROUP: Sheets = &[
    "name,coding,bits,calibration\napid,uint,11,\nv,uint,8,\n",
    UNCALIBRATED,
    "container,parent,condition,archive,entry,position\nHDR,,,,apid,5\n,,,,v,96\n",
];

/// The widest parameter that a polynomial of degree 1 may calibrate, and one bit more.
const WIDE: Sheets = &[
    "name,coding,bits,calibration\nbig,uint,60,k\n",
    WIDEST,
    ALONE,
];

const TOO_WIDE: Sheets = &[
    "name,coding,bits,calibration\nbig,uint,61,k\n",
    WIDEST,
    ALONE,
];

/// A line through two points, and labels.
const CALIBRATED: Sheets = &[
    "name,coding,bits,calibration\nw,int,8,line\ns,uint,8,state\n",
    "name,kind,x,y\nline,points,0,0\nline,points,3,-1\nstate,enum,0,OFF\nstate,enum,1,ON\n",
    "container,parent,condition,archive,entry,position\nR,,,,w,96\n,,,,s,96\n",
];

/// APID 100 at 1.5 s with one octet of data.
const ONE_OCTET: &[u8] = &[8, 0x64, 0xC0, 0, 0, 6, 0, 0, 0, 1, 0x80, 0, 0x2A];

/// APID 101 at 1.5 s with one octet, and then APID 100 at 1.5 s with two.
const BOTH: &[u8] = &[
    8, 0x65, 0xC0, 0, 0, 6, 0, 0, 0, 1, 0x80, 0, 7, 8, 0x64, 0xC0, 0, 0, 7, 0, 0, 0, 1, 0x80, 0,
    0x2A, 0xFE,
];

/// Both and an octet that begins no packet.
const BOTH_AND_MORE: &[u8] = &[
    8, 0x65, 0xC0, 0, 0, 6, 0, 0, 0, 1, 0x80, 0, 7, 8, 0x64, 0xC0, 0, 0, 7, 0, 0, 0, 1, 0x80, 0,
    0x2A, 0xFE, 0x28,
];

/// Both without the last octet.
const CUT: &[u8] = &[
    8, 0x65, 0xC0, 0, 0, 6, 0, 0, 0, 1, 0x80, 0, 7, 8, 0x64, 0xC0, 0, 0, 7, 0, 0, 0, 1, 0x80, 0,
    0x2A,
];

/// A packet without a secondary header.
const UNTIMED: &[u8] = &[0, 0x65, 0xC0, 1, 0, 0, 7];

/// The greatest number of 60 bits, and 0.
const GREATEST: &[u8] = &[
    8, 0x64, 0xC0, 0, 0, 13, 0, 0, 0, 1, 0x80, 0, 0x0F, 0xFF, 0xFF, 0xFF, 0xFF, 0xFF, 0xFF, 0xFF,
];

const LEAST: &[u8] = &[
    8, 0x64, 0xC0, 0, 0, 13, 0, 0, 0, 1, 0x80, 0, 0, 0, 0, 0, 0, 0, 0, 0,
];

/// Raw numbers -5, 0, 1, 3 and 9.
const ON_THE_LINE: &[u8] = &[
    8, 0x64, 0xC0, 0, 0, 6, 0, 0, 0, 1, 0, 0, 0xFB, 8, 0x64, 0xC0, 1, 0, 6, 0, 0, 0, 1, 0, 0, 0, 8,
    0x64, 0xC0, 2, 0, 6, 0, 0, 0, 1, 0, 0, 1, 8, 0x64, 0xC0, 3, 0, 6, 0, 0, 0, 1, 0, 0, 3, 8, 0x64,
    0xC0, 4, 0, 6, 0, 0, 0, 1, 0, 0, 9,
];

/// Raw numbers 1 and 2.
const LABELS: &[u8] = &[
    8, 0x64, 0xC0, 0, 0, 6, 0, 0, 0, 1, 0, 0, 1, 8, 0x64, 0xC0, 1, 0, 6, 0, 0, 0, 1, 0, 0, 2,
];

/// Files `parameters`, `calibrations`, `containers` and `dump`.
fn files_of<'a>(sheets: Sheets, dump: &'a [u8]) -> [NamedFile<'a>; 4] {
    let [parameters, calibrations, containers] = *sheets;
    [
        ("parameters", parameters.as_bytes()),
        ("calibrations", calibrations.as_bytes()),
        ("containers", containers.as_bytes()),
        ("dump", dump),
    ]
}

/// `values` of the four files for each parameter.
const V: &str = "values parameters calibrations containers dump v";

const W: &str = "values parameters calibrations containers dump w";

const S: &str = "values parameters calibrations containers dump s";

const APID: &str = "values parameters calibrations containers dump apid";

const BIG: &str = "values parameters calibrations containers dump big";

const NOTHING: &str = "values parameters calibrations containers dump nothing";

const NO_NAME: &str = "values parameters calibrations containers dump no!name";

/// Sheets, a dump, the words, and how their call has to end.
type Values = (Sheets, &'static [u8], &'static str, Wanted);

const VALUES: &[Values] = &[
    (
        TWO_GROUPS,
        BOTH,
        V,
        (
            0,
            "cell 1500 140820480 42 42\ncell 1500 140886016 7 7\nvalues 2\n",
            "",
            None,
        ),
    ),
    (
        TWO_GROUPS,
        BOTH,
        W,
        (0, "cell 1500 140820480 -2 -2\nvalues 1\n", "", None),
    ),
    (TWO_GROUPS, ONE_OCTET, W, (0, "values 0\n", "", None)),
    (
        ONE_GROUP,
        UNTIMED,
        APID,
        (0, "cell 9000 6668289 101 101\nvalues 1\n", "", None),
    ),
    (ONE_GROUP, UNTIMED, V, (0, "values 0\n", "", None)),
    (
        WIDE,
        GREATEST,
        BIG,
        (
            0,
            "cell 1500 140820480 1152921504606846975 8070450532247.928825\nvalues 1\n",
            "",
            None,
        ),
    ),
    (
        WIDE,
        LEAST,
        BIG,
        (0, "cell 1500 140820480 0 0.000000\nvalues 1\n", "", None),
    ),
    (
        CALIBRATED,
        ON_THE_LINE,
        W,
        (
            0,
            "cell 1000 140820480 -5 0.000000\ncell 1000 140820481 0 0.000000\ncell 1000 140820482 1 -0.333334\ncell 1000 140820483 3 -1.000000\ncell 1000 140820484 9 -1.000000\nvalues 5\n",
            "",
            None,
        ),
    ),
    (
        CALIBRATED,
        LABELS,
        S,
        (
            0,
            "cell 1000 140820480 1 ON\ncell 1000 140820481 2 UNDEF\nvalues 2\n",
            "",
            None,
        ),
    ),
    // sheets and packets that are refused
    (
        NO_PARENT,
        BOTH,
        NOTHING,
        (2, "", "bad sheet containers row 6 rule 16", None),
    ),
    (
        TOO_WIDE,
        GREATEST,
        BIG,
        (2, "", "bad sheet parameters row 2 rule 14", None),
    ),
    (
        TWO_GROUPS,
        BOTH_AND_MORE,
        NOTHING,
        (1, "", "unknown parameter", None),
    ),
    (
        TWO_GROUPS,
        BOTH_AND_MORE,
        NO_NAME,
        (1, "", "unknown parameter", None),
    ),
    (
        TWO_GROUPS,
        BOTH_AND_MORE,
        V,
        (
            2,
            "cell 1500 140820480 42 42\ncell 1500 140886016 7 7\n",
            "bad packet at 27: version",
            None,
        ),
    ),
    (
        TWO_GROUPS,
        CUT,
        V,
        (
            2,
            "cell 1500 140886016 7 7\n",
            "bad packet at 13: truncated",
            None,
        ),
    ),
];

/// They are functions, so that the tables stand in no goal of their callers.
fn values() -> &'static [Values] {
    VALUES
}

/// Whether `values` ends as it is to.
fn is_answered<R: Threads + Wait + Sync>(rt: &R, alloc: Global, values: &Values) -> bool {
    let (sheets, dump, line, want) = *values;
    let files = files_of(sheets, dump);
    ends_so(rt, alloc, line, &files, MemDisk::new(alloc), &want)
}

/// The place of the first that ends otherwise.
fn other_values<R: Threads + Wait + Sync>(rt: &R, alloc: Global, all: &[Values]) -> Option<usize> {
    let mut place = 0usize;
    for values in all {
        if !is_answered(rt, alloc, values) {
            return Some(place);
        }
        place = place.saturating_add(1);
    }
    None
}

#[test]
fn prints_cells_or_refuses(rt: HostRuntime) -> Result<(), Fail> {
    none_other(other_values(&rt, rt.alloc(), values()))
}

/// Words that name inputs that aren't there, and the first of these.
type Missing = (&'static str, &'static str);

const MISSING: &[Missing] = &[
    ("values x y containers dump v", "no input x"),
    ("values parameters y x dump v", "no input y"),
    ("values parameters calibrations x y v", "no input x"),
    (
        "values parameters calibrations containers x v",
        "no input x",
    ),
];

fn missing() -> &'static [Missing] {
    MISSING
}

/// The files of these sheets with both packets. Functions, as above.
fn no_parent() -> [NamedFile<'static>; 4] {
    files_of(NO_PARENT, BOTH)
}

fn two_groups() -> [NamedFile<'static>; 4] {
    files_of(TWO_GROUPS, BOTH)
}

/// The place of the first of these words that are answered otherwise.
fn other_missing<R: Threads + Wait + Sync>(
    rt: &R,
    alloc: Global,
    files: &[NamedFile<'_>],
    all: &[Missing],
) -> Option<usize> {
    let mut place = 0usize;
    for (line, fault) in all {
        if !ends_so(
            rt,
            alloc,
            line,
            files,
            MemDisk::new(alloc),
            &(1, "", *fault, None),
        ) {
            return Some(place);
        }
        place = place.saturating_add(1);
    }
    None
}

#[test]
fn refuses_inputs(rt: HostRuntime) -> Result<(), Fail> {
    none_other(other_missing(&rt, rt.alloc(), &no_parent(), missing()))
}

/// The words of `values` for `v` with a last sheet that isn't there.
const LACKING: &str = "values parameters calibrations x dump v";

/// The opening of each input and its reads.
const READS: &[FailingCall] = &[
    FailingCall {
        opening: 1,
        read: 0,
    },
    FailingCall {
        opening: 1,
        read: 1,
    },
    FailingCall {
        opening: 1,
        read: 2,
    },
    FailingCall {
        opening: 2,
        read: 0,
    },
    FailingCall {
        opening: 2,
        read: 1,
    },
    FailingCall {
        opening: 2,
        read: 2,
    },
    FailingCall {
        opening: 3,
        read: 0,
    },
    FailingCall {
        opening: 3,
        read: 1,
    },
    FailingCall {
        opening: 3,
        read: 2,
    },
    FailingCall {
        opening: 4,
        read: 0,
    },
    FailingCall {
        opening: 4,
        read: 1,
    },
    FailingCall {
        opening: 4,
        read: 2,
    },
];

/// Those of the first.
const FIRST_READS: &[FailingCall] = &[
    FailingCall {
        opening: 1,
        read: 0,
    },
    FailingCall {
        opening: 1,
        read: 1,
    },
    FailingCall {
        opening: 1,
        read: 2,
    },
];

const WRITES: &[Writes] = &[(&[1], 4, 0, 0), (&[], 0, 59, 59)];

fn reads() -> &'static [FailingCall] {
    READS
}

fn first_reads() -> &'static [FailingCall] {
    FIRST_READS
}

fn writes() -> &'static [Writes] {
    WRITES
}

#[test]
fn reads_that_fail(rt: HostRuntime) -> Result<(), Fail> {
    none_other(untold_read(&rt, rt.alloc(), V, &two_groups(), reads()))
}

#[test]
fn writes_that_fail(rt: HostRuntime) -> Result<(), Fail> {
    none_other(other_writes(&rt, rt.alloc(), V, &two_groups(), writes()))
}

#[test]
fn a_failed_read_before_a_missing_input(rt: HostRuntime) -> Result<(), Fail> {
    none_other(untold_read(&rt, rt.alloc(), LACKING, &two_groups(), first_reads()))
}

#[test]
fn a_failed_read_before_a_bad_sheet(rt: HostRuntime) -> Result<(), Fail> {
    none_other(untold_read(&rt, rt.alloc(), V, &no_parent(), first_reads()))
}
