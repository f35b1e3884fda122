//! A worked seal octet by octet behind its kind, and what is refused.

ghost use Rattle.std.specs.Prelude.{IfOk};
ghost use Rattle.seal_codec.specs.Seals.{IsSeal};

use seal_codec::{Seal, SealedRun, SealedRuns, names_above, put_seal, read_seal};
use std::alloc::{AllocError, Global};
use std::test::*;

/// Of the first two rows, all of table 0, in file 1; their fills are in file 2, and the log goes on in file 3.
const SEAL: &[u8] = &[
    0, 0, 0, 0, 0, 0, 0, 2, // rows
    0, 0, 0, 3, // the log
    0, 0, 0, 2, // the fills
    1, // one run
    0, 0, 0, 0, 1, // its table and its file
];

fn seal_octets() -> &'static [u8] {
    SEAL
}

/// Octets that are no seal, and why.
type Refused = (&'static [u8], &'static str);

const REFUSED: &[Refused] = &[
    (&[], "no octet"),
    (
        &[0, 0, 0, 0, 0, 0, 0, 2, 0, 0, 0, 3, 0, 0, 0, 2],
        "no count of runs",
    ),
    (
        &[
            0, 0, 0, 0, 0, 0, 0, 2, 0, 0, 0, 3, 0, 0, 0, 2, 1, 0, 0, 0, 0,
        ],
        "a run that is cut off",
    ),
    (
        &[0, 0, 0, 0, 0, 0, 0, 2, 0, 0, 0, 3, 0, 0, 0, 2, 0, 0],
        "an octet behind the last run",
    ),
];

/// The files of a seal's runs, of its fills and of its log, one that was named before, and whether they rise from above that one on.
type Named = (&'static [u32], u32, u32, u32, bool);

const NAMED: &[Named] = &[
    (&[2, 3], 4, 5, 1, true),
    (&[7, 10], 20, 99_999_999, 6, true),
    (&[2, 3], 4, 5, 2, false), // named before
    (&[2, 2], 4, 5, 1, false), // a file of two runs
    (&[3, 2], 4, 5, 1, false),
    (&[2, 3], 3, 5, 1, false), // fills in a run's file
    (&[2, 3], 4, 4, 1, false), // a log in that of the fills
    (&[2, 3], 5, 4, 1, false),
    (&[], 2, 3, 1, true), // no run
    (&[], 1, 2, 1, false),
];

fn named() -> &'static [Named] {
    NAMED
}

fn refused() -> &'static [Refused] {
    REFUSED
}

fn worked_seal(alloc: Global) -> Result<Seal, AllocError>
    ensures { IfOk result (λ seal. IsSeal seal) }
{
    let mut runs = SealedRuns::new(alloc);
    runs.push(SealedRun { table: 0, file: 1 })?;
    Ok(Seal {
        rows: 2,
        log: 3,
        fills: 2,
        runs,
    })
}

/// Whether a seal is the worked one.
fn is_worked_seal(seal: &Seal) -> bool {
    (seal.rows, seal.log, seal.fills) == (2, 3, 2)
        && seal.runs.as_slice() == [SealedRun { table: 0, file: 1 }].as_slice()
}

#[test]
fn reads_the_worked_seal(rt: HostRuntime) {
    match read_seal(rt.alloc(), seal_octets()) {
        Ok(seal) => assert!(rt; is_worked_seal(&seal)),
        Err(_) => panic!(rt; "the worked seal is refused"),
    }
}

fn writes_worked(alloc: Global) -> Result<bool, AllocError> {
    let mut out = Vec::new(alloc);
    put_seal(&mut out, &worked_seal(alloc)?)?;
    Ok(out.as_slice() == seal_octets())
}

#[test]
fn writes_the_worked_seal(rt: HostRuntime) {
    assert!(rt; matches!(writes_worked(rt.alloc()), Ok(true)));
}

/// Runs of the first table in these files.
fn runs_in(alloc: Global, files: &[u32]) -> Result<SealedRuns, AllocError> {
    let mut runs = SealedRuns::new(alloc);
    for file in files {
        runs.push(SealedRun {
            table: 0,
            file: *file,
        })?;
    }
    Ok(runs)
}

/// Whether it is told of a seal's files rightly whether they rise.
fn is_named_so(alloc: Global, named: &Named) -> Result<bool, AllocError> {
    let (files, fills, log, above, do_rise) = *named;
    let seal = Seal {
        rows: 2,
        log,
        fills,
        runs: runs_in(alloc, files)?,
    };
    Ok(names_above(&seal, above) == do_rise)
}

/// The place of the first seal of which it is told otherwise.
fn other_named(alloc: Global, all: &[Named]) -> Option<usize> {
    for (place, named) in all.iter().enumerate() {
        if !matches!(is_named_so(alloc, named), Ok(true)) {
            return Some(place);
        }
    }
    None
}

#[test]
fn files_of_a_seal_rise(rt: HostRuntime) {
    assert_eq!(rt; other_named(rt.alloc(), named()), None);
}

/// Why the first of these would be refused that is read.
fn read_refused(alloc: Global, all: &[Refused]) -> Option<&'static str> {
    for (octets, why) in all {
        if read_seal(alloc, *octets).is_ok() {
            return Some(*why);
        }
    }
    None
}

#[test]
fn refuses_what_is_no_seal(rt: HostRuntime) {
    assert_eq!(rt; read_refused(rt.alloc(), refused()), None);
}

/// A seal of so many runs, as octets.
fn seal_of_runs(alloc: Global, runs: u8) -> Result<Vec<u8>, AllocError> {
    let mut octets = [0, 0, 0, 0, 0, 0, 0, 2, 0, 0, 0, 3, 0, 0, 0, 2].to_vec(alloc)?;
    octets.push(runs)?;
    for table in 0..runs {
        octets.extend_from_slice(&[table, 0, 0, 0, 1])?;
    }
    Ok(octets)
}

fn is_read(alloc: Global, runs: u8) -> Result<bool, AllocError> {
    let octets = seal_of_runs(alloc, runs)?;
    Ok(read_seal(alloc, octets.as_slice()).is_ok())
}

#[test]
fn seals_have_at_most_16_runs(rt: HostRuntime) {
    assert!(rt; matches!(is_read(rt.alloc(), 0), Ok(true)));
    assert!(rt; matches!(is_read(rt.alloc(), 16), Ok(true)));
    assert!(rt; matches!(is_read(rt.alloc(), 17), Ok(false)));
}
