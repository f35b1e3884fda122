//! What an open run is asked: the page that may have a key; a page and a position where the read fails, and where octets of the file are others
//! than those that were written; and a run that is opened page by page, without a sync.
//!
//! The disk is opaque, so that no clause speaks of what it holds.

use crate::run_files_tests::{FILE, made, written};
use arch_disk::{Disk, MemDisk, OpaqueDisk};
use arch_types::key::Key;
use run_files::{Run, RunFault, RunOpening};
use std::alloc::Global;
use std::test::*;

/// A key by its time in milliseconds and its number, and the page of a run of 200 rows that may have it.
type KeyPage = (i64, u32, Option<u32>);

const KEY_PAGES: &[KeyPage] = &[
    (1_500, 140_820_479, None), // just below the first row's
    (i64::MIN, u32::MAX, None),
    (1_500, 140_820_480, Some(0)),
    (129_500, 140_820_543, Some(0)), // just below the second page's first
    (129_500, 140_820_544, Some(1)),
    (i64::MAX, u32::MAX, Some(3)), // above all rows'
];

/// A place in the file of a run of 65 rows, the octet that is put there behind the run's back, a page and the number of a row that are asked
/// then, and the octet at which the run is damaged, if it is. Its pages begin at 0 and 2,178; each row has 34 octets.
type Touched = (u64, u8, u32, u16, Option<u64>);

const TOUCHED: &[Touched] = &[
    (1, 63, 0, 0, Some(0)), // a row less than there are octets for
    (10, 1, 0, 0, Some(0)), // the first row of another table
    (31, 2, 0, 1, Some(0)), // its key isn't the page's first
    (2_173, 0x83, 0, 0, Some(0)), // the last key above the next page's first
    (2_179, 0, 1, 64, Some(2_178)), // no row
    (2_188, 1, 1, 64, Some(2_178)), // the second page of another table
    (2_188, 1, 0, 63, None), // which the first doesn't tell
    (9, 7, 0, 0, None), // another position, which no page tells
];

// They are functions, so that they stand in no goal of their callers.
fn key_pages() -> &'static [KeyPage] {
    KEY_PAGES
}

fn touched() -> &'static [Touched] {
    TOUCHED
}

/// The key of the row with a number.
fn key_of(number: u16) -> Key {
    Key {
        time: i64::from(number) * 2_000 + 1_500,
        seq: 0x0864_C000 | u32::from(number),
    }
}

/// The run of so many rows, newly written.
fn run_of_rows(alloc: Global, disk: &mut OpaqueDisk, count: u16) -> Option<Run> {
    let rows = made(alloc, count)?;
    written(alloc, disk, &rows).ok()
}

// ---- pages of keys

/// The place of the first key that another page may have.
fn other_page(run: &Run, all: &[KeyPage]) -> Option<usize> {
    for (place, (time, seq, page)) in all.iter().enumerate() {
        let key = Key {
            time: *time,
            seq: *seq,
        };
        if run.page_of(key) != *page {
            return Some(place);
        }
    }
    None
}

/// The same of a run of 200 rows.
fn other_key(alloc: Global) -> Option<usize> {
    match run_of_rows(alloc, &mut OpaqueDisk::new(MemDisk::new(alloc)), 200) {
        Some(run) => other_page(&run, key_pages()),
        None => Some(0),
    }
}

/// How many pages the rows of a day have.
fn pages_of_a_day(alloc: Global) -> Option<u32> {
    let run = run_of_rows(alloc, &mut OpaqueDisk::new(MemDisk::new(alloc)), 30_800)?;
    Some(run.page_count())
}

#[test]
fn a_day_has_482_pages(rt: HostRuntime) {
    assert_eq!(rt; pages_of_a_day(rt.alloc()), Some(482));
}

#[test]
fn pages_of_keys(rt: HostRuntime) {
    assert_eq!(rt; other_key(rt.alloc()), None);
}

// ---- octets that are others than those written

/// Whether damage is told so, by page and by key.
fn is_told(alloc: Global, disk: &mut OpaqueDisk, touched: &Touched) -> bool {
    let (place, octet, page, number, at) = *touched;
    let Some(run) = run_of_rows(alloc, disk, 65) else {
        return false;
    };
    if page >= run.page_count() || disk.write_at(FILE, place, &[octet]).is_err() {
        return false;
    }
    let want = match at {
        Some(at) => Some(RunFault::Damaged { file: FILE, at }),
        None => None,
    };
    run.rows_of(alloc, disk, page).err() == want
        && run.position(alloc, disk, key_of(number)).err() == want
}

/// The place of the first octet of which it is told otherwise.
fn other_told(alloc: Global, all: &[Touched]) -> Option<usize> {
    for (place, touched) in all.iter().enumerate() {
        if !is_told(alloc, &mut OpaqueDisk::new(MemDisk::new(alloc)), touched) {
            return Some(place);
        }
    }
    None
}

#[test]
fn damage_behind_an_open_run(rt: HostRuntime) {
    assert_eq!(rt; other_told(rt.alloc(), touched()), None);
}

// ---- reads that fail

/// Six calls write 65 rows; the two behind them fail.
fn failing_twice(alloc: Global) -> Option<OpaqueDisk> {
    let calls = Vec::from_slice(alloc, &[7, 8]).ok()?;
    Some(OpaqueDisk::new(MemDisk::failing(alloc, calls)))
}

/// Whether a page and then a position are refused, and a position above all rows is known without a read.
fn is_refused_by_reads(alloc: Global, disk: &mut OpaqueDisk) -> bool {
    let Some(run) = run_of_rows(alloc, disk, 65) else {
        return false;
    };
    if run.page_count() < 2 {
        return false;
    }
    let fault = Some(RunFault::DiskFault { wrote: false });
    run.position(alloc, disk, key_of(65)).ok() == Some(None)
        && run.rows_of(alloc, disk, 1).err() == fault
        && run.position(alloc, disk, key_of(64)).err() == fault
        && run.position(alloc, disk, key_of(64)).ok() == Some(Some(0))
}

/// The rows of the pages of a file that is opened without a sync, and those of the run.
fn rows_unsynced(alloc: Global, disk: &mut OpaqueDisk) -> Result<(usize, u64), RunFault> {
    let mut opening = RunOpening::begin_synced(alloc, disk, FILE)?;
    let mut rows: usize = 0;
    for _ in 0..4 {
        let Some(page) = opening.next(alloc, disk)? else {
            return Ok((rows, opening.finish().sealed_row_count()));
        };
        rows = rows.saturating_add(page.rows.len());
    }
    Err(RunFault::Limit)
}

/// Whether the call that fails first is a sync where a file is opened with one, and a look where not.
fn is_opened_without_a_sync(alloc: Global, disk: &mut OpaqueDisk) -> bool {
    run_of_rows(alloc, disk, 65).is_some()
        && RunOpening::begin(alloc, disk, FILE).err() == Some(RunFault::DiskFault { wrote: true })
        && RunOpening::begin_synced(alloc, disk, FILE).err()
            == Some(RunFault::DiskFault { wrote: false })
        && matches!(rows_unsynced(alloc, disk), Ok((65, 65)))
}

/// What is looked at on a disk of which two calls fail.
fn are_refused(alloc: Global) -> bool {
    let (Some(mut disk), Some(mut other)) = (failing_twice(alloc), failing_twice(alloc)) else {
        return false;
    };
    is_refused_by_reads(alloc, &mut disk) && is_opened_without_a_sync(alloc, &mut other)
}

#[test]
fn reads_that_fail(rt: HostRuntime) {
    assert!(rt; are_refused(rt.alloc()));
}
