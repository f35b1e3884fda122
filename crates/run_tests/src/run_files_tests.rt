//! Runs on a disk in memory: written, opened, read back by page and by key; the worked run octet by octet; octets of runs changed, and what is read
//! then written again; each call of the disk failing once.
//!
//! What looks at a disk is generic in it: over a `MemDisk` each clause speaks of its list of calls, and that costs minutes to prove.

ghost use Rattle.std.specs.Prelude.{◌≡◌, ◌<◌, ◌≤◌, IsTrue, length, IfOk, IfSome, OnOk};
ghost use Rattle.std.specs.List.{AllByRecursion};
ghost use Rattle.run_pages.specs.Placed.{placed_rows};
ghost use Rattle.run_pages.specs.Pages.{FitsPage, IsPage, rows_of_page};
ghost use Rattle.run_files.specs.Run.{IsRunOn};

use crate::run_pages_tests::worked_run;
use arch_disk::{Disk, Failed, MemDisk};
use arch_types::key::Key;
use arch_types::octets::Octets;
use arch_types::row::{Row, Rows};
use run_files::{MAX_ROWS, Run, RunFault, open_run, write_run};
use run_pages::{PageRows, Positions, are_ordered, read_page};
use std::alloc::{AllocError, Global};
use std::test::*;

pub(crate) const FILE: u32 = 1;

const OTHER_FILE: u32 = 0;

/// How many rows a run has, and how many pages.
type RowsAndPages = (u16, u32);

const RUNS: &[RowsAndPages] = &[(1, 1), (64, 1), (65, 2), (200, 4)];

/// The octets of a run up to a place: the octet at which it is damaged where one of them is another, and whether it may be a run of other
/// rows then.
type Part = (usize, u64, bool);

/// A run whose octets are changed in turn.
#[derive(Clone, Copy)]
struct ChangedRun {
    rows: u16,
    len: usize,
    /// The octets at which each page begins and ends.
    pages: &'static [(usize, usize)],
    parts: &'static [Part],
    /// The places of the octets that are changed.
    places: &'static [(usize, usize)],
}

const CHANGED_RUNS: &[ChangedRun] = &[
    ChangedRun {
        rows: 3,
        len: 148,
        pages: &[(0, 104)],
        parts: &[
            (104, 0, true), // the page: 3 rows of 34 octets
            (148, 0, false), // its entry, and the footer
        ],
        places: &[(0, 148)],
    },
    ChangedRun {
        rows: 65,
        len: 2_282,
        pages: &[(0, 2_178), (2_178, 2_214)],
        parts: &[
            (2_178, 0, true), // the first page: 64 rows of 34 octets
            (2_214, 2_178, true), // the second: one row
            (2_238, 0, false), // the first page's entry
            (2_243, 2_178, false), // the second's first key, which that page hasn't then,
            (2_244, 0, false), // or which isn't above the first page's last
            (2_250, 2_178, false),
            (2_282, 0, false), // the second's place and length, and the footer
        ],
        // Its first row, and all behind the first page.
        places: &[(0, 36), (2_178, 2_282)],
    },
];

/// The number of a call of the disk, and whether it writes: the calls of `begun` and then of writing and opening 65 rows.
type Failing = (u64, bool);

const FAILING: &[Failing] = &[
    (3, true), // the cut
    (4, true), // its sync
    (5, true), // the pages
    (6, true),
    (7, true), // index and footer
    (8, true), // the sync
    (9, true), // the sync of the opening
    (10, false), // the length
    (11, false), // the footer
    (12, false), // the index
    (13, false), // the pages
    (14, false),
];

// They are functions, so that they stand in no goal of their callers.
fn runs() -> &'static [RowsAndPages] {
    RUNS
}

fn changed_runs() -> &'static [ChangedRun] {
    CHANGED_RUNS
}

fn failing() -> &'static [Failing] {
    FAILING
}

// ---- rows

/// The worked row with the packet count `number`, two seconds behind the one before, at the position `position`.
fn one_row(alloc: Global, number: u16, position: u16) -> Option<PageRows>
    ensures { IfSome result (λ page. IsPage (rows_of_page page)) }
{
    let (second, count) = (number.saturating_mul(2).saturating_add(1), number | 0xC000);
    let mut octets = Vec::new(alloc);
    octets.extend_from_slice(&[0, 1, 0, 0, 0, 0, 0, 0]).ok()?;
    octets.extend_from_slice(&position.to_be_bytes()).ok()?;
    octets
        .extend_from_slice(&[0, 0, 0, 0, 0, 0, 0, 0x23, 0x28, 1, 0, 2, 0x08, 0x64])
        .ok()?;
    octets.extend_from_slice(&count.to_be_bytes()).ok()?;
    octets.extend_from_slice(&[0, 7, 0, 0]).ok()?;
    octets.extend_from_slice(&second.to_be_bytes()).ok()?;
    octets.extend_from_slice(&[0x80, 0, 0x2A, 0xFE]).ok()?;
    read_page(alloc, &Octets::from_vec(alloc, octets).ok()?).ok()
}

/// Adds the row at a place of a page to others.
fn add_row(
    rows: &mut Vec<Row>,
    positions: &mut Vec<u64>,
    page: &PageRows,
    place: usize,
) -> Result<(), AllocError>
    requires page { AllByRecursion FitsPage (rows_of_page page.now) }
    requires place { place < length page.now.rows }
    requires beside { length positions.old.items ≡ length rows.old.items }
    requires each { AllByRecursion FitsPage (placed_rows positions.old.items rows.old.items) }
    ensures beside { OnOk result (length positions.new.items ≡ length rows.new.items) }
    ensures each { OnOk result (AllByRecursion FitsPage (placed_rows positions.new.items rows.new.items)) }
{
    rows.push(page.rows.as_slice()[place].copy()?)?;
    positions.push(page.positions.as_slice()[place])?;
    Ok(())
}

/// Adds all rows of a page to others.
fn add_page(
    rows: &mut Vec<Row>,
    positions: &mut Vec<u64>,
    page: &PageRows,
) -> Result<(), AllocError>
    requires page { AllByRecursion FitsPage (rows_of_page page.now) }
    requires beside { length positions.old.items ≡ length rows.old.items }
    requires each { AllByRecursion FitsPage (placed_rows positions.old.items rows.old.items) }
    ensures beside { OnOk result (length positions.new.items ≡ length rows.new.items) }
    ensures each { OnOk result (AllByRecursion FitsPage (placed_rows positions.new.items rows.new.items)) }
{
    for place in 0..page.rows.len() {
        add_row(rows, positions, page, place)?;
    }
    Ok(())
}

/// So many rows, the last of them at position 0.
pub(crate) fn made(alloc: Global, count: u16) -> Option<PageRows>
    ensures { IfSome result (λ rows. AllByRecursion FitsPage (rows_of_page rows)) }
{
    let mut rows = Vec::new(alloc);
    let mut positions = Vec::new(alloc);
    for number in 0..count {
        let page = one_row(alloc, number, count - 1 - number)?;
        add_page(&mut rows, &mut positions, &page).ok()?;
    }
    Some(PageRows {
        rows: Rows::from_vec(rows),
        positions: Positions::from_vec(positions),
    })
}

/// Writes rows as a run into a file. Rows that are none are past the limit.
fn written_into<D: Disk>(
    alloc: Global,
    disk: &mut D,
    file: u32,
    rows: &PageRows,
) -> Result<Run, RunFault>
    requires { AllByRecursion FitsPage (rows_of_page rows.now) }
    ensures { IsTrue D.device.is_transparent → IfOk result (λ run. IsRunOn D.device run disk.new) }
{
    let (rows, positions) = (rows.rows.as_slice(), rows.positions.as_slice());
    let Some(first) = rows.first() else {
        return Err(RunFault::Limit);
    };
    if rows.len() as u64 > MAX_ROWS || !are_ordered(rows, first.table, first.key, None) {
        return Err(RunFault::Limit);
    }
    write_run(alloc, disk, file, rows, positions)
}

/// The same of the file of these tests.
pub(crate) fn written<D: Disk>(
    alloc: Global,
    disk: &mut D,
    rows: &PageRows,
) -> Result<Run, RunFault>
    requires { AllByRecursion FitsPage (rows_of_page rows.now) }
    ensures { IsTrue D.device.is_transparent → IfOk result (λ run. IsRunOn D.device run disk.new) }
{
    written_into(alloc, disk, FILE, rows)
}

// ---- read back

/// Whether a page has the rows of a list from a place on.
fn has_rows_from(page: &PageRows, rows: &PageRows, from: usize) -> bool {
    let (these, positions) = (page.rows.as_slice(), page.positions.as_slice());
    for i in 0..these.len() {
        let Some(row) = rows.rows.as_slice().get(from.saturating_add(i)) else {
            return false;
        };
        if these[i].key != row.key || these[i].packet.as_slice() != row.packet.as_slice() {
            return false;
        }
        if rows.positions.as_slice().get(from.saturating_add(i)) != positions.get(i) {
            return false;
        }
    }
    true
}

/// Whether the pages of a run have the rows of a list, 64 each but the last.
fn has_rows<D: Disk>(alloc: Global, disk: &mut D, run: &Run, rows: &PageRows) -> bool
    requires { IsTrue D.device.is_transparent → IsRunOn D.device run.now disk.old }
    ensures { IsTrue D.device.is_transparent → IsRunOn D.device run.now disk.new }
{
    let mut from: usize = 0;
    for page in 0..run.page_count() {
        let Ok(held) = run.rows_of(alloc, disk, page) else {
            return false;
        };
        if !has_rows_from(&held, rows, from) {
            return false;
        }
        from = from.saturating_add(held.rows.len());
    }
    from == rows.rows.len()
}

/// Whether a run gives this position for a key.
fn has_position<D: Disk>(
    alloc: Global,
    disk: &mut D,
    run: &Run,
    key: Key,
    position: Option<u64>,
) -> bool
    requires { IsTrue D.device.is_transparent → IsRunOn D.device run.now disk.old }
    ensures { IsTrue D.device.is_transparent → IsRunOn D.device run.now disk.new }
{
    run.position(alloc, disk, key).ok() == Some(position)
}

/// Whether a run has a key at a position, and no key a millisecond beside it.
fn has_key<D: Disk>(alloc: Global, disk: &mut D, run: &Run, key: Key, position: u64) -> bool
    requires { IsTrue D.device.is_transparent → IsRunOn D.device run.now disk.old }
    ensures { IsTrue D.device.is_transparent → IsRunOn D.device run.now disk.new }
{
    let before = Key {
        time: key.time.saturating_sub(1),
        seq: key.seq,
    };
    let behind = Key {
        time: key.time.saturating_add(1),
        seq: key.seq,
    };
    let is_there = has_position(alloc, disk, run, key, Some(position));
    let is_none_before = has_position(alloc, disk, run, before, None);
    let is_none_behind = has_position(alloc, disk, run, behind, None);
    is_there && is_none_before && is_none_behind
}

/// Whether a run has the key of each row at its position.
fn has_keys<D: Disk>(alloc: Global, disk: &mut D, run: &Run, rows: &PageRows) -> bool
    requires { IsTrue D.device.is_transparent → IsRunOn D.device run.now disk.old }
{
    for i in 0..rows.rows.len() {
        let key = rows.rows.as_slice()[i].key;
        if !has_key(alloc, disk, run, key, rows.positions.as_slice()[i]) {
            return false;
        }
    }
    true
}

/// Whether a run has the rows of a list, page by page and by their keys.
fn has_all<D: Disk>(alloc: Global, disk: &mut D, run: &Run, rows: &PageRows) -> bool
    requires { IsTrue D.device.is_transparent → IsRunOn D.device run.now disk.old }
{
    let by_page = has_rows(alloc, disk, run, rows);
    by_page && has_keys(alloc, disk, run, rows)
}

/// Whether rows are written as a run of so many pages, and stand in what is opened.
fn is_read_back<D: Disk>(alloc: Global, disk: &mut D, rows: &PageRows, pages: u32) -> bool
    requires { AllByRecursion FitsPage (rows_of_page rows.now) }
{
    let Ok(written) = written(alloc, disk, rows) else {
        return false;
    };
    let Ok(opened) = open_run(alloc, disk, FILE) else {
        return false;
    };
    written.page_count() == pages
        && opened.page_count() == pages
        && written.last() == opened.last()
        && opened.sealed_row_count() == rows.rows.len() as u64
        && has_all(alloc, disk, &opened, rows)
}

/// The rows of the first run that isn't read back.
fn lost_run(alloc: Global, runs: &[RowsAndPages]) -> Option<u16> {
    for (count, pages) in runs {
        let Some(rows) = made(alloc, *count) else {
            return Some(*count);
        };
        if !is_read_back(alloc, &mut MemDisk::new(alloc), &rows, *pages) {
            return Some(*count);
        }
    }
    None
}

#[test]
fn reads_back(rt: HostRuntime) {
    assert_eq!(rt; lost_run(rt.alloc(), runs()), None);
}

// ---- octets

/// The octets of a file.
fn content<D: Disk>(alloc: Global, disk: &mut D, file: u32) -> Option<Vec<u8>> {
    let len = disk.len(file).ok()?;
    let mut octets = vec![in alloc; 0u8; usize::try_from(len).ok()?].ok()?;
    disk.read_at(file, 0, &mut octets).ok()?;
    Some(octets)
}

/// Whether a file has these octets.
fn has_content<D: Disk>(alloc: Global, disk: &mut D, file: u32, want: &[u8]) -> bool {
    match content(alloc, disk, file) {
        Some(octets) => octets.as_slice() == want,
        None => false,
    }
}

/// The octets of the run that rows are written as, where they can be.
fn octets_of<D: Disk>(alloc: Global, disk: &mut D, rows: &PageRows) -> Option<Vec<u8>>
    requires { AllByRecursion FitsPage (rows_of_page rows.now) }
{
    written(alloc, disk, rows).ok()?;
    content(alloc, disk, FILE)
}

/// The octets of a run of so many rows.
fn run_of(alloc: Global, count: u16) -> Option<Vec<u8>> {
    let rows = made(alloc, count)?;
    octets_of(alloc, &mut MemDisk::new(alloc), &rows)
}

/// Whether the run of one row is the worked one.
fn is_worked_run(alloc: Global) -> bool {
    match (run_of(alloc, 1), worked_run(alloc)) {
        (Some(octets), Some(want)) => octets == want,
        _ => false,
    }
}

#[test]
fn worked_octets(rt: HostRuntime) {
    assert!(rt; is_worked_run(rt.alloc()));
}

/// What is told of a place of a run.
fn part_at(parts: &[Part], place: usize) -> Option<(u64, bool)> {
    for (end, at, may_be_read) in parts {
        if place < *end {
            return Some((*at, *may_be_read));
        }
    }
    None
}

/// The page that octets spell between two places.
fn page_between(alloc: Global, octets: &[u8], from: usize, to: usize) -> Option<PageRows>
    ensures { IfSome result (λ page. IsPage (rows_of_page page)) }
{
    let octets = octets.get(from..to)?.to_vec(alloc).ok()?;
    read_page(alloc, &Octets::from_vec(alloc, octets).ok()?).ok()
}

/// The rows that octets spell, page by page.
fn spelled_rows(alloc: Global, octets: &[u8], pages: &[(usize, usize)]) -> Option<PageRows>
    ensures { IfSome result (λ rows. AllByRecursion FitsPage (rows_of_page rows)) }
{
    let mut rows = Vec::new(alloc);
    let mut positions = Vec::new(alloc);
    for (from, to) in pages {
        let page = page_between(alloc, octets, *from, *to)?;
        add_page(&mut rows, &mut positions, &page).ok()?;
    }
    Some(PageRows {
        rows: Rows::from_vec(rows),
        positions: Positions::from_vec(positions),
    })
}

/// Whether a run has the rows that its octets spell, and these give the same octets when they are written again.
fn is_written_again<D: Disk>(
    alloc: Global,
    disk: &mut D,
    run: &Run,
    octets: &[u8],
    pages: &[(usize, usize)],
) -> bool
    requires { IsTrue D.device.is_transparent → IsRunOn D.device run.now disk.old }
{
    let Some(rows) = spelled_rows(alloc, octets, pages) else {
        return false;
    };
    has_rows(alloc, disk, run, &rows)
        && written_into(alloc, disk, OTHER_FILE, &rows).is_ok()
        && has_content(alloc, disk, OTHER_FILE, octets)
}

/// Whether a file of these octets is refused as is told, or a run of just as many other rows.
fn is_told<D: Disk>(
    alloc: Global,
    disk: &mut D,
    octets: &[u8],
    changed_run: &ChangedRun,
    part: (u64, bool),
) -> bool {
    let (at, may_be_read) = part;
    if disk.write_at(FILE, 0, octets).is_err() {
        return false;
    }
    match open_run(alloc, disk, FILE) {
        Ok(run) => {
            may_be_read
                && run.sealed_row_count() == u64::from(changed_run.rows)
                && is_written_again(alloc, disk, &run, octets, changed_run.pages)
        }
        Err(fault) => fault == RunFault::Damaged { file: FILE, at },
    }
}

/// Whether the octets of a run with another one at a place are told so.
fn is_change_told(alloc: Global, octets: &[u8], changed_run: &ChangedRun, place: usize) -> bool {
    let (Some(part), Ok(mut changed)) = (part_at(changed_run.parts, place), octets.to_vec(alloc))
    else {
        return false;
    };
    if place < changed.len() {
        changed[place] ^= 1;
    }
    is_told(alloc, &mut MemDisk::new(alloc), &changed, changed_run, part)
}

/// The first place of a range whose change isn't told.
fn untold_between(
    alloc: Global,
    octets: &[u8],
    changed_run: &ChangedRun,
    from: usize,
    to: usize,
) -> Option<usize> {
    for place in from..to {
        if !is_change_told(alloc, octets, changed_run, place) {
            return Some(place);
        }
    }
    None
}

/// The first place of a run whose change isn't told, or its end where it has another length.
fn untold_of(alloc: Global, octets: &[u8], changed_run: &ChangedRun) -> Option<usize> {
    if octets.len() != changed_run.len {
        return Some(changed_run.len);
    }
    for (from, to) in changed_run.places {
        if let Some(place) = untold_between(alloc, octets, changed_run, *from, *to) {
            return Some(place);
        }
    }
    None
}

/// The rows of the first run that has such a place.
fn untold_run(alloc: Global, all: &[ChangedRun]) -> Option<u16> {
    for changed_run in all {
        let is_each_told = match run_of(alloc, changed_run.rows) {
            Some(octets) => untold_of(alloc, &octets, changed_run).is_none(),
            None => false,
        };
        if !is_each_told {
            return Some(changed_run.rows);
        }
    }
    None
}

#[test]
fn refuses_changed_octets(rt: HostRuntime) {
    assert_eq!(rt; untold_run(rt.alloc(), changed_runs()), None);
}

// ---- calls that fail

/// Makes a file beside the run's.
fn begun<D: Disk>(disk: &mut D) -> Result<(), Failed> {
    disk.write_at(OTHER_FILE, 0, &[0xAA, 0x55])?;
    disk.sync(OTHER_FILE)
}

/// Writes rows as a run and opens it.
fn written_and_opened<D: Disk>(
    alloc: Global,
    disk: &mut D,
    rows: &PageRows,
) -> Result<Run, RunFault>
    requires { AllByRecursion FitsPage (rows_of_page rows.now) }
{
    written(alloc, disk, rows)?;
    open_run(alloc, disk, FILE)
}

/// Whether a call of the disk fails so, leaves the other file as it was, and all goes well when it is tried again.
fn fails_so<D: Disk>(
    alloc: Global,
    disk: &mut D,
    rows: &PageRows,
    octets: &[u8],
    wrote: bool,
) -> bool
    requires { AllByRecursion FitsPage (rows_of_page rows.now) }
{
    if begun(disk).is_err() {
        return false;
    }
    let is_refused = match written_and_opened(alloc, disk, rows) {
        Ok(_) => false,
        Err(fault) => fault == RunFault::DiskFault { wrote },
    };
    is_refused
        && has_content(alloc, disk, OTHER_FILE, &[0xAA, 0x55])
        && written_and_opened(alloc, disk, rows).is_ok()
        && has_content(alloc, disk, FILE, octets)
}

/// How many of these calls fail so, from the first on.
fn failures(alloc: Global, rows: &PageRows, octets: &[u8], failing: &[Failing]) -> usize
    requires { AllByRecursion FitsPage (rows_of_page rows.now) }
{
    for (place, (call, wrote)) in failing.iter().enumerate() {
        let Ok(calls) = Vec::from_slice(alloc, &[*call]) else {
            return place;
        };
        if !fails_so(
            alloc,
            &mut MemDisk::failing(alloc, calls),
            rows,
            octets,
            *wrote,
        ) {
            return place;
        }
    }
    failing.len()
}

/// The same of the calls of a run of 65 rows.
fn failures_told(alloc: Global) -> usize {
    let Some(rows) = made(alloc, 65) else {
        return 0;
    };
    match run_of(alloc, 65) {
        Some(octets) => failures(alloc, &rows, &octets, failing()),
        None => 0,
    }
}

#[test]
fn each_call_fails(rt: HostRuntime) {
    assert_eq!(rt; failures_told(rt.alloc()), 12);
}
