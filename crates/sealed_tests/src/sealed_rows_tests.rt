//! Rows of runs as a source: ranges, partitions, fronts and positions over runs that overlap, reads that fail, and octets that are others than
//! those written.
//!
//! The disk is opaque, so that no clause speaks of what it holds: what is read is compared with what was written.

ghost use Rattle.std.specs.Prelude.{◌≡◌, ◌<◌, length, IfSome, OnOk};
ghost use Rattle.std.specs.List.{AllByRecursion};
ghost use Rattle.run_pages.specs.Placed.{placed_rows};
ghost use Rattle.run_pages.specs.Pages.{FitsPage, IsPage, rows_of_page};

use arch_disk::{Disk, MemDisk, OpaqueDisk};
use arch_types::key::Key;
use arch_types::octets::Octets;
use arch_types::row::{Row, Rows};
use arch_types::row_fault::RowFault;
use joined_rows::joined::JoinedRows;
use partitions::partition::Partition;
use replay_merge::row_source::RowSource;
use run_files::{MAX_ROWS, Run, RunFault, write_run};
use run_pages::{PageRows, Positions, are_ordered, read_page};
use sealed_rows::sealed::SealedRows;
use std::alloc::{AllocError, Global};
use std::test::*;

/// A run of these tests: its table, the first of its rows' numbers, by how much these rise, how many there are, and the position of the first.
/// A row with the number n is of the second 1 + 2 n of 1970, and of the packet name 2 where n is even, else 3.
type RunRows = (u8, u16, u16, u16, u16);

/// Even numbers.
const EVEN: RunRows = (0, 0, 2, 100, 0);

/// Odd ones, which overlap the even ones from 100 on.
const ODD: RunRows = (0, 101, 2, 100, 200);

/// Some of another table.
const OTHER: RunRows = (1, 0, 1, 65, 100);

/// Even ones of the first again, at other positions: over a disk that tells nothing a key may come twice.
const AGAIN: RunRows = (0, 100, 2, 10, 300);

const RUNS: &[RunRows] = &[EVEN, ODD, OTHER];

/// The runs of two sources, which have the rows of `RUNS` together.
type TwoSources = (&'static [RunRows], &'static [RunRows]);

const TWO_SOURCES: &[TwoSources] = &[
    (&[EVEN], &[ODD, OTHER]),
    (&[], &[EVEN, ODD, OTHER]),
    (&[EVEN], &[ODD, OTHER, AGAIN]), // keys of both
    (&[EVEN, AGAIN], &[ODD, OTHER]), // keys of two runs of one
];

/// A range of times in seconds, a front, and how many rows of table 0 it has.
type Range = (i64, i64, u64, usize);

const RANGES: &[Range] = &[
    (0, 1_000, 1_000, 200), // all
    (0, 1_000, 100, 100), // those of the first run
    (0, 1_000, 50, 50), // those of its first half
    (0, 1_000, 250, 150), // and half of those of the second
    (1, 2, 1_000, 1), // the first row
    (1, 1, 1_000, 0),
    (5, 9, 1_000, 1), // 5.5, and not 9.5
    (201, 205, 1_000, 2), // one of each run
    (600, 1_000, 1_000, 0),
];

/// Days and packet names, and how many rows of table 0 their partitions have.
const PARTITIONS: &[(i64, u16, usize)] = &[(0, 2, 100), (0, 3, 100), (0, 1, 0), (1, 2, 0)];

/// A call of a source.
#[derive(Clone, Copy)]
enum Call {
    /// Of one partition.
    Rows,
    /// Of two partitions, in five seconds.
    RowsBetween,
    /// Of all rows of table 0.
    Range,
    /// Of the first row of the second run.
    Position,
}

/// A call, and how many reads it makes over `RUNS`.
const READS: &[(Call, u64)] = &[
    (Call::Rows, 4),
    (Call::RowsBetween, 2),
    (Call::Range, 4),
    (Call::Position, 2),
];

/// A call, the file of a run, a place of it, the octet that is put there behind the run's back, and the octet at which the call finds it damaged,
/// if it does. A page of 64 rows has 2,114 octets.
type Touched = (Call, u32, u64, u8, Option<u64>);

const TOUCHED: &[Touched] = &[
    (Call::Rows, 1, 2_115, 0, Some(2_114)),
    (Call::RowsBetween, 1, 1, 63, Some(0)),
    (Call::RowsBetween, 1, 2_115, 0, None), // a page without rows of the range
    (Call::Range, 0, 1, 63, Some(0)),
    (Call::Range, 2, 1, 63, None), // a run of another table
    (Call::Position, 1, 1, 63, Some(0)),
];

/// The calls of the first and of the second of two sources' disks that fail, and whether a call of them as one does. Six calls write the first's
/// one run, twelve the second's two.
type JoinedCall = (&'static [u64], &'static [u64], Call, bool);

const JOINED_CALLS: &[JoinedCall] = &[
    (&[7], &[], Call::Rows, true),
    (&[], &[13], Call::Rows, true),
    (&[7], &[], Call::RowsBetween, true),
    (&[], &[13], Call::RowsBetween, true),
    (&[7], &[], Call::Range, true),
    (&[], &[13], Call::Range, true),
    (&[7], &[], Call::Position, false), // the second is asked first, and has it
    (&[], &[13], Call::Position, true),
];

// They are functions, so that they stand in no goal of their callers.
fn runs() -> &'static [RunRows] {
    RUNS
}

fn two_sources() -> &'static [TwoSources] {
    TWO_SOURCES
}

fn ranges() -> &'static [Range] {
    RANGES
}

fn partitions() -> &'static [(i64, u16, usize)] {
    PARTITIONS
}

fn reads() -> &'static [(Call, u64)] {
    READS
}

fn touched() -> &'static [Touched] {
    TOUCHED
}

fn joined_calls() -> &'static [JoinedCall] {
    JOINED_CALLS
}

// ---- rows

/// The row of a table with a number at a position.
fn one_row(alloc: Global, table: u8, number: u16, position: u16) -> Option<PageRows>
    ensures { IfSome result (λ page. IsPage (rows_of_page page)) }
{
    let (second, count) = (number.saturating_mul(2).saturating_add(1), number | 0xC000);
    let mut octets = Vec::new(alloc);
    octets.extend_from_slice(&[0, 1, 0, 0, 0, 0, 0, 0]).ok()?;
    octets.extend_from_slice(&position.to_be_bytes()).ok()?;
    octets
        .extend_from_slice(&[table, 0, 0, 0, 0, 0, 0, 0x23, 0x28, 1])
        .ok()?;
    octets
        .extend_from_slice(&(number % 2 + 2).to_be_bytes())
        .ok()?;
    octets.extend_from_slice(&[0x08, 0x64]).ok()?;
    octets.extend_from_slice(&count.to_be_bytes()).ok()?;
    octets.extend_from_slice(&[0, 6, 0, 0]).ok()?;
    octets.extend_from_slice(&second.to_be_bytes()).ok()?;
    octets.extend_from_slice(&[0x80, 0, 0x2A]).ok()?;
    read_page(alloc, &Octets::from_vec(alloc, octets).ok()?).ok()
}

/// Adds the row at a place of a page to others.
fn add_row(
    rows: &mut Vec<Row>,
    positions: &mut Vec<u64>,
    page: &PageRows,
    place: usize,
) -> Result<(), AllocError>
    requires page { AllByRecursion FitsPage (rows_of_page page.now) }
    requires place { place < length page.now.rows }
    requires beside { length positions.old.items ≡ length rows.old.items }
    requires each { AllByRecursion FitsPage (placed_rows positions.old.items rows.old.items) }
    ensures beside { OnOk result (length positions.new.items ≡ length rows.new.items) }
    ensures each { OnOk result (AllByRecursion FitsPage (placed_rows positions.new.items rows.new.items)) }
{
    rows.push(page.rows.as_slice()[place].copy()?)?;
    positions.push(page.positions.as_slice()[place])?;
    Ok(())
}

/// Adds all rows of a page to others.
fn add_page(
    rows: &mut Vec<Row>,
    positions: &mut Vec<u64>,
    page: &PageRows,
) -> Result<(), AllocError>
    requires page { AllByRecursion FitsPage (rows_of_page page.now) }
    requires beside { length positions.old.items ≡ length rows.old.items }
    requires each { AllByRecursion FitsPage (placed_rows positions.old.items rows.old.items) }
    ensures beside { OnOk result (length positions.new.items ≡ length rows.new.items) }
    ensures each { OnOk result (AllByRecursion FitsPage (placed_rows positions.new.items rows.new.items)) }
{
    for place in 0..page.rows.len() {
        add_row(rows, positions, page, place)?;
    }
    Ok(())
}

/// The rows of a run.
fn made(alloc: Global, rows_of: RunRows) -> Option<PageRows>
    ensures { IfSome result (λ rows. AllByRecursion FitsPage (rows_of_page rows)) }
{
    let (table, first, step, count, position) = rows_of;
    let mut rows = Vec::new(alloc);
    let mut positions = Vec::new(alloc);
    for number in 0..count {
        let own = first.saturating_add(step.saturating_mul(number));
        let page = one_row(alloc, table, own, position.saturating_add(number))?;
        add_page(&mut rows, &mut positions, &page).ok()?;
    }
    Some(PageRows {
        rows: Rows::from_vec(rows),
        positions: Positions::from_vec(positions),
    })
}

/// Writes rows as a run into a file. Rows that are none are past the limit.
fn written<D: Disk>(
    alloc: Global,
    disk: &mut D,
    file: u32,
    rows: &PageRows,
) -> Result<Run, RunFault>
    requires { AllByRecursion FitsPage (rows_of_page rows.now) }
{
    let (rows, positions) = (rows.rows.as_slice(), rows.positions.as_slice());
    let Some(first) = rows.first() else {
        return Err(RunFault::Limit);
    };
    if rows.len() as u64 > MAX_ROWS || !are_ordered(rows, first.table, first.key, None) {
        return Err(RunFault::Limit);
    }
    write_run(alloc, disk, file, rows, positions)
}

/// Writes the runs, each into a file of its own.
fn written_runs(alloc: Global, disk: &mut OpaqueDisk, all: &[RunRows]) -> Option<Vec<Run>> {
    let mut runs = Vec::new(alloc);
    let mut file: u32 = 0;
    for rows_of in all {
        let rows = made(alloc, *rows_of)?;
        runs.push(written(alloc, disk, file, &rows).ok()?).ok()?;
        file = file.saturating_add(1);
    }
    Some(runs)
}

/// The key of the row with a number.
fn key_of(number: u16) -> Key {
    Key {
        time: i64::from(number) * 2_000 + 1_500,
        seq: 0x0864_C000 | u32::from(number),
    }
}

// ---- read back

/// Whether the keys of rows rise.
fn do_rise(rows: &[Row]) -> bool {
    for i in 1..rows.len() {
        if rows[i].key <= rows[i - 1].key {
            return false;
        }
    }
    true
}

/// How many rows a source has of a range of table 0, in seconds, where their keys rise.
fn count_of<R: RowSource>(alloc: Global, source: &mut R, range: Range) -> Option<usize> {
    let (from, to, front, _) = range;
    let rows = source
        .range(
            alloc,
            0,
            from.saturating_mul(1_000),
            to.saturating_mul(1_000),
            front,
        )
        .ok()?;
    if !do_rise(rows.as_slice()) {
        return None;
    }
    Some(rows.len())
}

/// The place of the first range that isn't read so.
fn range_lost<R: RowSource>(alloc: Global, source: &mut R, ranges: &[Range]) -> Option<usize> {
    for (place, range) in ranges.iter().enumerate() {
        if count_of(alloc, source, *range) != Some(range.3) {
            return Some(place);
        }
    }
    None
}

/// Whether a source gives this position for the row of a table with a number.
fn has_position<R: RowSource>(
    alloc: Global,
    source: &mut R,
    table: u8,
    number: u16,
    position: Option<u64>,
) -> bool {
    source.position(alloc, table, key_of(number)).ok() == Some(position)
}

/// Whether a source gives these positions: of the ends of each run, of none before one or between two of its rows, and of the other table.
fn has_positions<R: RowSource>(alloc: Global, source: &mut R) -> bool {
    has_position(alloc, source, 0, 0, Some(0))
        && has_position(alloc, source, 0, 198, Some(99))
        && has_position(alloc, source, 0, 101, Some(200))
        && has_position(alloc, source, 0, 299, Some(299))
        && has_position(alloc, source, 0, 99, None)
        && has_position(alloc, source, 0, 300, None)
        && has_position(alloc, source, 1, 64, Some(164))
        && has_position(alloc, source, 2, 0, None)
}

/// How many rows of table 0 a source has of a partition, where their keys rise.
fn count_in<R: RowSource>(alloc: Global, source: &mut R, partition: &Partition) -> Option<usize> {
    let rows = source.rows(alloc, 0, partition, 1_000).ok()?;
    if !do_rise(rows.as_slice()) {
        return None;
    }
    Some(rows.len())
}

/// The place of the first partition that isn't read so.
fn partition_lost<R: RowSource>(
    alloc: Global,
    source: &mut R,
    all: &[(i64, u16, usize)],
) -> Option<usize> {
    for (place, (day, pname, want)) in all.iter().enumerate() {
        let partition = Partition {
            day: *day,
            pname: *pname,
        };
        if count_in(alloc, source, &partition) != Some(*want) {
            return Some(place);
        }
    }
    None
}

/// The rows of the numbers 100, 101 and 102 that are in partitions of the packet name 2.
fn rows_of_name<R: RowSource>(alloc: Global, source: &mut R) -> Result<Rows, RowFault> {
    let its = Partition { day: 0, pname: 2 };
    let other = Partition { day: 1, pname: 2 };
    source.rows_between(alloc, 0, &[its, other], 201_000, 206_000, 1_000)
}

/// Whether a source has each partition, and two rows of those.
fn has_partitions<R: RowSource>(alloc: Global, source: &mut R) -> bool {
    let Ok(rows) = rows_of_name(alloc, source) else {
        return false;
    };
    rows.len() == 2 && partition_lost(alloc, source, partitions()).is_none()
}

/// Whether a source has all that it should.
fn has_all<R: RowSource>(alloc: Global, source: &mut R) -> bool {
    range_lost(alloc, source, ranges()).is_none()
        && has_positions(alloc, source)
        && has_partitions(alloc, source)
}

/// Whether the runs of a disk are read as a source.
fn are_read(alloc: Global) -> bool {
    let mut disk = OpaqueDisk::new(MemDisk::new(alloc));
    match written_runs(alloc, &mut disk, runs()) {
        Some(runs) => has_all(alloc, &mut SealedRows::new(&runs, &mut disk)),
        None => false,
    }
}

#[test]
fn runs_are_read(rt: HostRuntime) {
    assert!(rt; are_read(rt.alloc()));
}

/// The same of runs that are two sources.
fn are_joined(alloc: Global, sources: &TwoSources) -> bool {
    let mut disk = OpaqueDisk::new(MemDisk::new(alloc));
    let mut other = OpaqueDisk::new(MemDisk::new(alloc));
    let (Some(first), Some(others)) = (
        written_runs(alloc, &mut disk, sources.0),
        written_runs(alloc, &mut other, sources.1),
    ) else {
        return false;
    };
    let mut before = SealedRows::new(&first, &mut disk);
    let mut behind = SealedRows::new(&others, &mut other);
    has_all(alloc, &mut JoinedRows::new(&mut before, &mut behind))
}

/// The place of the first two sources that aren't read so.
fn other_joined(alloc: Global, all: &[TwoSources]) -> Option<usize> {
    for (place, sources) in all.iter().enumerate() {
        if !are_joined(alloc, sources) {
            return Some(place);
        }
    }
    None
}

#[test]
fn two_sources_are_read(rt: HostRuntime) {
    assert_eq!(rt; other_joined(rt.alloc(), two_sources()), None);
}

// ---- reads that fail

/// How many calls write the runs: a cut and two syncs each, a write a page, and one of the end.
const CALLS: u64 = 18;

/// A disk whose calls of these numbers fail.
fn failing(alloc: Global, calls: &[u64]) -> Option<OpaqueDisk> {
    let calls = Vec::from_slice(alloc, calls).ok()?;
    Some(OpaqueDisk::new(MemDisk::failing(alloc, calls)))
}

/// Why a source refuses a call, if it does.
fn fault_of<R: RowSource>(alloc: Global, source: &mut R, call: Call) -> Option<RowFault> {
    match call {
        Call::Rows => source
            .rows(alloc, 0, &Partition { day: 0, pname: 2 }, 1_000)
            .err(),
        Call::RowsBetween => rows_of_name(alloc, source).err(),
        Call::Range => source.range(alloc, 0, 0, 1_000_000, 1_000).err(),
        Call::Position => source.position(alloc, 0, key_of(101)).err(),
    }
}

/// Whether a call is refused where the read of a number fails, and goes well when it is made again.
fn fails_at(alloc: Global, call: Call, read: u64) -> bool {
    let Some(mut disk) = failing(alloc, &[CALLS.saturating_add(read)]) else {
        return false;
    };
    let Some(runs) = written_runs(alloc, &mut disk, runs()) else {
        return false;
    };
    let mut source = SealedRows::new(&runs, &mut disk);
    let fault = fault_of(alloc, &mut source, call);
    let is_read = has_all(alloc, &mut source);
    fault == Some(RowFault::DiskFault) && is_read && source.into_disk().faults() == 1
}

/// How many reads of a call fail so, from the first on.
fn failures_of(alloc: Global, call: Call) -> u64 {
    for read in 0..6u64 {
        if !fails_at(alloc, call, read.saturating_add(1)) {
            return read;
        }
    }
    6
}

/// The place of the first call of which more or fewer do.
fn other_failures(alloc: Global, all: &[(Call, u64)]) -> Option<usize> {
    for (place, (call, reads)) in all.iter().enumerate() {
        if failures_of(alloc, *call) != *reads {
            return Some(place);
        }
    }
    None
}

#[test]
fn each_read_fails(rt: HostRuntime) {
    assert_eq!(rt; other_failures(rt.alloc(), reads()), None);
}

/// Whether a call of two sources as one is refused where a call of either disk fails, and else is not.
fn is_joined_so(alloc: Global, joined_call: &JoinedCall) -> bool {
    let (first, second, call, is_refused) = *joined_call;
    let (Some(mut disk), Some(mut other)) = (failing(alloc, first), failing(alloc, second)) else {
        return false;
    };
    let (Some(first), Some(others)) = (
        written_runs(alloc, &mut disk, &[EVEN]),
        written_runs(alloc, &mut other, &[ODD, OTHER]),
    ) else {
        return false;
    };
    let mut before = SealedRows::new(&first, &mut disk);
    let mut behind = SealedRows::new(&others, &mut other);
    let fault = fault_of(alloc, &mut JoinedRows::new(&mut before, &mut behind), call);
    fault == is_refused.then_some(RowFault::DiskFault)
}

/// The place of the first that goes otherwise.
fn other_joined_call(alloc: Global, all: &[JoinedCall]) -> Option<usize> {
    for (place, joined_call) in all.iter().enumerate() {
        if !is_joined_so(alloc, joined_call) {
            return Some(place);
        }
    }
    None
}

#[test]
fn reads_of_two_sources_fail(rt: HostRuntime) {
    assert_eq!(rt; other_joined_call(rt.alloc(), joined_calls()), None);
}

// ---- octets that are others than those written

/// Whether a call finds damage just where it should.
fn is_told(alloc: Global, touched: &Touched) -> bool {
    let (call, file, place, octet, at) = *touched;
    let mut disk = OpaqueDisk::new(MemDisk::new(alloc));
    let Some(runs) = written_runs(alloc, &mut disk, runs()) else {
        return false;
    };
    if disk.write_at(file, place, &[octet]).is_err() {
        return false;
    }
    let want = match at {
        Some(at) => Some(RowFault::Damaged { file, at }),
        None => None,
    };
    fault_of(alloc, &mut SealedRows::new(&runs, &mut disk), call) == want
}

/// The place of the first octet of which it is told otherwise.
fn other_told(alloc: Global, all: &[Touched]) -> Option<usize> {
    for (place, touched) in all.iter().enumerate() {
        if !is_told(alloc, touched) {
            return Some(place);
        }
    }
    None
}

#[test]
fn damage_is_found(rt: HostRuntime) {
    assert_eq!(rt; other_told(rt.alloc(), touched()), None);
}
