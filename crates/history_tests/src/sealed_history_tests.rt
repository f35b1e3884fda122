//! A log over rows that stand in a run: each call beside what all rows are, written out by hand.

ghost use Rattle.std.specs.Prelude.{◌≡◌, ◌<◌, ◌≤◌, IsTrue, IfOk, IfSome, length};
ghost use Rattle.std.specs.List.{AllByRecursion};

use crate::parts::{none_other, row};
use arch_types::key::Key;
use arch_types::row::{Row, Rows};
use arch_types::spans::Span;
use archive_history::row_limit::RowLimit;
use intervals::Exponent;
use partitions::bounds::Bounds;
use partitions::partition::Partition;
use run_pages::{PageRows, Positions};
use sealed_history::SealedHistory;
use sealed_sums::sums::SealedSums;
use std::alloc::{AllocError, Global};
use std::snapshot::Snapshot;
use std::test::Fail;

/// A row of the first table: its time, its packet name, and its position in the history.
type PlacedRow = (i64, u16, u64);

/// The rows of a run, in the order of their keys.
const RUN: &[PlacedRow] = &[(10, 1, 3), (20, 1, 0), (60_005, 2, 2), (5_000_000, 1, 1)];

/// The rows of the log.
const LOG: &[PlacedRow] = &[(15, 1, 4), (60_010, 2, 5), (90_000_000, 3, 6)];

/// A range of times, a front, and the times of the log's rows.
type Range = (i64, i64, u64, &'static [i64]);

const RANGES: &[Range] = &[
    (0, 100_000_000, 7, &[15, 60_010, 90_000_000]),
    (0, 100_000_000, 6, &[15, 60_010]),
    (0, 100_000_000, 5, &[15]),
    (0, 100_000_000, 4, &[]), // the front is the log's first position
    (0, 100_000_000, 1, &[]), // and it is below that
    (16, 60_011, 7, &[60_010]),
    (16, 60_010, 7, &[]),
];

/// A time, and the position of the log's row that has it.
const POSITIONS: &[(i64, Option<u64>)] = &[
    (15, Some(4)),
    (60_010, Some(5)),
    (90_000_000, Some(6)),
    (10, None), // a row of the run
    (16, None),
];

/// A packet name, and its records: those of the run and of the log joined.
type NameSpans = (u16, &'static [(i64, i64, u64)]);

const SPANS: &[NameSpans] = &[
    (1, &[(10, 20, 3), (5_000_000, 5_000_000, 1)]),
    (2, &[(60_005, 60_010, 2)]),
    (3, &[(90_000_000, 90_000_000, 1)]),
    (4, &[]),
];

/// A range of times, and the partitions that may have rows of it.
type Parts = (i64, i64, &'static [(i64, u16)]);

const PARTS: &[Parts] = &[
    (0, 100_000_000, &[(0, 1), (0, 2), (1, 3)]),
    (0, 86_400_000, &[(0, 1), (0, 2)]),
    (86_400_000, 100_000_000, &[(1, 3)]),
];

// They are functions, so that they stand in no goal of their callers.
fn run() -> &'static [PlacedRow] {
    RUN
}

fn log() -> &'static [PlacedRow] {
    LOG
}

fn ranges() -> &'static [Range] {
    RANGES
}

fn positions() -> &'static [(i64, Option<u64>)] {
    POSITIONS
}

fn all_spans() -> &'static [NameSpans] {
    SPANS
}

fn all_parts() -> &'static [Parts] {
    PARTS
}

/// The key of a time.
fn key(time: i64) -> Key {
    Key { time, seq: 1 }
}

fn rows_of(alloc: Global, rows: &[PlacedRow]) -> Result<Rows, AllocError> {
    let mut all = Rows::new(alloc);
    for (time, pname, _) in rows {
        all.push(row(alloc, 0, key(*time), 9_000_000_000, *pname)?)?;
    }
    Ok(all)
}

fn positions_of(alloc: Global, rows: &[PlacedRow]) -> Result<Positions, AllocError> {
    let mut all = Positions::new(alloc);
    for (_, _, position) in rows {
        all.push(*position)?;
    }
    Ok(all)
}

/// A page of these rows. None where it has more than a page's.
fn page_of(alloc: Global, rows: &[PlacedRow]) -> Result<Option<PageRows>, AllocError>
    ensures few { IfOk result (λ page. IfSome page (λ page. length page.rows ≤ 64)) }
{
    let positions = positions_of(alloc, rows)?;
    let rows = rows_of(alloc, rows)?;
    if rows.len() != positions.len() || rows.len() > 64 {
        return Ok(None);
    }
    Ok(Some(PageRows { rows, positions }))
}

/// A log of two tables over the rows of a page, from a position on.
#[tactic(auto, using(run_pages::proofs::Beside::rows_back))]
fn over(alloc: Global, page: &PageRows, base: u64) -> Result<SealedHistory, AllocError>
    requires { length page.now.rows ≤ 64 }
    ensures { IfOk result (λ history. history.tables ≡ 2) }
{
    let mut sums = SealedSums::new(alloc, 2, Exponent::of_format_1())?;
    sums.add_rows(page.rows.as_slice())?;
    let mut told = Vec::new(alloc);
    told.push(Snapshot::of(page))?;
    SealedHistory::over(alloc, Vec::new(alloc), told, sums, base)
}

/// Whether all rows are of two tables.
fn are_of_tables(rows: &[Row]) -> bool
    ensures { IsTrue result → AllByRecursion (λ row. row.table < 2) rows.now }
{
    for row in rows {
        if row.table >= 2 {
            return false;
        }
    }
    true
}

/// Adds rows, where they pass no limit. Tells whether they were added.
fn add(history: &mut SealedHistory, rows: Rows) -> Result<bool, AllocError>
    requires { history.old.tables ≡ 2 }
    ensures { history.new.tables ≡ 2 }
{
    if let Some(_) = history.limit_passed(rows.as_slice()) {
        return Ok(false);
    }
    if !are_of_tables(rows.as_slice()) {
        return Ok(false);
    }
    history.reserve(rows.len())?;
    Ok(history.add_all(rows))
}

/// The log of these tests over its run. None where its rows aren't taken.
fn made(alloc: Global) -> Result<Option<SealedHistory>, AllocError>
    ensures { IfOk result (λ made. IfSome made (λ history. history.tables ≡ 2)) }
{
    let Some(page) = page_of(alloc, run())? else {
        return Ok(None);
    };
    let mut history = over(alloc, &page, 4)?;
    if !add(&mut history, rows_of(alloc, log())?)? {
        return Ok(None);
    }
    Ok(Some(history))
}

/// Whether rows have these times.
fn have_times(rows: &[Row], want: &[i64]) -> bool {
    for (row, want) in rows.iter().zip(want) {
        if row.key.time != *want {
            return false;
        }
    }
    rows.len() == want.len()
}

/// How many rows of a range are given by the index of keys.
fn count_by_keys(history: &SealedHistory, front: u64, from: i64, to: i64) -> usize
    requires { history.now.tables ≡ 2 }
{
    let mut count = 0usize;
    for _ in history.range_at(0, front, from, to) {
        count = count.saturating_add(1);
    }
    count
}

/// The first range of which other rows are given, by the index of keys or by the partitions.
fn other_range(alloc: Global, history: &SealedHistory) -> Result<Option<usize>, AllocError>
    requires { history.now.tables ≡ 2 }
{
    let mut place = 0usize;
    for (from, to, front, want) in ranges() {
        let (from, to, front) = (*from, *to, *front);
        let bounds = Bounds {
            from,
            to,
            names: None,
        };
        let parts = history.pruned(0, &bounds)?;
        let rows = history.rows_between(alloc, 0, parts.as_slice(), from, to, front)?;
        let by_keys = count_by_keys(history, front, from, to);
        if !have_times(rows.as_slice(), want) || by_keys != want.len() {
            return Ok(Some(place));
        }
        place = place.saturating_add(1);
    }
    Ok(None)
}

/// The first time whose position is another one.
fn other_position(history: &SealedHistory) -> Option<usize>
    requires { history.now.tables ≡ 2 }
{
    let mut place = 0usize;
    for (time, want) in positions() {
        if history.position(0, key(*time)) != *want {
            return Some(place);
        }
        place = place.saturating_add(1);
    }
    None
}

/// Whether these are the records.
fn are_spans(spans: &[Span], want: &[(i64, i64, u64)]) -> bool {
    for (span, want) in spans.iter().zip(want) {
        if (span.first, span.last, span.count) != *want {
            return false;
        }
    }
    spans.len() == want.len()
}

/// Whether these are the partitions.
fn are_parts(parts: &[Partition], want: &[(i64, u16)]) -> bool {
    for (part, want) in parts.iter().zip(want) {
        if (part.day, part.pname) != *want {
            return false;
        }
    }
    parts.len() == want.len()
}

/// The first packet name with other records.
fn other_spans(history: &SealedHistory) -> Result<Option<usize>, AllocError>
    requires { history.now.tables ≡ 2 }
{
    let mut place = 0usize;
    for (pname, want) in all_spans() {
        let spans = history.spans(0, *pname)?;
        if !are_spans(spans.as_slice(), want) {
            return Ok(Some(place));
        }
        place = place.saturating_add(1);
    }
    Ok(None)
}

/// The first range with other partitions.
fn other_parts(history: &SealedHistory) -> Result<Option<usize>, AllocError>
    requires { history.now.tables ≡ 2 }
{
    let mut place = 0usize;
    for (from, to, want) in all_parts() {
        let bounds = Bounds {
            from: *from,
            to: *to,
            names: None,
        };
        let parts = history.pruned(0, &bounds)?;
        if !are_parts(parts.as_slice(), want) {
            return Ok(Some(place));
        }
        place = place.saturating_add(1);
    }
    Ok(None)
}

/// Whether a log that is said to begin two rows below the limit takes two more, and no third.
fn ends_at_the_limit(alloc: Global) -> Result<bool, AllocError> {
    let Some(page) = page_of(alloc, run())? else {
        return Ok(false);
    };
    let history = over(alloc, &page, 4_194_302)?;
    let rows = rows_of(alloc, log())?;
    let Some((_, first)) = rows.as_slice().split_last() else {
        return Ok(false);
    };
    Ok(
        history.limit_passed(first).is_none()
            && history.limit_passed(rows.as_slice()) == Some(RowLimit::Rows),
    )
}

/// Whether a history without runs takes the same rows once.
fn takes_rows_once(alloc: Global) -> Result<bool, AllocError> {
    let mut history = SealedHistory::new(alloc, 2, Exponent::of_format_1())?;
    let first = add(&mut history, rows_of(alloc, log())?)?;
    let second = add(&mut history, rows_of(alloc, log())?)?;
    Ok((first, second, history.len()) == (true, false, 3))
}

fn other(alloc: Global) -> Result<Option<(&'static str, usize)>, AllocError> {
    let Some(history) = made(alloc)? else {
        return Ok(Some(("rows", 0)));
    };
    let rows = (history.base(), history.log_len(), history.len());
    if rows != (4, 3, 7) || history.runs().len() != 0 {
        return Ok(Some(("numbers of rows", 0)));
    }
    if let Some(place) = other_range(alloc, &history)? {
        return Ok(Some(("ranges", place)));
    }
    if let Some(place) = other_position(&history) {
        return Ok(Some(("positions", place)));
    }
    if let Some(place) = other_spans(&history)? {
        return Ok(Some(("spans", place)));
    }
    if let Some(place) = other_parts(&history)? {
        return Ok(Some(("partitions", place)));
    }
    Ok(None)
}

#[test]
fn a_log_stands_over_runs(rt: HostRuntime) -> Result<(), Fail> {
    none_other(other(rt.alloc())?)
}

#[test]
fn a_log_ends_at_the_limit_and_takes_rows_once(rt: HostRuntime) -> Result<(), Fail> {
    let alloc = rt.alloc();
    assert!(rt; ends_at_the_limit(alloc)?);
    assert!(rt; takes_rows_once(alloc)?);
    Ok(())
}
