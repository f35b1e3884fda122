//! Replies as text.

use arch_types::inserted::{Inserted, Installed};
use arch_types::row::Row;
use archive_core::Reply;
use asks::{Answer, AskRefusal};
use intervals::Interval;
use packed_cells::PackedCells;
use std::alloc::{AllocError, Global};

/// What became of rows: the position of each, with a `+` before it where the row is new.
fn outcomes_text(alloc: Global, outcomes: &[Inserted]) -> Result<String, AllocError> {
    let mut text = String::from_str(alloc, "ingested")?;
    for outcome in outcomes {
        let one = match outcome {
            Inserted::New(position) => format!(in alloc; " +{position}")?,
            Inserted::Duplicate(position) => format!(in alloc; " {position}")?,
        };
        text.push_str(one.as_str())?;
    }
    Ok(text)
}

/// A front or base, and the key of each row.
fn rows_text(alloc: Global, front: u64, rows: &[Row]) -> Result<String, AllocError> {
    let mut text = format!(in alloc; "{front}:")?;
    for row in rows {
        let one = format!(in alloc; " {}/{}", row.key.time, row.key.seq)?;
        text.push_str(one.as_str())?;
    }
    Ok(text)
}

/// A front, and the raw number of each cell.
fn cells_text(alloc: Global, front: u64, cells: &PackedCells) -> Result<String, AllocError> {
    let mut text = format!(in alloc; "values {front}:")?;
    for cell in cells.iter() {
        let one = format!(in alloc; " {}", cell.raw)?;
        text.push_str(one.as_str())?;
    }
    Ok(text)
}

fn refusal_text(alloc: Global, refusal: &AskRefusal) -> Result<String, AllocError> {
    match refusal {
        AskRefusal::UnknownParameter => String::from_str(alloc, "unknown parameter"),
        AskRefusal::UnknownTable { .. } => String::from_str(alloc, "unknown table"),
        AskRefusal::BadRange { from, to } => format!(in alloc; "bad range {from} {to}"),
    }
}

/// A task: its interval, its base and its rows.
fn task_text(
    alloc: Global,
    interval: Interval,
    base: u64,
    rows: &[Row],
) -> Result<String, AllocError> {
    let rows = rows_text(alloc, base, rows)?;
    format!(in alloc; "task {} {rows}", interval.0)
}

fn replayed_text(alloc: Global, front: u64, rows: &[Row]) -> Result<String, AllocError> {
    let rows = rows_text(alloc, front, rows)?;
    format!(in alloc; "rows {rows}")
}

fn installed_text(alloc: Global, installed: &Installed) -> Result<String, AllocError> {
    match installed {
        Installed::Done => String::from_str(alloc, "done"),
        Installed::Stale { position } => format!(in alloc; "stale {position}"),
    }
}

/// A reply as text.
pub(crate) fn reply_text(alloc: Global, reply: &Reply) -> Result<String, AllocError> {
    match reply {
        Reply::Ingested(outcomes) => outcomes_text(alloc, outcomes.as_slice()),
        Reply::NoTask => String::from_str(alloc, "no task"),
        Reply::Task {
            interval,
            base,
            rows,
        } => task_text(alloc, *interval, *base, rows.as_slice()),
        Reply::Void => String::from_str(alloc, "void"),
        Reply::Installed(installed) => installed_text(alloc, installed),
        Reply::Abandoned => String::from_str(alloc, "abandoned"),
        Reply::Answered(Answer { front, cells }) => cells_text(alloc, *front, cells),
        Reply::Replayed { front, rows } => replayed_text(alloc, *front, rows.as_slice()),
        Reply::Refused(refusal) => refusal_text(alloc, refusal),
    }
}
