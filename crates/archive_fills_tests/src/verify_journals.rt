// Journals of archives whose fills are compared with their rows.
use crate::journals::{put_fill_front, put_frame, put_length, put_row};
use crate::parts::head_octets;
use std::alloc::{AllocError, Global};

/// A row of a segment: the time and the number of its key, and the raw numbers of the first parameters of the database.
pub(crate) type SegmentRow = ((i64, u32), &'static [u8]);

/// The body of a record.
pub(crate) enum Record {
    /// A packet's row, received at a time in milliseconds.
    Row(i64, usize),
    /// A fill of an interval over so many rows: segments of one row each, no two of the same parameters.
    Fill(i64, u64, &'static [SegmentRow]),
}

/// The raw column of one row.
fn put_raw(out: &mut Vec<u8>, raw: u8) -> Result<(), AllocError> {
    out.extend_from_slice(&[0; 16])?;
    out.push(raw)?;
    Ok(())
}

/// The first parameters of the database, one or two, in one row.
fn parameters_of(raws: &[u8]) -> &'static [u8] {
    match raws.len() {
        1 => &[0, 1, 0, 0, 0, 1],
        _ => &[0, 2, 0, 0, 0, 1, 0, 1],
    }
}

/// A segment of one row, of the first parameters of the database.
fn put_segment(out: &mut Vec<u8>, row: &SegmentRow) -> Result<(), AllocError> {
    let ((time, seq), raws) = *row;
    out.extend_from_slice(parameters_of(raws))?;
    out.extend_from_slice(&time.to_be_bytes())?;
    out.extend_from_slice(&seq.to_be_bytes())?;
    for raw in raws {
        put_raw(out, *raw)?;
    }
    Ok(())
}

/// A set of segments of one row each.
fn put_set(out: &mut Vec<u8>, rows: &[SegmentRow]) -> Result<(), AllocError> {
    put_length(out, rows.len())?;
    for row in rows {
        put_segment(out, row)?;
    }
    Ok(())
}

fn put_record(out: &mut Vec<u8>, record: &Record) -> Result<(), AllocError> {
    match record {
        Record::Row(time, packet) => put_row(out, *time, *packet, 0),
        Record::Fill(interval, base, rows) => {
            put_fill_front(out, *interval, *base)?;
            put_set(out, rows)
        }
    }
}

/// Adds a record behind an open gate.
fn put_framed(alloc: Global, journal: &mut Vec<u8>, record: &Record) -> Result<(), AllocError> {
    let mut body = Vec::new(alloc);
    put_record(&mut body, record)?;
    put_frame(journal, body.as_slice())
}

/// Adds a head and these records, and a closed gate.
fn put_journal(alloc: Global, journal: &mut Vec<u8>, records: &[Record]) -> Result<(), AllocError> {
    put_frame(journal, head_octets())?;
    for record in records {
        put_framed(alloc, journal, record)?;
    }
    journal.push(0)?;
    Ok(())
}

/// The journal of a head and of these records.
pub(crate) fn journal_of(alloc: Global, records: &[Record]) -> Result<Vec<u8>, AllocError> {
    let mut journal = Vec::new(alloc);
    put_journal(alloc, &mut journal, records)?;
    Ok(journal)
}
