//! What the tests share: databases of sheets that are texts, octets that digits spell, and how a test ends.
//!
//! A test gives the row that goes otherwise, or asserts that a function found all as it should be. Where memory is wanting for what a row needs
//! it goes otherwise too, so that no function has to hand on an error beside a database.

use mdb_model::{Mdb, MdbFault, RawMdb, Record, Sheet};
use std::alloc::{AllocError, Global};
use std::fmt::Display;
use std::test::Fail;

fn record(alloc: Global, line: &str) -> Result<Record, AllocError> {
    let mut fields = Record::new(alloc);
    for field in line.split(',') {
        fields.push(field.as_bytes())?;
    }
    Ok(fields)
}

/// A sheet of records that strokes part, and of fields that commas part.
fn sheet(alloc: Global, text: &str) -> Result<Sheet, AllocError> {
    let mut records = Sheet::new(alloc);
    for line in text.split('|') {
        records.push(&record(alloc, line)?)?;
    }
    Ok(records)
}

/// The texts of three sheets: parameters, calibrations and containers.
pub(crate) type Sheets<'a> = (&'a str, &'a str, &'a str);

fn raw(alloc: Global, sheets: Sheets<'_>) -> Result<RawMdb, AllocError> {
    let parameters = sheet(alloc, sheets.0)?;
    let calibrations = sheet(alloc, sheets.1)?;
    let containers = sheet(alloc, sheets.2)?;
    Ok(RawMdb {
        parameters,
        calibrations,
        containers,
    })
}

/// The database of three sheets, or what is answered to them.
pub(crate) fn database(alloc: Global, sheets: Sheets<'_>) -> Result<Mdb, MdbFault> {
    let raw = raw(alloc, sheets)?;
    Mdb::check(alloc, &raw)
}

fn digit(letter: u8) -> Option<u8> {
    match letter {
        b'0'..=b'9' => Some(letter - b'0'),
        b'a'..=b'f' => Some(letter - b'a' + 10),
        _ => None,
    }
}

/// The octets that hexadecimal digits spell, with blanks among them.
pub(crate) fn octets_of(alloc: Global, digits: &str) -> Result<Vec<u8>, AllocError> {
    let mut octets = Vec::new(alloc);
    let mut high = None;
    for letter in digits.bytes() {
        let Some(low) = digit(letter) else {
            continue;
        };
        match high {
            None => high = Some(low),
            Some(octet) => {
                octets.push((octet << 4) | low)?;
                high = None;
            }
        }
    }
    Ok(octets)
}

/// Ends a test: with a failure where a row of its table goes otherwise. In place of an assertion, which costs seconds more to prove.
pub(crate) fn none_other<T: Display + Drop>(other: Option<T>) -> Result<(), Fail> {
    match other {
        None => Ok(()),
        Some(place) => Err(Fail::new(place)),
    }
}
