//! The records of octets.

ghost use Rattle.std.specs.Prelude.{◌≡◌, IfOk, OnOk};
ghost use Rattle.csv.specs.Records.{fields_of};
ghost use Rattle.mdb_sheets.specs.Sheets.{sheet_of};

use csv::{ByteRecord, ErrorKind, ReaderBuilder};
use mdb_model::{Record, Sheet};
use std::alloc::{AllocError, Global};

/// The records of a sheet's octets, of any number of fields each. A reader of such records can fail only where its octets can't be read, which
/// octets in memory always can, or where there's no memory left.
pub(crate) fn records(alloc: Global, octets: &[u8]) -> Result<Sheet, AllocError>
    ensures { IfOk result (λ sheet. sheet ≡ sheet_of octets.now) }
{
    let mut reader = ReaderBuilder::new()
        .has_headers(false)
        .flexible(true)
        .from_reader(alloc, octets);
    let mut row = ByteRecord::new(alloc);
    let mut copy = Record::new(alloc);
    let mut sheet = Sheet::new(alloc);
    loop {
        let found = match reader.read_byte_record(&mut row) {
            Ok(found) => found,
            Err(error) => match error.kind() {
                ErrorKind::Io(_) | ErrorKind::OutOfMemory => return Err(AllocError),
                _ => unreachable!(),
            },
        };
        if !found {
            return Ok(sheet);
        }
        refill(&mut copy, &row)?;
        sheet.push(&copy)?;
    }
}

/// Fills a record anew, with the fields of a row.
fn refill(copy: &mut Record, row: &ByteRecord) -> Result<(), AllocError>
    ensures { OnOk result (copy.new ≡ fields_of row.now) }
{
    copy.clear();
    for octets in row {
        copy.push(octets)?;
    }
    Ok(())
}
