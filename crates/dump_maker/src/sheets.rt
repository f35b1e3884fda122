//! The mission database of made packets.

ghost use Rattle.std.specs.Prelude.{◌≡◌, ◌++◌, ◌∷◌, [], IfOk, OnOk};
ghost use Rattle.dump_maker.specs.Sheets.{made_calibrations, made_parameters, made_containers, made_sheets};

use mdb_items::{RawMdb, Record, Sheet};
use std::alloc::{AllocError, Global};

/// Its sheets: temperatures in hundredths of a degree for the APIDs up to 20, a level for those above.
pub fn make_sheets(alloc: Global) -> Result<RawMdb, AllocError>
    ensures { IfOk result (λ raw. raw ≡ made_sheets) }
{
    Ok(RawMdb {
        parameters: parameters(alloc)?,
        calibrations: calibrations(alloc)?,
        containers: containers(alloc)?,
    })
}

fn calibrations(alloc: Global) -> Result<Sheet, AllocError>
    ensures { IfOk result (λ sheet. sheet ≡ made_calibrations) }
{
    let mut sheet = Sheet::new(alloc);
    push_four(alloc, &mut sheet, b"name", b"kind", b"x", b"y")?;
    push_four(alloc, &mut sheet, b"degrees", b"poly", b"0", b"-10")?;
    push_four(alloc, &mut sheet, b"degrees", b"poly", b"1", b"0.01")?;
    Ok(sheet)
}

fn parameters(alloc: Global) -> Result<Sheet, AllocError>
    ensures { IfOk result (λ sheet. sheet ≡ made_parameters) }
{
    let mut sheet = Sheet::new(alloc);
    push_four(
        alloc,
        &mut sheet,
        b"name",
        b"coding",
        b"bits",
        b"calibration",
    )?;
    push_four(alloc, &mut sheet, b"apid", b"uint", b"11", b"")?;
    push_four(alloc, &mut sheet, b"count", b"uint", b"14", b"")?;
    push_four(alloc, &mut sheet, b"temp", b"int", b"16", b"degrees")?;
    push_four(alloc, &mut sheet, b"level", b"uint", b"8", b"")?;
    Ok(sheet)
}

fn containers(alloc: Global) -> Result<Sheet, AllocError>
    ensures { IfOk result (λ sheet. sheet ≡ made_containers) }
{
    let mut sheet = Sheet::new(alloc);
    push_six(
        alloc,
        &mut sheet,
        b"container",
        b"parent",
        b"condition",
        b"archive",
        b"entry",
        b"position",
    )?;
    push_six(alloc, &mut sheet, b"HDR", b"", b"", b"", b"apid", b"5")?;
    push_six(alloc, &mut sheet, b"", b"", b"", b"", b"count", b"18")?;
    push_six(
        alloc,
        &mut sheet,
        b"HK",
        b"HDR",
        b"apid<=20",
        b"yes",
        b"temp",
        b"96",
    )?;
    push_six(
        alloc, &mut sheet, b"SCI", b"HDR", b"", b"yes", b"level", b"96",
    )?;
    Ok(sheet)
}

/// Puts a record of four fields at the end.
fn push_four(
    alloc: Global,
    sheet: &mut Sheet,
    a: &[u8],
    b: &[u8],
    c: &[u8],
    d: &[u8],
) -> Result<(), AllocError>
    ensures { OnOk result (sheet.new ≡ sheet.old ++ (a.now ∷ b.now ∷ c.now ∷ d.now ∷ []) ∷ []) }
{
    let mut record = Record::new(alloc);
    record.push(a)?;
    record.push(b)?;
    record.push(c)?;
    record.push(d)?;
    sheet.push(&record)
}

/// Puts a record of six fields at the end.
fn push_six(
    alloc: Global,
    sheet: &mut Sheet,
    a: &[u8],
    b: &[u8],
    c: &[u8],
    d: &[u8],
    e: &[u8],
    f: &[u8],
) -> Result<(), AllocError>
    ensures { OnOk result (sheet.new ≡ sheet.old ++ (a.now ∷ b.now ∷ c.now ∷ d.now ∷ e.now ∷ f.now ∷ []) ∷ []) }
{
    let mut record = Record::new(alloc);
    record.push(a)?;
    record.push(b)?;
    record.push(c)?;
    record.push(d)?;
    record.push(e)?;
    record.push(f)?;
    sheet.push(&record)
}
