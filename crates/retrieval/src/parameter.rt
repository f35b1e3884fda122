//! A parameter of the database that three sheets spell.

ghost use Rattle.std.specs.Prelude.{◌≡◌, IfOk, IfErr};
ghost use Rattle.retrieval.specs.Parameter.{IsNamedParameter, IsNoParameter, refusal_of_sheets, sheet_named, limit_of_database};

use mdb_model::{Mdb, MdbFault, MdbLimit, MdbSheet, RawMdb};
use refusals::{Refusal, SheetName, Which};
use std::alloc::Global;

/// A parameter, and the database that has it.
#[derive(Drop)]
pub struct KnownParameter {
    pub mdb: Mdb,
    /// Its number in the database.
    pub number: u16,
}

/// The parameter that has a name in the database that three sheets spell.
pub fn known_parameter(
    alloc: Global,
    sheets: &RawMdb,
    name: &str,
) -> Result<KnownParameter, Refusal>
    ensures known { IfOk result (λ known. IsNamedParameter sheets.now name.now known.mdb known.number) }
    ensures refused { IfErr result (IsNoParameter sheets.now name.now) }
{
    let mdb = match Mdb::check(alloc, sheets) {
        Ok(mdb) => mdb,
        Err(fault) => return Err(refusal_of_sheets(fault)),
    };
    match mdb.parameter_number(name) {
        Some(number) => Ok(KnownParameter { mdb, number }),
        None => Err(Refusal::UnknownParameter),
    }
}

/// The refusal of sheets that give no database.
pub fn refusal_of_sheets(fault: MdbFault) -> Refusal
    ensures { result ≡ refusal_of_sheets fault }
{
    match fault {
        MdbFault::Bad { sheet, row, rule } => Refusal::BadSheet {
            sheet: sheet_named(sheet),
            row: row as u64,
            rule,
        },
        MdbFault::Limit { which, number } => Refusal::Limit {
            which: limit_of_database(which),
            number: number as u64,
        },
        MdbFault::OutOfMemory => Refusal::OutOfMemory,
    }
}

/// A sheet, as refusals name it.
fn sheet_named(sheet: MdbSheet) -> SheetName
    ensures { result ≡ sheet_named sheet }
{
    match sheet {
        MdbSheet::Parameters => SheetName::Parameters,
        MdbSheet::Calibrations => SheetName::Calibrations,
        MdbSheet::Containers => SheetName::Containers,
    }
}

/// A quantity that a database limits, as refusals name it.
fn limit_of_database(limit: MdbLimit) -> Which
    ensures { result ≡ limit_of_database limit }
{
    match limit {
        MdbLimit::Calibrations => Which::Calibrations,
        MdbLimit::CalibrationRows => Which::CalibrationRows,
        MdbLimit::Parameters => Which::Parameters,
        MdbLimit::Containers => Which::Containers,
        MdbLimit::Entries => Which::Entries,
    }
}
