//! The texts of refusals.

use crate::refusal::{BadKind, Refusal, SheetName};
use std::fmt;

/// What standard error says of a refusal. It's written without memory.
#[derive(Debug, Drop)]
pub struct FaultText<'a>(pub &'a Refusal);

impl<'a> fmt::Display for FaultText<'a> {
    fn fmt<W: fmt::Write>(&self, f: &mut fmt::Formatter<W>) -> fmt::Result {
        match self.0 {
            Refusal::Usage => f.write_str("usage"),
            Refusal::Missing { name } => write_named(f, "no input ", name.as_slice()),
            Refusal::ReadFault => f.write_str("read fault"),
            Refusal::WriteFault => f.write_str("write fault"),
            Refusal::BadPacket { at, kind } => write!(
                f,
                "bad packet at {at}: {}",
                kind_name(*kind)
            ),
            Refusal::BadSheet { sheet, row, rule } => {
                write!(f, "bad sheet {} row {row} rule {rule}", sheet_name(*sheet))
            }
            Refusal::BadSql { at, rule } => write!(f, "bad sql at {at} rule {rule}"),
            Refusal::NoArchive => f.write_str("no archive"),
            Refusal::Exists => f.write_str("archive exists"),
            Refusal::Damaged { file, at } => write!(f, "damaged file {file} at {at}"),
            Refusal::DiskFault => f.write_str("disk fault"),
            Refusal::NeedsReopen { faults } => write!(f, "reopen after {faults} faults"),
            Refusal::UnknownParameter => f.write_str("unknown parameter"),
            Refusal::BadRange { from, to } => write!(f, "bad range {from} {to}"),
            Refusal::UnknownTable { name } => write_named(f, "unknown table ", name.as_slice()),
            Refusal::Limit { which, number } => write!(f, "limit {which:?} {number}"),
            Refusal::Mismatch { interval, .. } => write!(f, "mismatch in interval {}", interval.0),
            Refusal::Late { interval } => write!(f, "late interval {}", interval.0),
            Refusal::OutOfMemory => f.write_str("out of memory"),
        }
    }
}

/// Writes a label and a name behind it.
fn write_named<W: fmt::Write>(f: &mut fmt::Formatter<W>, label: &str, name: &[u8]) -> fmt::Result {
    f.write_str(label)?;
    match str::from_utf8(name) {
        Ok(name) => f.write_str(name),
        Err(_) => write!(f, "{name:?}"),
    }
}

fn kind_name(kind: BadKind) -> &'static str {
    match kind {
        BadKind::Version => "version",
        BadKind::Truncated => "truncated",
    }
}

fn sheet_name(sheet: SheetName) -> &'static str {
    match sheet {
        SheetName::Parameters => "parameters",
        SheetName::Calibrations => "calibrations",
        SheetName::Containers => "containers",
        SheetName::Asks => "asks",
    }
}
