//! The octets of a mission database: the one spelling of each item.

ghost use Rattle.std.specs.Prelude.{◌≡◌, ◌<◌, ◌^◌, ◌++◌, length, OnOk, IfOk};
ghost use Rattle.std.specs.Int.{w8, w16, w32};
ghost use Rattle.std.specs.List.{AllByRecursion};
ghost use Rattle.octet_fields.specs.Spelling.{counted, number};
ghost use Rattle.mdb_octets.specs.Spelling.{FitsCalibration, FitsComparison, FitsContainer, FitsDatabase, FitsEntry, FitsEnum, FitsParameter, FitsPoints, FitsPoly, FitsCalibrator, archive_code, calibration_octets, coding_code, comparison_octets, container_octets, database_octets, container_entry_octets, enum_octets, kind_code, link, operator_code, parameter_octets, points_octets, poly_octets, calibrator_rows_octets};

use crate::codec::{
    CalibrationCodec, ComparisonCodec, ContainerCodec, EntryCodec, EnumRowCodec, ParameterCodec,
    PointsRowCodec, PolyRowCodec,
};
use mdb_items::calibration::{Calibration, Calibrator, EnumRow, PointsRow, PolyRow};
use mdb_items::container::{Comparison, Container, Operator, ParameterEntry};
use mdb_items::parameter::{Coding, Parameter};
use octet_fields::{Encode, put_each, put_i64, put_i128, put_name, put_u8, put_u16, put_u32};
use std::alloc::{AllocError, Global};

/// 0 where there is no item, else the item's number plus 1.
fn link(number: Option<usize>) -> u16
    requires { link number < 2 ^ 16 }
    ensures { result ≡ link number }
{
    match number {
        None => 0,
        Some(number) => (number + 1) as u16,
    }
}

fn coding_code(coding: Coding) -> u8
    ensures { result ≡ coding_code coding }
{
    match coding {
        Coding::Uint => 0,
        Coding::Int => 1,
        Coding::UintLe => 2,
        Coding::IntLe => 3,
    }
}

fn operator_code(operator: Operator) -> u8
    ensures { result ≡ operator_code operator }
{
    match operator {
        Operator::Equal => 0,
        Operator::NotEqual => 1,
        Operator::Less => 2,
        Operator::LessOrEqual => 3,
        Operator::Greater => 4,
        Operator::GreaterOrEqual => 5,
    }
}

fn archive_code(archive: bool) -> u8
    ensures { result ≡ archive_code archive }
{
    if archive { 1 } else { 0 }
}

impl Encode for ParameterCodec {
    type Value = Parameter;

    ghost fits = { FitsParameter };

    ghost spell = { parameter_octets };

    #[tactic(auto, unfolding(crate::specs::Spelling::parameter_octets))]
    fn put(out: &mut Vec<u8>, p: &Parameter) -> Result<(), AllocError> {
        put_name(out, p.name.as_bytes())?;
        put_u8(out, coding_code(p.coding))?;
        put_u8(out, p.bits)?;
        put_u16(out, link(p.calibration))
    }
}

impl Encode for PolyRowCodec {
    type Value = PolyRow;

    ghost fits = { FitsPoly };

    ghost spell = { poly_octets };

    #[tactic(auto, unfolding(crate::specs::Spelling::poly_octets))]
    fn put(out: &mut Vec<u8>, row: &PolyRow) -> Result<(), AllocError> {
        put_u8(out, row.exponent)?;
        put_i64(out, row.millionths)
    }
}

impl Encode for PointsRowCodec {
    type Value = PointsRow;

    ghost fits = { FitsPoints };

    ghost spell = { points_octets };

    #[tactic(auto, unfolding(crate::specs::Spelling::points_octets))]
    fn put(out: &mut Vec<u8>, row: &PointsRow) -> Result<(), AllocError> {
        put_i128(out, row.x)?;
        put_i64(out, row.millionths)
    }
}

impl Encode for EnumRowCodec {
    type Value = EnumRow;

    ghost fits = { FitsEnum };

    ghost spell = { enum_octets };

    #[tactic(auto, unfolding(crate::specs::Spelling::enum_octets))]
    fn put(out: &mut Vec<u8>, row: &EnumRow) -> Result<(), AllocError> {
        put_i128(out, row.x)?;
        put_name(out, row.label.as_bytes())
    }
}

/// The kind, and the rows.
#[tactic(auto, unfolding(octet_fields::specs::Spelling::counted))]
fn put_calibrator(out: &mut Vec<u8>, calibrator: &Calibrator) -> Result<(), AllocError>
    requires { FitsCalibrator calibrator.now }
    ensures { OnOk result (out.new.items ≡ out.old.items ++ (number w8 (kind_code calibrator.now) ++ calibrator_rows_octets
        calibrator.now)) }
{
    match calibrator {
        Calibrator::Poly(rows) => {
            put_u8(out, 0)?;
            put_u32(out, rows.len() as u32)?;
            put_each::<PolyRowCodec>(out, rows.as_slice())
        }
        Calibrator::Points(rows) => {
            put_u8(out, 1)?;
            put_u32(out, rows.len() as u32)?;
            put_each::<PointsRowCodec>(out, rows.as_slice())
        }
        Calibrator::Enum(rows) => {
            put_u8(out, 2)?;
            put_u32(out, rows.len() as u32)?;
            put_each::<EnumRowCodec>(out, rows.as_slice())
        }
    }
}

impl Encode for CalibrationCodec {
    type Value = Calibration;

    ghost fits = { FitsCalibration };

    ghost spell = { calibration_octets };

    #[tactic(auto, unfolding(crate::specs::Spelling::calibration_octets))]
    fn put(out: &mut Vec<u8>, c: &Calibration) -> Result<(), AllocError> {
        put_name(out, c.name.as_bytes())?;
        put_calibrator(out, &c.calibrator)
    }
}

impl Encode for ComparisonCodec {
    type Value = Comparison;

    ghost fits = { FitsComparison };

    ghost spell = { comparison_octets };

    #[tactic(auto, unfolding(crate::specs::Spelling::comparison_octets))]
    fn put(out: &mut Vec<u8>, c: &Comparison) -> Result<(), AllocError> {
        put_u16(out, c.parameter as u16)?;
        put_u8(out, operator_code(c.operator))?;
        put_i128(out, c.number)
    }
}

impl Encode for EntryCodec {
    type Value = ParameterEntry;

    ghost fits = { FitsEntry };

    ghost spell = { container_entry_octets };

    #[tactic(auto, unfolding(crate::specs::Spelling::container_entry_octets))]
    fn put(out: &mut Vec<u8>, e: &ParameterEntry) -> Result<(), AllocError> {
        put_u16(out, e.parameter as u16)?;
        put_u32(out, e.at)
    }
}

#[tactic(auto, unfolding(octet_fields::specs::Spelling::counted))]
fn put_condition(out: &mut Vec<u8>, condition: &[Comparison]) -> Result<(), AllocError>
    requires few { length condition.now < 2 ^ 8 }
    requires fit { AllByRecursion FitsComparison condition.now }
    ensures { OnOk result (out.new.items ≡ out.old.items ++ counted w8 comparison_octets condition.now) }
{
    put_u8(out, condition.len() as u8)?;
    put_each::<ComparisonCodec>(out, condition)
}

#[tactic(auto, unfolding(octet_fields::specs::Spelling::counted))]
fn put_entries(out: &mut Vec<u8>, entries: &[ParameterEntry]) -> Result<(), AllocError>
    requires few { length entries.now < 2 ^ 16 }
    requires fit { AllByRecursion FitsEntry entries.now }
    ensures { OnOk result (out.new.items ≡ out.old.items ++ counted w16 container_entry_octets entries.now) }
{
    put_u16(out, entries.len() as u16)?;
    put_each::<EntryCodec>(out, entries)
}

impl Encode for ContainerCodec {
    type Value = Container;

    ghost fits = { FitsContainer };

    ghost spell = { container_octets };

    #[tactic(auto, unfolding(crate::specs::Spelling::container_octets))]
    fn put(out: &mut Vec<u8>, c: &Container) -> Result<(), AllocError> {
        put_name(out, c.name.as_bytes())?;
        put_u16(out, link(c.parent))?;
        put_u8(out, archive_code(c.archive))?;
        put_condition(out, c.condition.as_slice())?;
        put_entries(out, c.entries.as_slice())
    }
}

/// The one spelling of a database, whose lists these are.
#[tactic(auto, unfolding(crate::specs::Spelling::database_octets, octet_fields::specs::Spelling::counted))]
pub fn spelling(
    alloc: Global,
    parameters: &[Parameter],
    calibrations: &[Calibration],
    containers: &[Container],
) -> Result<Vec<u8>, AllocError>
    requires { FitsDatabase (record {
      parameters = parameters.now;
      calibrations = calibrations.now;
      containers =
          containers.now;
    }) }
    ensures { IfOk result (λ v.
        v.items ≡ database_octets (record {
          parameters = parameters.now;
          calibrations = calibrations.now;
          containers =
              containers.now;
        })) }
{
    let mut out = Vec::new(alloc);
    put_u16(&mut out, parameters.len() as u16)?;
    put_each::<ParameterCodec>(&mut out, parameters)?;
    put_u16(&mut out, calibrations.len() as u16)?;
    put_each::<CalibrationCodec>(&mut out, calibrations)?;
    put_u16(&mut out, containers.len() as u16)?;
    put_each::<ContainerCodec>(&mut out, containers)?;
    Ok(out)
}
