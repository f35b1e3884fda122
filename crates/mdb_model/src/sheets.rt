//! The three sheets, checked one after the other.

ghost use Rattle.std.specs.Prelude.{◌≡◌, ◌∷◌, ◌++◌, [], None, Some, Ok, option_copied, option_map, map, drop, slice_get, IfOk};
ghost use Rattle.mdb_items.specs.CalibrationRows.{calibration_fault, with_calibration_row};
ghost use Rattle.mdb_items.specs.ContainerRows.{row_fault, with_container_row};
ghost use Rattle.mdb_items.specs.ParameterRows.{parameter_fault, parameter_of};
ghost use Rattle.mdb_model.specs.Sheets.{read_calibration, read_container, read_containers, read_parameter};
ghost use Rattle.mdb_rules.specs.Totals.{HasPaths};
ghost use Rattle.mdb_rules.specs.Steps.{IsCalibrationsResult, IsContainersResult, IsInStep, IsParametersResult};
ghost use Rattle.mdb_items.specs.Texts.{field};

use crate::sheet_rows::{
    read_columns, read_parameter, read_position, read_reference, read_row_values,
};
use mdb_items::fault::{MdbFault, MdbSheet};
use mdb_items::sheet::{Sheet, SheetRecord};
use mdb_rules::calibration_rows::Calibrations;
use mdb_rules::container_rows::{Containers, is_continuing};
use mdb_rules::parameter_rows::Parameters;
use std::alloc::{AllocError, Global};

/// The first field of a record, if there is a record.
fn first_field<'a>(fields: Option<SheetRecord<'a>>) -> Option<&'a [u8]>
    ensures { option_copied result ≡ option_map (λ r. field r 0) fields.entry }
{
    match fields {
        Some(fields) => Some(fields.field(0)),
        None => None,
    }
}

/// The record at a place, if there is one.
pub(crate) fn record_at(sheet: &Sheet, place: usize) -> Option<SheetRecord<'_>>
    ensures { result ≡ slice_get sheet.now place }
{
    if place < sheet.len() {
        Some(sheet.record(place))
    } else {
        None
    }
}

/// Takes a record in, or answers the first rule that it breaks.
fn take_calibration(
    alloc: Global,
    calibrations: &mut Calibrations,
    fields: &SheetRecord<'_>,
    next: Option<SheetRecord<'_>>,
) -> Result<Option<u8>, AllocError>
    requires { IsInStep calibrations.old }
    ensures fault { IfOk result (λ rule. rule ≡ calibration_fault calibrations.old.items.items
        (Some (read_calibration fields.now)) (option_map read_calibration next.entry)) }
    ensures added { result ≡ Ok None →
        calibrations.new.items.items ≡ with_calibration_row calibrations.old.items.items
        (read_calibration fields.now) }
    ensures step { result ≡ Ok None → IsInStep calibrations.new }
{
    let count = fields.len();
    let name = fields.field(0);
    let row_values = read_row_values(alloc, fields.field(1), fields.field(2), fields.field(3))?;
    let next = first_field(next);
    let rule = calibrations.broken(count, name, &row_values, next);
    if rule.is_some() {
        return Ok(rule);
    }
    calibrations.add(alloc, count, name, row_values, next)?;
    Ok(None)
}

/// The calibrations of the records below the header.
pub(crate) fn calibrations_of(alloc: Global, sheet: &Sheet) -> Result<Calibrations, MdbFault>
    ensures { IsCalibrationsResult (map read_calibration (drop 1 sheet.now)) result }
{
    let mut calibrations = Calibrations::new(alloc);
    for place in 1..sheet.len() {
        let fields = sheet.record(place);
        let next = record_at(sheet, place + 1);
        if let Some(rule) = take_calibration(alloc, &mut calibrations, &fields, next)? {
            return Err(MdbFault::Bad {
                sheet: MdbSheet::Calibrations,
                row: place + 1,
                rule,
            });
        }
    }
    Ok(calibrations)
}

/// Takes a record in, or answers the first rule that it breaks.
fn take_parameter(
    alloc: Global,
    calibrations: &Calibrations,
    parameters: &mut Parameters,
    fields: &SheetRecord<'_>,
) -> Result<Option<u8>, AllocError>
    requires names { parameters.old.names ≡ map (λ p. p.name) parameters.old.items.items }
    ensures fault { IfOk result (λ rule.
        rule ≡ parameter_fault calibrations.now.items.items parameters.old.items.items
        (Some (read_parameter calibrations.now.names fields.now))) }
    ensures added { result ≡ Ok None → parameters.new.items.items ≡ parameters.old.items.items ++ parameter_of
        (read_parameter calibrations.now.names fields.now) ∷ [] }
    ensures names { result ≡ Ok None → parameters.new.names ≡ map (λ p. p.name) parameters.new.items.items }
{
    let row = read_parameter(alloc, &calibrations.names, fields)?;
    let rule = parameters.broken(calibrations.items.as_slice(), &row);
    if rule.is_some() {
        return Ok(rule);
    }
    parameters.add(alloc, row)?;
    Ok(None)
}

/// The parameters of the records below the header.
pub(crate) fn parameters_of(
    alloc: Global,
    calibrations: &Calibrations,
    sheet: &Sheet,
) -> Result<Parameters, MdbFault>
    ensures { IsParametersResult calibrations.now.items.items (map (read_parameter calibrations.now.names)
        (drop 1 sheet.now)) result }
{
    let mut parameters = Parameters::new(alloc);
    for place in 1..sheet.len() {
        let fields = sheet.record(place);
        if let Some(rule) = take_parameter(alloc, calibrations, &mut parameters, &fields)? {
            return Err(MdbFault::Bad {
                sheet: MdbSheet::Parameters,
                row: place + 1,
                rule,
            });
        }
    }
    Ok(parameters)
}

/// Takes a record in, or answers the first rule that it breaks.
fn take_container(
    alloc: Global,
    parameters: &Parameters,
    containers: &mut Containers,
    fields: &SheetRecord<'_>,
) -> Result<Option<u8>, AllocError>
    requires path { HasPaths parameters.now.items.items containers.old }
    requires names { parameters.now.names ≡ map (λ p. p.name) parameters.now.items.items }
    ensures fault { IfOk result (λ rule. rule ≡ row_fault parameters.now.items.items containers.old.items.items
        (read_container parameters.now.items.items containers.old.items.items fields.now)) }
    ensures added { result ≡ Ok None → containers.new.items.items ≡ with_container_row containers.old.items.items
        (read_container parameters.now.items.items containers.old.items.items fields.now) }
    ensures path { result ≡ Ok None → HasPaths parameters.now.items.items containers.new }
{
    let columns = read_columns(alloc, &parameters.names, &containers.names, fields)?;
    let continuing = is_continuing(&columns);
    let items = parameters.items.as_slice();
    let rule = containers.take_columns(alloc, fields.len(), columns)?;
    if rule.is_some() {
        return Ok(rule);
    }
    let entry = read_reference(&parameters.names, fields.field(4));
    let last = containers.last();
    let end = containers.end_of_path(last);
    let position = read_position(end, entry, fields.field(5));
    containers.take_entry(items, continuing, entry, position)
}

/// The containers of the records below the header.
pub(crate) fn containers_of(
    alloc: Global,
    parameters: &Parameters,
    sheet: &Sheet,
) -> Result<Containers, MdbFault>
    requires { parameters.now.names ≡ map (λ p. p.name) parameters.now.items.items }
    ensures { IsContainersResult parameters.now.items.items (read_containers parameters.now.items.items []
        (drop 1 sheet.now)) result }
{
    if sheet.len() <= 1 {
        return Err(MdbFault::Bad {
            sheet: MdbSheet::Containers,
            row: 1,
            rule: 19,
        });
    }
    let mut containers = Containers::new(alloc);
    for place in 1..sheet.len() {
        let fields = sheet.record(place);
        if let Some(rule) = take_container(alloc, parameters, &mut containers, &fields)? {
            return Err(MdbFault::Bad {
                sheet: MdbSheet::Containers,
                row: place + 1,
                rule,
            });
        }
    }
    Ok(containers)
}
