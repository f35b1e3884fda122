//! Decoded items taken in again, row by row, by the rules of the sheets.

ghost use Rattle.std.specs.Prelude.{◌≡◌, ◌<◌, ◌∷◌, ◌++◌, [], length, map, drop, take, flat_map, fold, slice_get, option_copied, option_map, None, Some, IfOk, nat_lt, true, false};
ghost use Rattle.std.specs.List.{AllByRecursion, list_all};
ghost use Rattle.mdb_items.specs.CalibrationRows.{row_values_of, rows_of_calibration, with_calibration_row};
ghost use Rattle.mdb_items.specs.ContainerRows.{begin_row, entry_row, rows_of_container, with_container_row};
ghost use Rattle.mdb_items.specs.Database.{calibrator_len};
ghost use Rattle.mdb_items.specs.ParameterRows.{reference_to, row_of_parameter};
ghost use Rattle.mdb_model.specs.Rechecking.{CalibrationsRechecked, ContainersRechecked, HasRows, ParameterRechecked, ParametersRechecked, RowsRechecked, CalibrationRowRechecked, CalibrationRechecked, row_with};
ghost use Rattle.mdb_rules.specs.Totals.{HasPaths};
ghost use Rattle.mdb_rules.specs.Steps.{IsInStep};

use item_list::items::Items;
use mdb_items::calibration::{Calibration, Calibrator};
use mdb_items::container::{Container, ParameterEntry};
use mdb_items::name::MdbName;
use mdb_items::parameter::Parameter;
use mdb_items::rows::{
    ContainerColumns, EntryPosition, NewContainer, ParameterRow, Reference, RowValues,
};
use mdb_rules::calibration_rows::Calibrations;
use mdb_rules::container_rows::Containers;
use mdb_rules::limits::calibrator_len;
use mdb_rules::parameter_rows::Parameters;
use octet_fields::DecodeError;
use std::alloc::{AllocError, Global};

/// What the columns of a calibrator's row say.
fn row_values_at(
    alloc: Global,
    calibrator: &Calibrator,
    place: usize,
) -> Result<RowValues, AllocError>
    requires { place < calibrator_len calibrator.now }
    ensures { IfOk result (λ row_values. slice_get (row_values_of calibrator.now) place ≡ Some row_values) }
{
    match calibrator {
        Calibrator::Poly(rows) => {
            let row = rows.as_slice()[place];
            Ok(RowValues::Coefficient(Some(row.exponent), Some(row.millionths)))
        }
        Calibrator::Points(rows) => {
            let row = rows.as_slice()[place];
            Ok(RowValues::Point(Some(row.x), Some(row.millionths)))
        }
        Calibrator::Enum(rows) => {
            let row = &rows.as_slice()[place];
            let label = MdbName::from_slice(alloc, row.label.as_bytes())?;
            Ok(RowValues::Label(Some(row.x), label))
        }
    }
}

/// Takes a row in, unless it breaks a rule.
fn recheck_row(
    alloc: Global,
    calibrations: &mut Calibrations,
    name: &[u8],
    row_values: RowValues,
    next: Option<&[u8]>,
) -> Result<(), DecodeError>
    requires { IsInStep calibrations.old }
    ensures { CalibrationRowRechecked calibrations.old calibrations.new (row_with name.now row_values)
        (option_copied next.entry) result }
{
    if calibrations.broken(4, name, &row_values, next).is_some() {
        return Err(DecodeError::Malformed);
    }
    calibrations.add(alloc, 4, name, row_values, next)?;
    Ok(())
}

/// The name after a row: its own where another row of its calibration comes.
fn name_after<'a>(more: bool, name: &'a [u8], next: Option<&'a [u8]>) -> Option<&'a [u8]>
    ensures another { more ≡ true → option_copied result ≡ Some name.now }
    ensures last { more ≡ false → option_copied result ≡ option_copied next.entry }
{
    if more { Some(name) } else { next }
}

/// Takes the rows of a calibration in, unless one breaks a rule; `next` is the name of the calibration after it.
fn recheck_rows(
    alloc: Global,
    calibrations: &mut Calibrations,
    given: &Calibration,
    next: Option<&[u8]>,
) -> Result<(), DecodeError>
    requires { IsInStep calibrations.old }
    ensures { CalibrationRechecked calibrations.old calibrations.new given.now (option_copied next.entry) result }
{
    let name = given.name.as_bytes();
    let count = calibrator_len(&given.calibrator);
    for place in 0..count {
        let row_values = row_values_at(alloc, &given.calibrator, place)?;
        let after = name_after(place + 1 < count, name, next);
        recheck_row(alloc, calibrations, name, row_values, after)?;
    }
    Ok(())
}

/// Each has a row.
pub(crate) fn have_rows(given: &[Calibration]) -> bool
    ensures { result ≡ list_all (λ c. nat_lt 0 (calibrator_len c.calibrator)) given.now }
{
    given.iter().all(|c| 0 < calibrator_len(&c.calibrator))
}

/// The calibration at a place, if there is one.
fn calibration_at(given: &[Calibration], place: usize) -> Option<&Calibration>
    ensures { option_copied result ≡ slice_get given.now place }
{
    given.get(place)
}

fn name_of(calibration: Option<&Calibration>) -> Option<&[u8]>
    ensures { option_copied result ≡ option_map (λ c. c.name) (option_copied calibration.entry) }
{
    match calibration {
        Some(calibration) => Some(calibration.name.as_bytes()),
        None => None,
    }
}

pub(crate) fn rechecked_calibrations(
    alloc: Global,
    given: &[Calibration],
) -> Result<Calibrations, DecodeError>
    requires { AllByRecursion HasRows given.now }
    ensures { CalibrationsRechecked given.now result }
{
    let mut calibrations = Calibrations::new(alloc);
    for (i, calibration) in given.iter().enumerate() {
        let next = name_of(calibration_at(given, i + 1));
        recheck_rows(alloc, &mut calibrations, calibration, next)?;
    }
    Ok(calibrations)
}

fn reference_to(number: Option<usize>) -> Reference
    ensures { result ≡ reference_to number }
{
    match number {
        None => Reference::Nothing,
        Some(number) => Reference::Known(number),
    }
}

fn row_of_parameter(alloc: Global, p: &Parameter) -> Result<ParameterRow, AllocError>
    ensures { IfOk result (λ row. row ≡ row_of_parameter p.now) }
{
    Ok(ParameterRow {
        fields: 4,
        name: MdbName::from_slice(alloc, p.name.as_bytes())?,
        coding: Some(p.coding),
        bits: Some(p.bits),
        calibration: reference_to(p.calibration),
    })
}

/// Takes a parameter in, unless it breaks a rule.
fn recheck_parameter(
    alloc: Global,
    calibrations: &[Calibration],
    parameters: &mut Parameters,
    p: &Parameter,
) -> Result<(), DecodeError>
    requires { parameters.old.names ≡ map (λ x. x.name) parameters.old.items.items }
    ensures { ParameterRechecked calibrations.now parameters.old parameters.new p.now result }
{
    let row = row_of_parameter(alloc, p)?;
    if parameters.broken(calibrations, &row).is_some() {
        return Err(DecodeError::Malformed);
    }
    parameters.add(alloc, row)?;
    Ok(())
}

pub(crate) fn rechecked_parameters(
    alloc: Global,
    calibrations: &[Calibration],
    given: &[Parameter],
) -> Result<Parameters, DecodeError>
    ensures { ParametersRechecked calibrations.now given.now result }
{
    let mut parameters = Parameters::new(alloc);
    for p in given {
        recheck_parameter(alloc, calibrations, &mut parameters, p)?;
    }
    Ok(parameters)
}

fn begun(alloc: Global, c: &Container) -> Result<NewContainer, AllocError>
    ensures { IfOk result (λ b. b ≡ record {
      name = c.now.name;
      parent = reference_to c.now.parent;
      condition = Some
          c.now.condition;
      archive = Some c.now.archive;
    }) }
{
    Ok(NewContainer {
        name: MdbName::from_slice(alloc, c.name.as_bytes())?,
        parent: reference_to(c.parent),
        condition: Some(Items::from_vec(Vec::from_slice(alloc, c.condition.as_slice())?)),
        archive: Some(c.archive),
    })
}

/// Begins a container, unless that breaks a rule.
fn recheck_begin(
    alloc: Global,
    parameters: &[Parameter],
    containers: &mut Containers,
    c: &Container,
) -> Result<(), DecodeError>
    requires { HasPaths parameters.now containers.old }
    ensures { RowsRechecked parameters.now containers.old containers.new (begin_row c.now ∷ []) result }
{
    let begun = begun(alloc, c)?;
    if containers
        .take_columns(alloc, 6, ContainerColumns::Begins(begun))?
        .is_some()
    {
        return Err(DecodeError::Malformed);
    }
    Ok(())
}

/// Adds an entry to the last container, unless that breaks a rule.
fn recheck_entry(
    parameters: &[Parameter],
    containers: &mut Containers,
    e: &ParameterEntry,
) -> Result<(), DecodeError>
    requires path { HasPaths parameters.now containers.old }
    requires begun { 0 < length containers.old.items.items }
    ensures { RowsRechecked parameters.now containers.old containers.new (entry_row e.now ∷ []) result }
{
    let position = EntryPosition::At(u64::from(e.at));
    if containers
        .take_entry(parameters, true, Reference::Known(e.parameter), position)?
        .is_some()
    {
        return Err(DecodeError::Malformed);
    }
    Ok(())
}

fn recheck_entries(
    parameters: &[Parameter],
    containers: &mut Containers,
    entries: &[ParameterEntry],
) -> Result<(), DecodeError>
    requires path { HasPaths parameters.now containers.old }
    requires begun { 0 < length containers.old.items.items }
    ensures { RowsRechecked parameters.now containers.old containers.new (flat_map (λ e.
        entry_row e ∷ []) entries.now) result }
{
    for e in entries {
        recheck_entry(parameters, containers, e)?;
    }
    Ok(())
}

fn recheck_container(
    alloc: Global,
    parameters: &[Parameter],
    containers: &mut Containers,
    c: &Container,
) -> Result<(), DecodeError>
    requires { HasPaths parameters.now containers.old }
    ensures { RowsRechecked parameters.now containers.old containers.new (rows_of_container c.now) result }
{
    recheck_begin(alloc, parameters, containers, c)?;
    recheck_entries(parameters, containers, c.entries.as_slice())
}

pub(crate) fn rechecked_containers(
    alloc: Global,
    parameters: &[Parameter],
    given: &[Container],
) -> Result<Containers, DecodeError>
    ensures { ContainersRechecked parameters.now given.now result }
{
    let mut containers = Containers::new(alloc);
    for c in given {
        recheck_container(alloc, parameters, &mut containers, c)?;
    }
    Ok(containers)
}
