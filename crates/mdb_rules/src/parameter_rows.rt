//! The parameters sheet, row by row.

ghost use Rattle.std.specs.Prelude.{◌≡◌, ◌≤◌, ◌*◌, ◌∷◌, ◌++◌, [], length, map, max, min, fold, sum_by, nat_lt, unwrap_or, None, Some, option_copied, OnOk};
ghost use Rattle.mdb_items.specs.Checks.{first_broken};
ghost use Rattle.mdb_items.specs.Texts.{place_of};
ghost use Rattle.mdb_items.specs.ParameterRows.{admits, degree, fits_coding, is_le, is_reference, referenced_number, parameter_checks, parameter_of, reach, referenced_calibrator};

use crate::name_index::NameIndex;
use mdb_items::calibration::{Calibration, Calibrator, PolyRow};
use mdb_items::parameter::{Coding, Parameter};
use mdb_items::rows::{ParameterRow, Reference};
use std::alloc::{AllocError, Global};
use text_forms::is_name;

fn is_le(coding: Coding) -> bool
    ensures { result ≡ is_le coding }
{
    matches!(coding, Coding::UintLe | Coding::IntLe)
}

fn fits_coding(coding: Option<Coding>, bits: Option<u8>) -> bool
    ensures { result ≡ fits_coding coding bits }
{
    let Some(coding) = coding else {
        return false;
    };
    let Some(bits) = bits else {
        return false;
    };
    1 <= bits && bits <= 64 && (!is_le(coding) || bits % 8 == 0)
}

/// The text names no item, or one of so many.
pub fn is_reference(count: usize, reference: Reference) -> bool
    ensures { result ≡ is_reference count reference }
{
    match reference {
        Reference::Nothing => true,
        Reference::Unknown => false,
        Reference::Known(number) => number < count,
    }
}

pub fn number_of(reference: Reference) -> Option<usize>
    ensures { result ≡ referenced_number reference }
{
    match reference {
        Reference::Nothing => None,
        Reference::Unknown => None,
        Reference::Known(number) => Some(number),
    }
}

fn calibrator_at(calibrations: &[Calibration], reference: Reference) -> Option<&Calibrator>
    ensures { option_copied result ≡ referenced_calibrator calibrations.now reference }
{
    match reference {
        Reference::Nothing => None,
        Reference::Unknown => None,
        Reference::Known(number) => match calibrations.get(number) {
            Some(calibration) => Some(&calibration.calibrator),
            None => None,
        },
    }
}

/// The greatest exponent.
fn degree(rows: &[PolyRow]) -> u8
    ensures { result ≡ degree rows.now }
{
    let mut degree = 0;
    for row in rows {
        degree = degree.max(row.exponent);
    }
    degree
}

/// How far a coefficient may carry a number of so many bits, in millionths.
fn reach(bits: u8, row: PolyRow) -> u128
    requires { bits * row.exponent ≤ 60 }
    ensures { result ≡ reach bits row }
{
    let power = 2u128.pow(bits as u32 * row.exponent as u32);
    row.millionths.unsigned_abs() as u128 * power
}

/// How far the coefficients may carry it together, at most the greatest number.
fn reach_of_all(bits: u8, rows: &[PolyRow]) -> u128
    requires { bits * degree rows.now ≤ 60 }
    ensures { result ≡ min (sum_by (reach bits) rows.now) 340282366920938463463374607431768211455 }
{
    let mut sum: u128 = 0;
    for row in rows {
        sum = sum.saturating_add(reach(bits, *row));
    }
    sum
}

/// The calibration may be that of a parameter of so many bits.
fn admits(bits: u8, calibrator: Option<&Calibrator>) -> bool
    ensures { result ≡ admits bits (option_copied calibrator.entry) }
{
    match calibrator {
        None => true,
        Some(Calibrator::Poly(rows)) => {
            let rows = rows.as_slice();
            bits as u32 * degree(rows) as u32 <= 60
                && reach_of_all(bits, rows) < 9223372036854775808
        }
        Some(Calibrator::Points(_)) => true,
        Some(Calibrator::Enum(_)) => true,
    }
}

/// The parameters of the rows so far, and their names.
#[derive(Drop)]
pub struct Parameters {
    pub names: NameIndex,
    pub items: Vec<Parameter>,
}

impl Parameters {
    pub fn new(alloc: Global) -> Parameters
        ensures none { result.items.items ≡ [] }
        ensures names { result.names ≡ [] }
    {
        Parameters {
            names: NameIndex::new(alloc),
            items: Vec::new(alloc),
        }
    }

    /// The first rule that a row breaks, below these rows.
    pub fn broken(&self, calibrations: &[Calibration], row: &ParameterRow) -> Option<u8>
        requires { self.now.names ≡ map (λ p. p.name) self.now.items.items }
        ensures { result ≡ first_broken (parameter_checks calibrations.now self.now.items.items row.now) }
    {
        if row.fields != 4 {
            return Some(2);
        }
        let name = row.name.as_bytes();
        if !is_name(name) {
            return Some(3);
        }
        if self.names.number(name).is_some() {
            return Some(5);
        }
        if row.coding.is_none() {
            return Some(11);
        }
        if !fits_coding(row.coding, row.bits) {
            return Some(12);
        }
        if !is_reference(calibrations.len(), row.calibration) {
            return Some(13);
        }
        if !admits(
            row.bits.unwrap_or(0),
            calibrator_at(calibrations, row.calibration),
        ) {
            return Some(14);
        }
        None
    }

    /// Adds a row that breaks no rule. After want of memory nothing is known of the parameters.
    pub fn add(&mut self, alloc: Global, row: ParameterRow) -> Result<(), AllocError>
        requires names { self.old.names ≡ map (λ p. p.name) self.old.items.items }
        requires fresh { place_of row.name self.old.names ≡ None }
        ensures added { OnOk result (self.new.items.items ≡ self.old.items.items ++ parameter_of row ∷ []) }
        ensures names { OnOk result (self.new.names ≡ map (λ p. p.name) self.new.items.items) }
    {
        self.names
            .add(Vec::from_slice(alloc, row.name.as_bytes())?)?;
        self.items.push(Parameter {
            name: row.name,
            coding: row.coding.unwrap_or(Coding::Uint),
            bits: row.bits.unwrap_or(0),
            calibration: number_of(row.calibration),
        })?;
        Ok(())
    }
}
