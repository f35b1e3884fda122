//! The calibrations sheet, row by row.

ghost use Rattle.std.specs.Prelude.{◌≡◌, ◌<◌, ◌==◌, ◌∷◌, ◌++◌, [], ◌&&◌, not, is_some, length, map, None, Some, option_copied, OnOk};
ghost use Rattle.std.specs.List.{list_any};
ghost use Rattle.mdb_items.specs.declared.calibration.Calibrator.{Calibrator as CalibratorValue};
ghost use Rattle.mdb_items.specs.CalibrationRows.{AreNew, calibration_checks, continued, empty_calibrator, enum_numbers, has_x, has_y, is_named, is_not_above, is_other_kind, is_point, is_unread, label_number, repeats, with_calibration_row, with_name, with_new_row, calibrator_with_row};
ghost use Rattle.mdb_items.specs.Checks.{first_broken};
ghost use Rattle.mdb_items.specs.Lists.{at_last};
ghost use Rattle.mdb_items.specs.Numbers.{is_decimal, is_in_range, is_whole_number};
ghost use Rattle.mdb_rules.specs.Steps.{IsInStep};
ghost use Rattle.mdb_items.specs.Texts.{place_of};

use crate::name_index::NameIndex;
use crate::numbers::Numbers;
use item_list::items::Items;
use mdb_items::calibration::{Calibration, Calibrator, EnumRow, PointsRow, PolyRow};
use mdb_items::name::MdbName;
use mdb_items::rows::RowValues;
use mdb_items::texts::is_label;
use std::alloc::{AllocError, Global};
use text_forms::is_name;

/// The number lies from -2^63 to 2^64 - 1.
pub fn is_in_range(number: i128) -> bool
    ensures { result ≡ is_in_range number }
{
    !(number < -9223372036854775808) && !(18446744073709551615 < number)
}

fn is_whole_number(number: Option<i128>) -> bool
    ensures { result ≡ is_whole_number number }
{
    match number {
        Some(number) => is_in_range(number),
        None => false,
    }
}

fn is_decimal(millionths: Option<i64>) -> bool
    ensures { result ≡ is_decimal millionths }
{
    match millionths {
        Some(millionths) => millionths.unsigned_abs() < 1_000_000_000_000_000_000,
        None => false,
    }
}

fn is_unread(row_values: &RowValues) -> bool
    ensures { result ≡ is_unread row_values.now }
{
    matches!(row_values, RowValues::Unread)
}

fn is_point(row_values: &RowValues) -> bool
    ensures { result ≡ is_point row_values.now }
{
    matches!(row_values, RowValues::Point(_, _))
}

fn has_x(row_values: &RowValues) -> bool
    ensures { result ≡ has_x row_values.now }
{
    match row_values {
        RowValues::Unread => false,
        RowValues::Coefficient(Some(exponent), _) => *exponent <= 3,
        RowValues::Coefficient(None, _) => false,
        RowValues::Point(x, _) => is_whole_number(*x),
        RowValues::Label(x, _) => is_whole_number(*x),
    }
}

fn has_y(row_values: &RowValues) -> bool
    ensures { result ≡ has_y row_values.now }
{
    match row_values {
        RowValues::Unread => false,
        RowValues::Coefficient(_, y) => is_decimal(*y),
        RowValues::Point(_, y) => is_decimal(*y),
        RowValues::Label(_, label) => is_label(label.as_bytes()),
    }
}

fn is_other_kind(calibrator: Option<&Calibrator>, row_values: &RowValues) -> bool
    ensures { result ≡ is_other_kind (option_copied calibrator.entry) row_values.now }
{
    match calibrator {
        None => false,
        Some(Calibrator::Poly(_)) => !matches!(row_values, RowValues::Coefficient(_, _)),
        Some(Calibrator::Points(_)) => !matches!(row_values, RowValues::Point(_, _)),
        Some(Calibrator::Enum(_)) => !matches!(row_values, RowValues::Label(_, _)),
    }
}

fn has_exponent(rows: &[PolyRow], exponent: u8) -> bool
    ensures { result ≡ list_any (λ r. r.exponent == exponent) rows.now }
{
    rows.iter().any(|r| r.exponent == exponent)
}

fn is_not_above(x: i128, point: Option<&PointsRow>) -> bool
    ensures { result ≡ is_not_above x (option_copied point.entry) }
{
    match point {
        None => false,
        Some(point) => !(point.x < x),
    }
}

/// The x repeats, or doesn't rise in points. `numbers` are those of an enum.
fn repeats(calibrator: Option<&Calibrator>, numbers: &Numbers, row_values: &RowValues) -> bool
    requires { (t : CalibratorValue) → option_copied calibrator ≡ Some t → numbers.now ≡ enum_numbers (Some t) }
    ensures { result ≡ repeats (option_copied calibrator.entry) row_values.now }
{
    match calibrator {
        None => false,
        Some(Calibrator::Poly(rows)) => match row_values {
            RowValues::Coefficient(Some(exponent), _) => has_exponent(rows.as_slice(), *exponent),
            _ => false,
        },
        Some(Calibrator::Points(rows)) => match row_values {
            RowValues::Point(Some(x), _) => is_not_above(*x, rows.as_slice().last()),
            _ => false,
        },
        Some(Calibrator::Enum(_)) => match row_values {
            RowValues::Label(Some(x), _) => numbers.contains(*x),
            _ => false,
        },
    }
}

fn is_named(name: &[u8], next: Option<&[u8]>) -> bool
    ensures { result ≡ is_named name.now (option_copied next.entry) }
{
    match next {
        None => false,
        Some(next) => next == name,
    }
}

/// A calibrator without rows, of the kind of values.
fn empty_calibrator(alloc: Global, row_values: &RowValues) -> Calibrator
    ensures { result ≡ empty_calibrator row_values.now }
{
    match row_values {
        RowValues::Unread => Calibrator::Poly(Items::new(alloc)),
        RowValues::Coefficient(_, _) => Calibrator::Poly(Items::new(alloc)),
        RowValues::Point(_, _) => Calibrator::Points(Items::new(alloc)),
        RowValues::Label(_, _) => Calibrator::Enum(Items::new(alloc)),
    }
}

/// Adds a row, where the values are of the calibrator's kind and whole.
fn push_row(calibrator: &mut Calibrator, row_values: RowValues) -> Result<(), AllocError>
    ensures { OnOk result (calibrator.new ≡ calibrator_with_row calibrator.old row_values) }
{
    match calibrator {
        Calibrator::Poly(rows) => {
            if let RowValues::Coefficient(Some(exponent), Some(millionths)) = row_values {
                rows.push(PolyRow {
                    exponent,
                    millionths,
                })?;
            }
        }
        Calibrator::Points(rows) => {
            if let RowValues::Point(Some(x), Some(millionths)) = row_values {
                rows.push(PointsRow { x, millionths })?;
            }
        }
        Calibrator::Enum(rows) => {
            if let RowValues::Label(Some(x), label) = row_values {
                rows.push(EnumRow { x, label })?;
            }
        }
    }
    Ok(())
}

/// Adds the raw number of an enum's row.
fn note_number(numbers: &mut Numbers, row_values: &RowValues) -> Result<(), AllocError>
    requires { AreNew numbers.old row_values.now }
    ensures { OnOk result (numbers.new ≡ numbers.old ++ label_number row_values.now) }
{
    match row_values {
        RowValues::Unread => Ok(()),
        RowValues::Coefficient(_, _) => Ok(()),
        RowValues::Point(_, _) => Ok(()),
        RowValues::Label(None, _) => Ok(()),
        RowValues::Label(Some(x), _) => numbers.add(*x),
    }
}

/// The calibrations of the rows so far, their names, and the raw numbers of the last one where it is an enum.
#[derive(Drop)]
pub struct Calibrations {
    pub names: NameIndex,
    pub numbers: Numbers,
    pub items: Vec<Calibration>,
}

impl Calibrations {
    pub fn new(alloc: Global) -> Calibrations
        ensures none { result.items.items ≡ [] }
        ensures step { IsInStep result }
    {
        Calibrations {
            names: NameIndex::new(alloc),
            numbers: Numbers::new(alloc),
            items: Vec::new(alloc),
        }
    }

    /// The calibrator of the last calibration, where it has the name.
    fn continued(&self, name: &[u8]) -> Option<&Calibrator>
        ensures { option_copied result ≡ continued self.now.items.items name.now }
    {
        match self.items.last() {
            Some(last) => {
                if last.name.as_bytes() == name {
                    Some(&last.calibrator)
                } else {
                    None
                }
            }
            None => None,
        }
    }

    /// The name is that of a calibration, but not of the last.
    fn began_before(&self, name: &[u8]) -> bool
        requires { IsInStep self.now }
        ensures { result ≡ (not (is_some (continued self.now.items.items name.now)) && is_some
            (place_of name.now (map (λ c. c.name) self.now.items.items))) }
    {
        match self.continued(name) {
            Some(_) => false,
            None => self.names.number(name).is_some(),
        }
    }

    /// The row is the only one of its points.
    fn is_alone(&self, name: &[u8], row_values: &RowValues, next: Option<&[u8]>) -> bool
        ensures { result ≡ (is_point row_values.now && not (is_some (continued self.now.items.items name.now)) && not
            (is_named name.now (option_copied next.entry))) }
    {
        if !is_point(row_values) {
            return false;
        }
        match self.continued(name) {
            Some(_) => false,
            None => !is_named(name, next),
        }
    }

    /// The first rule that a row breaks, below these rows and before a record whose first field is `next`.
    pub fn broken(
        &self,
        fields: usize,
        name: &[u8],
        row_values: &RowValues,
        next: Option<&[u8]>,
    ) -> Option<u8>
        requires step { IsInStep self.now }
        ensures { result ≡ first_broken (calibration_checks self.now.items.items
            (record { fields = fields; name = name.now; row_values = row_values.now }) (option_copied next.entry)) }
    {
        if fields != 4 {
            return Some(2);
        }
        if !is_name(name) {
            return Some(3);
        }
        if self.began_before(name) {
            return Some(5);
        }
        if is_unread(row_values) {
            return Some(4);
        }
        let calibrator = self.continued(name);
        if is_other_kind(calibrator, row_values) {
            return Some(6);
        }
        if !has_x(row_values) {
            return Some(7);
        }
        if repeats(calibrator, &self.numbers, row_values) {
            return Some(8);
        }
        if !has_y(row_values) {
            return Some(9);
        }
        if self.is_alone(name, row_values, next) {
            return Some(10);
        }
        None
    }

    /// Begins a calibration without rows. After want of memory nothing is known of the calibrations.
    fn begin(
        &mut self,
        alloc: Global,
        name: &[u8],
        row_values: &RowValues,
    ) -> Result<(), AllocError>
        requires fresh { place_of name.now self.old.names ≡ None }
        ensures items { OnOk result (self.new.items.items ≡ self.old.items.items ++
            (record { name = name.now; calibrator = empty_calibrator row_values.now }) ∷ []) }
        ensures names { OnOk result (self.new.names ≡ self.old.names ++ name.now ∷ []) }
        ensures numbers { OnOk result (self.new.numbers ≡ []) }
    {
        self.names.add(Vec::from_slice(alloc, name)?)?;
        self.items.push(Calibration {
            name: MdbName::from_slice(alloc, name)?,
            calibrator: empty_calibrator(alloc, row_values),
        })?;
        // to empty them would cost as much as the longest enumeration so far (D-68)
        self.numbers = Numbers::new(alloc);
        Ok(())
    }

    /// Begins a calibration, where the last one hasn't the name. After want of memory nothing is known of the
    /// calibrations.
    fn open(&mut self, alloc: Global, name: &[u8], row_values: &RowValues) -> Result<(), AllocError>
        requires step { IsInStep self.old }
        requires fresh { continued self.old.items.items name.now ≡ None → place_of name.now self.old.names ≡ None }
        ensures items { OnOk result (self.new.items.items ≡ with_name self.old.items.items name.now row_values.now) }
        ensures names { OnOk result (self.new.names ≡ map (λ x. x.name) self.new.items.items) }
        ensures numbers { OnOk result (self.new.numbers ≡ enum_numbers (continued self.old.items.items name.now)) }
    {
        if self.continued(name).is_some() {
            return Ok(());
        }
        self.begin(alloc, name, row_values)
    }

    /// Adds a row to the last calibration. After want of memory nothing is known of the calibrations.
    fn push(&mut self, row_values: RowValues) -> Result<(), AllocError>
        requires begun { 0 < length self.old.items.items }
        requires fresh { AreNew self.old.numbers row_values }
        ensures items { OnOk result (self.new.items.items ≡ at_last (with_new_row row_values) self.old.items.items) }
        ensures names { OnOk result (self.new.names ≡ self.old.names) }
        ensures numbers { OnOk result (self.new.numbers ≡ self.old.numbers ++ label_number row_values) }
    {
        note_number(&mut self.numbers, &row_values)?;
        let last = self.items.len() - 1;
        let calibration = &mut self.items[last];
        push_row(&mut calibration.calibrator, row_values)
    }

    /// Adds a row that breaks no rule. After want of memory nothing is known of the calibrations.
    pub fn add(
        &mut self,
        alloc: Global,
        fields: usize,
        name: &[u8],
        row_values: RowValues,
        next: Option<&[u8]>,
    ) -> Result<(), AllocError>
        requires step { IsInStep self.old }
        requires sound { first_broken (calibration_checks self.old.items.items
            (record { fields = fields; name = name.now; row_values = row_values }) (option_copied next)) ≡ None }
        ensures added { OnOk result (self.new.items.items ≡ with_calibration_row self.old.items.items
            (record { fields = fields; name = name.now; row_values = row_values })) }
        ensures step { OnOk result (IsInStep self.new) }
    {
        self.open(alloc, name, &row_values)?;
        self.push(row_values)
    }
}
