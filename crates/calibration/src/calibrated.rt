//! Calibrated values.

ghost use Rattle.std.specs.Prelude.{◌≡◌, ◌<◌, ◌^◌, ℕ, Some, length, option_copied};
ghost use Rattle.std.specs.List.{position};
ghost use Rattle.std.specs.Ordering.{int_eq};
ghost use Rattle.calibration.specs.Admitted.{IsAdmitted};
ghost use Rattle.calibration.specs.Calibrated.{calibrated, is_enumeration, label_at};
ghost use Rattle.mdb_lookups.specs.Lookups.{calibration_of};

use crate::points::on_points;
use crate::polynomial::polynomial;
use arch_types::cell::Eng;
use mdb_model::{Calibration, Calibrator, EnumRow, Mdb};

/// The row of a raw number, counted from 0.
fn row_of(rows: &[EnumRow], raw: i128) -> Option<usize>
    ensures { result ≡ position (λ row. int_eq row.x raw) rows.now }
{
    rows.iter().position(|row| row.x == raw)
}

/// The label of a row, where there is one.
fn label(row: Option<usize>) -> Eng
    requires { (n : ℕ) → row ≡ Some n → n < 2 ^ 16 }
    ensures { result ≡ label_at row }
{
    match row {
        None => Eng::Undef,
        Some(row) => Eng::Label(row as u16),
    }
}

/// The engineering value of a raw number: in millionths for polynomials and points, a row number for enumerations, and without a
/// calibration the raw number itself. The raw number is one of a parameter for which the rules of the sheets admit the calibration.
pub fn calibrate(calibration: Option<&Calibration>, raw: i128) -> Eng
    requires { IsAdmitted (option_copied calibration) raw }
    ensures { result ≡ calibrated (option_copied calibration.entry) raw }
{
    let Some(calibration) = calibration else {
        return Eng::Whole;
    };
    match &calibration.calibrator {
        Calibrator::Poly(rows) => Eng::Fixed(polynomial(rows.as_slice(), raw)),
        Calibrator::Points(points) => Eng::Fixed(on_points(points.as_slice(), raw)),
        Calibrator::Enum(rows) => label(row_of(rows.as_slice(), raw)),
    }
}

/// The calibration is an enumeration.
fn is_enumeration(calibration: Option<&Calibration>) -> bool
    ensures { result ≡ is_enumeration (option_copied calibration.entry) }
{
    match calibration {
        None => false,
        Some(calibration) => matches!(&calibration.calibrator, Calibrator::Enum(_)),
    }
}

/// The engineering value of a raw number of the parameter with a number, as `calibrate` gives it by the parameter's calibration.
/// The database finds a label without a look at the others.
pub fn calibrate_parameter(mdb: &Mdb, parameter: u16, raw: i128) -> Eng
    requires known { parameter < length mdb.now.parameters }
    requires admitted { IsAdmitted (calibration_of mdb.now parameter) raw }
    ensures { result ≡ calibrated (calibration_of mdb.now parameter) raw }
{
    let calibration = mdb.calibration_of(parameter);
    if is_enumeration(calibration) {
        return label(mdb.label_row(parameter, raw));
    }
    calibrate(calibration, raw)
}
