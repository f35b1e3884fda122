//! Polynomials.

ghost use Rattle.std.specs.Prelude.{◌≡◌};
ghost use Rattle.calibration.specs.Calibrated.{polynomial, term};
ghost use Rattle.calibration.specs.Carried.{AreCarried, IsCarried};

use mdb_model::PolyRow;

/// A coefficient times its power of the raw number, in millionths.
fn term(raw: i128, row: PolyRow) -> i128
    requires { IsCarried raw row }
    ensures { result ≡ term raw row }
{
    row.millionths as i128 * raw.pow(row.exponent as u32)
}

/// The polynomial's value at a raw number, in millionths.
pub(crate) fn polynomial(rows: &[PolyRow], raw: i128) -> i64
    requires { AreCarried raw rows.now }
    ensures { result ≡ polynomial rows.now raw }
{
    let mut sum: i128 = 0;
    for row in rows {
        sum += term(raw, *row);
    }
    sum as i64
}
