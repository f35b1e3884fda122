//! The engineering values of raw ones.

ghost use Rattle.std.specs.Prelude.{◌≡◌, map, IfOk};
ghost use Rattle.std.specs.List.{All};
ghost use Rattle.container_extract.specs.Values.{IsRawValue, calibrated_value, eng_of};

use crate::values::{ParameterValue, RawValue, Values};
use arch_types::cell::Eng;
use calibration::calibrate_parameter;
use mdb_model::Mdb;
use std::alloc::{AllocError, Global};

/// The engineering value of a raw value of the database.
pub fn eng_of(mdb: &Mdb, value: RawValue) -> Eng
    requires { IsRawValue mdb.now value }
    ensures { result ≡ eng_of mdb.now value }
{
    mdb.is_sound();
    calibrate_parameter(mdb, value.parameter, value.raw)
}

/// A raw value of the database with its engineering value.
fn calibrated_value(mdb: &Mdb, value: RawValue) -> ParameterValue
    requires { IsRawValue mdb.now value }
    ensures { result ≡ calibrated_value mdb.now value }
{
    ParameterValue {
        parameter: value.parameter,
        raw: value.raw,
        eng: eng_of(mdb, value),
    }
}

/// Raw values of the database, each with its engineering value.
pub(crate) fn calibrated_values(
    alloc: Global,
    mdb: &Mdb,
    raw: &[RawValue],
) -> Result<Values, AllocError>
    requires { All (IsRawValue mdb.now) raw.now }
    ensures { IfOk result (λ values. values ≡ map (calibrated_value mdb.now) raw.now) }
{
    let mut values = Vec::with_capacity(alloc, raw.len())?;
    for value in raw {
        values.push(calibrated_value(mdb, *value))?;
    }
    Ok(Values::from_vec(values))
}
