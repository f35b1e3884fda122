//! The calibration of a parameter.

ghost use Rattle.std.specs.Prelude.{◌≡◌, ◌<◌, length, option_copied};
ghost use Rattle.mdb_lookups.specs.Lookups.{calibration_of};
ghost use Rattle.retrieval.specs.CellText.{HasShortLabels};

use mdb_model::{Calibration, Mdb};

/// The calibration of a parameter. Its labels are short enough for a line, by the rules of the sheets.
pub fn calibration_of(mdb: &Mdb, number: u16) -> Option<&Calibration>
    requires { number < length mdb.now.parameters }
    ensures value { option_copied result ≡ calibration_of mdb.now number }
    ensures short { HasShortLabels (option_copied result) }
{
    mdb.is_sound();
    mdb.calibration_of(number)
}
