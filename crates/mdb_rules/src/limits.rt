//! The limits on a mission database's counts.

ghost use Rattle.std.specs.Prelude.{◌≡◌, nat_lt, sum_by};
ghost use Rattle.mdb_items.specs.Database.{entry_count, limit_passed, row_count, calibrator_len};

use mdb_items::calibration::{Calibration, Calibrator};
use mdb_items::container::Container;
use mdb_items::fault::MdbLimit;
use mdb_items::parameter::Parameter;

pub fn calibrator_len(calibrator: &Calibrator) -> usize
    ensures { result ≡ calibrator_len calibrator.now }
{
    match calibrator {
        Calibrator::Poly(rows) => rows.len(),
        Calibrator::Points(rows) => rows.len(),
        Calibrator::Enum(rows) => rows.len(),
    }
}

/// The calibrations have more rows than so many.
fn rows_pass(calibrations: &[Calibration], most: usize) -> bool
    ensures { result ≡ nat_lt most (sum_by row_count calibrations.now) }
{
    let mut left = most;
    for calibration in calibrations {
        let count = calibrator_len(&calibration.calibrator);
        if left < count {
            return true;
        }
        left -= count;
    }
    false
}

/// The containers have more entries than so many.
fn entries_pass(containers: &[Container], most: usize) -> bool
    ensures { result ≡ nat_lt most (sum_by entry_count containers.now) }
{
    let mut left = most;
    for container in containers {
        let count = container.entries.len();
        if left < count {
            return true;
        }
        left -= count;
    }
    false
}

/// The first limit that is passed, in their order, and its number.
pub fn limit_passed(
    parameters: &[Parameter],
    calibrations: &[Calibration],
    containers: &[Container],
) -> Option<(MdbLimit, usize)>
    ensures { result ≡ limit_passed (record {
      parameters = parameters.now;
      calibrations = calibrations.now;
      containers
          = containers.now;
    }) }
{
    if calibrations.len() > 4096 {
        return Some((MdbLimit::Calibrations, 4096));
    }
    if rows_pass(calibrations, 65_536) {
        return Some((MdbLimit::CalibrationRows, 65_536));
    }
    if parameters.len() > 4096 {
        return Some((MdbLimit::Parameters, 4096));
    }
    if containers.len() > 4096 {
        return Some((MdbLimit::Containers, 4096));
    }
    if entries_pass(containers, 65_536) {
        return Some((MdbLimit::Entries, 65_536));
    }
    None
}
