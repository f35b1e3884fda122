//! The three sheets of a mission database.

ghost use Rattle.std.specs.Prelude.{◌≡◌, ◌+◌, ◌<◌, ◌≤◌, ◌^◌, IfOk, IfErr, OnOk};
ghost use Rattle.std.specs.Result.{result_err};
ghost use Rattle.outer_traits.specs.Outside.{Stays};
ghost use Rattle.command_plans.specs.Ledger.{given_more};
ghost use Rattle.command_plans.specs.Inputs.{AnsweredByPlan};
ghost use Rattle.mdb_sheets.specs.Plans.{sheets_plan};
ghost use Rattle.mdb_sheets.specs.Sheets.{AreSheets, IsRefusal, ReadsCounted};

use crate::sheet::read_sheet;
use mdb_model::RawMdb;
use outer_traits::inputs::Inputs;
use refusals::Refusal;
use std::alloc::Global;

/// The records of the three named sheets, which are read in this order. Of the first that isn't read it answers `Missing` where no input has
/// the name, `ReadFault` where a call failed, and `Limit` of `SheetOctets` where it is longer than 4,194,304 octets, whichever its reads meet
/// first. Each sheet is opened once, and each source is closed: how many were given tells which sheet wasn't read. The count of faults rises
/// exactly where the answer is `ReadFault`: no call that failed is passed over.
pub fn read_mdb<I: Inputs>(
    alloc: Global,
    inputs: &mut I,
    parameters: &str,
    calibrations: &str,
    containers: &str,
) -> Result<RawMdb, Refusal>
    // It took a way through its plan, and used the inputs as far as that went.
    ensures read { AnsweredByPlan 3 (sheets_plan (I.state inputs.old).files parameters.now calibrations.now
        containers.now) result (I.state inputs.old) (I.state inputs.new) }

    ensures sheets { IfOk result (AreSheets (I.state inputs.old).files parameters.now calibrations.now containers.now) }
    ensures refused { IfErr result (IsRefusal (I.state inputs.old) (I.state inputs.new) parameters.now
        calibrations.now containers.now) }
    ensures gave { OnOk result ((I.state inputs.new).given ≡ given_more 3 (I.state inputs.old).given) }
    ensures same { (I.state inputs.new).files ≡ (I.state inputs.old).files }
    ensures closed { (I.state inputs.old).open_sources + 1 < 2 ^ 64 →
        (I.state inputs.new).open_sources ≡ (I.state inputs.old).open_sources }
    ensures counted { ReadsCounted (result_err result) (I.state inputs.old).faults (I.state inputs.new).faults }
    ensures later { (I.state inputs.old).faults ≤ (I.state inputs.new).faults }
    ensures reliable { (I.state inputs.old).never_fails → (I.state inputs.new).never_fails ×
        Stays (I.state inputs.old).faults (I.state inputs.new).faults }
{
    let parameter_sheet = read_sheet(alloc, inputs, parameters)?;
    let calibration_sheet = read_sheet(alloc, inputs, calibrations)?;
    let container_sheet = read_sheet(alloc, inputs, containers)?;
    Ok(RawMdb {
        parameters: parameter_sheet,
        calibrations: calibration_sheet,
        containers: container_sheet,
    })
}
