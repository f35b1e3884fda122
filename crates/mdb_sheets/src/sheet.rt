//! One sheet.

ghost use Rattle.std.specs.Prelude.{◌≡◌, ◌+◌, ◌<◌, ◌≤◌, ◌^◌, IfOk, IfErr, OnOk};
ghost use Rattle.std.specs.Result.{result_err};
ghost use Rattle.outer_traits.specs.Outside.{Stays, one_more};
ghost use Rattle.command_plans.specs.Inputs.{AnsweredByPlan};
ghost use Rattle.mdb_sheets.specs.Plans.{sheet_plan};
ghost use Rattle.mdb_sheets.specs.Sheets.{IsSheet, IsSheetRefused, ReadsCounted};

use crate::records::records;
use command_plans::read::refusal_of;
use mdb_model::Sheet;
use outer_traits::inputs::Inputs;
use outer_traits::whole::read_input;
use refusals::{Refusal, Which};
use std::alloc::Global;

/// The records of the named sheet. It is opened once, and its source is closed whatever comes. The count of faults rises exactly where the
/// answer is `ReadFault`.
pub(crate) fn read_sheet<I: Inputs>(
    alloc: Global,
    inputs: &mut I,
    name: &str,
) -> Result<Sheet, Refusal>
    // It took a way through its plan, and used the inputs as far as that went.
    ensures read { AnsweredByPlan 1 (sheet_plan (I.state inputs.old).files name.now) result (I.state inputs.old)
        (I.state inputs.new) }

    ensures sheet { IfOk result (IsSheet (I.state inputs.old).files name.now) }
    ensures refused { IfErr result (IsSheetRefused (I.state inputs.old).files name.now (I.state inputs.old).faults
        (I.state inputs.new).faults (I.state inputs.old).given (I.state inputs.new).given) }
    ensures gave { OnOk result ((I.state inputs.new).given ≡ one_more (I.state inputs.old).given) }
    ensures same { (I.state inputs.new).files ≡ (I.state inputs.old).files }
    ensures closed { (I.state inputs.old).open_sources + 1 < 2 ^ 64 →
        (I.state inputs.new).open_sources ≡ (I.state inputs.old).open_sources }
    ensures counted { ReadsCounted (result_err result) (I.state inputs.old).faults (I.state inputs.new).faults }
    ensures later { (I.state inputs.old).faults ≤ (I.state inputs.new).faults }
    ensures reliable { (I.state inputs.old).never_fails → (I.state inputs.new).never_fails ×
        Stays (I.state inputs.old).faults (I.state inputs.new).faults }
{
    match read_input(alloc, inputs, name, Which::SheetOctets.limit() as usize) {
        Ok(octets) => match records(alloc, octets.as_slice()) {
            Ok(sheet) => Ok(sheet),
            Err(_) => Err(Refusal::OutOfMemory),
        },
        Err(fault) => Err(refusal_of(alloc, fault, name, Which::SheetOctets)),
    }
}
