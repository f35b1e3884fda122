//! The answer over the parts of a plan.

ghost use Rattle.std.specs.Prelude.{◌≡◌, ◌+◌, ◌≤◌, IfOk, List, filter, length};
ghost use Rattle.std.specs.Arc.{arc_value};
ghost use Rattle.std.specs.List.{AllByRecursion};
ghost use Rattle.arch_types.specs.declared.row.Row.{Row};
ghost use Rattle.arch_types.specs.Table.{is_in_time_range};
ghost use Rattle.param_segments.specs.Plans.{ArePartsOver, HasValuesOf, rows_of_parts};
ghost use Rattle.part_answers.specs.PartCells.{answer_over_parts, answer_over_rows};

use crate::part_cells::cells_over_parts;
use arch_types::steps::Steps;
use asks::{Answer, Request};
use param_segments::Plan;
use std::alloc::{AllocError, Global};
use std::sync::ledger::Ledger;

/// The answer over the parts of a plan, whose sets have values of its database, to a request for the parameter with a
/// number. A set's cells are read from its columns and take no step, and a row outside the range takes none; neither a
/// set nor a row behind the limit is read.
pub fn answer<L: Ledger>(
    alloc: Global,
    plan: Plan,
    number: u16,
    request: &Request,
    steps: &mut Steps<L>,
) -> Result<Answer, AllocError>
    requires values { AllByRecursion (HasValuesOf (arc_value plan.mdb)) plan.parts }
    ensures front { IfOk result (λ answer. answer.front ≡ plan.front) }
    ensures cells { IfOk result (λ answer. answer.cells ≡
        answer_over_parts (arc_value plan.mdb) number request.now plan.parts) }

    // So it is the answer over any rows that the parts are over.
    ensures over { (rows : List Row) → ArePartsOver (arc_value plan.mdb) plan.parts rows → IfOk result (λ answer.
        answer.cells ≡ answer_over_rows (arc_value plan.mdb) number request.now rows) }
    ensures steps { steps.new ≤ steps.old + length (filter
        (is_in_time_range request.now.from request.now.to) (rows_of_parts plan.parts)) }
{
    let cells = cells_over_parts(
        alloc,
        &plan.mdb,
        number,
        request,
        plan.parts.as_slice(),
        steps,
    )?;
    Ok(Answer {
        front: plan.front,
        cells,
    })
}
